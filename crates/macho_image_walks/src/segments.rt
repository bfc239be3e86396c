//! The numbers of a segment's command (`struct segment_command_64` of mach-o/loader.h), read field by field:
//!
//!     8   the name, 16 bytes        40  the file offset, 8      60  the protections at first, 4
//!     24  the address, 8            48  the bytes in the file   64  the number of sections, 4
//!     32  the bytes in memory       56  the most protections
ghost use Rattle.macho_bytes.specs.Layouts.{reading};
ghost use Rattle.macho_records.specs.Layouts.{segment_command};
ghost use Rattle.macho_image_walks.specs.Readings.{SaysSegment};

use crate::reads::{u32_from, u64_from};

/// The numbers of a segment's command.
#[derive(Clone, Copy)]
pub struct SegmentNumbers {
    /// The address of its first byte.
    pub address: u64,
    /// Its bytes in memory.
    pub size: u64,
    /// The file offset of its first byte.
    pub file_offset: u64,
    /// Its bytes in the file.
    pub file_size: u64,
    /// What it may ever be accessed for.
    pub most: u32,
    /// What it may be accessed for at first.
    pub first: u32,
}

/// The numbers of the segment's command at a place.
#[tactic(auto, unfolding(macho_bytes::specs::Layouts::reading))]
pub fn segment_at(bytes: &[u8], place: u64) -> SegmentNumbers
    ensures { SaysSegment result (reading segment_command bytes.now place) }
{
    SegmentNumbers {
        address: u64_from(bytes, place, 24),
        size: u64_from(bytes, place, 32),
        file_offset: u64_from(bytes, place, 40),
        file_size: u64_from(bytes, place, 48),
        most: u32_from(bytes, place, 56),
        first: u32_from(bytes, place, 60),
    }
}
