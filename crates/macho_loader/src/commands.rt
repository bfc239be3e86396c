//! The load commands of an image as lists: its segments, and the ranges of the tables of `__LINKEDIT`
//! (`struct linkedit_data_command` of mach-o/loader.h).
//!
//!     0   33 00 00 80   the number of the command, here that of an exports trie
//!     4   10 00 00 00   its size
//!     8   00 80 00 00   the file offset of the table
//!     12  30 00 00 00   the table's bytes
ghost use Rattle.std.specs.Prelude.{◌≡◌, ◌==◌, map, IfOk};
ghost use Rattle.macho_bytes.specs.Layouts.{reading};
ghost use Rattle.macho_model.specs.Commands.{command_at, numbered};
ghost use Rattle.macho_model.specs.Images.{segments_of};
ghost use Rattle.macho_model.specs.Loader.{IsAccepted};
ghost use Rattle.macho_loader.specs.Lists.{range_of};

use crate::cursor::{first, step_from};
use macho_image_walks::{Listed, u32_from};
use macho_records::SegmentCommand;
use std::alloc::{AllocError, Global};

/// A table of `__LINKEDIT`: a range of the file that a load command gives.
#[derive(Clone, Copy)]
pub struct LinkeditRange {
    /// The place of the command.
    pub command: u64,
    /// The file offset of the table's first byte.
    pub at: u32,
    /// The table's bytes.
    pub size: u32,
}

/// The segments of an image, in the order of their commands.
pub(crate) fn list_segments(alloc: Global, bytes: &[u8]) -> Result<Vec<SegmentCommand>, AllocError>
    requires { IsAccepted bytes.now }
    ensures { IfOk result (λ v. v.items ≡ segments_of bytes.now) }
{
    let mut segments = Vec::new(alloc);
    let mut at = first();
    while let Some(step) = step_from(bytes, Listed::Segments, at) {
        let Some(segment) = SegmentCommand::read(bytes, step.place as usize) else {
            unreachable!();
        };
        segments.push(segment)?;
        at = step.next;
    }
    Ok(segments)
}

/// The range that the command at a place gives.
#[tactic(auto, unfolding(macho_bytes::specs::Layouts::reading))]
fn range_at(bytes: &[u8], place: u64) -> LinkeditRange
    ensures { result ≡ range_of bytes.now (command_at bytes.now place) }
{
    LinkeditRange {
        command: place,
        at: u32_from(bytes, place, 8),
        size: u32_from(bytes, place, 12),
    }
}

/// Whether the command at a place has a number.
#[tactic(auto, unfolding(macho_bytes::specs::Layouts::reading))]
fn has_number(bytes: &[u8], place: u64, number: u32) -> bool
    ensures { result ≡ ((command_at bytes.now place).number == number) }
{
    u32_from(bytes, place, 0) == number
}

/// The ranges that the commands of a number give, in order.
pub(crate) fn list_ranges(
    alloc: Global,
    bytes: &[u8],
    number: u32,
) -> Result<Vec<LinkeditRange>, AllocError>
    ensures { IfOk result (λ v. v.items ≡ map (range_of bytes.now) (numbered number bytes.now)) }
{
    let mut ranges = Vec::new(alloc);
    let mut at = first();
    while let Some(step) = step_from(bytes, Listed::All, at) {
        if has_number(bytes, step.place, number) {
            ranges.push(range_at(bytes, step.place))?;
        }
        at = step.next;
    }
    Ok(ranges)
}
