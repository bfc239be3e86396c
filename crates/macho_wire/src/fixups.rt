//! The fixed parts of the chained fixup table.
//!
//! The table begins with its header and the starts (`mach-o/fixup-chains.h`):
//!
//!     0   ChainedFixupsHeader        28 bytes
//!     28  the number of segments, and an offset of 4 bytes for each
//!     ..  ChainedStartsInSegment     22 bytes, then 2 bytes for each page
ghost use Rattle.std.specs.Prelude.{◌≡◌, ◌+◌, ◌≤◌, length};
ghost use Rattle.macho_bytes.specs.Texts.{put};
ghost use Rattle.macho_bytes.specs.Layouts.{read_of, size_of};
ghost use Rattle.macho_wire.specs.Layouts.{chained_fixups_header, chained_starts_in_segment};
ghost use Rattle.macho_bytes.specs.Spellings.{spelling, ReadsBack};
ghost use Rattle.macho_wire.specs.Spellings.{chained_fixups_header_rows, chained_starts_in_segment_rows};

use crate::rows::{little_at, put_littles};

/// `struct dyld_chained_fixups_header` of mach-o/fixup-chains.h: the head of the fixup table.
#[derive(Clone, Copy)]
pub struct ChainedFixupsHeader {
    /// 0.
    pub fixups_version: u32,
    /// The place of the starts, from this record.
    pub starts_offset: u32,
    /// The place of the imports.
    pub imports_offset: u32,
    /// The place of the names.
    pub symbols_offset: u32,
    /// How many imports there are.
    pub imports_count: u32,
    /// `DYLD_CHAINED_IMPORT` 1 or `DYLD_CHAINED_IMPORT_ADDEND` 2.
    pub imports_format: u32,
    /// 0: the names are not compressed.
    pub symbols_format: u32,
}

impl ChainedFixupsHeader {
    /// The bytes of the record.
    pub const SIZE: usize = 28;

    /// The record at a place of the bytes, None where it does not stand there whole.
    #[tactic(auto, unfolding(macho_bytes::specs::Layouts::reading))]
    pub fn read(bytes: &[u8], at: usize) -> Option<ChainedFixupsHeader>
        ensures { result ≡ read_of chained_fixups_header bytes.now at }
    {
        if bytes.len() < Self::SIZE || bytes.len() - Self::SIZE < at {
            return None;
        }
        Some(ChainedFixupsHeader {
            fixups_version: little_at(bytes, at, 0),
            starts_offset: little_at(bytes, at, 4),
            imports_offset: little_at(bytes, at, 8),
            symbols_offset: little_at(bytes, at, 12),
            imports_count: little_at(bytes, at, 16),
            imports_format: little_at(bytes, at, 20),
            symbols_format: little_at(bytes, at, 24),
        })
    }

    /// Writes the record at a place; the other bytes stay.
    #[tactic(auto, using(macho_bytes::proofs::Layouts::little_record))]
    pub fn write(&self, out: &mut [u8], at: usize)
        requires { at + size_of chained_fixups_header ≤ length out.old }
        ensures written { out.new ≡ put at (spelling chained_fixups_header_rows self.now) out.old }
        ensures back { ReadsBack chained_fixups_header_rows self.now }
    {
        let r = *self;
        put_littles(
            out,
            at,
            &[
                r.fixups_version,
                r.starts_offset,
                r.imports_offset,
                r.symbols_offset,
                r.imports_count,
                r.imports_format,
                r.symbols_format,
            ],
        );
    }
}

/// `struct dyld_chained_starts_in_segment` of mach-o/fixup-chains.h: the chains of a segment; a 16-bit start for each page follows.
#[derive(Clone, Copy)]
pub struct ChainedStartsInSegment {
    /// The bytes of this record with its page starts.
    pub size: u32,
    /// The bytes of a page, 0x4000.
    pub page_size: u16,
    /// `DYLD_CHAINED_PTR_64_OFFSET` is 6.
    pub pointer_format: u16,
    /// The address of the segment less that of `__TEXT`.
    pub segment_offset: u64,
    /// 0 on 64-bit platforms.
    pub max_valid_pointer: u32,
    /// How many page starts follow.
    pub page_count: u16,
}

impl ChainedStartsInSegment {
    /// The bytes of the record.
    pub const SIZE: usize = 22;

    /// The record at a place of the bytes, None where it does not stand there whole.
    #[tactic(auto, unfolding(macho_bytes::specs::Layouts::reading))]
    pub fn read(bytes: &[u8], at: usize) -> Option<ChainedStartsInSegment>
        ensures { result ≡ read_of chained_starts_in_segment bytes.now at }
    {
        if bytes.len() < Self::SIZE || bytes.len() - Self::SIZE < at {
            return None;
        }
        Some(ChainedStartsInSegment {
            size: little_at(bytes, at, 0),
            page_size: little_at(bytes, at, 4),
            pointer_format: little_at(bytes, at, 6),
            segment_offset: little_at(bytes, at, 8),
            max_valid_pointer: little_at(bytes, at, 16),
            page_count: little_at(bytes, at, 20),
        })
    }

    /// Writes the record at a place; the other bytes stay.
    #[tactic(auto, using(macho_bytes::proofs::Layouts::little_record))]
    pub fn write(&self, out: &mut [u8], at: usize)
        requires { at + size_of chained_starts_in_segment ≤ length out.old }
        ensures written { out.new ≡ put at (spelling chained_starts_in_segment_rows self.now) out.old }
        ensures back { ReadsBack chained_starts_in_segment_rows self.now }
    {
        let r = *self;
        put_littles(out, at, &[r.size]);
        put_littles(out, at + 4, &[r.page_size, r.pointer_format]);
        put_littles(out, at + 8, &[r.segment_offset]);
        put_littles(out, at + 16, &[r.max_valid_pointer]);
        put_littles(out, at + 20, &[r.page_count]);
    }
}
