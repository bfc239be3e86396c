//! The load commands of a file, found one by one from the first on: plain and slow.
//!
//! Each begins where the one before it ends, whatever stands there; what is read behind the end of the file is 0.
ghost use Rattle.std.specs.Prelude.{◌≡◌, ◌≤◌, ℕ, length, Some, None};
ghost use Rattle.macho_bytes.specs.Layouts.{reading};
ghost use Rattle.macho_records.specs.Layouts.{segment_command};
ghost use Rattle.macho_model.specs.Images.{is_named};
ghost use Rattle.macho_model.specs.Commands.{command_at, header_of};
ghost use Rattle.macho_image_walks.specs.Readings.{is_listed, listed, IsNth};

use crate::reads::{range_from, u32_from};
use macho_records::{LC_DYLD_CHAINED_FIXUPS, LC_LOAD_DYLIB, LC_SEGMENT_64, name_bytes};

/// Which load commands of a file.
#[derive(Clone, Copy)]
pub enum Listed {
    /// Each.
    All,
    /// Those of segments.
    Segments,
    /// Those of segments that are mapped: all but `__PAGEZERO`.
    Mapped,
    /// Those of segments named `__TEXT`.
    Texts,
    /// Those of chained fixup tables.
    Tables,
    /// Those of libraries that the image needs.
    Libraries,
}

/// Whether the segment of a command has a name.
#[tactic(auto, unfolding(macho_bytes::specs::Layouts::reading), using(crate::proofs::ByteReads::range_behind))]
pub fn is_segment_named(bytes: &[u8], place: u64, name: &[u8]) -> bool
    ensures { result ≡ is_named name.now (reading segment_command bytes.now place) }
{
    if place > u64::MAX - 24 {
        return name == b"".as_slice();
    }
    name_bytes(range_from(bytes, place + 8, place + 24)) == name
}

/// Whether the command at a place is one of a list.
#[tactic(auto, unfolding(macho_bytes::specs::Layouts::reading))]
pub fn is_listed(bytes: &[u8], list: Listed, place: u64) -> bool
    ensures { result ≡ is_listed list bytes.now (command_at bytes.now place) }
{
    let number = u32_from(bytes, place, 0);
    match list {
        Listed::All => true,
        Listed::Segments => number == LC_SEGMENT_64,
        Listed::Mapped => {
            number == LC_SEGMENT_64 && !is_segment_named(bytes, place, b"__PAGEZERO".as_slice())
        }
        Listed::Texts => {
            number == LC_SEGMENT_64 && is_segment_named(bytes, place, b"__TEXT".as_slice())
        }
        Listed::Tables => number == LC_DYLD_CHAINED_FIXUPS,
        Listed::Libraries => number == LC_LOAD_DYLIB,
    }
}

/// How many load commands the header tells of.
#[tactic(auto, unfolding(macho_bytes::specs::Layouts::reading, macho_model::specs::Commands::header_of))]
pub fn count_of(bytes: &[u8]) -> u32
    ensures { result ≡ (header_of bytes.now).ncmds }
{
    u32_from(bytes, 0, 16)
}

/// The place of a command by its number in a list, from 0; None behind the last.
pub fn nth(bytes: &[u8], list: Listed, number: u32) -> Option<u64>
    ensures found { (place : ℕ) → result ≡ Some place → IsNth list bytes.now number place }
    ensures only { result ≡ None → length (listed list bytes.now) ≤ number }
{
    let mut left = number;
    let mut place = 32u64;
    for i in 0..count_of(bytes) {
        if is_listed(bytes, list, place) {
            if left == 0 {
                return Some(place);
            }
            left -= 1;
        }
        place += u32_from(bytes, place, 4) as u64;
    }
    None
}
