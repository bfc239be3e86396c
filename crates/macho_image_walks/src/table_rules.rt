//! The tests that the loader makes of a chained fixup table: of its header, of the starts of each segment, and of the
//! import entries.
ghost use Rattle.std.specs.Prelude.{◌≡◌, nat_le, length};
ghost use Rattle.macho_model.specs.Images.{base_of, segments_of};
ghost use Rattle.macho_model.specs.LoadRules.{segment_address, starts_fit};
ghost use Rattle.macho_image_walks.specs.Tests.{starts_known, header_known, parts_inside};
ghost use Rattle.macho_image_walks.specs.Readings.{listed, table_there};

use crate::reads::{u16_from, u64_from};
use crate::tables::{
    count_of_pages, count_of_starts, entry_size, offset_of_starts, place_of_segment, table_at,
};
use crate::walk::{Listed, nth};
use macho_model::{POINTER_FORMAT, SEGMENT_PAGE};

/// Whether the starts of the segment at an address have the known page size and format, and this address.
#[tactic(auto, unfolding(macho_bytes::specs::Layouts::reading))]
fn starts_are_known(bytes: &[u8], place: u64, number: u32, base: u64, address: u64) -> bool
    requires from { base ≡ base_of bytes.now }
    requires of { address ≡ segment_address bytes.now number }
    ensures { result ≡ starts_known bytes.now (table_there bytes.now place) number }
{
    let starts = place_of_segment(bytes, place, number);
    u16_from(bytes, starts, 4) == SEGMENT_PAGE as u16
        && u16_from(bytes, starts, 6) == POINTER_FORMAT
        && u64_from(bytes, starts, 8).wrapping_add(base) == address
}

/// Whether the starts of the segment at an address are known ones, and stand inside the table; or it has none.
pub fn starts_are_right(bytes: &[u8], place: u64, number: u32, base: u64, address: u64) -> bool
    requires from { base ≡ base_of bytes.now }
    requires of { address ≡ segment_address bytes.now number }
    ensures { result ≡ starts_fit bytes.now (table_there bytes.now place) number }
{
    let table = table_at(bytes, place);
    let offset = offset_of_starts(bytes, place, number);
    let end = table.starts as u64 + offset as u64 + 22;
    offset == 0
        || (end + 2 * count_of_pages(bytes, place, number) as u64 <= table.size
            && starts_are_known(bytes, place, number, base, address))
}

/// Whether an image has at least so many commands of a list.
pub(crate) fn has_many(bytes: &[u8], list: Listed, count: u32) -> bool
    ensures { result ≡ nat_le count (length (listed list bytes.now)) }
{
    if count == 0 {
        return true;
    }
    match nth(bytes, list, count - 1) {
        Some(_place) => true,
        None => false,
    }
}

/// Whether an image has at least so many segments.
#[tactic(auto, using(crate::proofs::ListedLaws::count_of_segments))]
fn has_segments(bytes: &[u8], count: u32) -> bool
    ensures { result ≡ nat_le count (length (segments_of bytes.now)) }
{
    has_many(bytes, Listed::Segments, count)
}

/// Whether the header of a fixup table is a known one.
pub fn header_is_known(bytes: &[u8], place: u64) -> bool
    ensures { result ≡ header_known bytes.now (table_there bytes.now place) }
{
    let table = table_at(bytes, place);
    table.size >= 28
        && table.version == 0
        && (table.imports_format == 1 || table.imports_format == 2)
        && table.symbols_format == 0
}

/// Whether the parts of a fixup table stand inside it.
pub fn parts_are_inside(bytes: &[u8], place: u64) -> bool
    ensures { result ≡ parts_inside bytes.now (table_there bytes.now place) }
{
    let table = table_at(bytes, place);
    let count = count_of_starts(bytes, place);
    let has_segments = has_segments(bytes, count);
    let entry = entry_size(table.imports_format);
    table.starts as u64 + 4 + 4 * count as u64 <= table.size
        && has_segments
        && table.imports as u64 + entry * table.imports_count as u64 <= table.size
        && table.symbols as u64 <= table.size
}
