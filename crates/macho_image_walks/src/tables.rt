//! The numbers of a chained fixup table: `dyld_chained_fixups_header` of mach-o/fixup-chains.h, the starts of each segment,
//! and the import entries.
ghost use Rattle.std.specs.Prelude.{◌≡◌, ◌≤◌, ◌<◌, ◌^◌};
ghost use Rattle.macho_bytes.specs.Numbers.{bits};
ghost use Rattle.macho_model.specs.Images.{starts_place, starts_count, starts_offset, segment_starts_place, segment_starts, page_start, import_entry_size, import_place, base_of};
ghost use Rattle.macho_image_walks.specs.Readings.{table_there, SaysTable};

use crate::reads::{u16_from, u32_from};
use crate::segments::segment_at;
use crate::walk::{Listed, nth};

/// The range of a fixup table and the numbers of its header.
#[derive(Clone, Copy)]
pub struct FixupTable {
    /// The file offset of its first byte.
    pub at: u64,
    /// Its bytes.
    pub size: u64,
    /// The version of the format.
    pub version: u32,
    /// The place of the starts, from the table's.
    pub starts: u32,
    /// The place of the imports.
    pub imports: u32,
    /// The place of the names.
    pub symbols: u32,
    /// How many imports there are.
    pub imports_count: u32,
    /// The format of the imports.
    pub imports_format: u32,
    /// The format of the names.
    pub symbols_format: u32,
}

/// The fixup table of the command at a place.
#[tactic(auto, unfolding(macho_bytes::specs::Layouts::reading))]
pub fn table_at(bytes: &[u8], place: u64) -> FixupTable
    ensures { SaysTable bytes.now (table_there bytes.now place) result }
{
    let at = u32_from(bytes, place, 8) as u64;
    FixupTable {
        at,
        size: u32_from(bytes, place, 12) as u64,
        version: u32_from(bytes, at, 0),
        starts: u32_from(bytes, at, 4),
        imports: u32_from(bytes, at, 8),
        symbols: u32_from(bytes, at, 12),
        imports_count: u32_from(bytes, at, 16),
        imports_format: u32_from(bytes, at, 20),
        symbols_format: u32_from(bytes, at, 24),
    }
}

/// The address of the first byte of `__TEXT`, 0 where there is none.
pub fn base_address(bytes: &[u8]) -> u64
    ensures { result ≡ base_of bytes.now }
{
    match nth(bytes, Listed::Texts, 0) {
        Some(place) => segment_at(bytes, place).address,
        None => 0,
    }
}

/// The place of the starts.
fn place_of_starts(bytes: &[u8], place: u64) -> u64
    ensures value { result ≡ starts_place bytes.now (table_there bytes.now place) }
    ensures small { result < 2 ^ 33 }
{
    let table = table_at(bytes, place);
    table.at + table.starts as u64
}

/// The number of segments that the starts have an offset for.
pub fn count_of_starts(bytes: &[u8], place: u64) -> u32
    ensures { result ≡ starts_count bytes.now (table_there bytes.now place) }
{
    u32_from(bytes, place_of_starts(bytes, place), 0)
}

/// The offset of a segment's starts, 0 where it has none.
pub fn offset_of_starts(bytes: &[u8], place: u64, number: u32) -> u32
    ensures { result ≡ starts_offset bytes.now (table_there bytes.now place) number }
{
    u32_from(bytes, place_of_starts(bytes, place) + 4, 4 * number as u64)
}

/// The place of a segment's starts.
pub fn place_of_segment(bytes: &[u8], place: u64, number: u32) -> u64
    ensures value { result ≡ segment_starts_place bytes.now (table_there bytes.now place) number }
    ensures small { result < 2 ^ 34 }
{
    place_of_starts(bytes, place) + offset_of_starts(bytes, place, number) as u64
}

/// The number of pages that a segment's starts are of.
#[tactic(auto, unfolding(macho_bytes::specs::Layouts::reading))]
pub fn count_of_pages(bytes: &[u8], place: u64, number: u32) -> u16
    ensures { result ≡ (segment_starts bytes.now (table_there bytes.now place) number).page_count }
{
    u16_from(bytes, place_of_segment(bytes, place, number), 20)
}

/// The start of a page's chain, from the page's first byte.
pub fn start_of_page(bytes: &[u8], place: u64, number: u32, page: u16) -> u16
    ensures { result ≡ page_start bytes.now (table_there bytes.now place) number page }
{
    u16_from(
        bytes,
        place_of_segment(bytes, place, number) + 22,
        2 * page as u64,
    )
}

/// The bytes of an import entry of a format.
pub fn entry_size(format: u32) -> u64
    ensures value { result ≡ import_entry_size format }
    ensures small { result ≤ 8 }
{
    if format == 2 { 8 } else { 4 }
}

/// The place of an import entry.
pub fn place_of_import(bytes: &[u8], place: u64, number: u32) -> u64
    ensures { result ≡ import_place bytes.now (table_there bytes.now place) number }
{
    let table = table_at(bytes, place);
    table.at + table.imports as u64 + entry_size(table.imports_format) * number as u64
}

/// The number of the library of an import entry, from 1.
pub fn library_of(word: u32) -> u32
    ensures { result ≡ bits 0 8 word }
{
    word & 0xff
}

/// The place of an import's name among the names.
pub fn name_offset_of(word: u32) -> u32
    ensures { result ≡ bits 9 23 word }
{
    word >> 9
}
