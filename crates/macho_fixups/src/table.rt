//! The chained fixup table (`mach-o/fixup-chains.h`).
//!
//!     0    the header            28 bytes
//!     28   the starts            the number of segments, an offset from 28 for each, and what is told of those with fixups
//!     ..   the imports           an entry of 4 or 8 bytes for each
//!     ..   the names             each with its NUL
//!
//! Of four segments of which the third has one page with a fixup at its start, and with no imports, these are the words
//! 0, 28, 72, 72, 0, 1, 0 of the header, 4, 0, 0, 20, 0 of the starts, and the record of the third segment.
ghost use Rattle.std.specs.Prelude.{◌≡◌, ◌+◌, ◌*◌, ◌<◌, ◌≤◌, ◌^◌, ◌⊎◌, length, replicate, sum_by, All, ◌++◌, ◌==◌, if◌then◌else◌};
ghost use Rattle.std.specs.List.{flat_map};
ghost use Rattle.macho_bytes.specs.Texts.{put};
ghost use Rattle.macho_model.specs.Images.{import_entry_size};
ghost use Rattle.macho_fixups.specs.Runs.{AreSegments, pages_of};
ghost use Rattle.macho_fixups.specs.steps.Cuts.{AreBelow};
ghost use Rattle.macho_fixups.specs.Tables.{image_starts_text, image_starts_size, offsets_text, segment_text, segment_size, table_room, table_text, names_place};
ghost use Rattle.macho_fixups.specs.Readings.{TableReadsBack};
ghost use Rattle.macho_fixups.specs.Calls.{AreEntries, FitsTable, all_pages};
ghost use Rattle.macho_fixups.specs.steps.Runs.{AreSorted};

use crate::imports::{ImportEntry, entry_size, write_imports};
use crate::run::{Fixup, FixupSegment};
use crate::starts::{starts_size, write_starts};
use macho_model::FIXUP_RECORDS;
use macho_wire::{ChainedFixupsHeader, put_little, put_text};

/// The place of the starts: behind the header.
const STARTS_AT: usize = ChainedFixupsHeader::SIZE;

/// The bytes to keep for a table: of so many import entries of a size, of the bytes of names, and of pages with chains.
/// It has room for six segments.
pub fn table_size(entries: u64, entry_size: u64, name_bytes: u64, pages: u64) -> u64
    requires size { (entry_size ≡ 4) ⊎ (entry_size ≡ 8) }
    requires fits { table_room entries entry_size name_bytes pages < 2 ^ 64 }
    ensures { result ≡ table_room entries entry_size name_bytes pages }
{
    (FIXUP_RECORDS + entry_size * entries + name_bytes).next_multiple_of(8)
        + (2 * pages).next_multiple_of(8)
}

/// Writes the table of a sorted run of fixups into a range of the file; what the table doesn't need becomes zero.
///
/// The segments are all of the image in order, `__PAGEZERO` among them; `base` is the address of its header. Format 1 has
/// import entries of a word, format 2 of a word and an addend.
pub fn write_chained_fixup_table(
    out: &mut [u8],
    segments: &[FixupSegment],
    base: u64,
    fixups: &[Fixup],
    format: u32,
    imports: &[ImportEntry],
    names: &[u8],
)
    requires fits { FitsTable base fixups.now segments.now }
    requires entries { AreEntries format imports.now }
    requires room { table_room (length imports.now) (import_entry_size format) (length names.now)
        (all_pages fixups.now segments.now) ≤ length out.old }
    ensures written { out.new
        ≡ put 0 (table_text base fixups.now segments.now format imports.now names.now) (replicate (length out.old) 0) }
    ensures long { length (table_text base fixups.now segments.now format imports.now names.now) ≤ length out.old }
    ensures read { TableReadsBack base fixups.now segments.now format imports.now names.now }
{
    out.fill(0);
    write_parts(out, segments, base, fixups, format, imports, names);
}

/// Writes the parts of the table from the front on; the other bytes stay.
fn write_parts(
    out: &mut [u8],
    segments: &[FixupSegment],
    base: u64,
    fixups: &[Fixup],
    format: u32,
    imports: &[ImportEntry],
    names: &[u8],
)
    requires fits { FitsTable base fixups.now segments.now }
    requires entries { AreEntries format imports.now }
    requires room { names_place fixups.now segments.now format imports.now + length names.now ≤ length out.old }
    ensures written { out.new ≡ put 0 (table_text base fixups.now segments.now format imports.now names.now) out.old }
    ensures long { length (table_text base fixups.now segments.now format imports.now names.now)
        ≡ names_place fixups.now segments.now format imports.now + length names.now }
    ensures read { TableReadsBack base fixups.now segments.now format imports.now names.now }
{
    let imports_at = write_image_starts(out, STARTS_AT, segments, base, fixups);
    write_imports(out, imports_at, format, imports);
    let names_at = imports_at + entry_size(format) * imports.len();
    put_text(out, names_at, names);
    let header = ChainedFixupsHeader {
        fixups_version: 0,
        starts_offset: STARTS_AT as u32,
        imports_offset: imports_at as u32,
        symbols_offset: names_at as u32,
        imports_count: imports.len() as u32,
        imports_format: format,
        symbols_format: 0,
    };
    header.write(out, 0);
}

/// Writes the starts of an image at a place; the other bytes stay. Returns the place behind them.
#[tactic(auto, unfolding(crate::specs::Tables::image_starts_text, crate::specs::Tables::image_starts_size))]
fn write_image_starts(
    out: &mut [u8],
    at: usize,
    segments: &[FixupSegment],
    base: u64,
    fixups: &[Fixup],
) -> usize
    requires fits { FitsTable base fixups.now segments.now }
    requires room { at + image_starts_size fixups.now segments.now ≤ length out.old }
    ensures written { out.new ≡ put at (image_starts_text base fixups.now segments.now) out.old }
    ensures long { length (image_starts_text base fixups.now segments.now) ≡ image_starts_size fixups.now segments.now }
    ensures behind { result ≡ at + image_starts_size fixups.now segments.now }
{
    put_little(out, at, segments.len() as u32);
    write_segments(out, at, segments, base, fixups)
}

/// Writes the offsets of the segments, and behind them what is told of each, in one pass over the run.
fn write_segments(
    out: &mut [u8],
    at: usize,
    segments: &[FixupSegment],
    base: u64,
    fixups: &[Fixup],
) -> usize
    requires fits { FitsTable base fixups.now segments.now }
    requires room { at + image_starts_size fixups.now segments.now ≤ length out.old }
    ensures written { out.new
        ≡ put (at + 4)
        (offsets_text (4 + 4 * length segments.now) fixups.now segments.now
        ++ flat_map (segment_text base fixups.now) segments.now) out.old }
    ensures long { length
        (offsets_text (4 + 4 * length segments.now) fixups.now segments.now ++ flat_map (segment_text base fixups.now) segments.now)
        ≡ 4 * length segments.now + sum_by (segment_size fixups.now) segments.now }
    ensures behind { result ≡ at + image_starts_size fixups.now segments.now }
{
    let mut slot = at + 4;
    let mut place = at + 4 + 4 * segments.len();
    let mut next = 0;
    for segment in segments {
        let run = write_starts(out, place, segment, base, fixups, next);
        put_little(out, slot, offset_word(run.pages, place - at));
        slot += 4;
        place += starts_size(run.pages);
        next = run.end;
    }
    place
}

/// The offset of what is told of a segment, 0 where there is nothing.
fn offset_word(pages: u64, distance: usize) -> u32
    requires { distance < 2 ^ 32 }
    ensures { result ≡ (if pages == 0 then 0 else distance) }
{
    if pages == 0 { 0 } else { distance as u32 }
}
