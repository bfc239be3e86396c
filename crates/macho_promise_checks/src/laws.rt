//! Callers of the laws on tables of fixups that no law on images calls: each says of its own values what the laws say of all.
ghost use Rattle.std.specs.Prelude.{◌≡◌, ◌+◌, ◌-◌, ◌/◌, ◌%◌, ◌<◌, ◌≤◌, [], length, get_or, Contains};
ghost use Rattle.macho_model.specs.Segments.{SEGMENT_PAGE};
ghost use Rattle.macho_fixups.specs.Runs.{AreSegments, Holds, pages_of};
ghost use Rattle.macho_fixups.specs.Chains.{place_of};
ghost use Rattle.macho_fixups.specs.Tables.{names_place, table_room};
ghost use Rattle.macho_fixups.specs.Readings.{IsRead};
ghost use Rattle.macho_fixups.specs.Laws.{IsNameAt, NameIsRead};

use macho_fixups::{
    Fixup, FixupSegment, ImportEntry, names_are_read, no_fixup_no_pages, pages_are_bounded,
    places_are_in_segments, room_grows,
};

/// A segment that begins with a page has at most as many pages with chains as its file part has, and without fixups none. A
/// table with an entry, a name and a page more needs no less room.
fn room_of_a_table(
    segment: FixupSegment,
    fixups: &[Fixup],
    size: usize,
    entries: usize,
    names: usize,
    name: &[u8],
    pages: usize,
)
    requires { segment.address % SEGMENT_PAGE ≡ 0 }
    ensures pages { pages_of segment fixups.now ≤ (segment.file_size + (SEGMENT_PAGE - 1)) / SEGMENT_PAGE }
    ensures none { pages_of segment [] ≡ 0 }
    ensures room { table_room entries size names pages ≤ table_room (entries + 1) size (names + length name.now) (pages + 1) }
{
    pages_are_bounded();
    no_fixup_no_pages();
    room_grows();
}

/// A word's place is counted from its segment's.
fn place_in_its_segment(segments: &[FixupSegment], segment: FixupSegment, address: u64)
    requires order { AreSegments segments.now }
    requires one { Contains segments.now segment }
    requires holds { Holds segment address }
    ensures { place_of segments.now address ≡ segment.file_offset + (address - segment.address) }
{
    places_are_in_segments();
}

/// The name of an import is read.
fn name_of_an_import(
    file: &[u8],
    at: u64,
    size: u64,
    fixups: &[Fixup],
    segments: &[FixupSegment],
    format: u32,
    imports: &[ImportEntry],
    names: &[u8],
    index: usize,
    name: &[u8],
)
    requires read { IsRead file.now (record { at = at; size = size }) fixups.now segments.now format imports.now names.now }
    requires room { names_place fixups.now segments.now format imports.now + length names.now ≤ size }
    requires index { index < length imports.now }
    requires name { (d : _) → IsNameAt names.now (get_or imports.now index d).name_offset name.now }
    ensures { NameIsRead file.now (record { at = at; size = size }) index name.now }
{
    names_are_read();
}
