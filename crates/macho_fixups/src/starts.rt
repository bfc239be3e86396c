//! The starts of the chains: for each segment a record, and for each of its pages the offset of the first word.
ghost use Rattle.std.specs.Prelude.{◌≡◌, ◌+◌, ◌*◌, ◌/◌, ◌%◌, ◌<◌, ◌≤◌, ◌^◌, ◌⊎◌, length, sum_by, All};
ghost use Rattle.std.specs.List.{flat_map};
ghost use Rattle.macho_bytes.specs.Texts.{put};
ghost use Rattle.macho_model.specs.Segments.{SEGMENT_PAGE};
ghost use Rattle.macho_fixups.specs.Runs.{AreSegments, pages_of, start_of};
ghost use Rattle.macho_fixups.specs.steps.Cuts.{IsCut, AreBelow, IsRunOf};
ghost use Rattle.macho_fixups.specs.Tables.{page_starts_text, starts_size, starts_text};
ghost use Rattle.macho_fixups.specs.steps.Runs.{AreSorted};

use crate::run::{Fixup, FixupSegment, SegmentRun, has_next, skip_below};
use macho_model::{NO_START, POINTER_FORMAT, SEGMENT_PAGE};
use macho_wire::{ChainedStartsInSegment, put_little};

/// The bytes that tell of a segment with so many pages.
pub(crate) fn starts_size(pages: u64) -> usize
    requires { pages ≤ 65535 }
    ensures { result ≡ starts_size pages }
{
    if pages == 0 {
        0
    } else {
        ChainedStartsInSegment::SIZE + 2 * pages as usize
    }
}

/// Writes what is told of a segment at a place, with the number of a fixup that isn't behind its first one; the other
/// bytes stay. The starts are written first, with the fixups passed once, and the record in front of them when their
/// number is known.
#[tactic(auto, unfolding(crate::specs::Tables::starts_text))]
pub(crate) fn write_starts(
    out: &mut [u8],
    at: usize,
    segment: &FixupSegment,
    base: u64,
    fixups: &[Fixup],
    from: usize,
) -> SegmentRun
    requires sorted { AreSorted fixups.now }
    requires from { from ≤ length fixups.now }
    requires below { AreBelow fixups.now from segment.now.address }
    requires paged { segment.now.address % SEGMENT_PAGE ≡ 0 }
    requires ends { segment.now.address + segment.now.file_size ≤ 2 ^ 64 }
    requires pages { pages_of segment.now fixups.now ≤ 65535 }
    requires above { (pages_of segment.now fixups.now ≡ 0) ⊎ (base ≤ segment.now.address) }
    requires room { at + starts_size (pages_of segment.now fixups.now) ≤ length out.old }
    ensures run { IsRunOf fixups.now segment.now result }
    ensures written { out.new ≡ put at (starts_text base fixups.now segment.now result.pages) out.old }
    ensures long { length (starts_text base fixups.now segment.now result.pages) ≡ starts_size result.pages }
{
    let begin = skip_below(fixups, from, segment.address, 0);
    if !has_next(fixups, begin, segment) {
        return SegmentRun {
            end: begin,
            pages: 0,
        };
    }
    let behind = at + ChainedStartsInSegment::SIZE;
    let run = write_page_starts(out, behind, segment, fixups, begin);
    let record = ChainedStartsInSegment {
        size: (22 + 2 * run.pages) as u32,
        page_size: SEGMENT_PAGE as u16,
        pointer_format: POINTER_FORMAT,
        segment_offset: segment.address - base,
        max_valid_pointer: 0,
        page_count: run.pages as u16,
    };
    record.write(out, at);
    run
}

/// Writes the starts of a segment's pages up to that of its last fixup, with the number of its first one.
#[tactic(auto, unfolding(crate::specs::Tables::page_starts_text))]
fn write_page_starts(
    out: &mut [u8],
    at: usize,
    segment: &FixupSegment,
    fixups: &[Fixup],
    begin: usize,
) -> SegmentRun
    requires sorted { AreSorted fixups.now }
    requires begin { IsCut fixups.now begin segment.now.address }
    requires paged { segment.now.address % SEGMENT_PAGE ≡ 0 }
    requires ends { segment.now.address + segment.now.file_size ≤ 2 ^ 64 }
    requires room { at + 2 * pages_of segment.now fixups.now ≤ length out.old }
    ensures run { IsRunOf fixups.now segment.now result }
    ensures written { out.new ≡ put at (page_starts_text fixups.now (segment.now.address / SEGMENT_PAGE) result.pages) out.old }
    ensures long { length (page_starts_text fixups.now (segment.now.address / SEGMENT_PAGE) result.pages) ≡ 2 * result.pages }
{
    let mut next = begin;
    let mut place = at;
    let mut pages = 0;
    'pages: while has_next(fixups, next, segment) {
        let number = segment.address / SEGMENT_PAGE + pages;
        put_little(out, place, start_from(fixups, next, number));
        let page = number * SEGMENT_PAGE;
        let left = segment.file_size - (page - segment.address);
        next = skip_below(fixups, next, page, left.min(SEGMENT_PAGE));
        place += 2;
        pages += 1;
    }
    SegmentRun { end: next, pages }
}

/// The start of a page, with the number of the first fixup that isn't in front of it.
fn start_from(fixups: &[Fixup], next: usize, number: u64) -> u16
    requires sorted { AreSorted fixups.now }
    requires next { IsCut fixups.now next (number * SEGMENT_PAGE) }
    ensures { result ≡ start_of fixups.now number }
{
    if next == fixups.len() {
        return NO_START;
    }
    let address = fixups[next].address;
    if address / SEGMENT_PAGE != number {
        return NO_START;
    }
    (address % SEGMENT_PAGE) as u16
}
