//! The addresses of sections, commons, slots and stubs, and the ranges of what the linker makes.
ghost use Rattle.std.specs.Prelude.{◌≡◌, ◌+◌, ◌*◌, ◌%◌, ◌^◌, ◌<◌, length, IfOk};
ghost use Rattle.macho_layout.specs.Places.{number_at, address_at, range_at, cover, template_range, segment_pages, row_pages, placed_section, placed_sections, placed_commons, placed_slots, placed_stubs};

use crate::cells::{is_template_class, segment_number};
use crate::spec::{CommonSpec, Planned, SectionSpec, StubSpec};
use macho_model::{
    PlacedCommon, PlacedSection, PlacedSegment, Range64, SEGMENT_PAGE, Slot, Stub, Target,
};
use macho_records::SegmentName;
use macho_stack::{CLASSES, PlacedCell, PlacedMember};
use std::alloc::{AllocError, Global};

/// An address behind another one. In an image that keeps to its written sum none wraps.
fn behind(address: u64, offset: u64) -> u64
    ensures { result ≡ (address + offset) % 2 ^ 64 }
{
    address.wrapping_add(offset)
}

/// A start by its number.
pub(crate) fn start_of(starts: &[u64], number: usize) -> u64
    ensures { result ≡ number_at starts.now number }
{
    match starts.get(number) {
        Some(start) => *start,
        None => 0,
    }
}

/// The address of a member, by its number.
pub(crate) fn address_at(members: &[PlacedMember], starts: &[u64], number: usize) -> u64
    ensures { result ≡ address_at members.now starts.now number }
{
    match members.get(number) {
        Some(one) => behind(start_of(starts, one.member.cell as usize), one.offset),
        None => 0,
    }
}

/// A range from a start on.
pub(crate) fn range_at(start: u64, size: u64) -> Range64
    ensures { result ≡ range_at start size }
{
    Range64 {
        start,
        end: behind(start, size),
    }
}

/// The template so far, with one output section more.
fn cover(range: Option<Range64>, one: &PlacedCell) -> Option<Range64>
    ensures { result ≡ cover range one.now }
{
    let end = behind(one.start, one.cell.size);
    let start = match range {
        Some(range) => range.start,
        None => one.start,
    };
    Some(Range64 { start, end })
}

/// Where the initial values of thread-local variables stand, if there are any.
pub(crate) fn template_range(placed: &[PlacedCell]) -> Option<Range64>
    ensures { result ≡ template_range placed.now }
{
    let mut range = None;
    for one in placed {
        if is_template_class(one.cell.rank % CLASSES) {
            range = cover(range, one);
        }
    }
    range
}

/// The pages of a segment that the loader may write pointers in; none of another one.
fn segment_pages(segment: &PlacedSegment) -> u64
    ensures value { result ≡ segment_pages segment.now }
    ensures small { result < 2 ^ 50 }
{
    if segment.name == SegmentName::DATA || segment.name == SegmentName::DATA_CONST {
        segment.file_size / SEGMENT_PAGE
    } else {
        0
    }
}

/// The pages of the segments that the loader writes pointers in.
pub(crate) fn pointer_pages(segments: &[PlacedSegment]) -> u64
    requires { length segments.now < 16 }
    ensures { result ≡ row_pages segments.now }
{
    let mut pages = 0;
    for segment in segments {
        pages += segment_pages(segment);
    }
    pages
}

/// The sections with their addresses; so many segments stand before those that are mapped from the file.
pub(crate) fn placed_sections(
    alloc: Global,
    sections: &[Planned],
    before: u32,
    names: &[SegmentName],
    members: &[PlacedMember],
    starts: &[u64],
) -> Result<Vec<PlacedSection>, AllocError>
    requires few { length names.now < 16 }
    requires one { before < 16 }
    ensures { IfOk result (λ placed. placed.items ≡ placed_sections before names.now members.now starts.now sections.now) }
{
    let mut placed = Vec::new(alloc);
    for (number, section) in sections.iter().enumerate() {
        let address = address_at(members, starts, number);
        placed.push(placed_section(&section.spec, before, names, address))?;
    }
    Ok(placed)
}

/// A section at its address.
fn placed_section(
    spec: &SectionSpec,
    before: u32,
    names: &[SegmentName],
    address: u64,
) -> PlacedSection
    requires few { length names.now < 16 }
    requires one { before < 16 }
    ensures { result ≡ placed_section before names.now spec.now address }
{
    PlacedSection {
        file: spec.file,
        section: spec.section,
        segment: before + segment_number(names, spec.segment_key()) as u32,
        address,
    }
}

/// The commons with their addresses; so many sections are members before them.
pub(crate) fn placed_commons(
    alloc: Global,
    commons: &[CommonSpec],
    before: usize,
    members: &[PlacedMember],
    starts: &[u64],
) -> Result<Vec<PlacedCommon>, AllocError>
    requires { before + length commons.now < 2 ^ 64 }
    ensures { IfOk result (λ placed. placed.items ≡ placed_commons before members.now starts.now commons.now) }
{
    let mut placed = Vec::new(alloc);
    for (number, common) in commons.iter().enumerate() {
        placed.push(PlacedCommon {
            id: common.id,
            address: address_at(members, starts, before + number),
        })?;
    }
    Ok(placed)
}

/// The slots from a start on.
pub(crate) fn placed_slots(
    alloc: Global,
    targets: &[Target],
    start: u64,
) -> Result<Vec<Slot>, AllocError>
    requires { 8 * length targets.now < 2 ^ 64 }
    ensures { IfOk result (λ slots. slots.items ≡ placed_slots start targets.now) }
{
    let mut slots = Vec::new(alloc);
    for (number, target) in targets.iter().enumerate() {
        slots.push(Slot {
            target: *target,
            address: behind(start, 8 * number as u64),
        })?;
    }
    Ok(slots)
}

/// The stubs from a start on.
pub(crate) fn placed_stubs(
    alloc: Global,
    specs: &[StubSpec],
    start: u64,
) -> Result<Vec<Stub>, AllocError>
    requires { 12 * length specs.now < 2 ^ 64 }
    ensures { IfOk result (λ stubs. stubs.items ≡ placed_stubs start specs.now) }
{
    let mut stubs = Vec::new(alloc);
    for (number, stub) in specs.iter().enumerate() {
        stubs.push(Stub {
            import: stub.import,
            address: behind(start, 12 * number as u64),
            slot: stub.slot,
        })?;
    }
    Ok(stubs)
}
