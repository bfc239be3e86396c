//! The commands of segments: what each may be accessed for, and which section headers stand behind it.
ghost use Rattle.std.specs.Prelude.{◌≡◌, ◌+◌, ◌≤◌, ◌++◌, length, map, filter, slice_range, OnOk};
ghost use Rattle.macho_records.specs.Segments.{text_of, segment_flags_of};
ghost use Rattle.macho_model.specs.Segments.{loaded_protection_of};
ghost use Rattle.macho_model.specs.Placement.{Placed};
ghost use Rattle.macho_model.specs.Head.{headers_in};
ghost use Rattle.macho_model.specs.HeadCommands.{segment_for};
ghost use Rattle.macho_layout.specs.Placements.{placed_of};
ghost use Rattle.macho_commands.specs.Commands.{said_by};
ghost use Rattle.macho_head.specs.Splits.{HeadersAreSplit};
ghost use Rattle.macho_head.specs.steps.Headers.{is_header_of};

use macho_commands::Command;
use macho_layout::Placement;
use macho_model::PlacedSegment;
use macho_records::{
    SG_READ_ONLY, SectionHeader, SegmentName, VM_PROT_EXECUTE, VM_PROT_READ, VM_PROT_WRITE,
    name_bytes,
};
use std::alloc::AllocError;

/// What a segment may be accessed for, now and at most (`mach/vm_prot.h`).
fn protection(name: SegmentName) -> u32
    ensures { result ≡ loaded_protection_of (text_of name) }
{
    let bytes = name.into_bytes();
    let text = name_bytes(&bytes);
    if text == b"__PAGEZERO".as_slice() {
        0
    } else if text == b"__TEXT".as_slice() {
        VM_PROT_READ + VM_PROT_EXECUTE
    } else if text == b"__LINKEDIT".as_slice() {
        VM_PROT_READ
    } else {
        VM_PROT_READ + VM_PROT_WRITE
    }
}

/// The `SG_` flags of a segment.
fn segment_flags(name: SegmentName) -> u32
    ensures { result ≡ segment_flags_of (text_of name) }
{
    let bytes = name.into_bytes();
    if name_bytes(&bytes) == b"__DATA_CONST".as_slice() {
        SG_READ_ONLY
    } else {
        0
    }
}

/// How many headers are of a segment of this name.
fn count_headers(headers: &[SectionHeader], name: &[u8]) -> usize
    ensures { result ≡ length (filter (is_header_of name.now) headers.now) }
{
    let mut count = 0;
    for header in headers {
        if name_bytes(&header.segname) == name {
            count += 1;
        }
    }
    count
}

/// The headers of a segment, which stand behind those of the segments before it.
fn headers_from<'a>(
    placement: &'a Placement,
    at: usize,
    segment: &PlacedSegment,
) -> &'a [SectionHeader]
    requires { at + length (headers_in (placed_of placement.now) segment.now) ≤ length placement.now.output_sections.items }
    ensures { result.now
        ≡ slice_range placement.now.output_sections.items at (at + length (headers_in (placed_of placement.now) segment.now)) }
{
    let headers = placement.output_sections.as_slice();
    let bytes = segment.name.into_bytes();
    let count = count_headers(headers, name_bytes(&bytes));
    &headers[at..at + count]
}

/// The command of a segment with these headers.
fn segment_command<'a>(segment: &PlacedSegment, headers: &'a [SectionHeader]) -> Command<'a>
    ensures { (p : Placed) → headers.now ≡ headers_in p segment.now → said_by result ≡ segment_for p segment.now }
{
    Command::Segment {
        segment: *segment,
        protection: protection(segment.name),
        flags: segment_flags(segment.name),
        headers,
    }
}

/// Adds the commands of the segments, each with the headers of its sections.
pub(crate) fn add_segments<'a>(
    placement: &'a Placement,
    commands: &mut Vec<Command<'a>>,
) -> Result<(), AllocError>
    requires split { HeadersAreSplit (placed_of placement.now) }
    ensures { OnOk result
        (map said_by commands.new.items ≡ map said_by commands.old.items
        ++ map (segment_for (placed_of placement.now)) (placed_of placement.now).segments) }
{
    let mut at = 0;
    for segment in placement.segments.as_slice() {
        let headers = headers_from(placement, at, segment);
        commands.push(segment_command(segment, headers))?;
        at += headers.len();
    }
    Ok(())
}
