//! The segments of an image against those of a placement.
ghost use Rattle.std.specs.Prelude.{◌≡◌, true, not, ◌==◌, filter, length, IfOk};
ghost use Rattle.std.specs.Bool.{OnTrue};
ghost use Rattle.std.specs.List.{AllZip};
ghost use Rattle.macho_layout.specs.Placements.{placed_of};
ghost use Rattle.macho_image_rules.specs.Segments.{SegmentIs, SegmentsAre};

use macho_layout::Placement;
use macho_loader::Loaded;
use macho_model::PlacedSegment;
use macho_records::{SegmentCommand, name_bytes};
use std::alloc::{AllocError, Global};

/// Whether a segment of an image has the name and the ranges of one of a placement.
pub fn is_segment(command: &SegmentCommand, placed: &PlacedSegment) -> bool
    ensures found { OnTrue result (SegmentIs command.now placed.now) }
    ensures only { SegmentIs command.now placed.now → result ≡ true }
{
    let bytes = placed.name.into_bytes();
    let memory = command.vmaddr == placed.address && command.vmsize == placed.size;
    let file = command.fileoff == placed.file_offset && command.filesize == placed.file_size;
    memory && file && name_bytes(&command.segname) == name_bytes(&bytes)
}

/// The segments of an image that have bytes in memory.
fn sized_commands(
    alloc: Global,
    commands: &[SegmentCommand],
) -> Result<Vec<SegmentCommand>, AllocError>
    ensures { IfOk result (λ v. v.items ≡ filter (λ s. not (s.vmsize == 0)) commands.now) }
{
    let mut sized = Vec::new(alloc);
    for command in commands {
        if command.vmsize != 0 {
            sized.push(*command)?;
        }
    }
    Ok(sized)
}

/// The segments of a placement that have bytes in memory.
fn sized_segments(
    alloc: Global,
    segments: &[PlacedSegment],
) -> Result<Vec<PlacedSegment>, AllocError>
    ensures { IfOk result (λ v. v.items ≡ filter (λ s. not (s.size == 0)) segments.now) }
{
    let mut sized = Vec::new(alloc);
    for segment in segments {
        if segment.size != 0 {
            sized.push(*segment)?;
        }
    }
    Ok(sized)
}

/// Whether segments of an image are those of a placement, in order.
fn are_segments(commands: &[SegmentCommand], segments: &[PlacedSegment]) -> bool
    ensures found { OnTrue result (AllZip SegmentIs commands.now segments.now) }
    ensures only { AllZip SegmentIs commands.now segments.now → result ≡ true }
{
    if commands.len() != segments.len() {
        return false;
    }
    for (number, command) in commands.iter().enumerate() {
        if !is_segment(command, &segments[number]) {
            return false;
        }
    }
    true
}

/// Whether the base of an image is that of a placement, and its segments that have bytes in memory are the placement's, in order.
pub fn segments_are(
    alloc: Global,
    placement: &Placement,
    image: &Loaded<'_>,
) -> Result<bool, AllocError>
    ensures found { IfOk result (λ r. OnTrue r (SegmentsAre image.now (placed_of placement.now))) }
    ensures only { IfOk result (λ r. SegmentsAre image.now (placed_of placement.now) → r ≡ true) }
{
    if placement.base != image.base() {
        return Ok(false);
    }
    let all = image.segments(alloc)?;
    let commands = sized_commands(alloc, &all)?;
    let segments = sized_segments(alloc, &placement.segments)?;
    Ok(are_segments(&commands, &segments))
}
