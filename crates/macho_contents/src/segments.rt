//! The segments of a placement, as fixups see them.
ghost use Rattle.std.specs.Prelude.{◌≡◌, IfOk};
ghost use Rattle.macho_promise.specs.FixupsSay.{fixup_segments};
ghost use Rattle.macho_promise.specs.steps.Segments.{fixup_segment};
ghost use Rattle.macho_layout.specs.Placements.{placed_of};

use macho_fixups::FixupSegment;
use macho_layout::Placement;
use macho_model::PlacedSegment;
use std::alloc::{AllocError, Global};

/// Where a segment stands in memory and in the file.
fn fixup_segment(segment: PlacedSegment) -> FixupSegment
    ensures { result ≡ fixup_segment segment }
{
    FixupSegment {
        address: segment.address,
        size: segment.size,
        file_offset: segment.file_offset,
        file_size: segment.file_size,
    }
}

/// All segments, in order.
pub(crate) fn fixup_segments(
    alloc: Global,
    placement: &Placement,
) -> Result<Vec<FixupSegment>, AllocError>
    ensures { IfOk result (λ v. v.items ≡ fixup_segments (placed_of placement.now)) }
{
    let mut segments = Vec::with_capacity(alloc, placement.segments.len())?;
    for segment in placement.segments.as_slice() {
        segments.push(fixup_segment(*segment))?;
    }
    Ok(segments)
}
