//! The placement of a plan, with the limits that it is looked at for.
ghost use Rattle.std.specs.Prelude.{◌≡◌, ◌≤◌, None, IfSome, IfErr, IfOk};
ghost use Rattle.macho_records.specs.Segments.{text_of};
ghost use Rattle.macho_model.specs.declared.placed.Counts.{Counts as LinkCounts};
ghost use Rattle.macho_model.specs.Links.{Link};
ghost use Rattle.macho_model.specs.Segments.{may_hold_pointers};
ghost use Rattle.macho_promise.specs.Sizes.{AreCounts};
ghost use Rattle.macho_layout.specs.Placements.{placed_of};
ghost use Rattle.macho_layout.specs.Plans.{Planning, IsPlanOf};
ghost use Rattle.macho_layout.specs.Laid.{FaultStands};
ghost use Rattle.macho_model.specs.Limits.{ImagePasses};
ghost use Rattle.macho_promise.specs.Promise.{IsKept};
ghost use Rattle.macho_answer.specs.Standing.{Stands};
ghost use Rattle.macho_sizing.specs.steps.Rooms.{IsAnswered, IsLaid, kept_counts, passed_pages, HasMany, HasFew};

use macho_answer::LinkError;
use macho_layout::{Counts, LayoutFault, Placement, Plan};
use macho_model::{LIMIT_32, Limit, PlacedSegment, SEGMENT_PAGE, may_hold_pointers};
use macho_records::name_bytes;
use std::alloc::Global;

/// The most pages of a segment that the loader writes pointers in.
const MOST_PAGES: u64 = 65_535;

/// Whether the loader writes pointers in a segment.
fn holds_pointers(segment: &PlacedSegment) -> bool
    ensures { result ≡ may_hold_pointers (text_of segment.now.name) }
{
    let bytes = segment.name.into_bytes();
    may_hold_pointers(name_bytes(&bytes))
}

/// The pages of a segment that the loader writes pointers in, where they are too many.
fn passed_pages(segment: &PlacedSegment) -> Option<u64>
    ensures { result ≡ passed_pages segment.now }
{
    let pages = segment.file_size.div_ceil(SEGMENT_PAGE);
    if holds_pointers(segment) && pages > MOST_PAGES {
        Some(pages)
    } else {
        None
    }
}

/// The pages of the first of some segments that has too many.
fn most_pages(segments: &[PlacedSegment]) -> Option<u64>
    ensures many { IfSome result (HasMany segments.now) }
    ensures few { result ≡ None → HasFew segments.now }
{
    for segment in segments {
        if let Some(pages) = passed_pages(segment) {
            return Some(pages);
        }
    }
    None
}

/// The pages of the first segment of a placement that has too many.
fn passes(placement: &Placement) -> Option<u64>
    ensures many { IfSome result (HasMany (placed_of placement.now).segments) }
    ensures few { result ≡ None → HasFew (placed_of placement.now).segments }
{
    most_pages(&placement.segments)
}

/// The refusal of a placement that is too large: `TooMany` for the pages of a segment where those are too many, else
/// `ImageTooLarge`, both with the placement.
fn too_large(placement: Placement) -> LinkError
    ensures { (l : Link) (counts : LinkCounts) → ImagePasses l (placed_of placement) → IsKept l (placed_of placement)
        → Stands l counts result }
{
    match passes(&placement) {
        Some(number) => LinkError::TooMany {
            what: Limit::Pages,
            number,
            placement: Some(placement),
        },
        None => LinkError::ImageTooLarge {
            placement: Some(placement),
        },
    }
}

/// A refusal of a layout, as one of the link.
fn error_of(fault: LayoutFault) -> LinkError
    ensures { (l : Link) (plan : Planning) (counts : LinkCounts) → IsPlanOf l plan → AreCounts l counts
        → FaultStands plan (kept_counts counts) fault → Stands l counts result }
{
    match fault {
        LayoutFault::TooMany { what, number } => LinkError::TooMany {
            what,
            number,
            placement: None,
        },
        LayoutFault::TooLarge {
            placement: Some(placement),
        } => too_large(placement),
        LayoutFault::TooLarge { placement: None } => LinkError::ImageTooLarge { placement: None },
        LayoutFault::OutOfMemory => LinkError::OutOfMemory,
    }
}

/// The sizes that are placed: unwind information has 2^32 bytes where its bound is more.
fn kept_counts(counts: &Counts) -> Counts
    ensures { result ≡ kept_counts counts.now }
{
    let mut kept = *counts;
    kept.unwind = counts.unwind.min(LIMIT_32);
    kept
}

/// The placement of a plan, with unwind information of 2^32 bytes where its bound is more.
fn place_kept(alloc: Global, plan: &Plan, counts: &Counts) -> Result<Placement, LinkError>
    requires { counts.now.import_size ≤ 8 }
    ensures done { (l : Link) → IsPlanOf l plan.now → IfOk result (λ q. IsLaid l (kept_counts counts.now) (placed_of q)) }
    ensures why { (l : Link) → IsPlanOf l plan.now → AreCounts l counts.now → IfErr result (Stands l counts.now) }
{
    match plan.compute(alloc, &kept_counts(counts)) {
        Ok(placement) => Ok(placement),
        Err(fault) => Err(error_of(fault)),
    }
}

/// The placement of a link.
pub(crate) fn place(alloc: Global, plan: &Plan, counts: &Counts) -> Result<Placement, LinkError>
    requires { counts.now.import_size ≤ 8 }
    ensures done { (l : Link) → IsPlanOf l plan.now → AreCounts l counts.now → IfOk result (λ q. IsAnswered l counts.now (placed_of q)) }
    ensures why { (l : Link) → IsPlanOf l plan.now → AreCounts l counts.now → IfErr result (Stands l counts.now) }
{
    let placement = place_kept(alloc, plan, counts)?;
    if counts.unwind >= LIMIT_32 {
        return Err(too_large(placement));
    }
    match passes(&placement) {
        Some(number) => Err(LinkError::TooMany {
            what: Limit::Pages,
            number,
            placement: Some(placement),
        }),
        None => Ok(placement),
    }
}
