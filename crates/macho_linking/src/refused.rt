//! Which fault is told where contents aren't written: an offset that passes 32 bits stands before a value in the order of
//! refusals, and is looked for once a value is refused.
ghost use Rattle.std.specs.Prelude.{◌≡◌, length, IfOk, OnOk, IfErr};
ghost use Rattle.macho_model.specs.Links.{Link};
ghost use Rattle.macho_bytes.specs.Images.{zeros};
ghost use Rattle.macho_fields.specs.Faults.{NoneIsBad};
ghost use Rattle.macho_promise_laws.specs.Written.{AreContents};
ghost use Rattle.macho_linking.specs.steps.Planned.{IsLooked, KnowsAll, placement_of};
ghost use Rattle.macho_linking.specs.steps.Unwritten.{UnwrittenStands};

use crate::contents::{write_contents, write_offsets, write_unwind};
use crate::fault::Unwritten;
use crate::planned::Planned;
use macho_fields::{FillFault, Places};
use macho_fixups::Fixup;
use std::alloc::Global;

/// Whether a value has no word of the loader, or doesn't fit.
fn is_of_value(fault: Unwritten) -> bool {
    match fault {
        Unwritten::Unfilled(FillFault::Rebase { .. } | FillFault::Range { .. }) => true,
        _ => false,
    }
}

/// The fault that is told of one that was met in the contents, and of offsets that pass 32 bits. The bytes are then of no use.
fn told_of<P: Places>(
    alloc: Global,
    b: &Planned<'_>,
    places: &P,
    fault: Unwritten,
    out: &mut [u8],
) -> Unwritten
    requires known { KnowsAll b.now (P.has_symbol places.now) }
    requires link { (l : Link) × IsLooked l b.now (P.look places.now) }
    requires long { length out.old ≡ (placement_of b.now).linkedit.signature.end }
    ensures length { length out.new ≡ length out.old }
    ensures why { (l : Link) → IsLooked l b.now (P.look places.now) → UnwrittenStands l (placement_of b.now) fault
        → UnwrittenStands l (placement_of b.now) result }
{
    if !is_of_value(fault) {
        return fault;
    }
    if let Err(other) = write_offsets(b, places, out) {
        return other;
    }
    match write_unwind(alloc, b, places, out) {
        Ok(()) => fault,
        Err(other) => other,
    }
}

/// Writes contents as `write_contents` does; of several faults the first in the order of refusals is told.
pub(crate) fn try_contents<P: Places>(
    alloc: Global,
    b: &Planned<'_>,
    places: &P,
    out: &mut [u8],
) -> Result<Vec<Fixup>, Unwritten>
    requires known { KnowsAll b.now (P.has_symbol places.now) }
    requires link { (l : Link) × IsLooked l b.now (P.look places.now) }
    requires zeros { out.old ≡ zeros (placement_of b.now).linkedit.signature.end }
    ensures length { length out.new ≡ length out.old }
    ensures done { (l : Link) → IsLooked l b.now (P.look places.now)
        → IfOk result (λ run. AreContents l (placement_of b.now) run.items (placement_of b.now).linkedit.signature.end out.new) }
    ensures good { (l : Link) → IsLooked l b.now (P.look places.now) → OnOk result (NoneIsBad l (placement_of b.now)) }
    ensures why { (l : Link) → IsLooked l b.now (P.look places.now) → IfErr result (UnwrittenStands l (placement_of b.now)) }
{
    match write_contents(alloc, b, places, out) {
        Ok(run) => Ok(run),
        Err(fault) => Err(told_of(alloc, b, places, fault, out)),
    }
}
