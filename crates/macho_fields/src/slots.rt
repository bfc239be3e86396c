//! Slots: the loader is asked to write each.
ghost use Rattle.std.specs.Prelude.{◌≡◌, ◌^◌, ◌<◌, ◌++◌, length, map, OnOk, IfErr};
ghost use Rattle.macho_model.specs.Links.{Link};
ghost use Rattle.macho_model.specs.Placement.{Placed};
ghost use Rattle.macho_promise.specs.Asked.{slot_fixup};
ghost use Rattle.macho_fields.specs.Looks.{Tells};
ghost use Rattle.macho_fields.specs.Faults.{FillStands};
ghost use Rattle.macho_fields.specs.Through.{SlotsAreFound, EachSlotFits};
ghost use Rattle.macho_fields.specs.steps.Stubs.{SlotsAsked, CannotAskSlot};

use crate::asking::fixup_of;
use crate::fault::FillFault;
use crate::places::Places;
use macho_fixups::Fixup;
use macho_model::{Site, Slot};

/// Asks for the fixups of slots.
fn ask_slots<P: Places>(places: &P, slots: &[Slot], run: &mut Vec<Fixup>) -> Result<(), FillFault>
    requires few { length slots.now < 2 ^ 32 }
    ensures done { OnOk result (SlotsAsked (P.look places.now) slots.now (length slots.now) run.old.items run.new.items) }
    ensures why { IfErr result (CannotAskSlot (P.look places.now) slots.now) }
{
    for index in 0..slots.len() {
        let slot = slots[index];
        let Some(kind) = fixup_of(places, slot.target, 0) else {
            return Err(FillFault::Rebase {
                at: Site::Slot {
                    index: index as u32,
                },
            });
        };
        run.push(Fixup {
            address: slot.address,
            kind,
        })?;
    }
    Ok(())
}

/// Pushes the fixup of each slot of a placement to a run.
///
/// # Errors
///
/// A slot's value has no word that the loader could make it from, or there is not enough memory.
pub fn slot_fixups<P: Places>(
    places: &P,
    slots: &[Slot],
    run: &mut Vec<Fixup>,
) -> Result<(), FillFault>
    requires few { length slots.now < 2 ^ 32 }
    ensures done { (l : Link) (p : Placed) → Tells l p (P.look places.now) → slots.now ≡ p.slots
        → OnOk result (run.new.items ≡ run.old.items ++ map (slot_fixup l p) slots.now) }
    ensures only { (l : Link) (p : Placed) → Tells l p (P.look places.now) → SlotsAreFound l p → slots.now ≡ p.slots
        → OnOk result (EachSlotFits l p) }
    ensures why { (l : Link) (p : Placed) → Tells l p (P.look places.now) → SlotsAreFound l p → slots.now ≡ p.slots
        → IfErr result (FillStands l p) }
{
    ask_slots(places, slots, run)
}
