//! All of it: slots, sections, stubs.
ghost use Rattle.std.specs.Prelude.{◌≡◌, ◌^◌, ◌<◌, ◌++◌, length, OnOk, IfErr};
ghost use Rattle.macho_model.specs.Links.{Link};
ghost use Rattle.macho_layout.specs.Placements.{placed_of};
ghost use Rattle.macho_promise.specs.Asked.{fixups_asked};
ghost use Rattle.macho_fields.specs.Faults.{FillStands, NoneIsBad};
ghost use Rattle.macho_fields.specs.Looks.{TellsAddresses};
ghost use Rattle.macho_fields.specs.Through.{StubsAreFound, NoStubIsFar};
ghost use Rattle.macho_contents.specs.Fitting.{SectionsFit, StubsFit, AreKnown, AreAllToFill};
ghost use Rattle.macho_contents.specs.Filled.{StubsAreFilled, ContentsAreFilled};

use crate::least::least_fault;
use crate::sections::fill_sections;
use macho_fields::{FillFault, Places, STUB_BYTES, fill_stubs, slot_fixups};
use macho_fixups::Fixup;
use macho_layout::Placement;
use macho_object::File;
use macho_places::file_offset;

/// There are fewer slots and fewer stubs than numbers of 32 bits tell.
const GREATEST_COUNT: usize = u32::MAX as usize;

/// Sets the stubs of a placement in the file, one behind the other from the place of the first.
fn set_stubs<P: Places>(places: &P, placement: &Placement, out: &mut [u8]) -> Result<(), FillFault>
    requires few { length placement.now.stubs.items < 2 ^ 32 }
    requires fit { StubsFit (placed_of placement.now) (length out.old) }
    ensures done { TellsAddresses (placed_of placement.now) (P.look places.now) → StubsAreFound (placed_of placement.now)
        → OnOk result (StubsAreFilled (placed_of placement.now) out.old out.new) }
    ensures only { (l : Link) → TellsAddresses (placed_of placement.now) (P.look places.now) → StubsAreFound (placed_of placement.now)
        → OnOk result (NoStubIsFar l (placed_of placement.now)) }
    ensures why { (l : Link) → TellsAddresses (placed_of placement.now) (P.look places.now) → StubsAreFound (placed_of placement.now)
        → IfErr result (FillStands l (placed_of placement.now)) }
{
    if placement.stubs.is_empty() {
        return Ok(());
    }
    let at = file_offset(&placement.segments, placement.stubs[0].address) as usize;
    let size = STUB_BYTES * placement.stubs.len();
    fill_stubs(places, &placement.stubs, &mut out[at..at + size])
}

/// Asks for the fixups of the slots of a placement, fills its sections at their ranges of the file, and sets its stubs.
/// `views` are views of the objects by the numbers of their files; `out` is the whole file.
///
/// # Errors
///
/// A value doesn't fit where it is to be written, or a word can't be written by the loader; or there is not enough memory. Of
/// several faults the first in the order of refusals is told: a pointer's bad place, a value that has no word, one that doesn't
/// fit; of one kind a field's before a slot's and a stub's, and the first by section and relocation. The bytes and the run are
/// then of no use.
pub fn fill_contents<P: Places>(
    places: &P,
    views: &[Option<File<'_>>],
    placement: &Placement,
    run: &mut Vec<Fixup>,
    out: &mut [u8],
) -> Result<(), FillFault>
    requires sections { SectionsFit views.now (placed_of placement.now) (length out.old) }
    requires symbols { AreKnown views.now (P.has_symbol places.now) }
    requires stubs { StubsFit (placed_of placement.now) (length out.old) }

    // Sections and stubs are filled, and all that the image asks for stands behind the run.
    ensures done { (l : Link) → AreAllToFill l (placed_of placement.now) views.now (P.look places.now)
        → OnOk result (ContentsAreFilled l (placed_of placement.now) out.old out.new) }
    ensures asked { (l : Link) → AreAllToFill l (placed_of placement.now) views.now (P.look places.now)
        → OnOk result (run.new.items ≡ run.old.items ++ fixups_asked l (placed_of placement.now)) }

    // Only where no value is out of range, no word can't be written and none has a bad place; and a refusal stands.
    ensures only { (l : Link) → AreAllToFill l (placed_of placement.now) views.now (P.look places.now)
        → OnOk result (NoneIsBad l (placed_of placement.now)) }
    ensures why { (l : Link) → AreAllToFill l (placed_of placement.now) views.now (P.look places.now)
        → IfErr result (FillStands l (placed_of placement.now)) }
{
    if placement.slots.len() > GREATEST_COUNT || placement.stubs.len() > GREATEST_COUNT {
        return Err(FillFault::OutOfMemory);
    }
    if let Err(fault) = slot_fixups(places, &placement.slots, run) {
        return Err(least_fault(places, views, placement, fault));
    }
    if let Err(fault) = fill_sections(places, views, placement, run, out) {
        return Err(least_fault(places, views, placement, fault));
    }
    set_stubs(places, placement, out)
}
