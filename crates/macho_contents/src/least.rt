//! The fault that is told: of all that stand in sections, and one that was met, the first in the order of refusals.
ghost use Rattle.std.specs.Prelude.{All, Contains};
ghost use Rattle.macho_model.specs.Links.{Link};
ghost use Rattle.macho_model.specs.Placement.{Placed};
ghost use Rattle.macho_layout.specs.Placements.{placed_of};
ghost use Rattle.macho_fields.specs.Faults.{FillStands};
ghost use Rattle.macho_contents.specs.Fitting.{AreKnown, AreToFill};
ghost use Rattle.macho_contents.specs.steps.Sections.{IsSeen};

use macho_fields::{FillFault, Places, section_fault};
use macho_layout::{PlacedSection, Placement};
use macho_object::{File, view_of};

/// The fault that is told of a placed section and another one.
fn least_in<P: Places>(
    places: &P,
    views: &[Option<File<'_>>],
    place: PlacedSection,
    told: FillFault,
) -> FillFault
    requires seen { IsSeen views.now place }
    requires symbols { AreKnown views.now (P.has_symbol places.now) }
    ensures { (l : Link) (p : Placed) → AreToFill l p views.now (P.look places.now) → Contains p.sections place
        → FillStands l p told → FillStands l p result }
{
    let Some(file) = view_of(views, place.file) else {
        unreachable!()
    };
    let Some(header) = file.section(place.section) else {
        unreachable!()
    };
    if header.is_no_bits() {
        return told;
    }
    section_fault(places, file, place, told)
}

/// The fault that is told of all sections of a placement and another one that was met: the first in the order of refusals. It
/// is looked for only once a fault was met, and want of memory is told as it is.
pub(crate) fn least_fault<P: Places>(
    places: &P,
    views: &[Option<File<'_>>],
    placement: &Placement,
    met: FillFault,
) -> FillFault
    requires seen { All (IsSeen views.now) placement.now.sections.items }
    requires symbols { AreKnown views.now (P.has_symbol places.now) }
    ensures { (l : Link) → AreToFill l (placed_of placement.now) views.now (P.look places.now)
        → FillStands l (placed_of placement.now) met → FillStands l (placed_of placement.now) result }
{
    if let FillFault::OutOfMemory = met {
        return met;
    }
    let mut told = met;
    for index in 0..placement.sections.len() {
        told = least_in(places, views, placement.sections[index], told);
    }
    told
}
