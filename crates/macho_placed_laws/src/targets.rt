//! Laws on targets of a link and their places: each is the contract of a function that does nothing.
ghost use Rattle.macho_placed_laws.specs.Targets.{SymbolTargetsAreOfLink, NameTargetsAreOfLink, RelocationTargetsAreOfLink, TargetsHavePlaces, PlacesAreOne, TargetsStandAbove, SlotsHavePlaces, SlotPlacesAreOne};

/// What a symbol, a name or a relocation leads to is a carried section, a chosen common or the image's base, where it moves with
/// the image.
pub fn targets_are_of_the_link()
    ensures symbols { SymbolTargetsAreOfLink }
    ensures names { NameTargetsAreOfLink }
    ensures relocations { RelocationTargetsAreOfLink }
{}

/// In a placement that lists all parts of the link such a target has its address, and no other; the address isn't below the base.
pub fn targets_have_one_place()
    ensures had { TargetsHavePlaces }
    ensures one { PlacesAreOne }
    ensures above { TargetsStandAbove }
{}

/// A target with a slot has the slot's address, and no other.
pub fn slots_have_one_place()
    ensures had { SlotsHavePlaces }
    ensures one { SlotPlacesAreOne }
{}
