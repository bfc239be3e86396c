//! Laws of what filling rests on: each is the contract of a function that does nothing.
ghost use Rattle.macho_fields.specs.Laws.{PlacedOnce, FoundInPlacement, TargetsKept};

/// In a placement of a link each section, common, slot and stub has one address; and what relocations lead to has
/// its place, where the objects keep their rules.
pub fn placed_things_are_found()
    ensures once { PlacedOnce }
    ensures found { FoundInPlacement }
    ensures kept { TargetsKept }
{}
