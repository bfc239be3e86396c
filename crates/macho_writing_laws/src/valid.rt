//! A law on valid links: the contract of a function that does nothing.
ghost use Rattle.macho_writing_laws.specs.Valid.{PlacementIsNotRefused};

/// Of a valid link whose objects are objects, and that is placed and laid out, no refusal stands that keeps its placement.
pub fn valid_placements_are_not_refused()
    ensures { PlacementIsNotRefused }
{}
