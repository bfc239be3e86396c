//! Laws of the members that are linked: each is the contract of a function that does nothing.
ghost use Rattle.macho_members.specs.Laws.{NeedsAreLeast, BringsOne, NeededAreOne};

/// Each set of members that keeps the rules has all members that are linked.
pub fn needs_are_least()
    ensures { NeedsAreLeast }
{}

/// A name brings one member at most.
pub fn brings_one()
    ensures { BringsOne }
{}

/// There is one list of the members that are linked, in order and each once.
pub fn needed_are_one()
    ensures { NeededAreOne }
{}
