//! A law on plans: the contract of a function that does nothing.
ghost use Rattle.macho_sizing.specs.Sections.{SectionsArePlanned};

/// The sections that a plan gets of the views of a link's objects are the carried sections of the link, in order.
pub fn sections_are_planned()
    ensures { SectionsArePlanned }
{}
