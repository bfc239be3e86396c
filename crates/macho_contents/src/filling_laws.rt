//! Laws on what is filled: each is the contract of a function that does nothing.
ghost use Rattle.macho_contents.specs.FillingLaws.{SectionPartsLie, StubPartsLie, SectionPartsFill, StubPartsSet, SectionsHaveRoom, StubsHaveRoom, SymbolsAreKnown};

/// The parts that sections and stubs are filled as lie in the ranges of the file that these have by their placement.
pub fn parts_lie_in_their_ranges()
    ensures sections { SectionPartsLie }
    ensures stubs { StubPartsLie }
{}

/// Where these parts stand in a file, each section that has bytes is filled and each stub set at its place there.
pub fn parts_that_stand_are_filled()
    ensures sections { SectionPartsFill }
    ensures stubs { StubPartsSet }
{}

/// The sections and stubs of a placed link have room in the file, and the symbols of its objects are known.
pub fn placed_links_fit()
    ensures sections { SectionsHaveRoom }
    ensures stubs { StubsHaveRoom }
    ensures symbols { SymbolsAreKnown }
{}
