//! Laws on links with libraries that are alike: each is the contract of a function that does nothing.
ghost use Rattle.macho_alike_laws.specs.Laws.{AlikeLinksLinkAlike, AlikeLinksTurn, StubsAreAlike, StubsLinkAlike, LinksHoldStubs, InputsAreTaken, StubsAreTaken};

/// Links that differ in libraries alone that are alike have the same definitions, needs, exports, sizes, placements, faults and answers.
pub fn alike_links_link_alike()
    ensures alike { AlikeLinksLinkAlike }
    ensures turned { AlikeLinksTurn }
{}

/// A link that holds the text stub of a library in its place is linked as the one that holds the library.
pub fn stubs_stand_for_libraries()
    ensures alike { StubsAreAlike }
    ensures linked { StubsLinkAlike }
{}

/// A link that takes the inputs of another one, but the stub in place of a library, holds the stub in its place.
pub fn stubs_are_taken_for_libraries()
    ensures begin { LinksHoldStubs }
    ensures inputs { InputsAreTaken }
    ensures stubs { StubsAreTaken }
{}
