//! Laws on the room that is kept for a section, and on what is looked up in it: each is the contract of a function that does nothing.
ghost use Rattle.macho_unwind.specs.Laws.{FarPageNeedsRoom, SectionsAreRead};

/// Where a page would stand at 2^32 or behind it, `unwind_bound` tells 2^32 bytes or more.
pub fn far_page_needs_room()
    ensures { FarPageNeedsRoom }
{}

/// Look-up in all bytes that begin with the section of entries finds what the entries say, and nothing else.
pub fn sections_are_read()
    ensures { SectionsAreRead }
{}
