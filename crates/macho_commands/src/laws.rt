//! Laws on the load commands of a link: each is the contract of a function that does nothing.
ghost use Rattle.macho_commands.specs.Laws.{FoundIsSaid, HeadIsFoundAgain, HeadIsRead, HeadIsSpelled, HeadKeepsRules};

/// A file in which a reader finds a header of a link's kind, with commands that say those of the link, says the link's load commands.
pub fn head_found_is_said()
    ensures { FoundIsSaid }
{}

/// Segments, section headers, entry, UUID, libraries and tables of a file that says a link's load commands are those of the
/// link and of its placement.
pub fn head_is_read()
    ensures { HeadIsRead }
{}

/// A file with the header and the load commands of a link whose segments are placed keeps the loader's rules on them.
pub fn head_keeps_rules()
    ensures { HeadKeepsRules }
{}

/// The bytes of a head that was written with commands that say those of a link are the bytes of the link's head.
pub fn head_is_spelled()
    ensures { HeadIsSpelled }
{}

/// A reader of a file that begins with the bytes of a link's head finds the link's header and load commands, if their numbers fit.
pub fn head_is_found_again()
    ensures { HeadIsFoundAgain }
{}
