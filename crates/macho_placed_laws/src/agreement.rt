//! Laws on a file whose head is that of a link: each is the contract of a function that does nothing.
ghost use Rattle.macho_placed_laws.specs.Agreement.{HeadTies, LibrariesAreSaid, SegmentsHaveRoom};

/// What the load commands of such a file say is what the placement says: segments, section headers, the end of the commands, the
/// entry, the tables of `__LINKEDIT`.
pub fn head_agrees()
    ensures { HeadTies }
{}

/// The libraries that it names are those that the link needs.
pub fn libraries_are_said()
    ensures { LibrariesAreSaid }
{}

/// It has room for its segments where it ends with its signature, as the loader asks.
pub fn segments_have_room()
    ensures { SegmentsHaveRoom }
{}
