//! Laws on a placed link: each is the contract of a function that does nothing.
ghost use Rattle.macho_writing_laws.specs.Things.{ThingsAreFound, ThingsAreListed, PlacesAreLaidOut, LinksArePlaced};
ghost use Rattle.macho_writing_laws.specs.Slots.{SlotsStand, StubsStand, StubsFollow, SlotsFollow};
ghost use Rattle.macho_writing_laws.specs.Rooms.{PointersStand, SegmentsRise, SegmentsEndLow, WordsHaveRoom, RunsFitTables, TablesHaveRoom};
ghost use Rattle.macho_writing_laws.specs.Heads.{HeadersStand, TablesEnd, TablesStandLow, HeadsHaveRoom};
ghost use Rattle.macho_writing_laws.specs.Sizes.{RangesSuffice, SymbolsFill, SignaturesFill, RunsAreCounted};
ghost use Rattle.macho_writing_laws.specs.Files.{PartsStand};
ghost use Rattle.macho_writing_laws.specs.Targets.{SymbolsHavePlaces, NamesHavePlaces, RelocationsHavePlaces, PlacesAreOfLink, PlacesAreLow, PlacesAreAbove};
ghost use Rattle.macho_writing_laws.specs.Names.{ImportsArePlain, ImportsAreTellable, LibrariesAreWhole};
ghost use Rattle.macho_writing_laws.specs.Entries.{OwnEntriesFit, EntriesFit, EntriesAreOfLink};
ghost use Rattle.macho_writing_laws.specs.Template.{TemplatesAreTight};

/// The placement of a link has each thing of the link, in the link's order; and whatever relocations lead to is among them.
pub fn placed_links_are_found()
    ensures found { ThingsAreFound }
    ensures listed { ThingsAreListed }
    ensures laid { PlacesAreLaidOut }
    ensures link { LinksArePlaced }
{}

/// Slots and stubs stand one behind the other, stubs in front of their slots; and what slots lead to has its place.
pub fn slots_and_stubs_stand()
    ensures slots { SlotsStand }
    ensures stubs { StubsStand }
    ensures stubs_follow { StubsFollow }
    ensures slots_follow { SlotsFollow }
{}

/// The words that the loader writes stand where a chain reaches them, and the table of a link's run has room in its range.
pub fn words_have_room()
    ensures pointers { PointersStand }
    ensures segments { SegmentsRise }
    ensures ends { SegmentsEndLow }
    ensures words { WordsHaveRoom }
    ensures fits { RunsFitTables }
    ensures table { TablesHaveRoom }
{}

/// The head of an image has room in front of the first part, and the tables end in a file of fewer than 2^32 bytes.
pub fn heads_fit()
    ensures split { HeadersStand }
    ensures ends { TablesEnd }
    ensures low { TablesStandLow }
    ensures head { HeadsHaveRoom }
{}

/// The ranges of initializers, unwind information, symbols, strings and the signature have just the room that a link takes.
pub fn ranges_suffice()
    ensures kept { RangesSuffice }
    ensures symbols { SymbolsFill }
    ensures signature { SignaturesFill }
    ensures run { RunsAreCounted }
{}

/// Each part of a placed link stands in the file as it does in memory, in front of the end.
pub fn parts_stand_in_the_file()
    ensures { PartsStand }
{}

/// What symbols, names and relocations lead to has a place, at or above the base and below 2^64.
pub fn targets_have_places()
    ensures symbols { SymbolsHavePlaces }
    ensures names { NamesHavePlaces }
    ensures relocations { RelocationsHavePlaces }
    ensures of_link { PlacesAreOfLink }
    ensures low { PlacesAreLow }
    ensures above { PlacesAreAbove }
{}

/// The names of imports and of libraries hold no NUL, where those that stubs tell hold none.
pub fn names_are_plain()
    ensures plain { ImportsArePlain }
    ensures imports { ImportsAreTellable }
    ensures libraries { LibrariesAreWhole }
{}

/// The import entries that pointers need of their own fit the table of a sound link.
pub fn entries_fit()
    ensures own { OwnEntriesFit }
    ensures fit { EntriesFit }
    ensures of_link { EntriesAreOfLink }
{}

/// The range of the thread-local template is no wider than its sections.
pub fn templates_are_tight()
    ensures { TemplatesAreTight }
{}
