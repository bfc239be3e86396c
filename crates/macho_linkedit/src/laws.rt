//! Laws on the tables of `__LINKEDIT`: each is the contract of a function that does nothing.
ghost use Rattle.macho_linkedit.specs.Laws.{SortedIsRun, TableIsSaid, FixupsAreSaid, TrieSizeIsKept, TrieIsSaid, SymbolsAreSaid, NamesAreFound, ValuesAreFound, ReexportsAreFound, ResolvedCanBeListed};

/// The fixups that the parts of a placed link ask for, sorted, are its run: apart, in segments, all of them and no other.
pub fn sorted_is_run()
    ensures { SortedIsRun }
{}

/// A fixup table with a link's run, entries and names, that stands in a file whose words stand too, says what the file is to
/// say of fixups and of imports.
pub fn fixups_are_said()
    ensures imports { TableIsSaid }
    ensures fixups { FixupsAreSaid }
{}

/// The exports trie: its size before addresses are known is that of the link, and where it stands look-up of a name finds
/// exactly what is exported under it.
pub fn exports_are_said()
    ensures size { TrieSizeIsKept }
    ensures trie { TrieIsSaid }
{}

/// A symbol table with a link's rows, that stands in a file, says the entries of these rows, and the strings. A reader of a file that
/// says them finds the name of each entry.
pub fn symbols_are_said()
    ensures entries { SymbolsAreSaid }
    ensures names { NamesAreFound }
{}

/// What is said of an exported name is what it is exported as: a value at an address, or the number of a library.
pub fn exports_are_found()
    ensures values { ValuesAreFound }
    ensures reexports { ReexportsAreFound }
{}

/// The objects of a link whose symbols are resolved can be listed, where their symbols are few.
pub fn resolved_can_be_listed()
    ensures { ResolvedCanBeListed }
{}
