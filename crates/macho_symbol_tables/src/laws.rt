//! Laws on exported names and on the sizes of a symbol table: each is the contract of a function that does nothing.
ghost use Rattle.macho_symbol_tables.specs.Laws.{ExportsAreAllTold, KeptAreOne, SectionsAreFew, StringsAreShort};

/// The exports of a link are told by their names, targets and weakness; and what keeps their places in a trie is known by that.
pub fn exports_are_all_told()
    ensures told { ExportsAreAllTold }
    ensures kept { KeptAreOne }
{}

/// A byte tells the number of each output section, and 32 bits the place of each name.
pub fn symbols_fit_a_table()
    ensures sections { SectionsAreFew }
    ensures strings { StringsAreShort }
{}
