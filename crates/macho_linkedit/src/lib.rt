//! The tables of `__LINKEDIT`, as far as they say what a link asks for: the fixups and the import table, the symbol table
//! and its strings, the exports trie.
#![tactic(auto)]

mod counting;
mod exports;
mod imports;
mod laws;
mod libraries;
mod listing;
mod names;
mod run;
mod symbols;

pub use counting::{SizeArguments, SizesAsked, count};
pub use exports::{ExportSays, NamedExport, ReservedTrie, reserve_trie, value_says};
pub use imports::{ImportTable, import_table};
pub use laws::{
    exports_are_found, exports_are_said, fixups_are_said, resolved_can_be_listed, sorted_is_run,
    symbols_are_said,
};
pub use libraries::{library_number, library_places};
pub use listing::{LinkedObject, TableSymbol, TableSymbols, table_row, table_symbols};
pub use run::sort_run;
pub use symbols::{SymbolWriter, TableRow};
