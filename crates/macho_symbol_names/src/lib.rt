//! The names of a link's inputs: what is kept of each file's symbols, and for each name the best definition among them.
#![tactic(auto)]

mod ends;
mod fault;
mod files;
mod hashing;
mod kinds;
mod notes;
mod resolve;
mod table;

pub use ends::{block_ends, string_end};
pub use fault::SymbolFault;
pub use files::FileNames;
pub use kinds::{is_absolute, is_common, is_global};
pub use macho_object::File;
pub use macho_stub::DefinedStubLibrary;
pub use notes::{Name, Note, Sort, in_carried};
pub use table::{Entry, Table, name_in, note_in, rows_in};
