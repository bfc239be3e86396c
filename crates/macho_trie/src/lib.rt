//! The exports trie of a Mach-O file: the names that an image exports, and what stands for each.
#![tactic(auto)]

mod build;
mod laws;
mod layout;
mod lookup;
mod names;
mod sort;
mod spelling;
mod symbols;
mod table;
mod trie;

pub use laws::sizes_are_one;
pub use lookup::{Export, trie_lookup};
pub use names::{NamedExport, TrieNames, list_exports};
pub use symbols::Symbols;
pub use trie::Trie;
