//! Laws on the sizes of a link: it has them exactly where its exported names can be spelled in a trie, as those of inputs
//! that were taken can.
#![tactic(auto)]

mod laws;

pub use laws::{links_have_sizes, sizes_are};
