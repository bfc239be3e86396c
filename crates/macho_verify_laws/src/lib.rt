//! What the bytes of an image decide of its memory, at every slide and for all addresses of imports. A verifier asks the bytes alone; these
//! laws say that nothing else has to be tried.
#![tactic(auto)]

mod memory;
mod words;

pub use memory::{memory_is_decided, sections_are_decided};
pub use words::words_are_decided;
