//! The words that a compiler gives to ld64, as words of the linker `wild_macho`.
//!
//! A table says of each option of ld64 which words behind it are its operands, and what it does: it is passed on, passed on under another
//! name, noted beside the words, without effect, or refused. [`core_words`] reads a command line by it. No option is dropped without a
//! reason, which [`Why::sentence`] gives. Files of words and lists of inputs are cut by [`words_in`] and [`inputs_in`], and [`expanded`]
//! puts their words in place.
#![tactic(auto)]

mod adding;
mod cutting;
mod effects;
mod fault;
mod files;
mod named;
mod reading;
mod table;

pub use crate::effects::{CoreName, Effect, Note, Why};
pub use crate::fault::WordFault;
pub use crate::files::{FileFault, FileKind, inputs_in, words_in};
pub use crate::named::{NamedFile, expanded, file_named};
pub use crate::reading::{CoreWords, NotedWord, core_words};
pub use crate::table::{Operands, Row, row_for};
