//! What the tools have in common: how a run of one ends, how it reads the file that a word names, how it writes its answer, the line of a
//! fault, and the words behind a program's name.
#![tactic(auto)]

mod ending;
mod explaining;
mod fault;
mod files;
mod words;

pub use crate::ending::ended;
pub use crate::explaining::explain;
pub use crate::fault::{ToolFault, ToolRan};
pub use crate::files::{read_word, write_answer};
pub use crate::words::{BadWords, status_of_words, words_of};
