//! The files of cases of whole runs: which files, words and failures a run has, and what is wanted of it.
//!
//! [`written_out`] writes out the tables of a file, [`lines_of`] gives its lines, of which those behind `case` are a case ([`case_at`]),
//! in the form that `reader` shows. [`files_of`] makes the files of a case from tables of sections and symbols, [`rest_of`] and
//! [`number_of`] look for a line of it. Nothing here knows the linker: who runs it hands what came to [`check_answer`],
//! [`check_image`] and [`check_held`], which note what is not as wanted.
#![tactic(auto)]

mod files;
mod lines;
mod notes;
mod object;
mod reader;
mod values;
mod wanted;

pub use crate::files::{GivenFile, bytes_under, files_of, words_of_case};
pub use crate::lines::{Line, number_of, rest_of};
pub use crate::notes::note;
pub use crate::reader::{case_at, lines_of, written_out};
pub use crate::values::{Unread, number};
pub use crate::wanted::{
    Came, check_answer, check_bytes, check_held, check_image, check_line, check_same,
};
