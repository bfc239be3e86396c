//! From a file whose parts stand to the whole promise of an image: a law over the laws of the parts.
//!
//! `specs/Written` says what is written into a file of zeros, part by part; `specs/Meaning` what each text says; `specs/Whole` what
//! stands in the file then: the head, the tables, the content. What follows is the promise. No code of a linker stands here.
#![tactic(auto)]

mod laws;

pub use laws::{composed_files_are_linked, written_files_are_linked};
