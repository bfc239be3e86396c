//! What a run prints: the line of a fault, the lines of `-map`, and those of `-generate`.
//!
//! Texts are printed in pieces, in one go over what they tell, and take no memory. The job whose fault or image is told is handed on
//! from `macho_job`.
#![tactic(auto)]

mod lines;
mod map;
mod refusals;
mod report;
mod rules;
mod shapes;
mod totals;

pub use crate::lines::print_lines;
pub use crate::report::print_fault;
pub use macho_job::{Fault, FileNames, InputKind, LinkedImage, Linker, gather, uuid_of};
