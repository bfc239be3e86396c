//! The link: from inputs to the bytes of an image, pass by pass (`passes` lists them).
#![tactic(auto)]

mod contents;
mod fault;
mod lists;
mod passes;
mod planned;
mod planning;
mod refused;
mod sealing;
mod tables;
mod write;

pub use passes::link;
pub use planning::{plan_inputs, read_inputs};
