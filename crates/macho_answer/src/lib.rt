//! What a link answers: its image with what is told beside the bytes, or why it is refused, and when each refusal stands. Types alone.
#![tactic(auto)]

mod fault;
mod image;

pub use fault::{InputFault, LinkError};
pub use image::{ImportName, LinkedImage};
pub use macho_layout::Placement;
pub use macho_symbols::ExportName;
