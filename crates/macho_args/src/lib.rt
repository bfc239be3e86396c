//! The command line of the linker, as a fold over its words.
//!
//! [`MachOArgs`] has a field for each thing that the options say. `MachOArgs::parse` reads the words
//! that follow the program's name, asks [`Paths`] for directories and canonical paths, and names the
//! first word that it can't take.
#![tactic(auto)]

mod effects;
mod fault;
mod fields;
mod numbers;
mod options;
mod outside;
mod parse;
mod search_paths;
mod version;
mod words;

pub use crate::fault::ArgsFault;
pub use crate::fields::{InputSpec, MachOArgs, PlatformVersion};
pub use crate::numbers::number_up_to;
pub use crate::outside::Paths;
pub use crate::version::{BadVersion, SemanticVersion};
