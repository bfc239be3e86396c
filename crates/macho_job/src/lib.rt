//! The job of a run: what the words of a command line and the files outside make of a link.
//!
//! [`gather`] finds each input, takes it as its first bytes say, and reads the export lists; [`uuid_of`] makes the image's
//! identifier. Why a run fails is a [`Fault`].
#![tactic(auto)]

mod fault;
mod heads;
mod inputs;
mod lists;
mod made;
mod names;
mod search;
mod sources;
mod uuid;

pub use crate::fault::{Fault, InputKind};
pub use crate::heads::Head;
pub use crate::names::FileNames;
pub use crate::sources::gather;
pub use crate::uuid::uuid_of;
pub use macho_answer::LinkedImage;
pub use macho_linker::{InputFault, InputView, LinkError, Linker};
