//! The linker as a value: it takes the arguments and what is linked, in order, and shows what it holds. It links nothing itself.
#![tactic(auto)]

mod linker;
mod owned;
mod paths;

pub use linker::{InputView, Linker};
pub use macho_answer::{InputFault, LinkError};
pub use owned::{ObjectBytes, OwnedInput, StubText};
pub use paths::last_part;
