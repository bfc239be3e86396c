//! Relocated fields and stubs of arm64, as bytes, words and numbers.
//!
//! A relocation's kind says which field it is of (`kinds`); a field is bytes, or the immediate of an instruction, and
//! is written with a value (`fields`). A reference to a slot whose target is known is made one to the target
//! (`relaxation`). A stub goes on to an import through its slot (`stubs`). Two relocations may be of one field (`pairs`).
//!
//! What a field and a stub mean is defined in `macho_model`. Laws join what is written here to that meaning: the contracts
//! of `fields_denote`, `reaches_agree` and `kinds_agree`.
#![tactic(auto)]

mod fields;
mod kinds;
mod laws;
mod names;
mod pairs;
mod relaxation;
mod stubs;
mod words;

pub use fields::{RangeFault, fits_instruction, write_field};
pub use kinds::{FieldSize, MachOAArch64, RelocationKind, RelocationKindInfo, UnknownRelocation};
pub use laws::{fields_denote, kinds_agree, reaches_agree};
pub use names::rel_type_to_string;
pub use pairs::{is_difference, is_with_addend};
pub use relaxation::{NotALoad, Relaxation};
pub use stubs::{PltFault, start_memory_address, write_plt_entry};
pub use words::{PAGE_SIZE, is_add, is_ldr, is_load_store};
