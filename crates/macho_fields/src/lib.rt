//! One section filled: its bytes, its fields, and the fixups that it asks for.
//!
//! The bytes of a carried section are copied from its object to their place in the output. Then each relocated field is
//! written for its target and addend: a BL at 0x100004000 to a function at 0x100004010, `00 00 00 94` in the object, becomes
//! `04 00 00 94`. A pointer that moves with the image is left to the loader, and a fixup is noted for it. Stubs are written,
//! and slots ask for their fixups, in the same way.
//!
//! Of given bytes the same is asked, and nothing is written: which pointers of a section the loader has to write (`pointers_of`),
//! and which field is the first that doesn't say its target and addend (`first_wrong_field`).
//!
//! What symbols lead to and where things are is looked up (`Places`); relocations are decoded in place, and no list of
//! them is kept.
#![tactic(auto)]

mod asking;
mod decoding;
mod fault;
mod field;
mod kinds;
mod laws;
mod least;
mod making;
mod places;
mod pointers;
mod section;
mod slots;
mod source;
mod stubs;
mod values;
mod write;
mod wrong;

pub use fault::FillFault;
pub use laws::placed_things_are_found;
pub use least::section_fault;
pub use places::Places;
pub use pointers::{Pointer, pointers_of};
pub use section::fill_section;
pub use slots::slot_fixups;
pub use stubs::{STUB_BYTES, fill_stubs};
pub use values::address_of;
pub use wrong::first_wrong_field;
