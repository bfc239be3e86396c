//! What the linker makes of consumed sections once things have addresses: the offsets of initializers (`__init_offsets`) and
//! compact unwind information (`__unwind_info`).
//!
//! ```text
//! __init_offsets   4 each   an initializer's address, counted from the image's base (mach-o/loader.h, S_INIT_FUNC_OFFSETS)
//! __unwind_info             the entries of all objects at their addresses, by rising function (mach-o/compact_unwind_encoding.h)
//! ```
//!
//! Addresses are looked up (`Places`). Each offset has 32 bits; a link with an initializer, a function, language data or a
//! personality's slot further from the base is refused.
#![tactic(auto)]

mod fault;
mod initializers;
mod laws;
mod unwind;

pub use fault::MadeFault;
pub use initializers::{INIT_OFFSET_SIZE, write_initializers};
pub use laws::{
    entries_may_be_built, nothing_written_passes, texts_are_said, texts_fit_their_ranges,
};
pub use macho_consumed::Tables;
pub use unwind::unwind_section;
