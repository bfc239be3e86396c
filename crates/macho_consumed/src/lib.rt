//! Sections of objects that are read and put into the image in another form: `__mod_init_func`, whose pointers become the
//! offsets of `__init_offsets`, and `__compact_unwind`, whose entries become `__unwind_info`.
//!
//! Before addresses `read_initializers` and `read_entries` check their rules, and give a row for each initializer and each
//! entry. A row keeps numbers of sections and symbols, and no address.
//!
//! ```text
//! __mod_init_func    a slot of 8 zero bytes, with one pointer to a symbol in a carried section
//! __compact_unwind   00: a pointer to a function    08: its bytes      12: how its frame is unwound
//!                    16: a pointer to a personality function           24: a pointer to language data
//! ```
#![tactic(auto)]

mod entries;
mod entry;
mod fault;
mod gathering;
mod laws;
mod listing;
mod places;
mod reading;
mod room;
mod rows;
mod section;
mod slots;
mod starts;
mod targets;

pub use fault::ConsumedFault;
pub use laws::{initializers_are_rows, rows_are_used};
pub use listing::{Kind, is_of_kind};
pub use macho_needs::Tables;
pub use places::is_plain_pointer;
pub use reading::{read_entries, read_initializers};
pub use room::{RoomFault, unwind_room};
pub use rows::{Initializer, PersonalityUse, SectionPlace, UnwindEntry};
pub use targets::is_section_target;
