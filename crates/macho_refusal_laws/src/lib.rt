//! When a link is refused, and when it isn't: laws on answers. The reading of links, whose refusals they speak of, is handed on.
#![tactic(auto)]

mod laws;

pub use laws::{inputs_are_read, nothing_stands, refusals_stand, standing_refusals_are_told};
pub use macho_reading::{ReadLink, read_link};
