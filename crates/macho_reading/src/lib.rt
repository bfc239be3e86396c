//! One read of all that the objects of a link ask for, before anything has an address: uses of symbols, initializers, unwind entries,
//! the entry of the image and its exports.
//!
//!     carried relocations    imports, slots, stubs           what stands against a relocation is kept aside
//!     initializers           their names                     broken ones are refused behind all names, entry and lists
//!     unwind entries         personality functions           the same
//!     export lists           names of libraries
//!
//! A refusal is told before those that stand behind it in `LinkError`. Where initializers or unwind entries are broken, the names
//! that they use are looked for before that is told.
#![tactic(auto)]

mod laws;
mod link;
mod names;
mod noting;
mod reading;
mod refusal;
mod rows;
mod undefined;

pub use laws::{personalities_fit, what_is_read_is_not_refused};
pub use link::ReadLink;
pub use reading::read_link;
