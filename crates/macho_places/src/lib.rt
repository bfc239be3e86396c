//! Where the parts of a placed link are, and what its symbols lead to: the look-ups by which its contents are filled.
//!
//! Nothing is copied. Sections are found in rows of their files, all else by number:
//!
//!     bl _puts    target of the symbol: import 0; its stub: number 0 of the placement's stubs; its address: told there
#![tactic(auto)]

mod addresses;
mod lookups;
mod offsets;

pub use addresses::{Addresses, SectionKey};
pub use lookups::LinkPlaces;
pub use offsets::file_offset;
