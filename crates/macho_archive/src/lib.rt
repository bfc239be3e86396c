//! Static archives (`ar(5)`): which members they have, with which bytes. [`Archive::read`] views the bytes of one.
//!
//! ```text
//! 0    21 3c 61 72 63 68 3e 0a    `!<arch>` and a line feed
//! 8    entries, one behind the other, each at an even place
//! ```
//!
//! An entry is a header and its contents. Most are members; tables of symbols and the table of long names are passed over.
#![tactic(auto)]

mod archive;
mod entries;
mod fault;
mod fields;
mod laws;
mod names;

pub use archive::{Archive, Member};
pub use fault::{ArchiveFault, ArchiveRule};
pub use laws::members_are_one;
