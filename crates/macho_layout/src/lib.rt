//! The placement of an image: which address and which file range each of its parts gets.
//!
//! An executable of one function and 8 bytes of data, with pages of 16 KiB:
//!
//!     0x100000000   __TEXT      header and load commands, then `__text` at 0x100000270
//!     0x100004000   __DATA      `__data`, then `__common` and `__bss`, which have no bytes in the file
//!     0x100008000   __LINKEDIT  fixup table, exports trie, symbols, strings, signature
#![tactic(auto)]

mod cells;
mod compute;
mod fault;
mod headers;
mod laws;
mod members;
mod names;
mod placement;
mod places;
mod plan;
mod spec;
mod sums;

pub use fault::LayoutFault;
pub use laws::{
    what_a_plan_counts_is_the_links, what_is_laid_out_ends_within_the_sum,
    what_is_laid_out_is_whole,
};
pub use macho_model::{
    Counts, Limit, Linkedit, PlacedCommon, PlacedSection, PlacedSegment, Range64, Slot, Stub,
};
pub use placement::Placement;
pub use plan::Plan;
pub use spec::{CommonSpec, OutputName, Planned, SectionSpec, StubSpec};
