//! Compact unwind information: the section `__unwind_info` of an image, made and read (`mach-o/compact_unwind_encoding.h`).
//!
//! ```text
//! header         28 bytes   version 1, and place and number of the next three tables
//! encodings      4 each     those that every page may name
//! personalities  4 each     the offset of the slot that holds a personality's address
//! page entries   12 each    the first function's offset, the place of the page, the place of its first LSDA entry;
//!                           in the last one the end of the last function, 0, and the end of the LSDA entries
//! LSDA entries   8 each     the offset of a function and that of its language data, by rising function
//! pages          12 each    kind 3, place and number of the functions and of the page's own encodings;
//!                4 each     functions: bits 0 to 23 the offset from the page's first function,
//!                           bits 24 to 31 the number of an encoding, the shared ones first
//!                4 each     the page's own encodings
//! ```
//!
//! Offsets of functions, slots and language data count from the start of the text, places of tables and pages from the
//! start of the section, places in a page from the page. Bits 28 and 29 of an encoding are the number of its personality,
//! from 1. One function at 0x1000 of 0x20 bytes with encoding 0x02000000 makes these 72 bytes:
//!
//! ```text
//!  0   01000000 1c000000 01000000 20000000 00000000 20000000 02000000   encodings at 28: 1, personalities at 32: 0, pages at 32: 2
//! 28   00000002                                                         the encoding
//! 32   00100000 38000000 38000000                                       from 0x1000 on: the page at 56, LSDA entries from 56 on
//! 44   20100000 00000000 38000000                                       the end 0x1020; LSDA entries up to 56
//! 56   03000000 0c00 0100 1000 0000                                     functions at 12: 1, own encodings at 16: 0
//! 68   00000000                                                         offset 0, encoding 0
//! ```
#![tactic(auto)]

mod laws;
mod lookup;
mod records;
mod section;
mod writing;

pub use laws::{far_page_needs_room, sections_are_read};
pub use lookup::{Found, unwind_lookup};
pub use macho_unwind_pages::{
    Personality, ResolvedUnwindInfo, UnwindFault, UnwindInput, ids_are_named, output_size,
    unwind_bound,
};
pub use records::{
    COMPACT_UNWIND_SECTION_NAME, CompactUnwindInfoHeader, CompressedPage, LsdaEntry, PageEntry,
    UNWIND_INFO_SECTION_NAME,
};
pub use section::{UnwindSection, build};
