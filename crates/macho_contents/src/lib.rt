//! The contents of an image that come from its inputs, filled into the file: sections with their fields, stubs, and the words that the
//! loader writes over slots and pointers, with the table that tells of them.
//!
//!     slots      a fixup for each
//!     sections   the bytes of each that has some, at its place in the file, its fields set; a fixup for each pointer
//!     stubs      one behind the other, from the place of the first
//!
//! What slots and sections ask for is put into the order of addresses, and written word by word: each leads to the next one of its page.
//! The table stands in `__LINKEDIT`: where each page's first word is, then the imports.
//!
//! ```text
//! asked    slots 0x100004000, 0x100004008; pointers 0x100008018, 0x100008010
//! run      0x100004000, 0x100004008, 0x100008010, 0x100008018
//! words    steps to the next one 2, 0, 2, 0; starts of two pages
//! ```
#![tactic(auto)]

mod chaining_laws;
mod contents;
mod filling_laws;
mod least;
mod sections;
mod segments;
mod table;
mod words;

pub use chaining_laws::{chained_words_lie_in_ranges, fixups_are_kept};
pub use contents::fill_contents;
pub use filling_laws::{parts_lie_in_their_ranges, parts_that_stand_are_filled, placed_links_fit};
pub use macho_places::{LinkPlaces, file_offset};
pub use sections::fill_sections;
pub use table::write_fixup_table;
pub use words::write_words;
