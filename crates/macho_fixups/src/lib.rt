//! Chained fixups: the words that the loader writes anew, and the table that says where each page's chain begins.
#![tactic(auto)]

mod chains;
mod imports;
mod laws;
mod run;
mod starts;
mod table;
mod words;

pub use chains::write_chains;
pub use imports::{IMPORT_ADDEND_FORMAT, ImportEntry};
pub use laws::{
    bytes_beside_words_stay, chains_are_told, names_are_read, no_fixup_no_pages, pages_are_bounded,
    places_are_in_segments, room_grows,
};
pub use run::{Fixup, FixupSegment};
pub use table::{table_size, write_chained_fixup_table};
pub use words::{FixupKind, NotEncodable, write_bind_encoding, write_rebase_encoding};
