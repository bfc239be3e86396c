//! Plain, slow functions over the bytes of an image: its load commands one by one, the words on its chains, and its memory byte by byte,
//! as the definitions of `macho_model` have them; and what the rules of the loader ask of one record.
#![tactic(auto)]

mod chain_words;
mod fixed;
mod loader_rules;
mod mapped;
mod reads;
mod segment_rules;
mod segments;
mod table_rules;
mod tables;
mod walk;
mod word_rules;

pub use chain_words::{
    SEGMENT_PAGE, is_on_chain, pages_in, pages_of, start_of, step_in, steps_of, word_of,
};
pub use fixed::{addend_in, addend_of, binds, ordinal};
pub use loader_rules::{Asked, other_text, second_table};
pub use mapped::{memory_byte, segment_byte};
pub use reads::{range_from, u16_from, u32_from, u64_from};
pub use segment_rules::{
    commands_end_inside, ends_below, file_bytes_are_inside, follows, head_fits, holds_commands,
    is_paged, is_whole, protections_are_right,
};
pub use segments::{SegmentNumbers, segment_at};
pub use table_rules::{header_is_known, parts_are_inside, starts_are_right};
pub use tables::{
    FixupTable, base_address, count_of_pages, count_of_starts, entry_size, library_of,
    name_offset_of, offset_of_starts, place_of_import, place_of_segment, start_of_page, table_at,
};
pub use walk::{Listed, count_of, is_listed, is_segment_named, nth};
pub use word_rules::page_has;
