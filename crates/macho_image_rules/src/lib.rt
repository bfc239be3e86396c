//! What decides, for the bytes of an image and a given placement, whether the image is that of its link, each condition by itself.
#![tactic(auto)]

mod asking;
mod bytes;
mod chain;
mod commons;
mod instructions;
mod laws;
mod marks;
mod needing;
mod plain_fields;
mod segments;
mod stub_walk;
mod stubs;
mod walks;
mod words;

pub use asking::first_misled;
pub use bytes::{
    carried_sections_lie_elsewhere, first_nonzero, mapped_segments_give_their_bytes,
    placed_segments_are_mapped,
};
pub use chain::{Needed, first_difference, line_at, sort_by_address};
pub use commons::{WrongCommon, first_wrong_common, placed_commons_stand};
pub use instructions::{loads_from, pages_to};
pub use laws::{differences_are_of_the_link, needed_words_are_slots_and_pointers};
pub use marks::first_wrong_byte;
pub use needing::needed_words;
pub use plain_fields::{WrongField, first_wrong_plain};
pub use segments::{is_segment, segments_are};
pub use stub_walk::{first_wrong_stub, placed_stubs_lie};
pub use stubs::{StubWords, stub_says};
pub use walks::{WrongByte, first_wrong_section, placed_sections_stand};
pub use words::{ImportName, bind_leads, rebase_leads};
