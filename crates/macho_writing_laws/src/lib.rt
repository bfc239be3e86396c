//! What follows from a placed, sound link: laws that the writers of its image rest on, the proof that the image is composed of its parts,
//! and of a valid link that no refusal stands.
//!
//! Of a valid link itself no refusal stands, but for a name that can't be written. So a linker that refuses only where a refusal stands
//! links every other valid link, but for want of memory.
#![tactic(auto)]

mod found;
mod valid;

pub use found::{
    entries_fit, heads_fit, names_are_plain, parts_stand_in_the_file, placed_links_are_found,
    ranges_suffice, slots_and_stubs_stand, targets_have_places, templates_are_tight,
    words_have_room,
};
pub use valid::valid_placements_are_not_refused;
