//! Whether a given placement keeps the rules of a placement of a link, each rule by itself.
//!
//! Any numbers may stand in a placement that another linker made, so no sum here is taken for granted.
#![tactic(auto)]

mod lists;
mod lying;
mod parts;
mod pieces;
mod rules;
mod sections;
mod segments;
mod template;

pub use lists::{are_all_commons, are_all_sections, are_all_slots, are_all_stubs};
pub use lying::{commons_lie, range_lies, slots_lie, stubs_lie, table_lies};
pub use parts::{Part, are_aligned, are_apart};
pub use pieces::all_parts;
pub use rules::{PlanLists, a_placement_keeps_eight_rules, first_broken_rule};
pub use sections::sections_lie;
pub use segments::{are_paged, are_within, begins, follow, is_based};
