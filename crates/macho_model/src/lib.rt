//! The definitions under the linker's theorem.
//!
//! They stand in `specs`, a file for each subject, in the order of `docs/THEOREMS.md`. Here stand the plain types that they
//! speak of, none of which holds a collection, so that a contract sees each as it is; numbers and tests that several crates share;
//! and the laws on them.
#![tactic(auto)]

mod constants;
mod laws;
mod placed;
mod rules;
mod segments;
mod targets;

pub use constants::{
    FIXUP_RECORDS, LIMIT_32, NO_START, POINTER_FORMAT, SEGMENT_PAGE, SIGNATURE_FIXED, SIGNED_PAGE,
};
pub use laws::{
    chosen_commons_are_counted, equal_inputs_have_equal_definitions, equal_lists_have_equal_needs,
    fields_denote_at_every_slide, memory_moves_by_the_slide, objects_pass_each_test,
    one_input_more_adds_its_own, plain_pointers_stay, segments_are_apart,
    slots_stand_at_every_slide, what_no_word_covers_is_held,
};
pub use placed::{
    Counts, Linkedit, PlacedCommon, PlacedSection, PlacedSegment, Range64, Slot, Stub,
};
pub use rules::{LoadRule, ObjectRule, UnwindRule};
pub use segments::may_hold_pointers;
pub use targets::{Limit, Site, Target};
