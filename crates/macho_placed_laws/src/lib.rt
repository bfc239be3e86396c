//! Laws on a placed link, before its image is written:
//!
//!     targets      a target that moves with the image is a carried section, a chosen common or the image's base, so it has a
//!                  place, and only one
//!     agreement    what a file's head says, against the placement: laws that follow from the load commands alone
//!     ranges       each part of the image is written into a range of the file of its own
#![tactic(auto)]

mod agreement;
mod ranges;
mod targets;

pub use agreement::{head_agrees, libraries_are_said, segments_have_room};
pub use ranges::parts_have_ranges_of_their_own;
pub use targets::{slots_have_one_place, targets_are_of_the_link, targets_have_one_place};
