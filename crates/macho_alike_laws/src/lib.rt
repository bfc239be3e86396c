//! Links with libraries that are alike, as a library and its text stub are: laws that say that they are linked alike.
#![tactic(auto)]

mod laws;

pub use laws::{alike_links_link_alike, stubs_are_taken_for_libraries, stubs_stand_for_libraries};
