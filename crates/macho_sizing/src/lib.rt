//! Sizes and placement of a link: what is planned, how large each part is, whether the format takes so much, and where each
//! part stands.
//!
//!     sections, commons, slots, stubs   -> plan
//!     numbers of things                 -> limits
//!     bytes of tables                   -> counts
//!     plan, counts                      -> placement
#![tactic(auto)]

mod asked;
mod counting;
mod laws;
mod numbers;
mod personalities;
mod placing;
mod plan;
mod refusing;
mod sections;
mod size;
mod span;
mod unwind;

pub use asked::{LinkSizes, PlannedLink, SizedLink, SizesOf};
pub use laws::sections_are_planned;
pub use sections::plan_sections;
pub use size::{place_link, plan_link, size_link};
