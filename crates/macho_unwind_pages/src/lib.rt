//! Compact unwind information, before it is bytes: which encodings are shared, and which functions stand on which page.
#![tactic(auto)]

mod bound;
mod entries;
mod laws;
mod numbering;
mod offsets;
mod paging;
mod planning;
mod plans;
mod ranking;

pub use bound::{output_size, unwind_bound};
pub use entries::{MOST_PERSONALITIES, Personality, ResolvedUnwindInfo, UnwindFault, UnwindInput};
pub use laws::{ids_are_named, plans_are_one, plans_are_short};
pub use paging::Row;
pub use planning::plan;
pub use plans::{Lsda, Page, Plan};
