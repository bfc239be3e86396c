//! Which members of archives are linked, told by the names that objects and members use and define.
#![tactic(auto)]

mod inputs;
mod laws;
mod lookup;
mod needed;
mod table;
mod taking;

pub use inputs::{Asked, MemberPlace, ObjectNames};
pub use laws::{brings_one, needed_are_one, needs_are_least};
pub use needed::needed_members;
