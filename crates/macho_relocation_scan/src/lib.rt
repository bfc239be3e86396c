//! One walk over the carried relocations of a link, before anything has an address. [`survey`] notes each use, so that imports,
//! slots and stubs get their numbers, and finds what is wrong with relocations and shows without an address: unsupported ones,
//! overlaps, addends that don't fit, and pointers in segments that may hold none.
#![tactic(auto)]

mod findings;
mod overlap;
mod pairs;
mod rows;
mod section;
mod walk;

pub use walk::survey;
