//! A law on the sizes of a link: they are told by the link alone.
#![tactic(auto)]

mod laws;

pub use laws::sizes_are_one;
