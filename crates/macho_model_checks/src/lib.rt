//! What shows the definitions of `macho_model` to be right: rows that the checker computes, instances of each relation, what
//! breaks each part of one, and tests of the plain functions that compute them.
#![tactic(auto)]

mod laws;

pub use laws::{valid_links_keep_each_part, what_breaks_a_rule_is_refused};

#[cfg(test)]
mod tests;
