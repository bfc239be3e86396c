//! What stands on the lines of a text stub (a `.tbd` file, version 4): keys, scalars, and the parts of flow lists.
//!
//! ```text
//! install-name:    '/usr/lib/libSystem.B.dylib'   # a key, a scalar in single quotes, a comment
//! current-version: 1351                           a plain scalar
//! symbols:         [ _exit,                       a flow list begins: a bracket, a scalar, a comma
//!                    "_operator new" ]            a scalar in double quotes; the list ends
//! ```
//!
//! Each text of an answer is a slice of the line.
#![tactic(auto)]

pub mod bytes;
pub mod fault;
pub mod keys;
pub mod laws;
pub mod list;
pub mod scalar;
