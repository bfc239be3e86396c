//! What objects ask for, noted one use at a time: imports, slots, stubs and import entries of their own, each numbered by
//! first need.
//!
//!     bl _puts            import 0, slot 0 (of import 0), stub 0
//!     adrp _var@GOTPAGE   import 1, slot 1 (of import 1)
//!     .quad _puts + 512   an entry of its own: import 0 with addend 512
#![tactic(auto)]

mod keys;
mod laws;
mod needs;
mod tables;

pub use keys::{SlotKey, key};
pub use laws::{names_are_noted, needs_are_whole};
pub use needs::Needs;
pub use tables::{Tables, is_import};
