//! Export lists: texts of lines, each the name of a symbol to be exported or a pattern of such names.
//!
//! A text of four lines, with two plain entries and one pattern:
//!
//!     _main
//!     _a*        # every name that begins with _a
//!
//!       _b
#![tactic(auto)]

mod chosen;
mod ends;
mod entries;
mod list;
mod names;
mod parts;
mod patterns;
mod table;

pub use list::ExportList;
