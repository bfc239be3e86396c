//! What the tables of `__LINKEDIT` say of a placed link: exported names, symbols, imports.
//!
//! ```text
//! exports    _f   Section 0 of file 2, 8 bytes in   ->   name _f, value 0x4008 from the base
//!            _exit   import 0, of library 1          ->   name _exit, of library 1
//! symbols    symbol 3 of file 2                      ->   name _f, section 1, address 0x100004008
//! ```
#![tactic(auto)]

mod exports;
mod laws;
mod rows;
mod sections;
mod told;

pub use exports::{kept_exports, said_exports};
pub use laws::{exports_are_all_told, symbols_fit_a_table};
pub use rows::write_symbol_table;
pub use told::told_imports;
