//! Symbols: which definition each global name of a link has, and what its symbols lead to.
#![tactic(auto)]

mod asked;
mod choosing;
mod exports;
mod libraries;
mod resolved;
mod resolver;
mod solved;

pub use exports::ExportName;
pub use macho_export_lists::ExportList;
pub use macho_model::Target;
pub use macho_symbol_names::SymbolFault;
pub use resolved::Resolved;
pub use resolver::Resolver;
pub use solved::{Common, Import, OwnEntry};
