//! Views of relocatable objects and dynamic libraries: arm64 Mach-O files, taken exactly where a grammar holds.
//!
//! `File::parse_bytes` looks at each record once, and tells a rule that is broken and the place of a record that breaks
//! it. The view that it gives holds no list: each accessor decodes in place. What it reads of an object:
//!
//!     0     header            cf fa ed fe 0c 00 00 01 .. 01 00 00 00 ..
//!     32    LC_SEGMENT_64     the one segment, with a header for each section behind it
//!           LC_SYMTAB         where the symbols and their names stand
//!           ..                other commands are passed over
//!           data              the bytes of each section, its relocations, the symbols, the names
//!
//! Of a dynamic library it reads `LC_ID_DYLIB`, its install name, in place of the segment.
#![tactic(auto)]

mod commands;
mod fault;
mod file;
mod header;
mod library;
mod outline;
mod relocations;
mod rules;
mod sections;
mod symbol_rules;
mod symbols;

pub use fault::ObjectFault;
pub use file::{File, view_of};
pub use macho_model::ObjectRule;
pub use relocations::RelocationList;
pub use sections::is_carried;
