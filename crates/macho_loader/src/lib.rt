//! The loader's view of a finished image: whether it is accepted, its segments, and what each word of its chains says.
//!
//! Acceptance is ten rules, asked one after the other in a walk each. A walk over the load commands goes from one to the
//! next by its size:
//!
//!     0   header        cf fa ed fe 0c 00 00 01 ..
//!     32  command 0     19 00 00 00 48 00 00 00 ..     a segment without sections, 72 bytes
//!     104 command 1     19 00 00 00 98 00 00 00 ..     behind it the next one
//!
//! and a walk over a page's chain from a word to the next by bits 51 to 62 of the word, in steps of four bytes.
#![tactic(auto)]

mod accept;
mod blank;
mod chain_list;
mod command_rules;
mod commands;
mod cursor;
mod fixups;
mod import_rules;
mod imports;
mod loaded;
mod table_rules;
mod texts;
mod word_rules;

pub use accept::LoadFault;
pub use chain_list::{FixupLine, LineKind};
pub use commands::LinkeditRange;
pub use fixups::LoadedFixup;
pub use imports::LoadedImport;
pub use loaded::Loaded;
pub use macho_model::LoadRule;
pub use texts::rule_text;
