//! What a Mach-O file says in bytes, below its predicates: numbers of any width and in either byte order, ULEB128, and the records that
//! have only numbers and texts: the load commands but those of segments and symbols, the fixed parts of chained fixups, relocations,
//! unwind entries, and the code directory of a signature.
//!
//! Every number of a Mach-O file is little-endian, but those of a code signature, which are big-endian:
//!
//! ```text
//! 39 30 00 00     12345 in four bytes, the lowest first
//! 00 00 30 39     the same, the highest first
//! ```
//!
//! Each record is read where it stands whole, and written at a place (`mach-o/loader.h`, `reloc.h`, `fixup-chains.h`):
//!
//! ```text
//! 28 00 00 80 18 00 00 00 e0 01 00 00 00 00 00 00 00 00 00 00 00 00 00 00     EntryPointCommand: LC_MAIN, 24 bytes, entryoff 0x1e0
//! ```
#![tactic(auto)]

mod commands;
mod fixups;
mod number;
mod relocations;
mod rows;
mod signature;
mod texts;
mod uleb;
mod unwind;

pub use commands::{
    BuildToolVersion, BuildVersionCommand, DylibCommand, DylinkerCommand, EntryPointCommand,
    LinkeditDataCommand, RpathCommand, UuidCommand,
};
pub use fixups::{ChainedFixupsHeader, ChainedStartsInSegment};
pub use number::Number;
pub use relocations::RelocationInfo;
pub use rows::{big_at, little_at, put_bigs, put_little, put_littles};
pub use signature::CodeDirectory;
pub use texts::{put_text, text_at};
pub use uleb::{read_uleb, uleb_size, write_uleb};
pub use unwind::UnwindInfoEntry;
