//! The parts of a report.

use macho_loader::{FixupLine, LoadFault};
use macho_records::SegmentName;

/// A segment.
#[derive(Clone, Copy)]
pub struct SegmentLine {
    /// Its name.
    pub name: SegmentName,
    /// The address of its first byte.
    pub address: u64,
    /// Its bytes in memory.
    pub size: u64,
    /// The file offset of its first byte.
    pub file_offset: u64,
    /// Its bytes in the file.
    pub file_size: u64,
    /// What it may be accessed for: the `VM_PROT_` bits.
    pub protection: u32,
}

/// An entry of the import table.
#[derive(Drop)]
pub struct ImportLine {
    /// The number of its library, from 1.
    pub library: u8,
    /// Its name.
    pub name: Vec<u8>,
    /// The addend of the entry, 0 where the table's format has none.
    pub addend: i32,
}

/// An exported name, and what look-up of it in the trie answers.
#[derive(Drop)]
pub struct ExportLine {
    /// The name.
    pub name: Vec<u8>,
    /// The `EXPORT_SYMBOL_FLAGS_` bits.
    pub flags: u64,
    /// An offset from the image's base, or a value; of a reexport the number of its library, from 1.
    pub value: u64,
    /// The name that a reexport has in its library; empty where it is the same one.
    pub reexport: Option<Vec<u8>>,
}

/// What an image exports.
#[derive(Drop)]
pub enum Exports {
    /// The names, in rising order. None where there is no exports trie, or an empty one.
    Listed(Vec<ExportLine>),
    /// The trie is no right one.
    Malformed {
        /// The file offset of what is wrong: a second command of a trie, the command of a range that passes the file, or a
        /// node.
        place: u64,
    },
}

/// What an image says.
#[derive(Drop)]
pub struct Report {
    /// The address of its first byte: that of `__TEXT`.
    pub base: u64,
    /// The segments, in the order of their commands.
    pub segments: Vec<SegmentLine>,
    /// The names of the libraries that it needs, in the order of their commands. Imports count them from 1.
    pub libraries: Vec<Vec<u8>>,
    /// The import table's entries, in order.
    pub imports: Vec<ImportLine>,
    /// The exports.
    pub exports: Exports,
    /// What the loader makes of each word on the chains, by rising addresses.
    pub fixups: Vec<FixupLine>,
}

/// Why there is no report.
#[derive(Drop)]
pub enum InspectFault {
    /// The loader does not accept the file.
    Rejected {
        /// The rule that it breaks, and where.
        fault: LoadFault,
    },
    /// There is not enough memory.
    OutOfMemory,
}
