//! The parts of a placement: which address and which file range each thing got.

use macho_records::SegmentName;

/// A range of addresses, or of file offsets: from `start` up to `end`, which it does not contain.
#[derive(Clone, Copy)]
pub struct Range64 {
    /// The first one.
    pub start: u64,
    /// The one after the last.
    pub end: u64,
}

/// A segment of the image.
#[derive(Clone, Copy)]
pub struct PlacedSegment {
    /// Its name.
    pub name: SegmentName,
    /// The address of its first byte.
    pub address: u64,
    /// Its bytes in memory.
    pub size: u64,
    /// The file offset of its first byte.
    pub file_offset: u64,
    /// Its bytes in the file.
    pub file_size: u64,
}

/// A section of an object, placed.
#[derive(Clone, Copy)]
pub struct PlacedSection {
    /// The number of the file.
    pub file: u32,
    /// The number of the section in it, from 0.
    pub section: u32,
    /// The number of its segment in the placement, from 0.
    pub segment: u32,
    /// The address of its first byte.
    pub address: u64,
}

/// A chosen common, placed.
#[derive(Clone, Copy)]
pub struct PlacedCommon {
    /// Its number among the chosen commons.
    pub id: u32,
    /// The address of its first byte.
    pub address: u64,
}

/// A slot of the global offset table: 8 bytes that hold the address of a target.
#[derive(Clone, Copy)]
pub struct Slot {
    /// What its word leads to.
    pub target: crate::targets::Target,
    /// The address of its first byte.
    pub address: u64,
}

/// A stub: three instructions that go on to an import through its slot.
#[derive(Clone, Copy)]
pub struct Stub {
    /// The number of the import.
    pub import: u32,
    /// The address of its first byte.
    pub address: u64,
    /// The number of the slot.
    pub slot: u32,
}

/// The tables of `__LINKEDIT`, in file offsets.
#[derive(Clone, Copy)]
pub struct Linkedit {
    /// The chained fixup table.
    pub fixups: Range64,
    /// The exports trie.
    pub trie: Range64,
    /// The symbol table.
    pub symtab: Range64,
    /// The string table.
    pub strtab: Range64,
    /// The code signature.
    pub signature: Range64,
}

/// Sizes that are known before addresses are.
#[derive(Clone, Copy)]
pub struct Counts {
    /// Bytes of all load commands but the segments'.
    pub commands: u64,
    /// Bytes kept free behind the load commands.
    pub padding: u64,
    /// Initializers.
    pub initializers: u64,
    /// Bytes that the unwind section has at most.
    pub unwind: u64,
    /// Entries of the import table.
    pub imports: u64,
    /// Bytes of one such entry, 4 or 8.
    pub import_size: u64,
    /// Bytes of the import names with their NULs.
    pub name_bytes: u64,
    /// Bytes of the exports trie, sized with the greatest addresses.
    pub trie: u64,
    /// Symbols of the symbol table.
    pub symbols: u64,
    /// Bytes of the string table.
    pub strings: u64,
    /// Bytes of the signature's identifier, padded.
    pub identifier: u64,
}
