//! The rules that inputs and images keep, by name. `docs/FORMATS.md` states each; a refusal names one that is broken.

/// A rule of relocatable objects and dynamic libraries.
#[derive(Clone, Copy, PartialEq, Eq)]
pub enum ObjectRule {
    /// The header is whole, of a 64-bit arm64 file of the wanted type, and the file has fewer than 2^32 bytes.
    O1,
    /// The load commands stand inside the file, each whole and long enough for what it holds.
    O2,
    /// An object has one segment and one symbol table, a library one install name and one symbol table.
    O3,
    /// The symbol table and the string table stand inside the file.
    O4,
    /// The section number of a symbol, the symbol index and the section number of a relocation exist.
    O5,
    /// A section's data stands inside the file, and its addresses end at 2^64 at most.
    O6,
    /// A section's alignment is at most 2^14.
    O7,
    /// A symbol's address is in its section, its end included.
    O8,
    /// A name begins in the string table and ends there with a NUL; an install name ends in its command.
    O9,
    /// A section's relocations stand inside the file, and each relocated field inside its section.
    O10,
    /// Thread-local sections are in `__DATA`.
    O11,
    /// A zerofill section has no relocations.
    O12,
    /// A global symbol has a name.
    O13,
    /// A common's alignment is at most 2^14, and its size rounded up to it is below 2^64.
    O14,
}

/// A rule that the loader asks of an image.
#[derive(Clone, Copy, Debug, PartialEq, Eq)]
pub enum LoadRule {
    /// The header is whole, of a 64-bit arm64 executable or dynamic library.
    L1,
    /// The load commands stand inside the file, each whole and long enough for its record.
    L2,
    /// A segment has the protections of its name.
    L3,
    /// A segment's file bytes stand inside the file, and are at most its bytes in memory.
    L4,
    /// A segment's address, size and file offset are multiples of 16 KiB.
    L5,
    /// Segments stand in rising order without overlap, and end at 2^64 at most.
    L6,
    /// There is one `__TEXT`, at the start of the file, and it holds the load commands.
    L7,
    /// There is at most one fixup table, and it is whole and of the known version and formats.
    L8,
    /// An import's library is one of the file's, and its name ends in the table.
    L9,
    /// A word on a chain stands in its page and in the file bytes of a writable segment; a bind's import exists.
    L10,
}

/// A rule of compact unwind entries.
#[derive(Clone, Copy)]
pub enum UnwindRule {
    /// The section's size is a multiple of an entry's.
    U1,
    /// A relocation is a plain 8-byte pointer at the start, the personality or the language data of an entry.
    U2,
    /// At most one relocation stands at a place.
    U3,
    /// The start is a place in a carried executable section of `__TEXT`, by section number.
    U4,
    /// The function lies in that section.
    U5,
    /// No two entries begin at one address.
    U6,
    /// A personality is a defined or imported symbol, language data a place in a carried section.
    U7,
    /// The bits for the personality are clear, and so is each address that has no relocation.
    U8,
}
