//! What a table says of an object.

/// A relocatable object.
#[derive(Clone, Copy)]
pub struct Object<'a> {
    /// Its sections, all in the one segment of an object.
    pub sections: &'a [Section<'a>],
    /// The rows of its symbol table, in order.
    pub symbols: &'a [Symbol<'a>],
}

/// A section of an object.
#[derive(Clone, Copy)]
pub struct Section<'a> {
    /// The name of its segment.
    pub segment: &'a [u8],
    /// Its own name.
    pub name: &'a [u8],
    /// Its address in the object.
    pub address: u64,
    /// Its alignment, as the exponent of a power of two.
    pub exponent: u32,
    /// Its type and attributes.
    pub flags: u32,
    /// What it holds.
    pub content: Content<'a>,
    /// The rows of its relocation table, in order.
    pub relocations: &'a [Relocation],
}

/// What a section holds.
#[derive(Clone, Copy)]
pub enum Content<'a> {
    /// These bytes.
    Bytes(&'a [u8]),
    /// So many bytes, none of which stands in the file.
    Room(u64),
}

/// A relocation: its place in the section, the symbol's or section's number or the addend, and the highest byte of its word, one
/// of [`kinds`].
#[derive(Clone, Copy)]
pub struct Relocation(pub u32, pub u32, pub u8);

/// A symbol of an object or of a library.
#[derive(Clone, Copy)]
pub struct Symbol<'a> {
    /// Its name; the empty one has no place in the string table.
    pub name: &'a [u8],
    /// Its type byte.
    pub kind: u8,
    /// Its section, counted from 1, or 0.
    pub section: u8,
    /// `n_desc`: what a reference or a definition asks for, as weak.
    pub description: u16,
    /// `n_value`: its address in the object, or what its type says.
    pub value: u64,
}

/// The highest bytes of relocation words: type, by symbol or by section, width, relative or not.
pub mod kinds {
    /// A pointer of eight bytes to a symbol.
    pub const POINTER: u8 = 0x0e;
    /// A pointer of eight bytes to a section.
    pub const SECTION_POINTER: u8 = 0x06;
    /// A pointer of four bytes to a symbol, as it stands in a difference.
    pub const SHORT: u8 = 0x0c;
    /// The symbol that is taken off, for four bytes.
    pub const SHORT_LESS: u8 = 0x1c;
    /// The symbol that is taken off, for eight bytes.
    pub const LESS: u8 = 0x1e;
    /// A branch to a symbol.
    pub const BRANCH: u8 = 0x2d;
    /// The page of a symbol.
    pub const PAGE: u8 = 0x3d;
    /// The place of a symbol in its page.
    pub const PAGE_OFFSET: u8 = 0x4c;
    /// The page of a symbol's slot.
    pub const SLOT_PAGE: u8 = 0x5d;
    /// The place of a symbol's slot in its page.
    pub const SLOT_OFFSET: u8 = 0x6c;
    /// The distance to a symbol's slot.
    pub const TO_SLOT: u8 = 0x7d;
    /// The page of a thread-local variable's slot.
    pub const VARIABLE_PAGE: u8 = 0x8d;
    /// The place of a thread-local variable's slot in its page.
    pub const VARIABLE_OFFSET: u8 = 0x9c;
    /// An addend of the next relocation.
    pub const ADDEND: u8 = 0xa4;
}
