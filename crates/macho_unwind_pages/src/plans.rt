//! A plan: what a section of compact unwind says, before it is bytes.
//!
//! ```text
//! plan     globals: encodings that every page may name      personalities: offsets of slots
//!          lsdas: pairs of offsets                           end: the offset behind the last function
//! page     first: the offset of its first function           locals: encodings that this page alone names
//!          words: for each function, bits 0 to 23 its offset less `first`,
//!                 bits 24 to 31 the number of its encoding among `globals` and then `locals`
//! ```
//!
//! All offsets count from the start of the text. A page `first: 0x1000, words: [0, 0x0100_0020]` has two functions: one at
//! 0x1000 with encoding 0 of the globals, one at 0x1020 with encoding 1.

/// One page: functions in order of their starts.
#[derive(Drop)]
pub struct Page {
    /// The offset of its first function.
    pub first: u32,
    /// A word for each function.
    pub words: Vec<u32>,
    /// The encodings that only this page names, by their first use.
    pub locals: Vec<u32>,
}

/// The language-specific data of a function.
#[derive(Clone, Copy)]
pub struct Lsda {
    /// The offset of the function.
    pub function: u32,
    /// The offset of its data.
    pub lsda: u32,
}

/// What a section of compact unwind says, before it is bytes.
#[derive(Drop)]
pub struct Plan {
    /// The encodings that every page may name.
    pub globals: Vec<u32>,
    /// The offsets of the slots of the personality functions.
    pub personalities: Vec<u32>,
    /// The language-specific data, by rising function.
    pub lsdas: Vec<Lsda>,
    /// The pages, by rising function.
    pub pages: Vec<Page>,
    /// The offset behind the last function.
    pub end: u32,
}
