//! What is kept of consumed sections: a row for each initializer and for each entry of compact unwind information.
use macho_records::RelocationInfo;

/// An initializer: the pointer of a slot of `__mod_init_func`.
#[derive(Clone, Copy)]
pub struct Initializer {
    /// The number of its object among the inputs, from 0.
    pub file: u32,
    /// The number of the section in it, from 0.
    pub section: u32,
    /// The number of the slot's relocation in the section's table, from 0.
    pub number: u32,
    /// That relocation: it tells what the slot points to.
    pub relocation: RelocationInfo,
}

/// A place in a section of an object.
#[derive(Clone, Copy)]
pub struct SectionPlace {
    /// The number of the section, from 0.
    pub section: u32,
    /// Bytes from the section's start.
    pub offset: u64,
}

/// How an entry names its personality function.
#[derive(Clone, Copy)]
pub struct PersonalityUse {
    /// The number of the relocation at the entry's field, in the section's table, from 0.
    pub number: u32,
    /// That relocation: it tells which function it is.
    pub relocation: RelocationInfo,
}

/// An entry of compact unwind information: how one function is unwound.
#[derive(Clone, Copy)]
pub struct UnwindEntry {
    /// The number of its object among the inputs, from 0.
    pub file: u32,
    /// The number of the section in it that the entry stands in, from 0.
    pub section: u32,
    /// The number of the entry in the section, from 0.
    pub entry: u32,
    /// Where the function starts.
    pub start: SectionPlace,
    /// How many bytes the function has.
    pub length: u32,
    /// How its frame is unwound (`mach-o/compact_unwind_encoding.h`).
    pub encoding: u32,
    /// Its personality function, None where it has none.
    pub personality: Option<PersonalityUse>,
    /// Where its language-specific data starts, None where it has none.
    pub lsda: Option<SectionPlace>,
}
