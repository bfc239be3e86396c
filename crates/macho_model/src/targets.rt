//! What references lead to, and what a refusal speaks of.
ghost use Rattle.std.specs.Prelude.{◌≡◌};
ghost use Rattle.macho_model.specs.Values.{is_absolute_target};

/// What a symbol or a relocation leads to. Files are numbered by the order in which they were added.
#[derive(Clone, Copy)]
pub enum Target {
    /// A place in a carried section of an object.
    Section {
        /// The number of the file.
        file: u32,
        /// The number of the section in it, from 0.
        section: u32,
        /// Bytes from the section's start.
        offset: u64,
    },
    /// A common symbol that was chosen, by its number.
    Common {
        /// The number among the chosen commons, from 0.
        id: u32,
    },
    /// A symbol of a library, by its number.
    Import {
        /// The number among the imports, from 0.
        id: u32,
    },
    /// The first byte of the image.
    Base,
    /// A value that does not move with the image.
    Absolute {
        /// The value.
        value: u64,
    },
    /// Nothing.
    None,
}

impl Target {
    /// Whether it is a value that does not move with the image.
    pub fn is_absolute(self) -> bool
        ensures { result ≡ is_absolute_target self }
    {
        match self {
            Target::Absolute { .. } => true,
            _ => false,
        }
    }
}

/// A place in an image that a value is written to.
#[derive(Clone, Copy)]
pub enum Site {
    /// The field of a relocation.
    Field {
        /// The number of the file.
        file: u32,
        /// The number of the section in it, from 0.
        section: u32,
        /// The number of the relocation in its table, from 0.
        relocation: u32,
    },
    /// A slot of the global offset table.
    Slot {
        /// Its number, from 0.
        index: u32,
    },
    /// A stub.
    Stub {
        /// Its number, from 0.
        index: u32,
    },
}

/// A number that the format limits.
#[derive(Clone, Copy)]
pub enum Limit {
    /// Segments with `__PAGEZERO`: 6.
    Segments,
    /// Libraries: 240.
    Libraries,
    /// Output sections: 255.
    Sections,
    /// Personality functions: 3.
    Personalities,
    /// Entries of the import table: 2^24.
    Imports,
    /// Bytes of import names with their NULs: 2^23.
    NameBytes,
    /// Symbols of all objects and plain export entries together: 2^32 - 2.
    Symbols,
    /// Pages of one segment that fixups reach: 65,535.
    Pages,
}
