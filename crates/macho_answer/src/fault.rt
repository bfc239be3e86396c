//! Why a link is refused.
ghost use Rattle.std.specs.Prelude.{◌≡◌};
ghost use Rattle.macho_answer.specs.declared.fault.LinkError.TheVariants.{OutOfMemory};
ghost use Rattle.macho_answer.specs.Errors.{error_of};

use macho_layout::Placement;
use macho_model::{Limit, Site, UnwindRule};
use macho_object::ObjectFault;
use macho_stub::StubRule;
use macho_symbols::SymbolFault;
use std::alloc::{AllocError, AllocFailed};

/// What is wrong with an input.
#[derive(Drop)]
pub enum InputFault {
    /// A rule of objects or dynamic libraries, and the byte place of the record that breaks it.
    Object(ObjectFault),
    /// A rule of stub texts.
    Stub {
        /// The line that breaks it, from 1.
        line: u64,
        /// The rule that it breaks.
        rule: StubRule,
    },
}

/// A refusal of the linker, in the order in which refusals are told. A file is told by its number among the inputs, a section by its
/// number in its object, and a relocation by its number in its section's table, each from 0.
#[derive(Drop)]
pub enum LinkError {
    /// Two objects define a name strongly.
    DuplicateSymbol {
        /// The name that they define, without the NUL behind it.
        name: Vec<u8>,
        /// The number of one of the two objects.
        first: u32,
        /// The number of the other.
        second: u32,
    },
    /// A file uses a name that nothing defines.
    UndefinedSymbol {
        /// The name that is used, without the NUL behind it.
        name: Vec<u8>,
        /// The number of the object that uses it.
        file: u32,
    },
    /// An executable's entry is not defined in a carried section.
    EntryNotDefined {
        /// The entry's name.
        name: Vec<u8>,
    },
    /// An export list names what nothing defines.
    ExportListMissing {
        /// The entry of the list.
        name: Vec<u8>,
    },
    /// A section of initializers is broken.
    BadInitializer {
        /// The number of the object among the inputs.
        file: u32,
        /// The number of the section in it.
        section: u32,
        /// The place in the section, in bytes.
        offset: u64,
    },
    /// An unwind entry is broken.
    BadUnwind {
        /// The number of the object among the inputs.
        file: u32,
        /// The number of the section in it.
        section: u32,
        /// The number of the entry in the section, from 0; of a cut section that of the entry that is cut.
        entry: u32,
        /// The rule that it breaks.
        rule: UnwindRule,
    },
    /// A relocation is not supported: by its form, its pair, the instruction at its place or the kind of its target.
    UnsupportedRelocation {
        /// The number of the object among the inputs.
        file: u32,
        /// The number of the section in it.
        section: u32,
        /// The number of the relocation in the section's table.
        relocation: u32,
    },
    /// Two relocations of a section share a byte, and are no pair.
    OverlappingFields {
        /// The number of the object among the inputs.
        file: u32,
        /// The number of the section in it.
        section: u32,
        /// The number of the one that stands first in the table.
        first: u32,
        /// The number of the other.
        second: u32,
    },
    /// The addend of a pointer to an import doesn't fit 32 bits.
    BindAddend {
        /// The number of the object among the inputs.
        file: u32,
        /// The number of the section in it.
        section: u32,
        /// The number of the relocation in the section's table.
        relocation: u32,
        /// The addend, modulo 2^64.
        addend: u64,
    },
    /// The loader can't write a pointer: by its segment, or, with a placement, by its address.
    FixupPlace {
        /// The number of the object among the inputs.
        file: u32,
        /// The number of the section in it.
        section: u32,
        /// The number of the relocation in the section's table.
        relocation: u32,
        /// The placement by which the pointer's place is bad.
        placement: Option<Placement>,
    },
    /// A number passes what the format takes.
    TooMany {
        /// What there are too many of.
        what: Limit,
        /// How many there would be.
        number: u64,
        /// The placement, where the number is one of pages.
        placement: Option<Placement>,
    },
    /// The image would be too large.
    ImageTooLarge {
        /// The placement by which a file offset or size passes 32 bits; None where the sum of all sizes comes near 2^64.
        placement: Option<Placement>,
    },
    /// The value of a pointer or of a slot can't be written for the loader.
    RebaseTarget {
        /// Where the value is to be written.
        at: Site,
        /// The placement by which it can't.
        placement: Placement,
    },
    /// A value does not fit its field, or a stub does not reach its slot.
    RelocationRange {
        /// Where the value is to be written.
        at: Site,
        /// The placement by which it does not fit.
        placement: Placement,
    },
    /// The output has no file name, or a NUL stands in a path.
    BadName,
    /// An input breaks a rule.
    BadInput {
        /// The rule, and where.
        fault: InputFault,
    },
    /// Memory ran out.
    OutOfMemory,
}

impl From<AllocError> for LinkError {
    ghost from_gives = { λ _ e. e ≡ OutOfMemory };

    fn from(_e: AllocError) -> LinkError {
        LinkError::OutOfMemory
    }
}

impl<T: Drop> From<AllocFailed<T>> for LinkError {
    ghost from_gives = { λ _ e. e ≡ OutOfMemory };

    fn from(_e: AllocFailed<T>) -> LinkError {
        LinkError::OutOfMemory
    }
}

impl From<SymbolFault> for LinkError {
    ghost from_gives = { λ fault e. e ≡ error_of fault };

    fn from(fault: SymbolFault) -> LinkError {
        match fault {
            SymbolFault::DuplicateSymbol {
                name,
                first,
                second,
            } => LinkError::DuplicateSymbol {
                name,
                first,
                second,
            },
            SymbolFault::UndefinedSymbol { name, file } => LinkError::UndefinedSymbol {
                name,
                file,
            },
            SymbolFault::ExportListMissing { name } => LinkError::ExportListMissing { name },
            SymbolFault::OutOfMemory => LinkError::OutOfMemory,
        }
    }
}
