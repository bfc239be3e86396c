//! Entries of compact unwind information: what is known of each function.
use std::alloc::{AllocError, AllocFailed};

/// The most personality functions that a section has.
pub const MOST_PERSONALITIES: usize = 3;

/// What the size of the unwind section is found from, for one function.
#[derive(Clone, Copy)]
pub struct UnwindInput {
    /// How the function's frame is unwound (`mach-o/compact_unwind_encoding.h`).
    pub encoding: u32,
    /// The number that names its personality function.
    pub personality: Option<u32>,
    /// Whether it has language-specific data.
    pub lsda: bool,
}

/// A personality function.
#[derive(Clone, Copy)]
pub struct Personality {
    /// The number that names it.
    pub id: u32,
    /// The address of the slot that holds its address.
    pub slot: u64,
}

/// How one function is unwound, at its final address.
#[derive(Clone, Copy)]
pub struct ResolvedUnwindInfo {
    /// The address of its first byte.
    pub start: u64,
    /// Its bytes.
    pub length: u32,
    /// How its frame is unwound, with the bits of the personality's number clear.
    pub encoding: u32,
    /// Its personality function.
    pub personality: Option<Personality>,
    /// The address of its language-specific data.
    pub lsda: Option<u64>,
}

/// Why entries have no unwind section.
#[derive(Clone, Copy, PartialEq, Eq, Drop)]
pub enum UnwindFault {
    /// There are more than three personality functions.
    TooManyPersonalities,
    /// An offset doesn't fit 32 bits.
    OffsetTooLarge,
    /// Memory ran out.
    OutOfMemory,
}

impl From<AllocError> for UnwindFault {
    ghost use Rattle.std.specs.Prelude.{◌≡◌};
    ghost use Rattle.macho_unwind_pages.specs.declared.entries.UnwindFault.TheVariants.{OutOfMemory};

    ghost from_gives = { λ _ e. e ≡ OutOfMemory };

    fn from(_e: AllocError) -> UnwindFault {
        UnwindFault::OutOfMemory
    }
}

impl<T: Drop> From<AllocFailed<T>> for UnwindFault {
    ghost use Rattle.std.specs.Prelude.{◌≡◌};
    ghost use Rattle.macho_unwind_pages.specs.declared.entries.UnwindFault.TheVariants.{OutOfMemory};

    ghost from_gives = { λ _ e. e ≡ OutOfMemory };

    fn from(_e: AllocFailed<T>) -> UnwindFault {
        UnwindFault::OutOfMemory
    }
}
