//! What stops a section, a stub or a slot from being filled.
ghost use Rattle.std.specs.Prelude.{◌≡◌};
ghost use Rattle.macho_fields.specs.declared.fault.FillFault.TheVariants.{OutOfMemory};

use macho_model::Site;
use std::alloc::{AllocError, AllocFailed};

/// Why something is not filled.
#[derive(Clone, Copy, Drop)]
pub enum FillFault {
    /// The value of a field, or the way from a stub to its slot, does not fit.
    Range {
        /// Where the value was to be written.
        at: Site,
    },
    /// The value of a pointer or a slot has no word that the loader could make it from.
    Rebase {
        /// Where the value was to be written.
        at: Site,
    },
    /// A pointer that the loader writes crosses a page, or isn't at a multiple of four.
    Place {
        /// The number of the object among the inputs, from 0.
        file: u32,
        /// The number of the section in it, from 0.
        section: u32,
        /// The number of the relocation in the section's table, from 0.
        relocation: u32,
    },
    /// A relocation has no row in the table of relocations; a link that was found sound has none.
    Unsupported,
    /// There is not enough memory.
    OutOfMemory,
}

impl From<AllocError> for FillFault {
    ghost from_gives = { λ _ fault. fault ≡ OutOfMemory };

    fn from(_error: AllocError) -> FillFault {
        FillFault::OutOfMemory
    }
}

impl<T: Drop> From<AllocFailed<T>> for FillFault {
    ghost from_gives = { λ _ fault. fault ≡ OutOfMemory };

    fn from(_error: AllocFailed<T>) -> FillFault {
        FillFault::OutOfMemory
    }
}
