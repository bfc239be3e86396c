//! What refuses consumed sections.
ghost use Rattle.std.specs.Prelude.{◌≡◌};
ghost use Rattle.macho_consumed.specs.declared.fault.ConsumedFault.TheVariants.{OutOfMemory};

use macho_model::UnwindRule;
use std::alloc::{AllocError, AllocFailed};

/// Why the consumed sections of a link are refused. Objects are told by their numbers among the inputs, sections by those in their
/// objects, each from 0.
#[derive(Clone, Copy, Drop)]
pub enum ConsumedFault {
    /// A section of initializers breaks its rules.
    BadInitializer {
        /// The number of the object.
        file: u32,
        /// The number of the section in it.
        section: u32,
        /// Bytes from the section's start: to the slot, or to the relocation between slots; 0 for the section as a whole.
        offset: u64,
    },
    /// An entry of compact unwind information breaks a rule.
    BadUnwind {
        /// The number of the object.
        file: u32,
        /// The number of the section in it.
        section: u32,
        /// The number of the entry in the section, from 0; of a cut section that of the entry that is cut.
        entry: u32,
        /// The rule that it breaks.
        rule: UnwindRule,
    },
    /// There is not enough memory.
    OutOfMemory,
}

impl From<AllocError> for ConsumedFault {
    ghost from_gives = { λ _ fault. fault ≡ OutOfMemory };

    fn from(_error: AllocError) -> ConsumedFault {
        ConsumedFault::OutOfMemory
    }
}

impl<T: Drop> From<AllocFailed<T>> for ConsumedFault {
    ghost from_gives = { λ _ fault. fault ≡ OutOfMemory };

    fn from(_error: AllocFailed<T>) -> ConsumedFault {
        ConsumedFault::OutOfMemory
    }
}
