//! What stops offsets and unwind information from being made.
ghost use Rattle.std.specs.Prelude.{◌≡◌};
ghost use Rattle.macho_synthetic.specs.declared.fault.MadeFault.TheVariants.{OutOfMemory};

use std::alloc::{AllocError, AllocFailed};

/// Why something is not made.
#[derive(Clone, Copy, Drop)]
pub enum MadeFault {
    /// An offset from the image's base, or the place of a page of unwind information, passes 32 bits.
    TooLarge,
    /// There is not enough memory.
    OutOfMemory,
}

impl From<AllocError> for MadeFault {
    ghost from_gives = { λ _ fault. fault ≡ OutOfMemory };

    fn from(_error: AllocError) -> MadeFault {
        MadeFault::OutOfMemory
    }
}

impl<T: Drop> From<AllocFailed<T>> for MadeFault {
    ghost from_gives = { λ _ fault. fault ≡ OutOfMemory };

    fn from(_error: AllocFailed<T>) -> MadeFault {
        MadeFault::OutOfMemory
    }
}
