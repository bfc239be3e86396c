//! Why the image of a placed link isn't written.
ghost use Rattle.std.specs.Prelude.{◌≡◌};
ghost use Rattle.macho_linking.specs.declared.fault.Unwritten.TheVariants.{Unfilled, Unmade, OutOfMemory};
ghost use Rattle.macho_linking.specs.steps.Unwritten.{refusal_of};

use macho_answer::LinkError;
use macho_fields::FillFault;
use macho_layout::Placement;
use macho_synthetic::MadeFault;
use std::alloc::{AllocError, AllocFailed};

/// Why an image isn't written.
#[derive(Clone, Copy, Drop)]
pub(crate) enum Unwritten {
    /// A field, a stub or a word of the loader can't be written.
    Unfilled(FillFault),
    /// An offset passes 32 bits.
    Unmade(MadeFault),
    /// There is not enough memory.
    OutOfMemory,
}

impl From<FillFault> for Unwritten {
    ghost from_gives = { λ fault e. e ≡ Unfilled fault };

    fn from(fault: FillFault) -> Unwritten {
        Unwritten::Unfilled(fault)
    }
}

impl From<MadeFault> for Unwritten {
    ghost from_gives = { λ fault e. e ≡ Unmade fault };

    fn from(fault: MadeFault) -> Unwritten {
        Unwritten::Unmade(fault)
    }
}

impl From<AllocError> for Unwritten {
    ghost from_gives = { λ _ e. e ≡ OutOfMemory };

    fn from(_e: AllocError) -> Unwritten {
        Unwritten::OutOfMemory
    }
}

impl<T: Drop> From<AllocFailed<T>> for Unwritten {
    ghost from_gives = { λ _ e. e ≡ OutOfMemory };

    fn from(_e: AllocFailed<T>) -> Unwritten {
        Unwritten::OutOfMemory
    }
}

/// The refusal of a link whose placed image isn't written. It keeps the placement.
pub(crate) fn refusal(fault: Unwritten, placement: Placement) -> LinkError
    ensures { result ≡ refusal_of fault placement }
{
    match fault {
        Unwritten::Unfilled(FillFault::Range { at }) => LinkError::RelocationRange {
            at,
            placement,
        },
        Unwritten::Unfilled(FillFault::Rebase { at }) => LinkError::RebaseTarget { at, placement },
        Unwritten::Unfilled(
            FillFault::Place {
                file,
                section,
                relocation,
            },
        ) => LinkError::FixupPlace {
            file,
            section,
            relocation,
            placement: Some(placement),
        },
        Unwritten::Unmade(MadeFault::TooLarge) => LinkError::ImageTooLarge {
            placement: Some(placement),
        },
        // (a link that was read has no field of an unknown kind)
        Unwritten::Unfilled(FillFault::Unsupported | FillFault::OutOfMemory)
        | Unwritten::Unmade(MadeFault::OutOfMemory)
        | Unwritten::OutOfMemory => LinkError::OutOfMemory,
    }
}
