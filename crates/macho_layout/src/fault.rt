//! Why a plan has no placement.

use crate::placement::Placement;
use macho_model::Limit;
use std::alloc::{AllocError, AllocFailed};

/// Why a plan has no placement.
#[derive(Drop)]
pub enum LayoutFault {
    /// The image would have more segments or output sections than the format takes.
    TooMany {
        /// What there are too many of: `Segments` or `Sections`.
        what: Limit,
        /// How many there would be.
        number: u64,
    },
    /// The image would not fit its format: with a placement where one of its file offsets or sizes needs more than 32
    /// bits, without one where the sum of all sizes comes near 2^64.
    TooLarge {
        /// The placement that is too large.
        placement: Option<Placement>,
    },
    /// Memory ran out.
    OutOfMemory,
}

impl From<AllocError> for LayoutFault {
    ghost use Rattle.macho_layout.specs.declared.fault.LayoutFault.TheVariants.{OutOfMemory};
    ghost use Rattle.std.specs.Prelude.{◌≡◌};

    ghost from_gives = { λ _ e. e ≡ OutOfMemory };

    fn from(_: AllocError) -> LayoutFault {
        LayoutFault::OutOfMemory
    }
}
