//! Why a library has no stub.
ghost use Rattle.std.specs.Prelude.{◌≡◌};
ghost use Rattle.macho_tbd.specs.declared.fault.TbdFault.TheVariants.{OutOfMemory};

use macho_object::ObjectFault;
use std::alloc::{AllocError, AllocFailed};

/// Why no stub is written.
#[derive(Clone, Copy, PartialEq, Eq)]
pub enum TbdFault {
    /// The bytes are no dynamic library.
    BadDylib {
        /// A rule that they break, and where.
        fault: ObjectFault,
    },
    /// A name can't be written: it is not UTF-8, has a control character of ASCII, or has a single quote together with a double quote or
    /// a backslash.
    Unwritable {
        /// The first offered symbol with such a name; None for the install name.
        symbol: Option<u32>,
    },
    /// There is not enough memory.
    OutOfMemory,
}

impl From<AllocError> for TbdFault {
    ghost from_gives = { λ _ fault. fault ≡ OutOfMemory };

    fn from(_error: AllocError) -> TbdFault {
        TbdFault::OutOfMemory
    }
}

impl<T: Drop> From<AllocFailed<T>> for TbdFault {
    ghost from_gives = { λ _ fault. fault ≡ OutOfMemory };

    fn from(_error: AllocFailed<T>) -> TbdFault {
        TbdFault::OutOfMemory
    }
}
