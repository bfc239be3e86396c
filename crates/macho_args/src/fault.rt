//! Why a command line is refused.

ghost use Rattle.std.specs.Prelude.{◌≡◌};
ghost use Rattle.macho_args.specs.declared.fault.ArgsFault.TheVariants.{OutOfMemory};

use std::alloc::{AllocError, AllocFailed};

/// Why a command line is refused: the first word that breaks its option's rule, by its index in the
/// words, from 0. A bad value's own index is told, and of a missing value the option's.
#[derive(Clone, Copy)]
pub enum ArgsFault {
    /// Too few words follow the option.
    MissingValue { word: u32 },
    /// No option has this name.
    Unknown { word: u32 },
    /// An option, a value or an input that this linker doesn't support.
    Unsupported { word: u32 },
    /// A version that isn't one to three small numbers joined by dots.
    BadVersion { word: u32 },
    /// A platform other than `macos`.
    BadPlatform { word: u32 },
    /// An architecture other than `arm64`.
    BadArch { word: u32 },
    /// A UUID that isn't 32 hexadecimal digits.
    BadUuid { word: u32 },
    /// A number of generated objects that isn't 1 to 10,000.
    BadNumber { word: u32 },
    /// Memory ran out. No word is at fault.
    OutOfMemory,
}

impl From<AllocError> for ArgsFault {
    ghost from_gives = { λ _ fault. fault ≡ OutOfMemory };

    fn from(_error: AllocError) -> ArgsFault {
        ArgsFault::OutOfMemory
    }
}

impl<T: Drop> From<AllocFailed<T>> for ArgsFault {
    ghost from_gives = { λ _ fault. fault ≡ OutOfMemory };

    fn from(_error: AllocFailed<T>) -> ArgsFault {
        ArgsFault::OutOfMemory
    }
}
