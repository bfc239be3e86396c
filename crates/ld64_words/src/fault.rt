//! Why a command line is refused.

ghost use Rattle.std.specs.Prelude.{◌≡◌};
ghost use Rattle.ld64_words.specs.declared.fault.WordFault.TheVariants.{OutOfMemory};

use crate::effects::Why;
use std::alloc::{AllocError, AllocFailed};

/// Why a command line is refused: the first word that breaks its row's rule, by its index in the words, from 0.
#[derive(Clone, Copy)]
pub enum WordFault {
    /// Fewer words follow the option than it has operands.
    MissingOperand { word: usize },
    /// The option isn't supported, or no option has this name.
    RefusedWord { word: usize, why: Why },
    /// The word names a file of words or inputs, which have to stand in its place first.
    UnreadFile { word: usize },
    /// Memory ran out. No word is at fault.
    OutOfMemory,
}

impl From<AllocError> for WordFault {
    ghost from_gives = { λ _ fault. fault ≡ OutOfMemory };

    fn from(_error: AllocError) -> WordFault {
        WordFault::OutOfMemory
    }
}

impl<T: Drop> From<AllocFailed<T>> for WordFault {
    ghost from_gives = { λ _ fault. fault ≡ OutOfMemory };

    fn from(_error: AllocFailed<T>) -> WordFault {
        WordFault::OutOfMemory
    }
}
