//! Why a stub text is refused.

ghost use Rattle.std.specs.Prelude.{◌≡◌};
ghost use Rattle.macho_stub_lines.specs.declared.fault.StubFault.TheVariants.{OutOfMemory};

use std::alloc::{AllocError, AllocFailed};

/// The rules that a stub text keeps.
#[derive(Clone, Copy)]
pub enum StubRule {
    /// The text is in the grammar.
    S1,
    /// There is a document, and each document and item has the keys that it must have.
    S2,
    /// One mapping has each key that is read once at most.
    S3,
    /// Each document has version 4.
    S4,
    /// The main library is for `arm64e-macos`.
    S5,
    /// The main library has a current version.
    S6,
    /// The main library has at most one group of reexported libraries.
    S7,
    /// That group is for `arm64e-macos`.
    S8,
    /// Each further document equals the main one, or that group lists its install name.
    S9,
}

/// Why a stub text is refused.
#[derive(Clone, Copy)]
pub enum StubFault {
    /// The text breaks the rule; the line, counted from 1, is where.
    Rule { line: u64, rule: StubRule },
    /// Memory ran out.
    OutOfMemory,
}

impl From<AllocError> for StubFault {
    ghost from_gives = { λ _ e. e ≡ OutOfMemory };

    fn from(_error: AllocError) -> StubFault {
        StubFault::OutOfMemory
    }
}

impl<T: Drop> From<AllocFailed<T>> for StubFault {
    ghost from_gives = { λ _ e. e ≡ OutOfMemory };

    fn from(_error: AllocFailed<T>) -> StubFault {
        StubFault::OutOfMemory
    }
}
