//! What refuses a link's symbols.
ghost use Rattle.std.specs.Prelude.{◌≡◌};
ghost use Rattle.macho_symbol_names.specs.declared.fault.SymbolFault.TheVariants.{OutOfMemory};

use std::alloc::{AllocError, AllocFailed};

/// Why symbols are not resolved, a use is not noted or names are not exported. Files are told by their numbers.
#[derive(Drop)]
pub enum SymbolFault {
    /// Two objects define a name strongly.
    DuplicateSymbol {
        /// The name.
        name: Vec<u8>,
        /// The file of one of them.
        first: u32,
        /// The file of the other.
        second: u32,
    },
    /// A file uses a name that nothing defines.
    UndefinedSymbol {
        /// The name.
        name: Vec<u8>,
        /// The file that uses it.
        file: u32,
    },
    /// An export list names what nothing defines.
    ExportListMissing {
        /// The entry of the list.
        name: Vec<u8>,
    },
    /// There is not enough memory.
    OutOfMemory,
}

impl From<AllocError> for SymbolFault {
    ghost from_gives = { λ _ fault. fault ≡ OutOfMemory };

    fn from(_error: AllocError) -> SymbolFault {
        SymbolFault::OutOfMemory
    }
}

impl<T: Drop> From<AllocFailed<T>> for SymbolFault {
    ghost from_gives = { λ _ fault. fault ≡ OutOfMemory };

    fn from(_error: AllocFailed<T>) -> SymbolFault {
        SymbolFault::OutOfMemory
    }
}
