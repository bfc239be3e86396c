//! What kind of symbol an entry of a symbol table is. Debugging entries are of no kind.
ghost use Rattle.std.specs.Prelude.{◌≡◌};
ghost use Rattle.macho_records.specs.Symbols.{is_common_of, has_type, is_global};
ghost use Rattle.macho_records.specs.declared.constants.TheConstants.{N_ABS, N_SECT};

use macho_records::{N_SECT, N_STAB, N_TYPE, SymtabEntry};

/// Whether other files see a symbol.
pub fn is_global(symbol: SymtabEntry) -> bool
    ensures { result ≡ is_global symbol }
{
    symbol.n_type & N_STAB == 0 && !symbol.is_local()
}

/// Whether a symbol is defined in a section.
pub(crate) fn is_in_section(symbol: SymtabEntry) -> bool
    ensures { result ≡ has_type N_SECT symbol }
{
    symbol.n_type & N_STAB == 0 && symbol.n_type & N_TYPE == N_SECT
}

/// Whether a symbol has a value of its own.
pub fn is_absolute(symbol: SymtabEntry) -> bool
    ensures { result ≡ has_type N_ABS symbol }
{
    symbol.n_type & N_STAB == 0 && symbol.is_absolute()
}

/// Whether a symbol is a common: its size is not looked at.
pub fn is_common(symbol: SymtabEntry) -> bool
    ensures { result ≡ is_common_of symbol }
{
    symbol.is_undefined() && !symbol.is_local() && symbol.n_value != 0
}
