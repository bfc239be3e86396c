//! The consumed sections of a link: read, with their rules checked.
ghost use Rattle.std.specs.Prelude.{◌≡◌, ℕ, List, IfOk, IfErr, OnOk};
ghost use Rattle.macho_model.specs.Links.{Link};
ghost use Rattle.macho_symbols.specs.Kept.{IsResolved};
ghost use Rattle.macho_promise.specs.Views.{views_of};
ghost use Rattle.macho_consumed.specs.Views.{AreKept};
ghost use Rattle.macho_consumed.specs.Rows.{initializer_rows, entry_rows};
ghost use Rattle.macho_consumed.specs.Told.{IsStanding, InitializersKeepRules, EntriesKeepRules};

use crate::fault::ConsumedFault;
use crate::gathering::{gather_entries, gather_initializers};
use crate::rows::{Initializer, UnwindEntry};
use crate::starts::check_starts;
use macho_object::File;
use macho_symbols::Resolved;
use std::alloc::Global;

/// The initializers of a link, by file, section and slot. `files` are views of its objects by the numbers of their files, None
/// for another input.
///
/// # Errors
///
/// A section of initializers breaks its rules, or there is not enough memory.
pub fn read_initializers(
    alloc: Global,
    files: &[Option<File<'_>>],
    symbols: &Resolved<'_>,
) -> Result<Vec<Initializer>, ConsumedFault>
    requires { AreKept files.now symbols.now.files }
    ensures rows { (l : Link) → files.now ≡ views_of l → IfOk result (λ v. v.items ≡ initializer_rows l) }
    ensures keeps { (l : Link) (noted : List (List ℕ)) → files.now ≡ views_of l → IsResolved l noted symbols.now
        → OnOk result (InitializersKeepRules l) }
    ensures why { (l : Link) (noted : List (List ℕ)) → files.now ≡ views_of l → IsResolved l noted symbols.now
        → IfErr result (IsStanding l) }
{
    gather_initializers(alloc, files, symbols)
}

/// The entries of compact unwind information of a link, by file, section and number. `files` are views as for
/// `read_initializers`. Equal starts are found by a hash.
///
/// # Errors
///
/// An entry breaks a rule, or there is not enough memory.
pub fn read_entries(
    alloc: Global,
    files: &[Option<File<'_>>],
    symbols: &Resolved<'_>,
) -> Result<Vec<UnwindEntry>, ConsumedFault>
    requires { AreKept files.now symbols.now.files }
    ensures rows { (l : Link) → files.now ≡ views_of l → IfOk result (λ v. v.items ≡ entry_rows l) }
    ensures keeps { (l : Link) (noted : List (List ℕ)) → files.now ≡ views_of l → IsResolved l noted symbols.now
        → OnOk result (EntriesKeepRules l) }
    ensures why { (l : Link) (noted : List (List ℕ)) → files.now ≡ views_of l → IsResolved l noted symbols.now
        → IfErr result (IsStanding l) }
{
    let rows = gather_entries(alloc, files, symbols)?;
    check_starts(alloc, &rows)?;
    Ok(rows)
}
