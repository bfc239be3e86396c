//! Initializers and unwind entries of all objects.
ghost use Rattle.std.specs.Prelude.{◌≡◌, All, IfOk, IfErr, OnOk};
ghost use Rattle.std.specs.List.{flat_map};
ghost use Rattle.macho_consumed.specs.Views.{AreKept};
ghost use Rattle.macho_consumed.specs.declared.listing.Kind.TheVariants as Kind;
ghost use Rattle.macho_consumed.specs.steps.Gathered.{all_of, initializers_at, FitsAt, IsBadAt, entries_at, KeepsAt, IsBadRuleAt};

use crate::entries::add_entries;
use crate::fault::ConsumedFault;
use crate::listing::{Kind, sections};
use crate::rows::{Initializer, UnwindEntry};
use crate::slots::add_initializers;
use macho_object::{File, view_of};
use macho_symbols::Resolved;
use std::alloc::Global;

/// The initializers of all sections, by file, section and slot.
pub(crate) fn gather_initializers(
    alloc: Global,
    files: &[Option<File<'_>>],
    symbols: &Resolved<'_>,
) -> Result<Vec<Initializer>, ConsumedFault>
    requires { AreKept files.now symbols.now.files }
    ensures rows { IfOk result (λ v. v.items ≡ flat_map (initializers_at files.now) (all_of Kind.Initializers files.now)) }
    ensures found { OnOk result (All (FitsAt symbols.now files.now) (all_of Kind.Initializers files.now)) }
    ensures why { IfErr result (IsBadAt symbols.now files.now) }
{
    let mut rows = Vec::new(alloc);
    let refs = sections(alloc, files, Kind::Initializers)?;
    for at in &refs {
        let Some(file) = view_of(files, at.file) else {
            unreachable!()
        };
        add_initializers(alloc, symbols, file, at.file, at.section, &mut rows)?;
    }
    Ok(rows)
}

/// The entries of all sections, by file, section and number.
pub(crate) fn gather_entries(
    alloc: Global,
    files: &[Option<File<'_>>],
    symbols: &Resolved<'_>,
) -> Result<Vec<UnwindEntry>, ConsumedFault>
    requires { AreKept files.now symbols.now.files }
    ensures rows { IfOk result (λ v. v.items ≡ flat_map (entries_at files.now) (all_of Kind.Entries files.now)) }
    ensures found { OnOk result (All (KeepsAt symbols.now files.now) (all_of Kind.Entries files.now)) }
    ensures why { IfErr result (IsBadRuleAt symbols.now files.now) }
{
    let mut rows = Vec::new(alloc);
    let refs = sections(alloc, files, Kind::Entries)?;
    for at in &refs {
        let Some(file) = view_of(files, at.file) else {
            unreachable!()
        };
        add_entries(alloc, symbols, file, at.file, at.section, &mut rows)?;
    }
    Ok(rows)
}
