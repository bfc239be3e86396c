//! The rows of consumed sections, read with their rules checked.
ghost use Rattle.std.specs.Prelude.{◌≡◌, ℕ, ◌^◌, ◌<◌, List, length, All, IfOk, IfErr, OnOk};
ghost use Rattle.macho_model.specs.Links.{Link};
ghost use Rattle.macho_symbols.specs.Kept.{IsResolved};
ghost use Rattle.macho_promise.specs.Views.{views_of};
ghost use Rattle.macho_relocation_scan.specs.Surveys.{AreOfInputs};
ghost use Rattle.macho_consumed.specs.Told.{IsStanding};
ghost use Rattle.macho_reading.specs.steps.Rows.{IsWhole, AreRows, KeepRules, AreUsable};

use macho_consumed::{ConsumedFault, Initializer, UnwindEntry, read_entries, read_initializers};
use macho_object::File;
use macho_symbols::Resolved;
use std::alloc::Global;

/// Rows of initializers and of unwind entries.
#[derive(Drop)]
pub(crate) struct Rows {
    /// By file, section and slot.
    pub(crate) initializers: Vec<Initializer>,
    /// By file, section and number.
    pub(crate) entries: Vec<UnwindEntry>,
}

/// States that a file that is viewed keeps the rules of its kind: of objects, or of dynamic libraries.
fn is_whole(view: &Option<File<'_>>)
    ensures { IsWhole view.now }
{
    if let Some(file) = view {
        let _kind = file.is_dynamic();
    }
}

/// States that each file that is viewed keeps the rules of its kind.
fn are_whole(views: &[Option<File<'_>>])
    ensures { All IsWhole views.now }
{
    for view in views {
        is_whole(view);
    }
}

/// Reads the consumed sections of a link.
pub(crate) fn read_rows(
    alloc: Global,
    views: &[Option<File<'_>>],
    symbols: &Resolved<'_>,
) -> Result<Rows, ConsumedFault>
    requires few { length views.now < 2 ^ 32 }
    requires same { AreOfInputs views.now symbols.now.files }
    ensures rows { (l : Link) → views.now ≡ views_of l → IfOk result (AreRows l) }
    ensures keeps { (l : Link) (noted : List (List ℕ)) → views.now ≡ views_of l → IsResolved l noted symbols.now
        → OnOk result (KeepRules l) }
    ensures usable { IfOk result (AreUsable symbols.now) }
    ensures why { (l : Link) (noted : List (List ℕ)) → views.now ≡ views_of l → IsResolved l noted symbols.now
        → IfErr result (IsStanding l) }
{
    are_whole(views);
    let initializers = read_initializers(alloc, views, symbols)?;
    let entries = read_entries(alloc, views, symbols)?;
    Ok(Rows {
        initializers,
        entries,
    })
}
