//! Uses by consumed sections, noted row by row.
ghost use Rattle.std.specs.Prelude.{◌≡◌, ℕ, ◌++◌, List, [], All, IfErr, OnOk};
ghost use Rattle.std.specs.List.{flat_map};
ghost use Rattle.macho_model.specs.declared.placed.Counts.{Counts};
ghost use Rattle.macho_model.specs.Links.{Input, Link};
ghost use Rattle.macho_model.specs.Uses.{Use};
ghost use Rattle.macho_symbol_names.specs.Kept.{Keeps};
ghost use Rattle.macho_symbols.specs.Kept.{IsResolved};
ghost use Rattle.macho_answer.specs.Standing.{Stands};
ghost use Rattle.macho_promise.specs.Noted.{BeginsWith, uses_of_carried};
ghost use Rattle.macho_needs.specs.Noted.{IsNoted};
ghost use Rattle.macho_consumed.specs.Laws.{uses_of_entry};
ghost use Rattle.macho_consumed.specs.Told.{EntriesKeepRules};
ghost use Rattle.macho_reading.specs.steps.Rows.{uses_of_row, IsInitializerOf, IsEntryOf, IsUsable, IsUsableEntry, AreUsable, AreRows, AreOfSome};
ghost use Rattle.macho_reading.specs.steps.Steps.{uses_before_names};

use crate::rows::Rows;
use macho_answer::LinkError;
use macho_consumed::{Initializer, UnwindEntry};
use macho_needs::{Needs, Tables};
use macho_symbols::Resolved;
use std::alloc::Global;

/// The needs of a link of which nothing is noted.
pub(crate) fn begun<'data>(alloc: Global, resolved: Resolved<'data>) -> Needs<'data>
    ensures noted { (l : Link) → IsResolved l [] resolved.entry → IsNoted l [] result }
    ensures same { result.resolved ≡ resolved.entry }
{
    Needs {
        resolved,
        tables: Tables::new(alloc),
    }
}

/// Notes what initializers use, in order.
fn use_initializers(needs: &mut Needs<'_>, rows: &[Initializer]) -> Result<(), LinkError>
    requires held { AreOfSome needs.old.resolved.files }
    requires usable { All (IsUsable needs.old.resolved) rows.now }
    ensures noted { (l : Link) (us : List Use) → IsNoted l us needs.old → All (IsInitializerOf l) rows.now
        → BeginsWith l (us ++ flat_map uses_of_row rows.now) → OnOk result (IsNoted l (us ++ flat_map uses_of_row rows.now) needs.new) }
    ensures why { (l : Link) (counts : Counts) (us : List Use) → IsNoted l us needs.old → All (IsInitializerOf l) rows.now
        → BeginsWith l (us ++ flat_map uses_of_row rows.now) → IfErr result (Stands l counts) }
    ensures kept { (inputs : List Input) → Keeps inputs needs.old.resolved.files → Keeps inputs needs.new.resolved.files }
{
    for row in rows {
        needs.use_initializer(row.file, row.relocation)?;
    }
    Ok(())
}

/// Notes the personality function of an entry, if it has one.
fn use_entry(needs: &mut Needs<'_>, entry: UnwindEntry) -> Result<(), LinkError>
    requires { IsUsableEntry needs.old.resolved entry }
    ensures noted { (l : Link) (us : List Use) → IsNoted l us needs.old → IsEntryOf l entry → BeginsWith l (us ++ uses_of_entry entry)
        → OnOk result (IsNoted l (us ++ uses_of_entry entry) needs.new) }
    ensures why { (l : Link) (counts : Counts) (us : List Use) → IsNoted l us needs.old → IsEntryOf l entry
        → BeginsWith l (us ++ uses_of_entry entry) → IfErr result (Stands l counts) }
    ensures kept { (inputs : List Input) → Keeps inputs needs.old.resolved.files → Keeps inputs needs.new.resolved.files }
{
    let Some(used) = entry.personality else {
        return Ok(());
    };
    needs.use_personality(entry.file, used.relocation)?;
    Ok(())
}

/// Notes the personality functions of entries, in order.
fn use_entries(needs: &mut Needs<'_>, entries: &[UnwindEntry]) -> Result<(), LinkError>
    requires held { AreOfSome needs.old.resolved.files }
    requires usable { All (IsUsableEntry needs.old.resolved) entries.now }
    ensures noted { (l : Link) (us : List Use) → IsNoted l us needs.old → All (IsEntryOf l) entries.now
        → BeginsWith l (us ++ flat_map uses_of_entry entries.now)
        → OnOk result (IsNoted l (us ++ flat_map uses_of_entry entries.now) needs.new) }
    ensures why { (l : Link) (counts : Counts) (us : List Use) → IsNoted l us needs.old → All (IsEntryOf l) entries.now
        → BeginsWith l (us ++ flat_map uses_of_entry entries.now) → IfErr result (Stands l counts) }
    ensures kept { (inputs : List Input) → Keeps inputs needs.old.resolved.files → Keeps inputs needs.new.resolved.files }
{
    for entry in entries {
        use_entry(needs, *entry)?;
    }
    Ok(())
}

/// Notes what the rows of a link use: its initializers, then its personality functions.
pub(crate) fn use_rows(needs: &mut Needs<'_>, rows: &Rows) -> Result<(), LinkError>
    requires held { AreOfSome needs.old.resolved.files }
    requires usable { AreUsable needs.old.resolved rows.now }
    ensures noted { (l : Link) → IsNoted l (uses_of_carried l) needs.old → AreRows l rows.now → EntriesKeepRules l
        → OnOk result (IsNoted l (uses_before_names l) needs.new) }
    ensures why { (l : Link) (counts : Counts) → IsNoted l (uses_of_carried l) needs.old → AreRows l rows.now → EntriesKeepRules l
        → IfErr result (Stands l counts) }
    ensures kept { (inputs : List Input) → Keeps inputs needs.old.resolved.files → Keeps inputs needs.new.resolved.files }
{
    use_initializers(needs, &rows.initializers)?;
    use_entries(needs, &rows.entries)
}
