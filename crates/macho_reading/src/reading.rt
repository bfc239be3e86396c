//! The reading of a link.
ghost use Rattle.std.specs.Prelude.{◌≡◌, ◌^◌, ◌<◌, ◌⊎◌, true, List, [], length, Option, Some, None, Ok, Err, IfOk, IfErr, OnOk};
ghost use Rattle.std.specs.Option.{option_copied};
ghost use Rattle.macho_model.specs.declared.placed.Counts.{Counts};
ghost use Rattle.macho_model.specs.Links.{Input, Link};
ghost use Rattle.macho_model.specs.Uses.{uses_of};
ghost use Rattle.macho_model.specs.Faults.{entry_is_defined};
ghost use Rattle.macho_object.specs.Views.{FileBytes};
ghost use Rattle.macho_symbol_names.specs.Kept.{Keeps};
ghost use Rattle.macho_symbols.specs.Exported.{AreLists};
ghost use Rattle.macho_answer.specs.Standing.{Stands};
ghost use Rattle.macho_relocation_scan.specs.Surveys.{AreOfInputs};
ghost use Rattle.macho_promise.specs.Sound.{IsSound};
ghost use Rattle.macho_needs.specs.Noted.{IsNoted};
ghost use Rattle.macho_reading.specs.Read.{IsLinkOf, IsReadOf, AreKnown};
ghost use Rattle.macho_reading.specs.steps.Rows.{AreUsable, AreOfSome};
ghost use Rattle.macho_reading.specs.steps.Steps.{IsSurveyed, IsHalfRead, IsNotedWith};

use crate::link::ReadLink;
use crate::names::{find_entry, note_list};
use crate::noting::{begun, use_rows};
use crate::refusal::refusal;
use crate::rows::{Rows, read_rows};
use macho_answer::LinkError;
use macho_needs::Needs;
use macho_object::File;
use macho_relocation_scan::survey;
use macho_symbols::{ExportList, Resolved};
use std::alloc::Global;

/// Notes what stands behind carried relocations: initializers, personality functions and names of export lists. The entry is
/// looked for before those names.
fn note_rest(
    alloc: Global,
    needs: &mut Needs<'_>,
    rows: &Rows,
    entry: Option<&[u8]>,
    list: Option<&ExportList>,
) -> Result<(), LinkError>
    requires held { AreOfSome needs.old.resolved.files }
    requires usable { AreUsable needs.old.resolved rows.now }
    ensures noted { (l : Link) → IsHalfRead l needs.old rows.now (option_copied entry.entry) (option_copied list.entry)
        → OnOk result (IsNoted l (uses_of l) needs.new) }
    ensures found { (l : Link) → IsHalfRead l needs.old rows.now (option_copied entry.entry) (option_copied list.entry)
        → OnOk result (entry_is_defined l ≡ true) }
    ensures why { (l : Link) (counts : Counts) → IsHalfRead l needs.old rows.now (option_copied entry.entry) (option_copied list.entry)
        → IfErr result (Stands l counts) }
    ensures kept { (inputs : List Input) → Keeps inputs needs.old.resolved.files → Keeps inputs needs.new.resolved.files }
{
    use_rows(needs, rows)?;
    find_entry(alloc, &needs.resolved, entry)?;
    note_list(needs, list)
}

/// Reads and notes what stands behind carried relocations.
fn read_behind(
    alloc: Global,
    needs: &mut Needs<'_>,
    views: &[Option<File<'_>>],
    entry: Option<&[u8]>,
    list: Option<&ExportList>,
) -> Result<Rows, LinkError>
    requires few { length views.now < 2 ^ 32 }
    requires same { AreOfInputs views.now needs.old.resolved.files }
    ensures done { (l : Link) → IsSurveyed l views.now needs.old (option_copied entry.entry) (option_copied list.entry)
        → IfOk result (IsNotedWith l needs.new) }
    ensures usable { IfOk result (AreUsable needs.new.resolved) }
    ensures why { (l : Link) (counts : Counts) → IsSurveyed l views.now needs.old (option_copied entry.entry) (option_copied list.entry)
        → IfErr result (Stands l counts) }
    ensures kept { (inputs : List Input) → Keeps inputs needs.old.resolved.files → Keeps inputs needs.new.resolved.files }
{
    let rows = match read_rows(alloc, views, &needs.resolved) {
        Ok(rows) => rows,
        Err(fault) => return Err(refusal(alloc, needs, views, entry, list, fault)),
    };
    note_rest(alloc, needs, &rows, entry, list)?;
    Ok(rows)
}

/// The rows, where nothing stands against the link. A refusal that they were read with goes before one that is told of carried
/// relocations.
fn unless_told(read: Result<Rows, LinkError>, told: Option<LinkError>) -> Result<Rows, LinkError>
    ensures ok { IfOk result (λ rows. (read ≡ Ok rows) × (told ≡ None)) }
    ensures why { IfErr result (λ error. (read ≡ Err error) ⊎ (told ≡ Some error)) }
{
    let rows = read?;
    match told {
        Some(error) => Err(error),
        None => Ok(rows),
    }
}

/// Notes all that the objects ask for, and reads what stands in their consumed sections.
fn read_uses(
    alloc: Global,
    needs: &mut Needs<'_>,
    views: &[Option<File<'_>>],
    entry: Option<&[u8]>,
    list: Option<&ExportList>,
) -> Result<Rows, LinkError>
    requires few { length views.now < 2 ^ 32 }
    requires same { AreOfInputs views.now needs.old.resolved.files }
    ensures done { (l : Link) → IsLinkOf l views.now needs.old.resolved (option_copied entry.entry) (option_copied list.entry)
        → IsNoted l [] needs.old → IfOk result (λ rows. IsNotedWith l needs.new rows × IsSound l) }
    ensures usable { IfOk result (AreUsable needs.new.resolved) }
    ensures why { (l : Link) (counts : Counts)
        → IsLinkOf l views.now needs.old.resolved (option_copied entry.entry) (option_copied list.entry)
        → IsNoted l [] needs.old → IfErr result (Stands l counts) }
    ensures kept { (inputs : List Input) → Keeps inputs needs.old.resolved.files → Keeps inputs needs.new.resolved.files }
{
    let told = survey(alloc, needs, views)?;
    let read = read_behind(alloc, needs, views, entry, list);
    unless_told(read, told)
}

/// All that was read, with the exports.
fn with_exports<'data>(
    alloc: Global,
    needs: Needs<'data>,
    rows: Rows,
    list: Option<&ExportList>,
) -> Result<ReadLink<'data>, LinkError>
    ensures done { (l : Link) → IsNotedWith l needs.entry rows → IsSound l → AreLists l (option_copied list.entry)
        → IfOk result (IsReadOf l) }
    ensures known { (views : List (Option FileBytes)) → AreOfInputs views needs.entry.resolved.files → AreUsable needs.entry.resolved rows
        → IfOk result (AreKnown views) }
    ensures why { (l : Link) (counts : Counts) → IsNotedWith l needs.entry rows → AreLists l (option_copied list.entry)
        → IfErr result (Stands l counts) }
{
    let exports = needs.resolved.exports(alloc, list)?;
    Ok(ReadLink {
        needs,
        initializers: rows.initializers,
        entries: rows.entries,
        exports,
    })
}

/// Reads all that the objects of a link ask for. `views` are views of its objects by the numbers of their files, None for another
/// input; `entry` is the name at which an executable begins, None for a dynamic library; `list` holds the export lists, if there
/// are any.
///
/// # Errors
///
/// A name that is used, entered at or listed has no definition, a section of initializers or of unwind entries breaks its rules,
/// a relocation is not supported, two overlap, an addend doesn't fit, a pointer stands where none may, or there is not enough memory.
/// Of several refusals that is told which stands first in `LinkError`.
pub fn read_link<'data>(
    alloc: Global,
    resolved: Resolved<'data>,
    views: &[Option<File<'_>>],
    entry: Option<&[u8]>,
    list: Option<&ExportList>,
) -> Result<ReadLink<'data>, LinkError>
    requires few { length views.now < 2 ^ 32 }
    requires same { AreOfInputs views.now resolved.files }

    // What is read is what the objects ask for, and nothing of it stands against the link.
    ensures done { (l : Link) → IsLinkOf l views.now resolved.entry (option_copied entry.entry) (option_copied list.entry)
        → IfOk result (IsReadOf l) }

    // The symbols that it names are there.
    ensures known { IfOk result (AreKnown views.now) }
    ensures why { (l : Link) (counts : Counts) → IsLinkOf l views.now resolved.entry (option_copied entry.entry) (option_copied list.entry)
        → IfErr result (Stands l counts) }
{
    let mut needs = begun(alloc, resolved);
    let rows = read_uses(alloc, &mut needs, views, entry, list)?;
    with_exports(alloc, needs, rows, list)
}
