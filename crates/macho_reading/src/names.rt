//! Names that no relocation uses: the entry of an executable, and the entries of export lists.
ghost use Rattle.std.specs.Prelude.{◌≡◌, ℕ, List, true, IfErr, OnOk};
ghost use Rattle.std.specs.Option.{option_copied};
ghost use Rattle.macho_model.specs.declared.placed.Counts.{Counts};
ghost use Rattle.macho_model.specs.Links.{Input, Link};
ghost use Rattle.macho_model.specs.Uses.{uses_of};
ghost use Rattle.macho_model.specs.Faults.{entry_is_defined};
ghost use Rattle.macho_symbol_names.specs.Kept.{Keeps};
ghost use Rattle.macho_symbols.specs.Kept.{IsResolved};
ghost use Rattle.macho_symbols.specs.Exported.{AreLists};
ghost use Rattle.macho_answer.specs.Standing.{Stands};
ghost use Rattle.macho_needs.specs.Noted.{IsNoted};
ghost use Rattle.macho_reading.specs.Read.{entry_of};
ghost use Rattle.macho_reading.specs.steps.Steps.{uses_before_names};

use macho_answer::LinkError;
use macho_consumed::is_section_target;
use macho_needs::Needs;
use macho_symbols::{ExportList, Resolved};
use std::alloc::Global;

/// Refuses an executable whose entry is not defined in a carried section.
pub(crate) fn find_entry(
    alloc: Global,
    symbols: &Resolved<'_>,
    entry: Option<&[u8]>,
) -> Result<(), LinkError>
    ensures found { (l : Link) (noted : List (List ℕ)) → IsResolved l noted symbols.now → option_copied entry.entry ≡ entry_of l
        → OnOk result (entry_is_defined l ≡ true) }
    ensures why { (l : Link) (counts : Counts) (noted : List (List ℕ)) → IsResolved l noted symbols.now
        → option_copied entry.entry ≡ entry_of l
        → IfErr result (Stands l counts) }
{
    let Some(name) = entry else {
        return Ok(());
    };
    if is_section_target(symbols.definition(name)) {
        return Ok(());
    }
    Err(LinkError::EntryNotDefined {
        name: Vec::from_slice(alloc, name)?,
    })
}

/// Notes the names of export lists that libraries define.
pub(crate) fn note_list(needs: &mut Needs<'_>, list: Option<&ExportList>) -> Result<(), LinkError>
    ensures noted { (l : Link) → IsNoted l (uses_before_names l) needs.old → AreLists l (option_copied list.entry)
        → OnOk result (IsNoted l (uses_of l) needs.new) }
    ensures why { (l : Link) (counts : Counts) (noted : List (List ℕ)) → IsResolved l noted needs.old.resolved
        → AreLists l (option_copied list.entry)
        → IfErr result (Stands l counts) }
    ensures kept { (inputs : List Input) → Keeps inputs needs.old.resolved.files → Keeps inputs needs.new.resolved.files }
{
    let Some(list) = list else {
        return Ok(());
    };
    needs.resolved.note_exports(list)?;
    Ok(())
}
