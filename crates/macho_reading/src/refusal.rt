//! What is told of a link whose consumed sections are broken.
ghost use Rattle.std.specs.Prelude.{◌≡◌, ℕ, ◌^◌, ◌<◌, List, length};
ghost use Rattle.std.specs.Option.{option_copied};
ghost use Rattle.macho_model.specs.declared.placed.Counts.{Counts};
ghost use Rattle.macho_model.specs.Links.{Input, Link};
ghost use Rattle.macho_symbol_names.specs.Kept.{Keeps};
ghost use Rattle.macho_symbols.specs.Kept.{IsResolved};
ghost use Rattle.macho_symbols.specs.Exported.{AreLists};
ghost use Rattle.macho_answer.specs.Standing.{Stands};
ghost use Rattle.macho_promise.specs.Views.{views_of};
ghost use Rattle.macho_relocation_scan.specs.Surveys.{AreOfInputs};
ghost use Rattle.macho_consumed.specs.Told.{IsStanding};
ghost use Rattle.macho_reading.specs.Read.{entry_of};

use crate::names::{find_entry, note_list};
use crate::undefined::find_undefined;
use macho_answer::LinkError;
use macho_consumed::ConsumedFault;
use macho_needs::Needs;
use macho_object::File;
use macho_symbols::ExportList;
use std::alloc::Global;

/// A refusal of consumed sections, as one of the link.
fn error_of(fault: ConsumedFault) -> LinkError
    ensures { (l : Link) (counts : Counts) → IsStanding l fault → Stands l counts result }
{
    match fault {
        ConsumedFault::BadInitializer {
            file,
            section,
            offset,
        } => LinkError::BadInitializer {
            file,
            section,
            offset,
        },
        ConsumedFault::BadUnwind {
            file,
            section,
            entry,
            rule,
        } => LinkError::BadUnwind {
            file,
            section,
            entry,
            rule,
        },
        ConsumedFault::OutOfMemory => LinkError::OutOfMemory,
    }
}

/// The refusal that is told where consumed sections are broken: that of a name of initializers or of personality functions, of the
/// entry or of a name of export lists goes before.
pub(crate) fn refusal(
    alloc: Global,
    needs: &mut Needs<'_>,
    views: &[Option<File<'_>>],
    entry: Option<&[u8]>,
    list: Option<&ExportList>,
    fault: ConsumedFault,
) -> LinkError
    requires few { length views.now < 2 ^ 32 }
    requires same { AreOfInputs views.now needs.old.resolved.files }
    ensures told { (l : Link) (counts : Counts) (noted : List (List ℕ)) → views.now ≡ views_of l → IsResolved l noted needs.old.resolved
        → option_copied entry.entry ≡ entry_of l → AreLists l (option_copied list.entry) → IsStanding l fault → Stands l counts result }
    ensures kept { (inputs : List Input) → Keeps inputs needs.old.resolved.files → Keeps inputs needs.new.resolved.files }
{
    if let Err(error) = find_undefined(needs, views) {
        return error;
    }
    if let Err(error) = find_entry(alloc, &needs.resolved, entry) {
        return error;
    }
    if let Err(error) = note_list(needs, list) {
        return error;
    }
    error_of(fault)
}
