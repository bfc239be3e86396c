//! The export lists of a link, read as one list.
ghost use Rattle.std.specs.Prelude.{map, IfOk};
ghost use Rattle.std.specs.Option.{option_copied};
ghost use Rattle.macho_linking.specs.steps.Lists.{AreListsOf};

use macho_export_lists::ExportList;
use std::alloc::{AllocError, Global};

/// The entries of all lists, in order; None where there are no lists.
pub(crate) fn read_lists(alloc: Global, texts: &[Vec<u8>]) -> Result<Option<ExportList>, AllocError>
    ensures { IfOk result (λ list. AreListsOf (map (λ text. text.items) texts.now) list) }
{
    let Some((first, others)) = texts.split_first() else {
        return Ok(None);
    };
    let mut list = ExportList::parse(alloc, first)?;
    for text in others {
        list.add(text)?;
    }
    Ok(Some(list))
}
