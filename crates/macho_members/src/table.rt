//! A table of names: which member each brings.
ghost use Rattle.std.specs.Prelude.{◌≡◌, ℕ, map, List, OnOk};
ghost use Rattle.std.specs.List.{enumerate_from};
ghost use Rattle.std.specs.HashMap.{get};
ghost use Rattle.macho_members.specs.steps.Tables.{same_text, Known, named, member_known, first_of, behind, Finds};

use crate::inputs::{MemberPlace, ObjectNames};
use indexmap::IndexMap;
use std::alloc::AllocError;

/// Notes what a name brings, unless that is known.
fn note_name<'a>(
    table: &mut IndexMap<&'a [u8], Option<MemberPlace>>,
    name: &'a [u8],
    place: Option<MemberPlace>,
) -> Result<(), AllocError>
    ensures { (known : Known) → Finds (get same_text table.old) known
        → OnOk result (Finds (get same_text table.new) (behind known (named place name.now))) }
{
    if !table.contains_key(&name) {
        table.insert(name, place)?;
    }
    Ok(())
}

/// Notes what names bring, unless that is known.
pub(crate) fn note_names<'a>(
    table: &mut IndexMap<&'a [u8], Option<MemberPlace>>,
    names: &[&'a [u8]],
    place: Option<MemberPlace>,
) -> Result<(), AllocError>
    ensures { (known : Known) → Finds (get same_text table.old) known
        → OnOk result (Finds (get same_text table.new) (behind known (first_of (map (λ n. named place n.now) names.now)))) }
{
    for name in names {
        note_name(table, *name, place)?;
    }
    Ok(())
}

/// Notes what the names that the members of an archive define bring, unless that is known.
pub(crate) fn note_members<'a>(
    table: &mut IndexMap<&'a [u8], Option<MemberPlace>>,
    members: &[ObjectNames<'a>],
    archive: usize,
) -> Result<(), AllocError>
    ensures { (known : Known) → Finds (get same_text table.old) known
        → OnOk result (Finds (get same_text table.new)
        (behind known (first_of (map (member_known archive) (enumerate_from 0 members.now))))) }
{
    for (member, names) in members.iter().enumerate() {
        let place = MemberPlace { archive, member };
        note_names(table, names.defined, Some(place))?;
    }
    Ok(())
}
