//! The table of a link: with each name the member that it brings.
ghost use Rattle.std.specs.Prelude.{map, IfOk, OnOk};
ghost use Rattle.std.specs.List.{enumerate_from};
ghost use Rattle.std.specs.HashMap.{get};
ghost use Rattle.macho_members.specs.Views.{inputs_of};
ghost use Rattle.macho_members.specs.steps.Tables.{same_text, Known, first_of, behind, none_known, settled_by, offered_by, Finds};
ghost use Rattle.macho_members.specs.steps.Taken.{FindsBrought};

use crate::inputs::{Asked, MemberPlace, ObjectNames};
use crate::table::{note_members, note_names};
use indexmap::IndexMap;
use std::alloc::{AllocError, Global};

/// Notes that the names which members define bring nothing.
fn note_defined<'a>(
    table: &mut IndexMap<&'a [u8], Option<MemberPlace>>,
    members: &[ObjectNames<'a>],
) -> Result<(), AllocError>
    ensures { (known : Known) → Finds (get same_text table.old) known
        → OnOk result (Finds (get same_text table.new) (behind known (first_of (map none_known members.now)))) }
{
    for names in members {
        note_names(table, names.defined, None)?;
    }
    Ok(())
}

/// Notes what an input settles.
fn note_settled<'a>(
    table: &mut IndexMap<&'a [u8], Option<MemberPlace>>,
    input: &Asked<'a>,
) -> Result<(), AllocError>
    ensures { (known : Known) → Finds (get same_text table.old) known
        → OnOk result (Finds (get same_text table.new) (behind known (settled_by input.now))) }
{
    match input {
        Asked::Object(names) => note_names(table, names.defined, None),
        Asked::Archive { whole, members } => {
            if *whole {
                note_defined(table, members)
            } else {
                Ok(())
            }
        }
        Asked::Library(_) => Ok(()),
    }
}

/// Notes what an input offers.
fn note_offered<'a>(
    table: &mut IndexMap<&'a [u8], Option<MemberPlace>>,
    number: usize,
    input: &Asked<'a>,
) -> Result<(), AllocError>
    ensures { (known : Known) → Finds (get same_text table.old) known
        → OnOk result (Finds (get same_text table.new) (behind known (offered_by (number, input.now)))) }
{
    match input {
        Asked::Object(_) => Ok(()),
        Asked::Library(names) => note_names(table, names, None),
        Asked::Archive { members, .. } => note_members(table, members, number),
    }
}

/// Notes what inputs settle.
fn note_all_settled<'a>(
    table: &mut IndexMap<&'a [u8], Option<MemberPlace>>,
    inputs: &[Asked<'a>],
) -> Result<(), AllocError>
    ensures { (known : Known) → Finds (get same_text table.old) known
        → OnOk result (Finds (get same_text table.new) (behind known (first_of (map settled_by inputs.now)))) }
{
    for input in inputs {
        note_settled(table, input)?;
    }
    Ok(())
}

/// Notes what inputs offer.
fn note_all_offered<'a>(
    table: &mut IndexMap<&'a [u8], Option<MemberPlace>>,
    inputs: &[Asked<'a>],
) -> Result<(), AllocError>
    ensures { (known : Known) → Finds (get same_text table.old) known
        → OnOk result (Finds (get same_text table.new)
        (behind known (first_of (map offered_by (enumerate_from 0 inputs.now))))) }
{
    for (number, input) in inputs.iter().enumerate() {
        note_offered(table, number, input)?;
    }
    Ok(())
}

/// The table of the names that inputs settle or offer.
pub(crate) fn table_of<'a>(
    alloc: Global,
    inputs: &[Asked<'a>],
) -> Result<IndexMap<&'a [u8], Option<MemberPlace>>, AllocError>
    ensures { IfOk result (λ table. FindsBrought (inputs_of inputs.now) (get same_text table)) }
{
    let mut table = IndexMap::new(alloc);
    note_all_settled(&mut table, inputs)?;
    note_all_offered(&mut table, inputs)?;
    Ok(table)
}
