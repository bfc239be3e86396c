//! The members of archives that are linked.
ghost use Rattle.std.specs.Prelude.{◌≡◌, ℕ, ◌<◌, ◌+◌, ◌⊎◌, ◌++◌, ◌↔◌, true, List, length, slice_index_or, IfOk, OnOk, IsTrue};
ghost use Rattle.std.specs.List.{flat_map};
ghost use Rattle.macho_members.specs.declared.inputs.Asked.{Asked};
ghost use Rattle.macho_members.specs.Inputs.{Input};
ghost use Rattle.macho_members.specs.Needs.{AreNeeded, IsNeeded};
ghost use Rattle.macho_members.specs.Views.{inputs_of, places_of, texts};
ghost use Rattle.macho_members.specs.steps.Taken.{AreTaken, AreListed};
ghost use Rattle.macho_members.specs.steps.Held.{held, starts_in};

use crate::inputs::{Asked, MemberPlace, ObjectNames};
use crate::lookup::table_of;
use crate::taking::taken_members;
use indexmap::IndexSet;
use std::alloc::{AllocError, Global};

/// Adds the names that members use.
fn add_used<'a>(names: &mut Vec<&'a [u8]>, members: &[ObjectNames<'a>]) -> Result<(), AllocError>
    ensures { OnOk result (texts names.new.items ≡ texts names.old.items ++ flat_map (λ m. texts m.used.now) members.now) }
{
    for member in members {
        names.extend_from_slice(member.used)?;
    }
    Ok(())
}

/// Adds the names that an object or the members of a whole archive use.
fn add_starts<'a>(names: &mut Vec<&'a [u8]>, input: &Asked<'a>) -> Result<(), AllocError>
    ensures { OnOk result (texts names.new.items ≡ texts names.old.items ++ starts_in input.now) }
{
    match input {
        Asked::Object(object) => names.extend_from_slice(object.used),
        Asked::Library(_) => Ok(()),
        Asked::Archive { whole, members } => {
            if *whole {
                add_used(names, members)
            } else {
                Ok(())
            }
        }
    }
}

/// The names that objects and the members of whole archives use.
fn start_names<'a>(alloc: Global, inputs: &[Asked<'a>]) -> Result<Vec<&'a [u8]>, AllocError>
    ensures { IfOk result (λ names. texts names.items ≡ flat_map starts_in inputs.now) }
{
    let mut names = Vec::new(alloc);
    for input in inputs {
        add_starts(&mut names, input)?;
    }
    Ok(names)
}

/// Whether a member is linked.
fn is_linked(taken: &IndexSet<MemberPlace>, whole: bool, place: MemberPlace) -> bool
    ensures { IsTrue result ↔ (whole ≡ true) ⊎ (held taken.now.keys place.archive place.member ≡ true) }
{
    whole || taken.contains(&place)
}

/// Adds a member that is linked.
fn list_member(
    places: &mut Vec<MemberPlace>,
    taken: &IndexSet<MemberPlace>,
    whole: bool,
    place: MemberPlace,
) -> Result<(), AllocError>
    ensures { (inputs : List Input) → AreListed inputs place.archive place.member (places_of places.old.items)
        → (IsNeeded inputs place.archive place.member
        ↔ (whole ≡ true) ⊎ (held taken.now.keys place.archive place.member ≡ true))
        → OnOk result (AreListed inputs place.archive (place.member + 1) (places_of places.new.items)) }
{
    if is_linked(taken, whole, place) {
        places.push(place)?;
    }
    Ok(())
}

/// Adds the members of an archive that are linked.
fn list_archive(
    places: &mut Vec<MemberPlace>,
    taken: &IndexSet<MemberPlace>,
    whole: bool,
    archive: usize,
    count: usize,
) -> Result<(), AllocError>
    ensures { (inputs : List Input) → AreListed inputs archive 0 (places_of places.old.items)
        → ((n : ℕ) → IsNeeded inputs archive n → (n < count) × ((whole ≡ true) ⊎ (held taken.now.keys archive n ≡ true)))
        → ((n : ℕ) → n < count → (whole ≡ true) ⊎ (held taken.now.keys archive n ≡ true) → IsNeeded inputs archive n)
        → OnOk result (AreListed inputs (archive + 1) 0 (places_of places.new.items)) }
{
    for member in 0..count {
        list_member(places, taken, whole, MemberPlace { archive, member })?;
    }
    Ok(())
}

/// Adds the members of an input that are linked.
fn list_input(
    places: &mut Vec<MemberPlace>,
    taken: &IndexSet<MemberPlace>,
    number: usize,
    input: &Asked<'_>,
) -> Result<(), AllocError>
    ensures { (all : List Asked) → AreTaken (inputs_of all) (held taken.now.keys) → number < length all
        → input.now ≡ slice_index_or all number input.now → AreListed (inputs_of all) number 0 (places_of places.old.items)
        → OnOk result (AreListed (inputs_of all) (number + 1) 0 (places_of places.new.items)) }
{
    match input {
        Asked::Object(_) => Ok(()),
        Asked::Library(_) => Ok(()),
        Asked::Archive { whole, members } => list_archive(
            places,
            taken,
            *whole,
            number,
            members.len(),
        ),
    }
}

/// The members that are linked, in order.
fn list_members(
    alloc: Global,
    inputs: &[Asked<'_>],
    taken: &IndexSet<MemberPlace>,
) -> Result<Vec<MemberPlace>, AllocError>
    ensures { AreTaken (inputs_of inputs.now) (held taken.now.keys)
        → IfOk result (λ places. AreNeeded (inputs_of inputs.now) (places_of places.items)) }
{
    let mut places = Vec::new(alloc);
    for (number, input) in inputs.iter().enumerate() {
        list_input(&mut places, taken, number, input)?;
    }
    Ok(places)
}

/// The members of archives that a link of these inputs takes, in the order of archives and members, each once.
///
/// # Errors
///
/// There is not enough memory.
pub fn needed_members(alloc: Global, inputs: &[Asked<'_>]) -> Result<Vec<MemberPlace>, AllocError>
    ensures { IfOk result (λ places. AreNeeded (inputs_of inputs.now) (places_of places.items)) }
{
    let table = table_of(alloc, inputs)?;
    let pending = start_names(alloc, inputs)?;
    let taken = taken_members(alloc, &table, inputs, pending)?;
    list_members(alloc, inputs, &taken)
}
