//! Members that are taken, one for each name that brings one.
ghost use Rattle.std.specs.Prelude.{◌≡◌, ℕ, List, [], ◌∷◌, ◌++◌, false, IfOk, OnOk};
ghost use Rattle.std.specs.HashMap.{get};
ghost use Rattle.macho_members.specs.Inputs.{member_at};
ghost use Rattle.macho_members.specs.Needs.{Brings};
ghost use Rattle.macho_members.specs.Views.{inputs_of, texts};
ghost use Rattle.macho_members.specs.steps.Tables.{same_text};
ghost use Rattle.macho_members.specs.steps.Taken.{AreUnderway, AreTaken, FindsBrought};
ghost use Rattle.macho_members.specs.steps.Held.{held, IsGrown};

use crate::inputs::{Asked, MemberPlace};
use indexmap::{IndexMap, IndexSet};
use std::alloc::{AllocError, Global};

/// Adds the names that a member uses.
fn add_used_by<'a>(
    inputs: &[Asked<'a>],
    place: MemberPlace,
    pending: &mut Vec<&'a [u8]>,
) -> Result<(), AllocError>
    ensures { OnOk result (texts pending.new.items
        ≡ texts pending.old.items ++ (member_at (inputs_of inputs.now) place.archive place.member).used) }
{
    match inputs.get(place.archive) {
        Some(Asked::Archive { members, .. }) => match members.get(place.member) {
            Some(names) => pending.extend_from_slice(names.used),
            None => Ok(()),
        },
        Some(Asked::Object(_)) => Ok(()),
        Some(Asked::Library(_)) => Ok(()),
        None => Ok(()),
    }
}

/// Takes a member, and adds what it uses to what is to be looked up, unless it is taken.
fn take_member<'a>(
    inputs: &[Asked<'a>],
    place: MemberPlace,
    taken: &mut IndexSet<MemberPlace>,
    pending: &mut Vec<&'a [u8]>,
) -> Result<(), AllocError>
    ensures step { (name : List ℕ) → Brings (inputs_of inputs.now) name place.archive place.member
        → AreUnderway (inputs_of inputs.now) (held taken.old.keys) (texts pending.old.items ++ name ∷ [])
        → OnOk result (AreUnderway (inputs_of inputs.now) (held taken.new.keys) (texts pending.new.items)) }
    ensures grown { OnOk result (IsGrown taken.old.keys taken.new.keys pending.old.items pending.new.items) }
{
    if taken.insert(place)? {
        add_used_by(inputs, place, pending)?;
    }
    Ok(())
}

/// Looks up a name, and takes the member that it brings.
fn take_brought<'a>(
    table: &IndexMap<&'a [u8], Option<MemberPlace>>,
    inputs: &[Asked<'a>],
    name: &'a [u8],
    taken: &mut IndexSet<MemberPlace>,
    pending: &mut Vec<&'a [u8]>,
) -> Result<(), AllocError>
    ensures step { FindsBrought (inputs_of inputs.now) (get same_text table.now)
        → AreUnderway (inputs_of inputs.now) (held taken.old.keys) (texts pending.old.items ++ name.now ∷ [])
        → OnOk result (AreUnderway (inputs_of inputs.now) (held taken.new.keys) (texts pending.new.items)) }
    ensures grown { OnOk result (IsGrown taken.old.keys taken.new.keys pending.old.items pending.new.items) }
{
    match table.get(&name) {
        Some(Some(place)) => take_member(inputs, *place, taken, pending),
        Some(None) => Ok(()),
        None => Ok(()),
    }
}

/// The members that names bring, and with them those that the names of these members bring, and so on.
pub(crate) fn taken_members<'a>(
    alloc: Global,
    table: &IndexMap<&'a [u8], Option<MemberPlace>>,
    inputs: &[Asked<'a>],
    mut pending: Vec<&'a [u8]>,
) -> Result<IndexSet<MemberPlace>, AllocError>
    requires table { FindsBrought (inputs_of inputs.now) (get same_text table.now) }
    requires start { AreUnderway (inputs_of inputs.now) (λ i m. false) (texts pending.items) }
    ensures { IfOk result (λ taken. AreTaken (inputs_of inputs.now) (held taken.keys)) }
{
    let mut taken = IndexSet::new(alloc);
    while let Some(name) = pending.pop() {
        take_brought(table, inputs, name, &mut taken, &mut pending)?;
    }
    Ok(taken)
}
