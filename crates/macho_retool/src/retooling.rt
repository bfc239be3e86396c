//! The whole change: first what refuses it, then the new bytes.
ghost use Rattle.std.specs.Prelude.{◌≡◌, ◌+◌, ◌≤◌, ℕ, IfOk, IfErr, OnOk, length, slice_index, Contains};
ghost use Rattle.macho_model.specs.Commands.{command_at, commands_end};
ghost use Rattle.macho_model.specs.Loader.{IsAccepted};
ghost use Rattle.macho_retool.specs.declared.change.RetoolFault.{RetoolFault};
ghost use Rattle.macho_retool.specs.Changes.{path_for};
ghost use Rattle.macho_retool.specs.Parts.{signature_begin};
ghost use Rattle.macho_retool.specs.Refusals.{Refuses, IsTold, TellsBy, rank};
ghost use Rattle.macho_retool.specs.Retooled.{IsRetooled};
ghost use Rattle.macho_retool.specs.steps.Clear.{RoomRefuses, RoomIsClear, FindRefuses, FindIsClear, IsFound, ClearBelow};
ghost use Rattle.macho_retool.specs.steps.Rewritten.{place_in, IsChanged};

use crate::change::{Change, RetoolFault};
use crate::commands::{commands_end, named_command, new_end, new_size, size_of_command};
use crate::form::{Form, form_of, text_end};
use crate::parts::parts_of;
use crate::rewriting::{Place, rewritten};
use crate::room::{first_in_way, first_used, room_before};
use macho_loader::Loaded;
use std::alloc::{AllocError, Global};

/// Where the command stands that a change names, and the signature of the image.
fn find(
    alloc: Global,
    bytes: &[u8],
    loaded: &Loaded<'_>,
    change: &Change,
) -> Result<(u64, Form), RetoolFault>
    requires same { loaded.now ≡ bytes.now }
    requires accepted { IsAccepted bytes.now }
    ensures found { IfOk result (IsFound bytes.now change.now) }
    ensures why { IfErr result (λ f. FindRefuses bytes.now change.now f × FindIsClear bytes.now change.now (rank f)) }
{
    let Ok(named) = named_command(alloc, loaded, change) else {
        return Err(RetoolFault::OutOfMemory);
    };
    let Some(place) = named else {
        return Err(RetoolFault::NotThere);
    };
    match form_of(alloc, bytes, loaded) {
        Ok(Some(form)) => Ok((place, form)),
        Ok(None) => Err(RetoolFault::Unsigned),
        Err(AllocError) => Err(RetoolFault::OutOfMemory),
    }
}

/// Whether the room that the parts leave is enough.
fn check_room(
    alloc: Global,
    bytes: &[u8],
    loaded: &Loaded<'_>,
    form: Form,
    needed: u64,
) -> Result<(), RetoolFault>
    requires same { loaded.now ≡ bytes.now }
    requires accepted { IsAccepted bytes.now }
    requires limit { signature_begin bytes.now ≡ form.limit }
    ensures found { OnOk result (RoomIsClear bytes.now needed 8) }
    ensures why { IfErr result (λ f. RoomRefuses bytes.now needed f × RoomIsClear bytes.now needed (rank f)) }
{
    let Ok(parts) = parts_of(alloc, bytes, loaded) else {
        return Err(RetoolFault::OutOfMemory);
    };
    let end = commands_end(bytes);
    if let Some(place) = first_in_way(&parts, end, form.limit as u64) {
        return Err(RetoolFault::Tangled { place });
    }
    let room = room_before(&parts, text_end(bytes), end);
    if needed > room {
        return Err(RetoolFault::NoRoom { needed, room });
    }
    match first_used(bytes, end, needed) {
        Some(place) => Err(RetoolFault::PaddingUsed { place }),
        None => Ok(()),
    }
}

/// The places of a change of the command at a place.
fn place_of(bytes: &[u8], change: &Change, at: u64) -> Place
    requires { (command_at bytes.now at).size ≤ commands_end bytes.now }
    ensures { result ≡ place_in change.now bytes.now (command_at bytes.now at) }
{
    Place {
        at: at as usize,
        old_size: size_of_command(bytes, at) as usize,
        new_size: new_size(change) as usize,
        old_end: commands_end(bytes) as usize,
        new_end: new_end(bytes, change, at) as usize,
    }
}

/// Changes a name in the head of an image that the loader accepts, and signs the image again.
fn retool_loaded(
    alloc: Global,
    bytes: &[u8],
    loaded: &Loaded<'_>,
    change: &Change,
) -> Result<Vec<u8>, RetoolFault>
    requires same { loaded.now ≡ bytes.now }
    requires accepted { IsAccepted bytes.now }
    requires name { Contains (path_for change.now) 0 → ⊥ }
    ensures found { IfOk result (λ v. IsChanged change.now bytes.now v.items) }
    ensures why { IfErr result (λ f. IsTold bytes.now change.now f × ClearBelow bytes.now change.now (rank f)) }
{
    let (at, form) = match find(alloc, bytes, loaded, change) {
        Ok(found) => found,
        Err(fault) => return Err(fault),
    };
    let place = place_of(bytes, change, at);
    match check_room(alloc, bytes, loaded, form, place.new_end as u64) {
        Ok(()) => {}
        Err(fault) => return Err(fault),
    }
    match rewritten(alloc, bytes, change, &place, form) {
        Ok(image) => Ok(image),
        Err(AllocError) => Err(RetoolFault::OutOfMemory),
    }
}

/// Changes a name in the head of an image, and signs the image again.
///
/// # Errors
///
/// The first refusal of `RetoolFault` that stands, in its order. Want of memory may be told before any.
pub fn retool(alloc: Global, bytes: &[u8], change: &Change) -> Result<Vec<u8>, RetoolFault>
    ensures found { IfOk result (λ v. IsRetooled change.now bytes.now v.items) }
    ensures only { (fault : RetoolFault) → Refuses bytes.now change.now fault → TellsBy fault result }
    ensures why { IfErr result (IsTold bytes.now change.now) }
{
    let loaded = match Loaded::accept(bytes) {
        Ok(loaded) => loaded,
        Err(fault) => return Err(RetoolFault::Rejected { fault }),
    };
    if change.path().contains(&0) {
        return Err(RetoolFault::BadName);
    }
    retool_loaded(alloc, bytes, &loaded, change)
}
