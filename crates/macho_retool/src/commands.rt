//! The load command that a change names, and where the load commands end.
ghost use Rattle.std.specs.Prelude.{◌≡◌, ◌+◌, ◌-◌, ◌<◌, ◌≤◌, ◌^◌, ℕ, None, Some, IfOk, length};
ghost use Rattle.macho_model.specs.Commands.{commands_end, command_at};
ghost use Rattle.macho_model.specs.Loader.{IsAccepted};
ghost use Rattle.macho_retool.specs.Changes.{new_size, new_end};
ghost use Rattle.macho_retool.specs.steps.Named.{IsNamedPlace};

use crate::change::Change;
use macho_image_walks::u32_from;
use macho_loader::Loaded;
use std::alloc::{AllocError, Global};

/// The place of the load command that a change names; None where the image has none.
pub(crate) fn named_command(
    alloc: Global,
    loaded: &Loaded<'_>,
    change: &Change,
) -> Result<Option<u64>, AllocError>
    ensures { IfOk result (IsNamedPlace change.now loaded.now) }
{
    let commands = loaded.ranges(alloc, change.command_number())?;
    let count = change.count() as usize;
    if count == 0 || count > commands.len() {
        return Ok(None);
    }
    Ok(Some(commands[count - 1].command))
}

/// Where the load commands of an image end.
#[tactic(auto, unfolding(macho_model::specs::Commands::commands_end, macho_model::specs::Commands::header_of, macho_bytes::specs::Layouts::reading))]
pub(crate) fn commands_end(bytes: &[u8]) -> u64
    ensures value { result ≡ commands_end bytes.now }
    ensures small { result < 2 ^ 32 + 32 }
{
    32 + u32_from(bytes, 0, 20) as u64
}

/// The bytes of the new command.
pub(crate) fn new_size(change: &Change) -> u64
    ensures value { result ≡ new_size change.now }
    ensures small { result < 2 ^ 63 + 40 }
{
    (change.record_size() as u64 + change.path().len() as u64 + 1).next_multiple_of(8)
}

/// The size of the command at a place.
#[tactic(auto, unfolding(macho_bytes::specs::Layouts::reading))]
pub(crate) fn size_of_command(bytes: &[u8], place: u64) -> u64
    ensures { result ≡ (command_at bytes.now place).size }
{
    u32_from(bytes, place, 4) as u64
}

/// Where the load commands end once the one at a place is changed.
pub(crate) fn new_end(bytes: &[u8], change: &Change, place: u64) -> u64
    requires { (command_at bytes.now place).size ≤ commands_end bytes.now }
    ensures { result ≡ new_end change.now bytes.now (command_at bytes.now place) }
{
    commands_end(bytes) + new_size(change) - size_of_command(bytes, place)
}
