//! The room of unwind information.
ghost use Rattle.std.specs.Prelude.{◌≡◌, ◌≤◌, length, IfOk};
ghost use Rattle.macho_model.specs.Consumed.{personality_targets};
ghost use Rattle.macho_model.specs.Links.{Link};
ghost use Rattle.macho_sizing.specs.Asked.{AreOf, CanBeSized};
ghost use Rattle.macho_sizing.specs.steps.Rooms.{TellsRoom};

use crate::asked::SizesOf;
use crate::span::text_span;
use macho_consumed::{RoomFault, unwind_room};
use std::alloc::{AllocError, Global};

/// The most bytes that unwind information may have. None where they are 2^64 or more, or functions may start that far apart.
pub(crate) fn unwind_bytes(alloc: Global, asked: &SizesOf<'_>) -> Result<Option<u64>, AllocError>
    requires sized { CanBeSized asked.now }
    requires few { (l : Link) × AreOf l asked.now × (length (personality_targets l) ≤ 3) }
    ensures { (l : Link) → AreOf l asked.now → IfOk result (TellsRoom l) }
{
    let Some(span) = text_span(asked.views) else {
        return Ok(None);
    };
    match unwind_room(alloc, asked.needs, asked.entries, span) {
        Ok(room) => Ok(Some(room)),
        Err(RoomFault::TooLarge) => Ok(None),
        Err(RoomFault::TooManyPersonalities) => unreachable!(),
        Err(RoomFault::OutOfMemory) => Err(AllocError),
    }
}
