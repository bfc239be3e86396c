//! The room for unwind information, told before anything has an address.
ghost use Rattle.std.specs.Prelude.{◌≡◌, ℕ, ◌<◌, ◌≤◌, List, length, map, All, is_some, IfOk, IfErr, OnOk};
ghost use Rattle.macho_model.specs.Links.{Link};
ghost use Rattle.macho_model.specs.Consumed.{entries_of_link};
ghost use Rattle.macho_unwind_pages.specs.Entries.{MOST_PERSONALITIES, ids_of};
ghost use Rattle.macho_promise.specs.Sizes.{unwind_input, text_span, unwind_size};
ghost use Rattle.macho_consumed.specs.Rows.{entry_rows};
ghost use Rattle.macho_consumed.specs.Told.{EntriesKeepRules};
ghost use Rattle.macho_consumed.specs.Sizes.{AreNoted, IsNoRoom};
ghost use Rattle.macho_consumed.specs.Symbols.{HasPersonality};
ghost use Rattle.macho_consumed.specs.steps.Inputs.{number_of_target, input_by};
ghost use Rattle.macho_consumed.specs.declared.room.RoomFault.TheVariants.{OutOfMemory};

use crate::rows::UnwindEntry;
use macho_needs::Needs;
use macho_unwind::{UnwindFault, UnwindInput, unwind_bound};
use std::alloc::{AllocError, AllocFailed, Global};

/// Why the room for unwind information isn't told.
#[derive(Clone, Copy, Drop)]
pub enum RoomFault {
    /// Entries name more than three personality functions.
    TooManyPersonalities,
    /// It is 2^64 bytes or more.
    TooLarge,
    /// There is not enough memory.
    OutOfMemory,
}

impl From<AllocError> for RoomFault {
    ghost from_gives = { λ _ fault. fault ≡ OutOfMemory };

    fn from(_error: AllocError) -> RoomFault {
        RoomFault::OutOfMemory
    }
}

impl<T: Drop> From<AllocFailed<T>> for RoomFault {
    ghost from_gives = { λ _ fault. fault ≡ OutOfMemory };

    fn from(_error: AllocFailed<T>) -> RoomFault {
        RoomFault::OutOfMemory
    }
}

/// The number of the slot of an entry's personality function, if it has one.
fn slot_of(needs: &Needs<'_>, entry: UnwindEntry) -> Option<usize>
    requires { HasPersonality needs.now.resolved entry }
    ensures { (l : Link) → AreNoted l needs.now → result ≡ number_of_target l entry.file entry.personality }
{
    let used = entry.personality?;
    let target = needs
        .resolved
        .target(entry.file, used.relocation.r_symbolnum);
    match needs.tables.slot_number(target) {
        Some(number) => Some(number),
        None => Some(needs.tables.num_slots()),
    }
}

/// An entry, as the bound asks for it. A number of 2^32 or more would take more memory than there is.
fn input(needs: &Needs<'_>, entry: UnwindEntry) -> Result<UnwindInput, AllocError>
    requires { HasPersonality needs.now.resolved entry }
    ensures { (l : Link) → AreNoted l needs.now → IfOk result (λ i. i ≡ input_by l entry) }
{
    let personality = match slot_of(needs, entry) {
        Some(number) if number > u32::MAX as usize => return Err(AllocError),
        Some(number) => Some(number as u32),
        None => None,
    };
    Ok(UnwindInput {
        encoding: entry.encoding,
        personality,
        lsda: entry.lsda.is_some(),
    })
}

/// The entries, as the bound asks for them.
fn inputs(
    alloc: Global,
    needs: &Needs<'_>,
    entries: &[UnwindEntry],
) -> Result<Vec<UnwindInput>, AllocError>
    requires { All (HasPersonality needs.now.resolved) entries.now }
    ensures { (l : Link) → AreNoted l needs.now → IfOk result (λ v. v.items ≡ map (input_by l) entries.now) }
{
    let mut inputs = Vec::with_capacity(alloc, entries.len())?;
    for entry in entries {
        inputs.push(input(needs, *entry)?)?;
    }
    Ok(inputs)
}

/// The most bytes that the unwind information of a link has, 0 without entries. `span` is the room for what stands in `__TEXT`
/// with bytes in the file; functions start no further apart.
///
/// # Errors
///
/// More than three personality functions, a room of 2^64 bytes or more, or not enough memory.
pub fn unwind_room(
    alloc: Global,
    needs: &Needs<'_>,
    entries: &[UnwindEntry],
    span: u64,
) -> Result<u64, RoomFault>
    requires { All (HasPersonality needs.now.resolved) entries.now }
    ensures done { (l : Link) → AreNoted l needs.now → EntriesKeepRules l → entries.now ≡ entry_rows l → span ≡ text_span l
        → IfOk result (λ n. n ≡ unwind_size l) }
    ensures few { (l : Link) → AreNoted l needs.now → EntriesKeepRules l → entries.now ≡ entry_rows l
        → OnOk result (length (ids_of (map (unwind_input l) (entries_of_link l))) ≤ MOST_PERSONALITIES) }
    ensures why { (l : Link) → AreNoted l needs.now → EntriesKeepRules l → entries.now ≡ entry_rows l → span ≡ text_span l
        → IfErr result (IsNoRoom l) }
{
    if entries.is_empty() {
        return Ok(0);
    }
    let inputs = match inputs(alloc, needs, entries) {
        Ok(inputs) => inputs,
        Err(_) => return Err(RoomFault::OutOfMemory),
    };
    match unwind_bound(alloc, &inputs, span) {
        Ok(Some(room)) => Ok(room),
        Ok(None) => Err(RoomFault::TooLarge),
        Err(UnwindFault::TooManyPersonalities) => Err(RoomFault::TooManyPersonalities),
        Err(UnwindFault::OffsetTooLarge) => unreachable!(),
        Err(UnwindFault::OutOfMemory) => Err(RoomFault::OutOfMemory),
    }
}
