//! Compact unwind information: the entries of all objects at their addresses, and the section that is made of them.
ghost use Rattle.std.specs.Prelude.{◌≡◌, ◌+◌, ◌^◌, ◌<◌, ◌≤◌, map, All, IfOk, IfErr, IfSome, option_map};
ghost use Rattle.std.specs.Bool.{OnTrue, OnFalse};
ghost use Rattle.macho_model.specs.declared.placed.Counts.{Counts};
ghost use Rattle.macho_model.specs.Links.{Link};
ghost use Rattle.macho_model.specs.Targets.{slots_of};
ghost use Rattle.macho_model.specs.Placement.{Placed};
ghost use Rattle.macho_consumed.specs.Rows.{entry_rows};
ghost use Rattle.macho_fields.specs.Looks.{Tells};
ghost use Rattle.macho_synthetic.specs.Entries.{KnowsPersonality, address_at, personality_at, resolved_row, MayBeBuilt};
ghost use Rattle.macho_synthetic.specs.Made.{IsToMake, IsUnwindMade, IsRefused};
ghost use Rattle.macho_synthetic.specs.steps.Built.{IsBuilt, HasFarEnd, IsNotBuilt};

use crate::fault::MadeFault;
use macho_consumed::{PersonalityUse, SectionPlace, Tables, UnwindEntry};
use macho_fields::Places;
use macho_unwind::{Personality, ResolvedUnwindInfo, UnwindFault, UnwindSection};
use std::alloc::{AllocError, Global};

/// The address of a place in a section of a file.
fn address<P: Places>(places: &P, file: u32, place: SectionPlace) -> u64
    requires { address_at (P.look places.now) file place < 2 ^ 64 }
    ensures { result ≡ address_at (P.look places.now) file place }
{
    places.section(file, place.section) + place.offset
}

/// A personality function, by the number and the address of its slot. A number of 2^32 or more would take more memory than there is.
fn personality<P: Places>(
    places: &P,
    tables: &Tables,
    file: u32,
    used: PersonalityUse,
) -> Result<Personality, AllocError>
    requires { P.has_symbol places.now file used.relocation.r_symbolnum }
    ensures { IfOk result (λ p. p ≡ personality_at (P.look places.now) tables.now.slots file used) }
{
    let target = places.target(file, used.relocation.r_symbolnum);
    let number = match tables.slot_number(target) {
        Some(number) => number,
        None => tables.num_slots(),
    };
    if number > u32::MAX as usize {
        return Err(AllocError);
    }
    Ok(Personality {
        id: number as u32,
        slot: places.slot(target),
    })
}

/// The personality function of an entry, if it has one.
fn personality_of<P: Places>(
    places: &P,
    tables: &Tables,
    entry: UnwindEntry,
) -> Result<Option<Personality>, AllocError>
    requires { KnowsPersonality (P.has_symbol places.now) entry }
    ensures { IfOk result (λ p. p ≡ option_map (personality_at (P.look places.now) tables.now.slots entry.file) entry.personality) }
{
    match entry.personality {
        Some(used) => Ok(Some(personality(places, tables, entry.file, used)?)),
        None => Ok(None),
    }
}

/// The address of an entry's language data, if it has some.
fn data_of<P: Places>(places: &P, entry: UnwindEntry) -> Option<u64>
    requires { IfSome entry.lsda (λ place. address_at (P.look places.now) entry.file place < 2 ^ 64) }
    ensures { result ≡ option_map (address_at (P.look places.now) entry.file) entry.lsda }
{
    match entry.lsda {
        Some(place) => Some(address(places, entry.file, place)),
        None => None,
    }
}

/// An entry at its address.
fn resolve<P: Places>(
    places: &P,
    tables: &Tables,
    entry: UnwindEntry,
) -> Result<ResolvedUnwindInfo, AllocError>
    requires symbol { KnowsPersonality (P.has_symbol places.now) entry }
    requires start { address_at (P.look places.now) entry.file entry.start < 2 ^ 64 }
    requires data { IfSome entry.lsda (λ place. address_at (P.look places.now) entry.file place < 2 ^ 64) }
    ensures { IfOk result (λ e. e ≡ resolved_row (P.look places.now) tables.now.slots entry) }
{
    let personality = personality_of(places, tables, entry)?;
    Ok(ResolvedUnwindInfo {
        start: address(places, entry.file, entry.start),
        length: entry.length,
        encoding: entry.encoding,
        personality,
        lsda: data_of(places, entry),
    })
}

/// The entries at their addresses.
fn resolve_all<P: Places>(
    alloc: Global,
    places: &P,
    tables: &Tables,
    entries: &[UnwindEntry],
) -> Result<Vec<ResolvedUnwindInfo>, AllocError>
    requires symbols { All (KnowsPersonality (P.has_symbol places.now)) entries.now }
    requires starts { All (λ e. address_at (P.look places.now) e.file e.start < 2 ^ 64) entries.now }
    requires data { All (λ e. IfSome e.lsda (λ place. address_at (P.look places.now) e.file place < 2 ^ 64)) entries.now }
    ensures { IfOk result (λ v. v.items ≡ map (resolved_row (P.look places.now) tables.now.slots) entries.now) }
{
    let mut resolved = Vec::with_capacity(alloc, entries.len())?;
    for entry in entries {
        resolved.push(resolve(places, tables, *entry)?)?;
    }
    Ok(resolved)
}

/// Whether the ends of all functions are told by offsets of 32 bits.
fn ends_are_near(base: u64, entries: &[ResolvedUnwindInfo]) -> bool
    requires starts { All (λ e. base ≤ e.start) entries.now }
    requires ends { All (λ e. e.start + e.length < 2 ^ 64) entries.now }
    ensures near { OnTrue result (All (λ e. e.start + e.length < base + 2 ^ 32) entries.now) }
    ensures far { OnFalse result (HasFarEnd base entries.now) }
{
    for entry in entries {
        if entry.start + entry.length as u64 - base > u32::MAX as u64 {
            return false;
        }
    }
    true
}

/// The section of entries.
fn section(
    alloc: Global,
    base: u64,
    entries: &[ResolvedUnwindInfo],
) -> Result<UnwindSection, MadeFault>
    requires { MayBeBuilt base entries.now }
    ensures done { IfOk result (IsBuilt base entries.now) }
    ensures why { IfErr result (IsNotBuilt base entries.now) }
{
    if !ends_are_near(base, entries) {
        return Err(MadeFault::TooLarge);
    }
    match UnwindSection::new(alloc, base, entries) {
        Ok(section) => Ok(section),
        Err(UnwindFault::TooManyPersonalities) => unreachable!(),
        Err(UnwindFault::OffsetTooLarge) => Err(MadeFault::TooLarge),
        Err(UnwindFault::OutOfMemory) => Err(MadeFault::OutOfMemory),
    }
}

/// The unwind information of entries, ready to be written; no entries give no bytes. It has at most the room that was counted for
/// it; the caller leaves zeros in the rest of that.
///
/// # Errors
///
/// `TooLarge` where a function, its end, its language data or the slot of its personality stands 2^32 bytes or more behind the base,
/// or so many bytes would be needed; `OutOfMemory`.
pub fn unwind_section<P: Places>(
    alloc: Global,
    places: &P,
    tables: &Tables,
    entries: &[UnwindEntry],
) -> Result<UnwindSection, MadeFault>
    requires symbols { All (KnowsPersonality (P.has_symbol places.now)) entries.now }
    requires sound { MayBeBuilt (P.look places.now).base (map (resolved_row (P.look places.now) tables.now.slots) entries.now) }
    ensures done { (l : Link) (counts : Counts) (p : Placed) → IsToMake l counts p → Tells l p (P.look places.now)
        → tables.now.slots ≡ slots_of l
        → entries.now ≡ entry_rows l → IfOk result (IsUnwindMade l p) }
    ensures why { (l : Link) (counts : Counts) (p : Placed) → IsToMake l counts p → Tells l p (P.look places.now)
        → tables.now.slots ≡ slots_of l
        → entries.now ≡ entry_rows l → IfErr result (IsRefused l p) }
{
    let resolved = resolve_all(alloc, places, tables, entries)?;
    section(alloc, places.base(), resolved.as_slice())
}
