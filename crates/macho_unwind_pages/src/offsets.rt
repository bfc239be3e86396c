//! Entries by rising start, and what is told of them as offsets from the start of the text.
ghost use Rattle.std.specs.Prelude.{◌≡◌, ◌≢◌, ◌+◌, ◌^◌, ◌<◌, ◌≤◌, length, map, take, flat_map, All, Contains, IsPermutation, IfOk, IfErr, OnOk};
ghost use Rattle.std.specs.Bool.{OnTrue, OnFalse};
ghost use Rattle.std.specs.List.{AllPairs};
ghost use Rattle.indexmap.specs.IndexMap.{keys};
ghost use Rattle.macho_unwind_pages.specs.Entries.{MOST_PERSONALITIES, IsLast};
ghost use Rattle.macho_unwind_pages.specs.declared.entries.ResolvedUnwindInfo.{ResolvedUnwindInfo};
ghost use Rattle.macho_unwind_pages.specs.declared.entries.UnwindFault.TheVariants.{OffsetTooLarge};
ghost use Rattle.macho_unwind_pages.specs.Plans.{HasFarAddress, HasFarOffset};
ghost use Rattle.macho_unwind_pages.specs.steps.Planning.{lsda_list, IsNear, IsBehind, IsNumbered, AreAlike, HasShortCode};
ghost use Rattle.macho_unwind_pages.specs.steps.Plans.{row_from, HasSlot};

use crate::entries::{ResolvedUnwindInfo, UnwindFault};
use crate::numbering::{code, input, place};
use crate::paging::Row;
use crate::plans::Lsda;
use crate::ranking::MOST_GLOBALS;
use indexmap::IndexMap;
use std::alloc::{AllocError, Global};

/// Entries by rising start.
pub(crate) fn by_start(
    alloc: Global,
    entries: &[ResolvedUnwindInfo],
) -> Result<Vec<ResolvedUnwindInfo>, AllocError>
    requires { AllPairs (λ e f. e.start ≢ f.start) entries.now }
    ensures same { IfOk result (λ run. IsPermutation entries.now run.items) }
    ensures rising { IfOk result (λ run. AllPairs (λ e f. e.start < f.start) run.items) }
{
    let mut run = Vec::from_slice(alloc, entries)?;
    run.sort_by_key(
        |entry: &ResolvedUnwindInfo| -> u64
            ensures { result ≡ entry.now.start }
        { entry.start },
    )?;
    Ok(run)
}

/// Whether an address is told by an offset of 32 bits.
fn reaches(text_start: u64, address: u64) -> bool
    requires { text_start ≤ address }
    ensures near { OnTrue result (address < text_start + 2 ^ 32) }
    ensures far { OnFalse result (text_start + 2 ^ 32 ≤ address) }
{
    address - text_start < 0x1_0000_0000
}

/// Whether the addresses of an entry are told by offsets of 32 bits.
fn is_near(text_start: u64, entry: ResolvedUnwindInfo) -> bool
    requires { IsBehind text_start entry }
    ensures near { OnTrue result (IsNear text_start entry) }
    ensures far { OnFalse result (HasFarAddress text_start entry) }
{
    if !reaches(text_start, entry.start) {
        return false;
    }
    if let Some(personality) = entry.personality {
        if !reaches(text_start, personality.slot) {
            return false;
        }
    }
    match entry.lsda {
        Some(address) => reaches(text_start, address),
        None => true,
    }
}

/// Whether the addresses of all entries are told by offsets of 32 bits.
fn are_near(text_start: u64, run: &[ResolvedUnwindInfo]) -> bool
    requires { All (IsBehind text_start) run.now }
    ensures near { OnTrue result (All (IsNear text_start) run.now) }
    ensures far { OnFalse result ((e : ResolvedUnwindInfo) × Contains run.now e × HasFarAddress text_start e) }
{
    for entry in run {
        if !is_near(text_start, *entry) {
            return false;
        }
    }
    true
}

/// The offset behind the last function, where all offsets have 32 bits.
pub(crate) fn end(text_start: u64, run: &[ResolvedUnwindInfo]) -> Result<u32, UnwindFault>
    requires some { 0 < length run.now }
    requires rising { AllPairs (λ e f. e.start < f.start) run.now }
    requires behind { All (IsBehind text_start) run.now }
    requires ends { All (λ e. e.start + e.length < 2 ^ 64) run.now }
    ensures near { OnOk result (All (IsNear text_start) run.now) }
    ensures done { IfOk result (λ end. All (λ e. IsLast run.now e → e.start + e.length ≡ text_start + end) run.now) }
    ensures why { IfErr result (λ fault. (fault ≡ OffsetTooLarge) × HasFarOffset text_start run.now) }
{
    if !are_near(text_start, run) {
        return Err(UnwindFault::OffsetTooLarge);
    }
    let last = run[run.len() - 1];
    let end = last.start + last.length as u64 - text_start;
    if end >= 0x1_0000_0000 {
        return Err(UnwindFault::OffsetTooLarge);
    }
    Ok(end as u32)
}

/// The functions of entries.
pub(crate) fn rows(
    alloc: Global,
    text_start: u64,
    ids: &[u32],
    run: &[ResolvedUnwindInfo],
) -> Result<Vec<Row>, AllocError>
    requires few { length ids.now ≤ MOST_PERSONALITIES }
    requires behind { All (IsBehind text_start) run.now }
    requires near { All (IsNear text_start) run.now }
    requires short { All (HasShortCode ids.now) run.now }
    ensures { IfOk result (λ rows. rows.items ≡ map (row_from text_start ids.now) run.now) }
{
    let mut rows = Vec::new(alloc);
    for entry in run {
        rows.push(Row {
            start: (entry.start - text_start) as u32,
            code: code(ids, input(*entry)) as u32,
        })?;
    }
    Ok(rows)
}

/// The language-specific data of entries.
pub(crate) fn lsdas(
    alloc: Global,
    text_start: u64,
    run: &[ResolvedUnwindInfo],
) -> Result<Vec<Lsda>, AllocError>
    requires behind { All (IsBehind text_start) run.now }
    requires near { All (IsNear text_start) run.now }
    ensures { IfOk result (λ lsdas. lsdas.items ≡ flat_map (lsda_list text_start) run.now) }
{
    let mut lsdas = Vec::new(alloc);
    for entry in run {
        if let Some(address) = entry.lsda {
            lsdas.push(Lsda {
                function: (entry.start - text_start) as u32,
                lsda: (address - text_start) as u32,
            })?;
        }
    }
    Ok(lsdas)
}

/// The slots of personality functions, by their numbers.
pub(crate) fn slots(
    alloc: Global,
    text_start: u64,
    ids: &[u32],
    run: &[ResolvedUnwindInfo],
) -> Result<Vec<u32>, AllocError>
    requires behind { All (IsBehind text_start) run.now }
    requires near { All (IsNear text_start) run.now }
    requires numbered { All (IsNumbered ids.now) run.now }
    requires alike { All (λ e. All (AreAlike e) run.now) run.now }
    ensures length { IfOk result (λ slots. length slots.items ≡ length ids.now) }
    ensures done { IfOk result (λ slots. All (HasSlot text_start ids.now slots.items) run.now) }
    ensures short { IfOk result (λ slots. All (λ slot. slot < 2 ^ 32) slots.items) }
{
    let mut slots = vec![in alloc; 0u32; ids.len()]?;
    for entry in run {
        if let Some(personality) = entry.personality {
            let place = place(ids, personality.id);
            slots[place] = (personality.slot - text_start) as u32;
        }
    }
    Ok(slots)
}

/// The codes that every page may name.
pub(crate) fn globals(alloc: Global, ranks: &IndexMap<u64, u64>) -> Result<Vec<u32>, AllocError>
    requires { All (λ code. code < 2 ^ 32) (keys ranks.now) }
    ensures { IfOk result (λ globals. globals.items ≡ take MOST_GLOBALS (keys ranks.now)) }
{
    let mut globals = Vec::new(alloc);
    for index in 0..ranks.len().min(MOST_GLOBALS) {
        match ranks.get_index(index) {
            Some((code, _)) => globals.push(*code as u32)?,
            None => unreachable!(),
        }
    }
    Ok(globals)
}
