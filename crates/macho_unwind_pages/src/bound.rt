//! The room that the unwind section needs at most, told before entries have addresses.
ghost use Rattle.std.specs.Prelude.{◌≡◌, ◌+◌, ◌*◌, ◌^◌, ◌<◌, ◌≤◌, length, take, count_by, SomeIff, MatchOption, IfOk, IfErr, OnOk};
ghost use Rattle.macho_unwind_pages.specs.Entries.{MOST_PERSONALITIES, ids_of};
ghost use Rattle.macho_unwind_pages.specs.Bounds.{unwind_bound_of};
ghost use Rattle.macho_unwind_pages.specs.steps.Tallies.{tallies_of, pages_of, bytes_of};
ghost use Rattle.macho_unwind_pages.specs.Calls.{SizeFault, BoundFault, TellsBound};

use crate::entries::{UnwindFault, UnwindInput};
use crate::numbering::{codes, personality_ids};
use crate::ranking::{MOST_GLOBALS, local_count, ranks};
use std::alloc::Global;

/// How many of each thing entries have.
#[derive(Clone, Copy)]
pub(crate) struct Tallies {
    /// The entries.
    pub(crate) entries: u64,
    /// The entries whose encoding not every page may name.
    pub(crate) local: u64,
    /// The encodings that every page may name.
    pub(crate) globals: u64,
    /// The personality functions.
    pub(crate) personalities: u64,
    /// The entries with language-specific data.
    pub(crate) lsdas: u64,
}

/// How many entries have language-specific data.
fn lsda_count(entries: &[UnwindInput]) -> u64
    ensures { result ≡ count_by (λ e. e.lsda) entries.now }
{
    let mut count = 0;
    for entry in entries {
        if entry.lsda {
            count += 1;
        }
    }
    count
}

/// What entries have of each thing.
fn tally(alloc: Global, entries: &[UnwindInput]) -> Result<Tallies, UnwindFault>
    ensures done { IfOk result (λ t. t ≡ tallies_of entries.now) }
    ensures few { OnOk result (length (ids_of entries.now) ≤ MOST_PERSONALITIES) }
    ensures why { IfErr result (BoundFault entries.now) }
{
    let ids = personality_ids(alloc, entries)?;
    let codes = codes(alloc, ids.as_slice(), entries)?;
    let ranks = ranks(alloc, codes.as_slice())?;
    Ok(Tallies {
        entries: entries.len() as u64,
        local: local_count(&ranks, codes.as_slice()),
        globals: ranks.len().min(MOST_GLOBALS) as u64,
        personalities: ids.len() as u64,
        lsdas: lsda_count(entries),
    })
}

/// A sum of bytes, and so many records of a size more.
fn with_records(bytes: u64, size: u64, count: u64) -> Option<u64>
    ensures { SomeIff result (bytes + size * count < 2 ^ 64) (bytes + size * count) }
{
    bytes.checked_add(size.checked_mul(count)?)
}

/// The bytes of the section with so many of each thing, with a span from the least to the greatest start.
fn bytes(tallies: Tallies, span: u64) -> Option<u64>
    ensures { MatchOption result (2 ^ 64 ≤ bytes_of tallies (pages_of tallies span)) (λ n. n ≡ bytes_of tallies (pages_of tallies span)) }
{
    let words = tallies.entries.checked_add(tallies.local)?;
    let pages = if tallies.entries == 0 {
        0
    } else {
        1 + span / 0x100_0000 + tallies.local / 32 + words / 1020
    };
    let bytes = with_records(28 + 12 * (pages + 1) + 12 * pages, 4, words)?;
    let bytes = with_records(bytes, 4, tallies.globals)?;
    let bytes = with_records(bytes, 4, tallies.personalities)?;
    with_records(bytes, 8, tallies.lsdas)
}

/// The most bytes that the unwind section of entries has, for any starts that are at most `span` apart. None: it is 2^64 or more.
pub fn unwind_bound(
    alloc: Global,
    entries: &[UnwindInput],
    span: u64,
) -> Result<Option<u64>, UnwindFault>
    ensures done { IfOk result (TellsBound entries.now span) }
    ensures few { OnOk result (length (ids_of entries.now) ≤ MOST_PERSONALITIES) }
    ensures why { IfErr result (BoundFault entries.now) }
{
    let tallies = tally(alloc, entries)?;
    Ok(bytes(tallies, span))
}

/// The most bytes that the unwind section of entries has, for any starts that are at most `span` apart.
pub fn output_size(alloc: Global, entries: &[UnwindInput], span: u64) -> Result<u64, UnwindFault>
    ensures done { IfOk result (λ size. size ≡ unwind_bound_of entries.now span) }
    ensures short { IfOk result (λ size. size < 2 ^ 32) }
    ensures few { OnOk result (length (ids_of entries.now) ≤ MOST_PERSONALITIES) }
    ensures why { IfErr result (SizeFault entries.now span) }
{
    match unwind_bound(alloc, entries, span)? {
        Some(bound) if bound < 0x1_0000_0000 => Ok(bound),
        _ => Err(UnwindFault::OffsetTooLarge),
    }
}
