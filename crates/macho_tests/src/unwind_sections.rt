//! Sections that a caller makes of its own entries.
ghost use Rattle.std.specs.Prelude.{IsTrue};
ghost use Rattle.macho_unwind_pages.specs.Entries.{AreEntries};
ghost use Rattle.macho_unwind.specs.steps.Conditions.{IsFit, AreApart, HaveOneSlot};

use crate::unwind_look_ups::one_function;
use macho_unwind::{Personality, ResolvedUnwindInfo, build};
use std::alloc::Global;
use std::test::Fail;

/// The start of the text.
const TEXT: u64 = 0x1_0000_0000;

/// Whether a section may be made of entries.
fn are_fit(text: u64, entries: &[ResolvedUnwindInfo]) -> bool
    ensures { IsTrue result → AreEntries text entries.now }
{
    for later in 0..entries.len() {
        if !is_fit(text, entries[later]) {
            return false;
        }
        for earlier in 0..later {
            if !are_apart(entries[earlier], entries[later]) {
                return false;
            }
        }
    }
    true
}

/// Whether an entry may be in a section.
fn is_fit(text: u64, entry: ResolvedUnwindInfo) -> bool
    ensures { IsTrue result → IsFit text entry }
{
    let slot = match entry.personality {
        Some(personality) => personality.slot,
        None => text,
    };
    let lsda = match entry.lsda {
        Some(lsda) => lsda,
        None => text,
    };
    text <= entry.start
        && text <= slot
        && text <= lsda
        && entry.start <= u64::MAX - entry.length as u64
        && entry.encoding / (1 << 28) % 4 == 0
}

/// Whether two entries may be in one section.
fn are_apart(one: ResolvedUnwindInfo, other: ResolvedUnwindInfo) -> bool
    ensures { IsTrue result → AreApart one other }
{
    one.start != other.start && have_one_slot(one.personality, other.personality)
}

fn have_one_slot(one: Option<Personality>, other: Option<Personality>) -> bool
    ensures { IsTrue result → HaveOneSlot one other }
{
    match (one, other) {
        (Some(one), Some(other)) => one.id != other.id || one.slot == other.slot,
        _ => true,
    }
}

/// A function of 0x20 bytes that has neither personality nor language data.
const PLAIN: ResolvedUnwindInfo = ResolvedUnwindInfo {
    start: TEXT + 0x1000,
    length: 0x20,
    encoding: 0x0200_0000,
    personality: None,
    lsda: None,
};

/// What a row says, entries, and the bytes of their section.
type Row = (&'static str, &'static [ResolvedUnwindInfo], usize);

static ROWS: [Row; 3] = [
    ("no function", &[], 0),
    ("one function", &[PLAIN], 72),
    (
        "two functions far apart",
        &[
            ResolvedUnwindInfo {
                start: TEXT + 0x100_1000,
                ..PLAIN
            },
            PLAIN,
        ],
        100,
    ),
];

/// The section of entries, where they may be in one.
fn section_of(alloc: Global, entries: &[ResolvedUnwindInfo]) -> Result<Vec<u8>, Fail> {
    if !are_fit(TEXT, entries) {
        return Err(Fail::from("the entries break a condition"));
    }
    match build(alloc, TEXT, entries) {
        Ok(section) => Ok(section),
        Err(_fault) => Err(Fail::from("no section is made")),
    }
}

/// What the first row says whose section has another length.
fn first_other(alloc: Global, rows: &[Row]) -> Result<&'static str, Fail> {
    for (says, entries, length) in rows {
        let section = section_of(alloc, entries)?;
        if section.len() != *length {
            return Ok(says);
        }
    }
    Ok("")
}

#[test]
fn sections_are_as_long_as_was_counted(rt: HostRuntime) -> Result<(), Fail> {
    assert_eq!(rt; first_other(rt.alloc(), &ROWS)?, "");
    Ok(())
}

#[test]
fn one_function_has_the_bytes_that_were_written_out(rt: HostRuntime) -> Result<(), Fail> {
    let section = section_of(rt.alloc(), &[PLAIN])?;
    assert!(rt; section.as_slice() == one_function());
    Ok(())
}
