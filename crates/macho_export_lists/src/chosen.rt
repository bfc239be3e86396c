//! The part of a pattern that a table knows it by: the first or the last one, or else a run of bytes between two stars. A run
//! has 8, 4, 2 or 1 bytes, the most of these that stand between the stars: each length of runs is looked up at each place of a
//! name, so there are few. Of the runs that is taken which fewer patterns share so far, and of equals a longer one. The runs
//! of `*ab*_longer_1*`:
//!
//!     between stars   runs
//!     ab              ab
//!     _longer_1       _longer_, longer_1
//!
//! Where `*_longer_*` was noted under its own eight bytes, `longer_1` is taken.
ghost use Rattle.std.specs.Prelude.{◌≡◌, ◌≤◌, ℕ, List, length};
ghost use Rattle.macho_export_lists.specs.steps.Ends.{IsRun, IsPart};

use crate::ends::{Where, back_of, front_of};
use crate::parts::PartTable;
use crate::patterns::behind;
use memchr::memchr;

/// How many bytes the runs have of so many bytes between two stars.
fn run_length(long: usize) -> usize
    ensures { result ≤ long }
{
    if long >= 8 {
        8
    } else if long >= 4 {
        4
    } else {
        long.min(2)
    }
}

/// Some bytes of a pattern, and how many patterns were noted under them so far.
#[derive(Clone, Copy)]
pub(crate) struct Part<'a> {
    pub(crate) bytes: &'a [u8],
    pub(crate) sharing: usize,
}

/// Some bytes of a pattern, with the patterns of a table that were noted under them.
fn part_of<'a>(table: &PartTable, bytes: &'a [u8]) -> Part<'a>
    ensures { result.bytes.now ≡ bytes.now }
{
    Part {
        bytes,
        sharing: table.sharing(bytes),
    }
}

/// Of two runs that which fewer patterns share, of equals the longer one; an empty one only if both are.
fn rarer<'a>(one: Part<'a>, other: Part<'a>) -> Part<'a>
    ensures { (pattern : List ℕ) → IsRun one.entry.bytes.now pattern → IsRun other.entry.bytes.now pattern
        → IsRun result.bytes.now pattern }
{
    let is_longer = other.sharing == one.sharing && other.bytes.len() > one.bytes.len();
    let is_rarer = other.sharing < one.sharing || is_longer;
    if one.bytes.is_empty() || (is_rarer && !other.bytes.is_empty()) {
        other
    } else {
        one
    }
}

/// The rarest of a run and those of some bytes between two stars.
fn rarest_in<'a>(table: &PartTable, run: Part<'a>, between: &'a [u8]) -> Part<'a>
    ensures { (pattern : List ℕ) → IsRun run.entry.bytes.now pattern → IsRun between.now pattern → IsRun result.bytes.now pattern }
{
    let width = run_length(between.len());
    let mut rarest = run;
    for at in 0..between.len() - width + 1 {
        let other = part_of(table, &between[at..at + width]);
        rarest = rarer(rarest, other);
    }
    rarest
}

/// The rarest run of a pattern, empty where no byte stands between two stars.
fn rarest_run<'a>(table: &PartTable, pattern: &'a [u8]) -> Part<'a>
    ensures { IsRun result.bytes.now pattern.now }
{
    let mut rarest: Part<'a> = Part {
        bytes: &[],
        sharing: 0,
    };
    let Some(first) = memchr(b'*', pattern) else {
        return rarest;
    };
    let mut left = behind(pattern, first, 1);
    while let Some(star) = memchr(b'*', left) {
        rarest = rarest_in(table, rarest, &left[..star]);
        left = behind(left, star, 1);
    }
    rarest
}

/// The part of a pattern that a table is to note it under.
pub(crate) fn part_for<'a>(table: &PartTable, pattern: &'a [u8]) -> Part<'a>
    ensures { IsPart table.now.stands result.bytes.now pattern.now }
{
    match table.stands {
        Where::Front => part_of(table, front_of(pattern)),
        Where::Anywhere => rarest_run(table, pattern),
        Where::Back => part_of(table, back_of(pattern)),
    }
}
