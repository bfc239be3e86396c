//! Patterns by parts that stand in names at the front, at the back or anywhere. The numbers of patterns with one part stand
//! together in a group, and each length that a part has is kept once. So of a name its bytes are looked up once for each of
//! these lengths, at each place where such a part may stand. Of `*_x`, `_a*_y`, `*b*_x` and `_c*`, numbered from 0, by their
//! last parts:
//!
//!     parts      _x: group 0,  _y: group 1,  no byte: group 2
//!     groups     0: patterns 0 and 2,  1: pattern 1,  2: pattern 3
//!     lengths    2, 0
//!
//! Of the name `_ab_x` the last two bytes are looked up, and no byte: patterns 0, 2 and 3 are tried.
//!
//! Parts that stand anywhere are looked up at all places. If `*ab*` and `*b_x*` are known by `ab` and `b_x`, then `_a`, `ab`,
//! `b_` and `_x` of that name are looked up, and `_ab`, `ab_` and `b_x`: both patterns are tried. Where the same bytes come
//! again in a name, their patterns aren't tried again.
ghost use Rattle.std.specs.Prelude.{◌≡◌, ◌<◌, ◌≤◌, ◌+◌, ℕ, true, List, [], length, get_or, OnOk, IfOk};
ghost use Rattle.macho_export_lists.specs.Entries.{texts_of};
ghost use Rattle.macho_export_lists.specs.steps.Tables.{has, numbers_of, KeepsNumbers, KeepsGroups, KeepsParts, IsGroup};
ghost use Rattle.macho_export_lists.specs.steps.Ends.{IsPart};
ghost use Rattle.macho_export_lists.specs.steps.Indexed.{is_match_at, is_match_of, is_again, is_match_from, is_match_under, is_match_found, is_match_any, is_match_in, IsNoted, KeepsTable};

use crate::ends::Where;
use crate::patterns::matches;
use std::alloc::{AllocError, Global};
use std::collections::HashMap;

/// Where patterns are found by their parts. Patterns that were taken back may have left numbers in it: a number
/// only tells which pattern to try, if there is one.
#[derive(Drop)]
pub(crate) struct PartTable {
    /// Where in a name the parts stand.
    pub(crate) stands: Where,
    /// The group of each part.
    pub(crate) parts: HashMap<Vec<u8>, usize>,
    /// The numbers of the patterns of each group.
    pub(crate) groups: Vec<Vec<usize>>,
    /// The lengths of the parts.
    pub(crate) lengths: Vec<usize>,
}

/// Notes a length, unless it was noted before.
fn note_length(lengths: &mut Vec<usize>, length: usize) -> Result<(), AllocError>
    ensures noted { OnOk result (has lengths.new.items length ≡ true) }
    ensures kept { KeepsNumbers lengths.old.items lengths.new.items }
{
    if lengths.contains(&length) {
        return Ok(());
    }
    lengths.push(length)?;
    Ok(())
}

/// The group of a part: a new one where it has none.
fn group_of(
    alloc: Global,
    parts: &mut HashMap<Vec<u8>, usize>,
    groups: &mut Vec<Vec<usize>>,
    part: &[u8],
) -> Result<usize, AllocError>
    ensures group { IfOk result (IsGroup parts.new groups.new.items part.now) }
    ensures kept { KeepsParts parts.old groups.old.items parts.new groups.new.items }
{
    if let Some(group) = parts.get(part) {
        if *group < groups.len() {
            return Ok(*group);
        }
    }
    let key = Vec::from_slice(alloc, part)?;
    let group = groups.len();
    groups.push(Vec::new(alloc))?;
    parts.insert(key, group)?;
    Ok(group)
}

/// Puts a number behind those of a group.
fn put_number(groups: &mut Vec<Vec<usize>>, group: usize, number: usize) -> Result<(), AllocError>
    requires { group < length groups.old.items }
    ensures put { OnOk result (has (get_or (texts_of groups.new.items) group []) number ≡ true) }
    ensures kept { KeepsGroups groups.old.items groups.new.items }
{
    groups[group].push(number)?;
    Ok(())
}

impl PartTable {
    /// A table of no pattern.
    pub(crate) fn new(alloc: Global, stands: Where) -> PartTable {
        PartTable {
            stands,
            parts: HashMap::new(alloc),
            groups: Vec::new(alloc),
            lengths: Vec::new(alloc),
        }
    }

    /// Notes the number of a pattern under a part.
    pub(crate) fn note(
        &mut self,
        alloc: Global,
        part: &[u8],
        number: usize,
    ) -> Result<(), AllocError>
        ensures noted { OnOk result ((pattern : List ℕ) → IsPart self.old.stands part.now pattern → IsNoted self.new pattern number) }
        ensures kept { KeepsTable self.old self.new }
    {
        note_length(&mut self.lengths, part.len())?;
        let group = group_of(alloc, &mut self.parts, &mut self.groups, part)?;
        put_number(&mut self.groups, group, number)
    }

    /// The numbers that were noted under a part.
    pub(crate) fn numbers_under(&self, part: &[u8]) -> &[usize]
        ensures { result.now ≡ numbers_of self.now.parts self.now.groups.items part.now }
    {
        match self.parts.get(part) {
            Some(group) if *group < self.groups.len() => &self.groups[*group],
            _ => &[],
        }
    }

    /// How many patterns were noted under a part.
    pub(crate) fn sharing(&self, part: &[u8]) -> usize {
        self.numbers_under(part).len()
    }
}

/// Whether a name matches the pattern of a number, if there is one.
fn matches_at(patterns: &[Vec<u8>], name: &[u8], number: usize) -> bool
    ensures { result ≡ is_match_at (texts_of patterns.now) name.now number }
{
    number < patterns.len() && matches(&patterns[number], name)
}

/// Whether so many bytes of a name from a place on stand at an earlier place, too, from a first one on.
fn is_again(name: &[u8], count: usize, first: usize, at: usize) -> bool
    requires { at + count ≤ length name.now }
    ensures { result ≡ is_again name.now count first at }
{
    for earlier in first..at {
        if name[earlier..earlier + count] == name[at..at + count] {
            return true;
        }
    }
    false
}

/// Whether a name matches one of the patterns of some numbers.
fn matches_one(patterns: &[Vec<u8>], name: &[u8], numbers: &[usize]) -> bool
    ensures { result ≡ is_match_of (texts_of patterns.now) name.now numbers.now }
{
    for number in numbers {
        if matches_at(patterns, name, *number) {
            return true;
        }
    }
    false
}

impl PartTable {
    /// Whether a name matches one of the patterns that were noted under so many of its bytes from a place on. Bytes that
    /// stand at an earlier place, too, were looked up there.
    fn matches_from(
        &self,
        patterns: &[Vec<u8>],
        name: &[u8],
        count: usize,
        first: usize,
        at: usize,
    ) -> bool
        requires { at + count ≤ length name.now }
        ensures { result ≡ is_match_from self.now (texts_of patterns.now) name.now count first at }
    {
        let numbers = self.numbers_under(&name[at..at + count]);
        if numbers.is_empty() || is_again(name, count, first, at) {
            return false;
        }
        matches_one(patterns, name, numbers)
    }

    /// Whether a name matches one of the patterns that were noted under so many of its bytes.
    fn matches_under(&self, patterns: &[Vec<u8>], name: &[u8], count: usize) -> bool
        ensures { result ≡ is_match_under self.now (texts_of patterns.now) name.now count }
    {
        if name.len() < count {
            return false;
        }
        let first = self.stands.first_place(name.len(), count);
        let last = self.stands.last_place(name.len(), count);
        for at in first..last + 1 {
            if self.matches_from(patterns, name, count, first, at) {
                return true;
            }
        }
        false
    }

    /// Whether a name matches one of the patterns that were noted under some of its bytes.
    fn matches_found(&self, patterns: &[Vec<u8>], name: &[u8]) -> bool
        ensures { result ≡ is_match_found self.now (texts_of patterns.now) name.now }
    {
        for length in &self.lengths {
            if self.matches_under(patterns, name, *length) {
                return true;
            }
        }
        false
    }

    /// Whether a name matches one of the patterns that were noted, each of which is tried.
    fn matches_any(&self, patterns: &[Vec<u8>], name: &[u8]) -> bool
        ensures { result ≡ is_match_any self.now (texts_of patterns.now) name.now }
    {
        for numbers in &self.groups {
            if matches_one(patterns, name, numbers) {
                return true;
            }
        }
        false
    }

    /// Whether a name matches one of the patterns that were noted. In a long name whose parts may stand anywhere all patterns are
    /// tried, since what is looked up costs its length squared, and a pattern is sought in a name in the time of its length.
    pub(crate) fn has_match(&self, patterns: &[Vec<u8>], name: &[u8]) -> bool
        ensures { result ≡ is_match_in self.now (texts_of patterns.now) name.now }
    {
        if self.stands.has_many_places(name.len()) {
            self.matches_any(patterns, name)
        } else {
            self.matches_found(patterns, name)
        }
    }
}
