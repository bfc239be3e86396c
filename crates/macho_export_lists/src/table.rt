//! Patterns by their parts: a name begins with the first part of each pattern that it matches, ends with the last part, and has
//! somewhere what stands between two stars. So each pattern is noted under one part alone: under the last one where the first
//! is empty and the other way round, else under that which fewer patterns share so far. Where many patterns share that, the
//! pattern is noted under some bytes between two stars if fewer share these. Of `_a*`, `_*_x`, `_*_y` and `*_x`, and of `*y1*`
//! and `*y1*z*` behind many others that begin and end with a star, numbered from 0:
//!
//!     fronts     _a: pattern 0,  _: pattern 1
//!     backs      _y: pattern 2,  _x: pattern 3,  no byte: many
//!     middles    y1: pattern 20,  z: pattern 21
//!
//! A few patterns are tried one by one on each name that has the part that they share, since that is faster than to look up
//! all that a name has somewhere. So are many patterns that share all their parts.
ghost use Rattle.std.specs.Prelude.{◌≡◌, [], ◌∷◌, ◌++◌, OnOk};
ghost use Rattle.std.specs.List.{list_any};
ghost use Rattle.macho_model.specs.ExportLists.{matches};
ghost use Rattle.macho_export_lists.specs.Entries.{texts_of};
ghost use Rattle.macho_export_lists.specs.steps.Indexed.{IsNotedIn, KeepsTables, IsIndexed};

use crate::chosen::part_for;
use crate::ends::Where;
use crate::names::{is_among, note_place};
use crate::parts::PartTable;
use std::alloc::{AllocError, Global};
use std::collections::HashMap;

/// Where patterns are found by the names that they match.
#[derive(Drop)]
pub(crate) struct PatternTable {
    /// Where each pattern stands first.
    pub(crate) places: HashMap<Vec<u8>, usize>,
    /// Patterns by their first parts.
    pub(crate) fronts: PartTable,
    /// Patterns by bytes between two of their stars.
    pub(crate) middles: PartTable,
    /// Patterns by their last parts.
    pub(crate) backs: PartTable,
}

/// So many patterns that share a part at an end are too many to be tried one by one.
const MANY: usize = 16;

impl PatternTable {
    /// A table of no pattern.
    pub(crate) fn new(alloc: Global) -> PatternTable
        ensures { IsIndexed [] result }
    {
        PatternTable {
            places: HashMap::new(alloc),
            fronts: PartTable::new(alloc, Where::Front),
            middles: PartTable::new(alloc, Where::Anywhere),
            backs: PartTable::new(alloc, Where::Back),
        }
    }

    /// Notes the number of a pattern under one of its parts.
    fn note_part(&mut self, alloc: Global, pattern: &[u8], number: usize) -> Result<(), AllocError>
        ensures noted { OnOk result (IsNotedIn self.new pattern.now number) }
        ensures kept { KeepsTables self.old self.new }
    {
        let first = part_for(&self.fronts, pattern);
        let last = part_for(&self.backs, pattern);
        let is_rarer = !last.bytes.is_empty() && last.sharing < first.sharing;
        let is_last = first.bytes.is_empty() || is_rarer;
        let sharing = if is_last { last.sharing } else { first.sharing };
        if sharing >= MANY {
            let middle = part_for(&self.middles, pattern);
            if !middle.bytes.is_empty() && middle.sharing < sharing {
                return self.middles.note(alloc, middle.bytes, number);
            }
        }
        if is_last {
            self.backs.note(alloc, last.bytes, number)
        } else {
            self.fronts.note(alloc, first.bytes, number)
        }
    }

    /// Notes a pattern that is put behind others, unless it stands among them.
    pub(crate) fn note(
        &mut self,
        alloc: Global,
        patterns: &[Vec<u8>],
        pattern: &[u8],
    ) -> Result<(), AllocError>
        requires { IsIndexed (texts_of patterns.now) self.old }
        ensures noted { OnOk result (IsIndexed (texts_of patterns.now ++ pattern.now ∷ []) self.new) }
        ensures kept { IsIndexed (texts_of patterns.now) self.new }
    {
        if is_among(patterns, &self.places, pattern) {
            return Ok(());
        }
        self.note_part(alloc, pattern, patterns.len())?;
        note_place(alloc, patterns, &mut self.places, pattern)
    }

    /// Whether a name matches one of some patterns.
    pub(crate) fn has_match(&self, patterns: &[Vec<u8>], name: &[u8]) -> bool
        requires { IsIndexed (texts_of patterns.now) self.now }
        ensures { result ≡ list_any (λ e. matches e name.now) (texts_of patterns.now) }
    {
        self.fronts.has_match(patterns, name)
            || self.middles.has_match(patterns, name)
            || self.backs.has_match(patterns, name)
    }
}
