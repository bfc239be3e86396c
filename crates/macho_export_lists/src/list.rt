//! Export lists, as callers see them.
ghost use Rattle.std.specs.Prelude.{◌≡◌, ℕ, List, [], ◌∷◌, ◌++◌, IfOk, IfErr, OnOk, OnErr, map};
ghost use Rattle.std.specs.List.{list_any};
ghost use Rattle.std.specs.Str.{bytes_eq};
ghost use Rattle.macho_model.specs.ExportLists.{listed, entries_of, plain_entries, matches};
ghost use Rattle.macho_export_lists.specs.Entries.{IsListOf, is_within};
ghost use Rattle.macho_export_lists.specs.steps.Lines.{entry_in};
ghost use Rattle.macho_export_lists.specs.steps.Lists.{Adds, IsLonger, no_entries};

use crate::entries::{entry_of, is_pattern};
use crate::names::{is_among, note_place};
use crate::patterns::behind;
use crate::table::PatternTable;
use memchr::memchr;
use std::alloc::{AllocError, Global};
use std::collections::HashMap;
use std::marker::Model;

/// The names that an image is to export, and the patterns of such names.
#[derive(Drop)]
pub struct ExportList {
    pub(crate) alloc: Global,
    /// The entries without a star, in order.
    pub(crate) plain: Vec<Vec<u8>>,
    /// The entries with a star, in order.
    pub(crate) patterns: Vec<Vec<u8>>,
    /// Where each plain entry stands first. Names that were taken back may have places of others, or none.
    pub(crate) places: HashMap<Vec<u8>, usize>,
    /// Where the patterns are found by their parts.
    pub(crate) table: PatternTable,
}

impl Model for ExportList {
    ghost use Rattle.macho_export_lists.specs.Entries.{ListEntries, texts_of};

    ghost Value = { ListEntries };

    ghost use Rattle.macho_export_lists.specs.steps.Lists.{ArePlaces};
    ghost use Rattle.macho_export_lists.specs.steps.Indexed.{IsIndexed};

    ghost view = { λ l. record { plain = texts_of l.plain.items; patterns = texts_of l.patterns.items } };

    ghost invariant = { λ l. ArePlaces (texts_of l.plain.items) l.places × IsIndexed (texts_of l.patterns.items) l.table };
}

impl ExportList {
    /// A list of no text.
    fn new(alloc: Global) -> ExportList
        ensures { result ≡ no_entries }
    {
        ExportList {
            alloc,
            plain: Vec::new(alloc),
            patterns: Vec::new(alloc),
            places: HashMap::new(alloc),
            table: PatternTable::new(alloc),
        }
    }
}

impl ExportList {
    /// Adds a plain entry.
    fn add_plain(&mut self, entry: &[u8]) -> Result<(), AllocError>
        ensures added { OnOk result (self.new ≡ record self.old { plain = self.old.plain ++ entry.now ∷ [] }) }
        ensures kept { OnErr result (self.new ≡ self.old) }
    {
        let name = Vec::from_slice(self.alloc, entry)?;
        note_place(self.alloc, &self.plain, &mut self.places, entry)?;
        self.plain.push(name)?;
        Ok(())
    }

    /// Adds a pattern.
    fn add_pattern(&mut self, entry: &[u8]) -> Result<(), AllocError>
        ensures added { OnOk result (self.new ≡ record self.old { patterns = self.old.patterns ++ entry.now ∷ [] }) }
        ensures kept { OnErr result (self.new ≡ self.old) }
    {
        let pattern = Vec::from_slice(self.alloc, entry)?;
        self.table.note(self.alloc, &self.patterns, entry)?;
        self.patterns.push(pattern)?;
        Ok(())
    }

    /// Adds the entry of a line, if it has one.
    fn add_line(&mut self, line: &[u8]) -> Result<(), AllocError>
        ensures added { OnOk result (Adds self.old self.new (entry_in line.now)) }
        ensures kept { OnErr result (self.new ≡ self.old) }
    {
        let entry = entry_of(line);
        if entry.is_empty() {
            return Ok(());
        }
        if is_pattern(entry) {
            self.add_pattern(entry)
        } else {
            self.add_plain(entry)
        }
    }

    /// Adds the entries of a text, or of its first lines.
    fn add_lines(&mut self, text: &[u8]) -> Result<(), AllocError>
        ensures added { OnOk result (Adds self.old self.new (entries_of text.now)) }
        ensures longer { OnErr result (IsLonger self.old self.new) }
    {
        let mut left = text;
        while let Some(end) = memchr(b'\n', left) {
            self.add_line(&left[..end])?;
            left = behind(left, end, 1);
        }
        self.add_line(left)
    }
}

impl ExportList {
    /// Reads the entries of a text.
    ///
    /// # Errors
    ///
    /// There is not enough memory.
    pub fn parse(alloc: Global, text: &[u8]) -> Result<ExportList, AllocError>
        ensures { IfOk result (λ list. IsListOf (text.now ∷ []) list) }
    {
        let mut list = ExportList::new(alloc);
        list.add(text)?;
        Ok(list)
    }

    /// Adds the entries of a further text behind the others.
    ///
    /// # Errors
    ///
    /// There is not enough memory. Nothing was added.
    pub fn add(&mut self, text: &[u8]) -> Result<(), AllocError>
        ensures added { (texts : List (List ℕ)) → IsListOf texts self.old → OnOk result (IsListOf (texts ++ text.now ∷ []) self.new) }
        ensures kept { OnErr result (self.new ≡ self.old) }
    {
        let (plain, patterns) = (self.plain.len(), self.patterns.len());
        if let Err(error) = self.add_lines(text) {
            self.plain.truncate(plain);
            self.patterns.truncate(patterns);
            return Err(error);
        }
        Ok(())
    }
}

impl ExportList {
    /// Whether the list contains a name: it is an entry, or matches one with stars. It takes no memory.
    ///
    /// Each pattern is tried on those names alone that have one of its parts: that begin with the first one, in front of the
    /// first star, end with the last one, behind the last star, or have somewhere up to eight bytes that stand between two
    /// stars. The last are looked up where more than a few patterns share the other two. So few of many patterns are tried
    /// that differ in one part, but all of those that share all parts.
    pub fn contains(&self, name: &[u8]) -> bool
        ensures within { result ≡ is_within self.now name.now }
        ensures listed { (texts : List (List ℕ)) → IsListOf texts self.now → result ≡ listed texts name.now }
    {
        is_among(&self.plain, &self.places, name) || self.table.has_match(&self.patterns, name)
    }

    /// The entries without a star, in order: names that have to be defined.
    pub fn required_symbols(&self) -> &[Vec<u8>]
        ensures { map (λ v. v.items) result.now ≡ self.now.plain }
    {
        &self.plain
    }
}
