//! Exports: the names that an image offers to others, in rising order.
ghost use Rattle.std.specs.Prelude.{◌≡◌, ◌<◌, ℕ, List, All, IfOk, IfErr, OnOk, length, get_or, is_some, [], false, ◌&&◌};
ghost use Rattle.std.specs.List.{list_any};
ghost use Rattle.std.specs.Str.{bytes_eq};
ghost use Rattle.std.specs.Option.{option_copied};
ghost use Rattle.macho_export_lists.specs.Entries.{texts_of};
ghost use Rattle.macho_symbols.specs.steps.Exporting.{is_listed_in, is_open_in, is_exported_in, IsToldIn, IsPairIn, AreInOrder, AreTold, pair_names, required_in};
ghost use Rattle.macho_symbols.specs.steps.Solved.{IsSolved, IsMissingIn};
ghost use Rattle.macho_symbols.specs.Kept.{noted_of};
ghost use Rattle.macho_symbol_names.specs.Tables.{names_of, IsEntryOf};
ghost use Rattle.macho_symbols.specs.steps.Targets.{is_missing_in, is_of_object};
ghost use Rattle.macho_symbols.specs.Exported.{export_names};

use crate::choosing::is_of_object;
use crate::solved::{Solved, UNNUMBERED, is_nothing};
use macho_export_lists::ExportList;
use macho_model::Target;
use macho_symbol_names::{Note, Sort, SymbolFault, note_in};
use std::alloc::Global;

/// A name that an image exports.
#[derive(Drop)]
pub struct ExportName {
    /// The name.
    pub name: Vec<u8>,
    /// What it leads to: an import where it is exported on from a library.
    pub target: Target,
    /// Whether its definition is a weak one of an object.
    pub weak: bool,
}

/// The most bytes that exported names may have together: the symbol table has each whole, and no image has as many (4 GiB).
const MOST_BYTES: usize = 0x1_0000_0000;

/// Whether export lists contain a name, where there are any.
fn is_listed(list: Option<&ExportList>, name: &[u8]) -> bool
    ensures { result ≡ is_listed_in (option_copied list.entry) name.now }
{
    match list {
        Some(list) => list.contains(name),
        None => true,
    }
}

/// Whether a note is of a weak definition of an object.
fn is_weak(note: Note) -> bool
    ensures { result ≡ (is_of_object note.sort && note.weak) }
{
    is_of_object(note.sort) && note.weak
}

impl<'data> Solved<'data> {
    /// Whether the name of an entry is that of a noted import.
    fn is_noted(&self, number: usize) -> bool
        requires solved { IsSolved self.now }
        requires entry { number < length self.now.table.entries.items }
        ensures { result
            ≡ list_any (bytes_eq (get_or (names_of self.now.files.items self.now.table.entries.items) number []))
            (noted_of self.now.imports.items) }
    {
        self.numbers[number] != UNNUMBERED
    }

    /// Whether what defines the name of an entry lets it be exported: an object that shows it, or a library where it is
    /// noted and there are export lists.
    fn is_open(&self, number: usize, lists: bool) -> bool
        requires solved { IsSolved self.now }
        requires entry { number < length self.now.table.entries.items }
        ensures { result
            ≡ is_open_in self.now.files.items (noted_of self.now.imports.items) lists
            (get_or (names_of self.now.files.items self.now.table.entries.items) number []) }
    {
        let entry = self.table.entry(number);
        let note = note_in(&self.files, entry.file, entry.row as usize);
        match note.sort {
            Sort::Offered => lists && self.is_noted(number),
            Sort::Nowhere => false,
            _ => !note.hidden,
        }
    }

    /// Whether the name of an entry is exported.
    fn is_exported(&self, number: usize, list: Option<&ExportList>) -> bool
        requires solved { IsSolved self.now }
        requires entry { number < length self.now.table.entries.items }
        ensures { result
            ≡ is_exported_in self.now.files.items (noted_of self.now.imports.items) (option_copied list.entry)
            (get_or (names_of self.now.files.items self.now.table.entries.items) number []) }
    {
        self.is_open(number, list.is_some()) && is_listed(list, self.entry_name(number))
    }
}

impl<'data> Solved<'data> {
    /// The exported names in rising order, each with its entry's number. Names of 4 GiB and more are not held.
    fn exported_names(
        &self,
        alloc: Global,
        list: Option<&ExportList>,
    ) -> Result<Vec<(&[u8], usize)>, SymbolFault>
        requires { IsSolved self.now }
        ensures each { IfOk result (λ v. All (IsPairIn self.now.files.items self.now.table.entries.items) v.items) }
        ensures order { IfOk result
            (λ v. AreInOrder (is_exported_in self.now.files.items (noted_of self.now.imports.items) (option_copied list.entry))
            (pair_names v.items)) }
        ensures why { IfErr result (λ fault. fault ≡ SymbolFault.OutOfMemory) }
    {
        let mut names = Vec::new(alloc);
        let mut room = MOST_BYTES;
        for number in 0..self.table.len() {
            if !self.is_exported(number, list) {
                continue;
            }
            let name = self.entry_name(number);
            if room < name.len() {
                return Err(SymbolFault::OutOfMemory);
            }
            room -= name.len();
            names.push((name, number))?;
        }
        names.sort()?;
        Ok(names)
    }

    /// A name that is exported, as it is told.
    fn export(&self, alloc: Global, name: &[u8], number: usize) -> Result<ExportName, SymbolFault>
        requires solved { IsSolved self.now }
        requires entry { IsEntryOf self.now.files.items self.now.table.entries.items name.now number }
        ensures name { IfOk result (λ e. e.name.items ≡ name.now) }
        ensures told { IfOk result (IsToldIn self.now.files.items (noted_of self.now.imports.items)) }
        ensures why { IfErr result (λ fault. fault ≡ SymbolFault.OutOfMemory) }
    {
        let entry = self.table.entry(number);
        let note = note_in(&self.files, entry.file, entry.row as usize);
        Ok(ExportName {
            name: Vec::from_slice(alloc, name)?,
            target: self.lead(number),
            weak: is_weak(note),
        })
    }

    /// All exports, in rising order of their names.
    fn told_exports(
        &self,
        alloc: Global,
        names: &[(&[u8], usize)],
    ) -> Result<Vec<ExportName>, SymbolFault>
        requires solved { IsSolved self.now }
        requires entries { All (IsPairIn self.now.files.items self.now.table.entries.items) names.now }
        ensures told { IfOk result (λ es. AreTold self.now.files.items (noted_of self.now.imports.items) (pair_names names.now) es.items) }
        ensures why { IfErr result (λ fault. fault ≡ SymbolFault.OutOfMemory) }
    {
        let mut exports = Vec::new(alloc);
        for pair in names {
            let (name, number) = *pair;
            exports.push(self.export(alloc, name, number)?)?;
        }
        Ok(exports)
    }
}

impl<'data> Solved<'data> {
    /// Refuses names of which one has no definition.
    fn find_all(&self, alloc: Global, names: &[Vec<u8>]) -> Result<(), SymbolFault>
        requires { IsSolved self.now }
        ensures found { OnOk result (All (λ name. is_missing_in self.now.files.items name ≡ false) (texts_of names.now)) }
        ensures why { IfErr result (IsMissingIn self.now.files.items (texts_of names.now)) }
    {
        for name in names {
            if is_nothing(self.named(name)) {
                return Err(SymbolFault::ExportListMissing {
                    name: Vec::from_slice(alloc, name)?,
                });
            }
        }
        Ok(())
    }

    /// Refuses lists of which an entry without a star has no definition.
    fn find_required(&self, alloc: Global, list: Option<&ExportList>) -> Result<(), SymbolFault>
        requires { IsSolved self.now }
        ensures found { OnOk result
            (All (λ name. is_missing_in self.now.files.items name ≡ false) (required_in (option_copied list.entry))) }
        ensures why { IfErr result (IsMissingIn self.now.files.items (required_in (option_copied list.entry))) }
    {
        match list {
            Some(list) => self.find_all(alloc, list.required_symbols()),
            None => Ok(()),
        }
    }

    /// The exports.
    pub(crate) fn exports(
        &self,
        alloc: Global,
        list: Option<&ExportList>,
    ) -> Result<Vec<ExportName>, SymbolFault>
        requires { IsSolved self.now }
        ensures told { IfOk result (λ es. All (IsToldIn self.now.files.items (noted_of self.now.imports.items)) es.items) }
        ensures order { IfOk result
            (λ es. AreInOrder (is_exported_in self.now.files.items (noted_of self.now.imports.items) (option_copied list.entry))
            (export_names es.items)) }
        ensures found { OnOk result
            (All (λ name. is_missing_in self.now.files.items name ≡ false) (required_in (option_copied list.entry))) }
        ensures why { IfErr result (IsMissingIn self.now.files.items (required_in (option_copied list.entry))) }
    {
        self.find_required(alloc, list)?;
        let names = self.exported_names(alloc, list)?;
        self.told_exports(alloc, &names)
    }
}
