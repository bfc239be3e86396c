//! What is known once all rows were taken in: where names and symbols lead, and which imports are noted.
ghost use Rattle.std.specs.Prelude.{◌≡◌, ◌^◌, ◌<◌, ◌++◌, ◌∷◌, [], true, length, map, get_or, OnOk, OnErr, IfOk, IfErr};
ghost use Rattle.std.specs.Str.{bytes_eq};
ghost use Rattle.macho_symbol_names.specs.Events.{row_at, row_count, event_at};
ghost use Rattle.macho_symbol_names.specs.Tables.{IsEntryOf, names_of};
ghost use Rattle.macho_symbols.specs.Targets.{named_in, target_in, own_in, base_target, defines_in, chosen_in, id_of};
ghost use Rattle.macho_symbols.specs.steps.Targets.{is_next, is_nothing, noting_in};
ghost use Rattle.macho_symbols.specs.steps.Solved.{IsSolved, IsUnchanged, HasGrown, IsFoundIn, IsUndefinedIn, common_id, library_in, is_before, AreAscending, IsPlaceOf};
ghost use Rattle.macho_symbols.specs.Kept.{noted_of};
ghost use Rattle.std.specs.List.{position_or_len};
ghost use Rattle.macho_model.specs.Resolution.{same_symbol};

use crate::choosing::is_definition;
use macho_model::Target;
use macho_symbol_names::{FileNames, Sort, SymbolFault, Table, name_in, note_in};

/// A symbol of a library that something of the link uses.
#[derive(Drop)]
pub struct Import {
    /// The number of the library's file.
    pub file: u32,
    /// The install name of the library.
    pub library: Vec<u8>,
    /// The name of the symbol.
    pub name: Vec<u8>,
}

/// An entry of the import table that a pointer needs of its own, since a chain word has no room for the addend.
#[derive(Clone, Copy, PartialEq, Eq, Hash)]
pub struct OwnEntry {
    /// The number of the import.
    pub import: u32,
    /// The addend, modulo 2^64.
    pub addend: u64,
}

/// A common that was chosen as the definition of its name.
#[derive(Clone, Copy)]
pub struct Common {
    /// The number of the object.
    pub file: u32,
    /// The index of the symbol in it.
    pub symbol: u32,
    /// Its size in bytes, rounded up to its alignment.
    pub size: u64,
    /// Its alignment, as an exponent of 2.
    pub align: u8,
}

/// The files, the table of names with the entries of symbols, the chosen commons and the imports noted so far.
#[derive(Drop)]
pub(crate) struct Solved<'data> {
    pub(crate) files: Vec<FileNames<'data>>,
    pub(crate) table: Table,
    /// For each file the numbers of its rows' entries.
    pub(crate) found: Vec<Vec<u32>>,
    pub(crate) commons: Vec<Common>,
    pub(crate) imports: Vec<Import>,
    /// For each name of the table the number of its import, or `UNNUMBERED`.
    pub(crate) numbers: Vec<u32>,
}

/// The number of a name whose import isn't noted.
pub(crate) const UNNUMBERED: u32 = u32::MAX;

/// Whether a common is that of a row.
fn is_at(common: Common, file: u32, row: usize) -> bool
    ensures { result ≡ same_symbol (record { file = file; symbol = row }) (common_id common) }
{
    file == common.file && row == common.symbol as usize
}

/// The install name of a library, by its number.
fn library_in<'data>(files: &[FileNames<'data>], file: u32) -> &'data [u8]
    requires { file < length files.now }
    ensures { result.now ≡ library_in files.now file }
{
    files[file as usize].library()
}

/// Whether a common stands before a row, by file, then symbol.
fn is_before(common: Common, file: u32, row: usize) -> bool
    ensures { result ≡ is_before (common_id common) (record { file = file; symbol = row }) }
{
    common.file < file || common.file == file && (common.symbol as usize) < row
}

/// How many of some commons, which rise by file, then symbol, stand before a row.
fn commons_before(commons: &[Common], file: u32, row: usize) -> usize
    requires { AreAscending commons.now }
    ensures { IsPlaceOf commons.now (record { file = file; symbol = row }) result }
{
    let mut low = 0;
    let mut high = commons.len();
    while low < high {
        let middle = low + (high - low) / 2;
        if is_before(commons[middle], file, row) {
            low = middle + 1;
        } else {
            high = middle;
        }
    }
    low
}

/// The number of a chosen common.
fn number_of_common(commons: &[Common], file: u32, row: usize) -> u32
    requires few { length commons.now < 2 ^ 32 }
    requires ascending { AreAscending commons.now }
    ensures { result ≡ position_or_len (same_symbol (record { file = file; symbol = row })) (map common_id commons.now) }
{
    let place = commons_before(commons, file, row);
    if place < commons.len() && is_at(commons[place], file, row) {
        place as u32
    } else {
        commons.len() as u32
    }
}

/// Where a row leads by itself.
#[inline(always)]
fn own_target(files: &[FileNames<'_>], commons: &[Common], file: u32, row: usize) -> Target
    requires file { file < length files.now }
    requires row { row < row_count files.now file }
    requires few { length commons.now < 2 ^ 32 }
    requires commons { map common_id commons.now ≡ map id_of (chosen_in files.now) }
    ensures { result ≡ own_in files.now (event_at files.now file row) (row_at files.now file row).sort }
{
    let note = note_in(files, file, row);
    match note.sort {
        Sort::Section => Target::Section {
            file,
            section: u32::from(note.number),
            offset: note.value,
        },
        Sort::Absolute => Target::Absolute { value: note.value },
        Sort::Common => Target::Common {
            id: number_of_common(commons, file, row),
        },
        Sort::Offered | Sort::Nowhere => Target::None,
    }
}

/// What a name is that nothing but the image may define.
fn base_target(name: &[u8]) -> Target
    ensures { result ≡ base_target name.now }
{
    if name == b"___dso_handle".as_slice() {
        Target::Base
    } else {
        Target::None
    }
}

impl<'data> Solved<'data> {
    /// The name of an entry.
    pub(crate) fn entry_name(&self, number: usize) -> &[u8]
        requires solved { IsSolved self.now }
        requires entry { number < length self.now.table.entries.items }
        ensures { result.now ≡ get_or (names_of self.now.files.items self.now.table.entries.items) number [] }
    {
        let entry = self.table.entry(number);
        name_in(&self.files, entry.file, entry.row as usize)
    }

    /// The number of an entry's import, or the one that it would get.
    fn number_of_import(&self, number: usize) -> u32
        requires solved { IsSolved self.now }
        requires entry { number < length self.now.table.entries.items }
        ensures { result ≡ position_or_len (bytes_eq (get_or (names_of self.now.files.items self.now.table.entries.items) number []))
            (noted_of self.now.imports.items) }
    {
        let id = self.numbers[number];
        if id == UNNUMBERED {
            self.imports.len() as u32
        } else {
            id
        }
    }

    /// Where the best row of an entry's name leads.
    #[inline(always)]
    pub(crate) fn lead(&self, number: usize) -> Target
        requires solved { IsSolved self.now }
        requires entry { number < length self.now.table.entries.items }
        ensures { result
            ≡ named_in self.now.files.items (noted_of self.now.imports.items)
            (get_or (names_of self.now.files.items self.now.table.entries.items) number []) }
    {
        let entry = self.table.entry(number);
        match note_in(&self.files, entry.file, entry.row as usize).sort {
            Sort::Offered => Target::Import {
                id: self.number_of_import(number),
            },
            Sort::Nowhere => base_target(self.entry_name(number)),
            _ => own_target(&self.files, &self.commons, entry.file, entry.row as usize),
        }
    }

    /// Where a name leads.
    pub(crate) fn named(&self, name: &[u8]) -> Target
        requires { IsSolved self.now }
        ensures { result ≡ named_in self.now.files.items (noted_of self.now.imports.items) name.now }
    {
        match self.table.find(&self.files, name) {
            Some(number) => self.lead(number),
            None => base_target(name),
        }
    }

    /// The number of the entry of a global row's name.
    #[inline(always)]
    fn entry_of(&self, file: u32, row: usize) -> usize
        requires file { file < length self.now.files.items }
        requires row { row < row_count self.now.files.items file }
        requires global { (row_at self.now.files.items file row).global ≡ true }
        requires solved { IsSolved self.now }
        ensures { IsEntryOf self.now.files.items self.now.table.entries.items (row_at self.now.files.items file row).name result }
    {
        self.found[file as usize][row] as usize
    }

    /// Whether a symbol is the definition of its name.
    pub(crate) fn defines(&self, file: u32, row: usize) -> bool
        requires file { file < length self.now.files.items }
        requires row { row < row_count self.now.files.items file }
        requires solved { IsSolved self.now }
        ensures { result ≡ defines_in self.now.files.items (event_at self.now.files.items file row) }
    {
        is_definition(&self.files, &self.table, &self.found, file, row)
    }

    /// Where a symbol leads.
    #[inline(always)]
    pub(crate) fn target(&self, file: u32, row: usize) -> Target
        requires file { file < length self.now.files.items }
        requires row { row < row_count self.now.files.items file }
        requires solved { IsSolved self.now }
        ensures { result ≡ target_in self.now.files.items (noted_of self.now.imports.items) (event_at self.now.files.items file row) }
    {
        if note_in(&self.files, file, row).global {
            self.lead(self.entry_of(file, row))
        } else {
            own_target(&self.files, &self.commons, file, row)
        }
    }
}

impl<'data> Solved<'data> {
    /// Notes a name that a library defines, and that isn't noted yet, by the number of its entry.
    pub(crate) fn note(&mut self, number: usize, name: Vec<u8>) -> Result<(), SymbolFault>
        requires solved { IsSolved self.old }
        requires entry { IsEntryOf self.old.files.items self.old.table.entries.items name.items number }
        requires import { named_in self.old.files.items (noted_of self.old.imports.items) name.items
            ≡ Target.Import (length (noted_of self.old.imports.items)) }
        ensures solved { OnOk result (IsSolved self.new) }
        ensures noted { OnOk result (noted_of self.new.imports.items ≡ noted_of self.old.imports.items ++ name.items ∷ []) }
        ensures grown { OnOk result (HasGrown self.old self.new) }
        ensures kept { OnErr result (IsUnchanged self.old self.new) }
        ensures why { IfErr result (λ fault. fault ≡ SymbolFault.OutOfMemory) }
    {
        let alloc = *self.imports.allocator();
        let library = self.table.entry(number).file;
        // Objects have fewer symbols than that together.
        if self.imports.len() >= UNNUMBERED as usize {
            return Err(SymbolFault::OutOfMemory);
        }
        let id = self.imports.len() as u32;
        let import = Import {
            file: library,
            library: Vec::from_slice(alloc, library_in(&self.files, library))?,
            name,
        };
        self.imports.push(import)?;
        self.numbers[number] = id;
        Ok(())
    }
}

/// Whether a target is an import of a number.
pub(crate) fn is_import(target: Target, number: usize) -> bool
    ensures { result ≡ is_next number target }
{
    match target {
        Target::Import { id } => id as usize == number,
        _ => false,
    }
}

/// Whether a target is nothing.
pub(crate) fn is_nothing(target: Target) -> bool
    ensures { result ≡ is_nothing target }
{
    match target {
        Target::None => true,
        _ => false,
    }
}

impl<'data> Solved<'data> {
    /// The fault of a use whose name leads nowhere.
    fn undefined(&self, file: u32, row: usize) -> SymbolFault
        requires file { file < length self.now.files.items }
        requires row { row < row_count self.now.files.items file }
        requires global { (row_at self.now.files.items file row).global ≡ true }
        requires nothing { is_nothing
            (named_in self.now.files.items (noted_of self.now.imports.items) (row_at self.now.files.items file row).name) ≡ true }
        ensures { IsUndefinedIn self.now.files.items (noted_of self.now.imports.items) (event_at self.now.files.items file row) result }
    {
        let alloc = *self.imports.allocator();
        match Vec::from_slice(alloc, name_in(&self.files, file, row)) {
            Ok(name) => SymbolFault::UndefinedSymbol { name, file },
            Err(_) => SymbolFault::OutOfMemory,
        }
    }

    /// Notes the name of a global row, which a library defines and which isn't noted yet.
    fn note_import(&mut self, file: u32, row: usize) -> Result<(), SymbolFault>
        requires file { file < length self.old.files.items }
        requires row { row < row_count self.old.files.items file }
        requires global { (row_at self.old.files.items file row).global ≡ true }
        requires solved { IsSolved self.old }
        requires import { named_in self.old.files.items (noted_of self.old.imports.items) (row_at self.old.files.items file row).name
            ≡ Target.Import (length (noted_of self.old.imports.items)) }
        ensures solved { OnOk result (IsSolved self.new) }
        ensures noted { OnOk result
            (noted_of self.new.imports.items ≡ noted_of self.old.imports.items ++ (row_at self.old.files.items file row).name ∷ []) }
        ensures files { self.new.files.items ≡ self.old.files.items }
        ensures kept { OnErr result (IsUnchanged self.old self.new) }
        ensures why { IfErr result (λ fault. fault ≡ SymbolFault.OutOfMemory) }
    {
        let alloc = *self.imports.allocator();
        let name = Vec::from_slice(alloc, name_in(&self.files, file, row))?;
        self.note(self.entry_of(file, row), name)
    }

    /// Notes a use of a symbol, and tells what it leads to.
    #[inline(always)]
    pub(crate) fn note_use(&mut self, file: u32, row: usize) -> Result<Target, SymbolFault>
        requires file { file < length self.old.files.items }
        requires row { row < row_count self.old.files.items file }
        requires solved { IsSolved self.old }
        ensures solved { OnOk result (IsSolved self.new) }
        ensures files { self.new.files.items ≡ self.old.files.items }
        ensures noted { OnOk result
            (noted_of self.new.imports.items
            ≡ noting_in self.old.files.items (noted_of self.old.imports.items) (event_at self.old.files.items file row)) }
        ensures target { IfOk result
            (λ t. t ≡ target_in self.old.files.items (noted_of self.old.imports.items) (event_at self.old.files.items file row)) }
        ensures found { OnOk result
            (IsFoundIn self.old.files.items (noted_of self.old.imports.items) (event_at self.old.files.items file row)) }
        ensures kept { OnErr result (IsUnchanged self.old self.new) }
        ensures why { IfErr result
            (IsUndefinedIn self.old.files.items (noted_of self.old.imports.items) (event_at self.old.files.items file row)) }
    {
        let target = self.target(file, row);
        if !note_in(&self.files, file, row).global {
            return Ok(target);
        }
        if is_nothing(target) {
            return Err(self.undefined(file, row));
        }
        if !is_import(target, self.imports.len()) {
            return Ok(target);
        }
        self.note_import(file, row)?;
        Ok(target)
    }
}
