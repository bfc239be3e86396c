//! What is kept of one input: the bytes with its names, and a note for each symbol or for each name that it offers.
//!
//! A note holds a place and a length in these bytes. Those of an object or of a dynamic library are its string table, which stays
//! in the input: names that share bytes there share them here. The names of a stub are joined into one text.
ghost use Rattle.std.specs.Prelude.{◌≡◌, ℕ, List, ◌+◌, ◌^◌, ◌<◌, ◌||◌, true, false, map, IfOk, OnOk, IfSome, is_some, is_none, ◌++◌, slice_range, length, get_or};
ghost use Rattle.macho_records.specs.Symbols.{has_type};
ghost use Rattle.macho_records.specs.declared.constants.TheConstants.{N_ABS, N_SECT};
ghost use Rattle.macho_object.specs.Objects.{num_symbols, strings_of, symbol_name};
ghost use Rattle.macho_stub_lines.specs.Lists.{texts};
ghost use Rattle.macho_symbol_names.specs.Kept.{Row, kept_object, kept_dylib, kept_stub, reading_of, rows_of_object, rows_of_dylib, offered_row, is_offered, no_row};
ghost use Rattle.macho_symbol_names.specs.Events.{library_text};
ghost use Rattle.macho_symbol_names.specs.steps.Notes.{AreNoted, IsString};
ghost use Rattle.macho_symbol_names.specs.Notes.{AreEnds, CommonFits, row_in, named_row};
ghost use Rattle.macho_symbol_names.specs.Texts.{bytes_of};

use crate::ends::block_ends;
use crate::kinds::{is_absolute, is_global, is_in_section};
use crate::notes::{Name, Note, Sort, name_at, note_of};
use macho_object::File;
use macho_records::SymtabEntry;
use macho_stub::DefinedStubLibrary;
use std::alloc::{AllocError, Global};
use std::marker::Model;

/// Bytes with names.
#[derive(Drop)]
pub(crate) enum Text<'data> {
    /// The string table of an input.
    Input(&'data [u8]),
    /// The names of a stub, joined.
    Joined(Vec<u8>),
}

impl<'data> Text<'data> {
    /// The bytes.
    fn bytes(&self) -> &[u8]
        ensures { result.now ≡ bytes_of self.now }
    {
        match self {
            Text::Input(strings) => strings,
            Text::Joined(names) => names.as_slice(),
        }
    }
}

/// What is kept of one input.
#[derive(Drop)]
pub struct FileNames<'data> {
    /// The install name of a library.
    library: Option<&'data [u8]>,
    /// The bytes with the names.
    text: Text<'data>,
    notes: Vec<Note>,
}

impl<'data> Model for FileNames<'data> {
    ghost use Rattle.macho_symbol_names.specs.Kept.{FileRows};

    ghost Value = { FileRows };

    ghost use Rattle.std.specs.Prelude.{map, option_copied};
    ghost use Rattle.macho_symbol_names.specs.steps.Notes.{IsHeld};
    ghost use Rattle.macho_symbol_names.specs.Notes.{row_in};
    ghost use Rattle.macho_symbol_names.specs.Texts.{bytes_of};

    ghost view = { λ f. record { library = option_copied f.library; rows = map (row_in (bytes_of f.text)) f.notes.items } };

    ghost invariant = { λ f. IsHeld (bytes_of f.text) f.notes.items };
}

/// The notes of an object's symbols, in the bytes of its string table.
fn object_notes(alloc: Global, file: &File<'_>) -> Result<Vec<Note>, AllocError>
    requires object { file.now.is_dynamic ≡ false }
    requires few { length (strings_of file.now.bytes) < 2 ^ 32 }
    ensures { IfOk result (λ notes. AreNoted (strings_of file.now.bytes) notes.items (rows_of_object file.now.bytes)) }
{
    let ends = block_ends(alloc, file.strings())?;
    let mut notes = Vec::with_capacity(alloc, file.num_symbols() as usize)?;
    for index in 0..file.num_symbols() {
        notes.push(note_of(file, &ends, index))?;
    }
    Ok(notes)
}

/// The note of a symbol that a dynamic library offers, in the bytes of its string table; None of another symbol.
fn offered_note(file: &File<'_>, ends: &[u32], index: u32) -> Option<Note>
    requires dylib { file.now.is_dynamic ≡ true }
    requires few { length (strings_of file.now.bytes) < 2 ^ 32 }
    requires among { index < num_symbols file.now.bytes }
    requires ends { AreEnds (strings_of file.now.bytes) ends.now }
    ensures offered { is_some result ≡ is_offered file.now.bytes index }
    ensures row { IfSome result (λ n. row_in (strings_of file.now.bytes) n ≡ offered_row (symbol_name file.now.bytes index)) }
    ensures held { IfSome result (λ n. IsString (strings_of file.now.bytes) n.name × (n.sort ≡ Sort.Offered)) }
{
    let symbol = file.symbol(index)?;
    let _whole = file.is_dynamic();
    if !is_global(symbol) || symbol.is_hidden() || !is_defined(symbol) {
        return None;
    }
    let name = name_at(file.strings(), ends, symbol.n_strx);
    Some(offered(name))
}

/// Whether a symbol is defined: in a section, or as a value of its own.
fn is_defined(symbol: SymtabEntry) -> bool
    ensures { result ≡ has_type N_SECT symbol || has_type N_ABS symbol }
{
    is_in_section(symbol) || is_absolute(symbol)
}

/// The note of a name that a library offers.
fn offered(name: Name) -> Note
    ensures row { (text : List ℕ) → row_in text result ≡ offered_row (slice_range text name.at (name.at + name.length)) }
    ensures name { result.name ≡ name }
    ensures sort { result.sort ≡ Sort.Offered }
{
    Note {
        name,
        value: 0,
        sort: Sort::Offered,
        number: 0,
        global: true,
        weak: false,
        hidden: false,
    }
}

/// The notes of what a dynamic library offers, in the bytes of its string table.
fn dylib_notes(alloc: Global, file: &File<'_>) -> Result<Vec<Note>, AllocError>
    requires dylib { file.now.is_dynamic ≡ true }
    requires few { length (strings_of file.now.bytes) < 2 ^ 32 }
    ensures { IfOk result (λ notes. AreNoted (strings_of file.now.bytes) notes.items (rows_of_dylib file.now.bytes)) }
{
    let ends = block_ends(alloc, file.strings())?;
    let mut notes = Vec::new(alloc);
    for index in 0..file.num_symbols() {
        let Some(note) = offered_note(file, &ends, index) else {
            continue;
        };
        notes.push(note)?;
    }
    Ok(notes)
}

/// Adds names that a library offers to the bytes and the notes of others.
fn offer_names(text: &mut Vec<u8>, notes: &mut Vec<Note>, names: &[&str]) -> Result<(), AllocError>
    ensures { (rows : List Row) → AreNoted text.old.items notes.old.items rows
        → OnOk result (AreNoted text.new.items notes.new.items (rows ++ map offered_row (texts names.now))) }
{
    for name in names {
        let bytes = name.as_bytes();
        let (at, length) = (text.len(), bytes.len());
        if at > u32::MAX as usize || length > u32::MAX as usize {
            return Err(AllocError);
        }
        text.extend_from_slice(bytes)?;
        let name = Name {
            at: at as u32,
            length: length as u32,
        };
        notes.push(offered(name))?;
    }
    Ok(())
}

impl<'data> FileNames<'data> {
    /// What is kept of an object.
    ///
    /// # Errors
    ///
    /// There is not enough memory, or the string table has 4 GiB.
    pub fn of_object(alloc: Global, file: &File<'data>) -> Result<FileNames<'data>, AllocError>
        requires object { file.now.is_dynamic ≡ false }
        ensures { IfOk result (λ f. f ≡ kept_object file.now.bytes) }
    {
        let strings = file.strings();
        if strings.len() > u32::MAX as usize {
            return Err(AllocError);
        }
        Ok(FileNames {
            library: None,
            notes: object_notes(alloc, file)?,
            text: Text::Input(strings),
        })
    }

    /// What is kept of a dynamic library.
    ///
    /// # Errors
    ///
    /// There is not enough memory, or the string table has 4 GiB.
    pub fn of_dylib(alloc: Global, file: &File<'data>) -> Result<FileNames<'data>, AllocError>
        requires dylib { file.now.is_dynamic ≡ true }
        ensures { IfOk result (λ f. f ≡ kept_dylib file.now.bytes) }
    {
        let Some(install_name) = file.install_name() else {
            unreachable!()
        };
        let strings = file.strings();
        if strings.len() > u32::MAX as usize {
            return Err(AllocError);
        }
        Ok(FileNames {
            library: Some(install_name),
            notes: dylib_notes(alloc, file)?,
            text: Text::Input(strings),
        })
    }

    /// What is kept of a stub.
    ///
    /// # Errors
    ///
    /// There is not enough memory, or the names together have more than 4 GiB.
    #[tactic(auto, unfolding(crate::specs::Kept::rows_of_stub))]
    pub fn of_stub(
        alloc: Global,
        stub: &DefinedStubLibrary<'data>,
    ) -> Result<FileNames<'data>, AllocError>
        ensures { IfOk result (λ f. f ≡ kept_stub (reading_of stub.now)) }
    {
        let mut text = Vec::new(alloc);
        let mut notes = Vec::new(alloc);
        offer_names(&mut text, &mut notes, &stub.symbols)?;
        offer_names(&mut text, &mut notes, &stub.weak_symbols)?;
        Ok(FileNames {
            library: Some(stub.install_name.as_bytes()),
            text: Text::Joined(text),
            notes,
        })
    }
}

impl<'data> FileNames<'data> {
    /// How many rows there are.
    pub fn len(&self) -> usize
        ensures { result ≡ length self.now.rows }
    {
        self.notes.len()
    }

    /// How many rows are global, and so have a name that others may define.
    pub(crate) fn count_global(&self) -> usize {
        let mut count = 0usize;
        for note in &self.notes {
            count = count.saturating_add(usize::from(note.global));
        }
        count
    }

    /// Whether it is an object.
    pub fn is_object(&self) -> bool
        ensures { result ≡ is_none self.now.library }
    {
        self.library.is_none()
    }

    /// The install name of a library, empty for an object.
    pub fn library(&self) -> &'data [u8]
        ensures { result.now ≡ library_text self.now.library }
    {
        match self.library {
            Some(name) => name,
            None => &[],
        }
    }

    /// The name of a row.
    pub fn name(&self, row: usize) -> &[u8]
        requires { row < length self.now.rows }
        ensures { result.now ≡ (get_or self.now.rows row no_row).name }
    {
        let name = self.notes[row].name;
        let at = name.at as usize;
        &self.text.bytes()[at..at + name.length as usize]
    }

    /// How many bytes the name of a row has.
    pub fn name_length(&self, row: usize) -> u32
        requires { row < length self.now.rows }
        ensures { result ≡ length (get_or self.now.rows row no_row).name }
    {
        self.notes[row].name.length
    }

    /// Whether two rows have one name, standing in one place.
    pub(crate) fn is_same_place(&self, row: usize, other: usize) -> bool
        requires row { row < length self.now.rows }
        requires other { other < length self.now.rows }
        ensures { result ≡ true → (get_or self.now.rows row no_row).name ≡ (get_or self.now.rows other no_row).name }
    {
        let (name, other) = (self.notes[row].name, self.notes[other].name);
        name.at == other.at && name.length == other.length
    }

    /// The note of a row.
    pub fn note(&self, row: usize) -> Note
        requires { row < length self.now.rows }
        ensures row { named_row (get_or self.now.rows row no_row).name result ≡ get_or self.now.rows row no_row }
        ensures small { CommonFits result.sort result.number result.value }
    {
        self.notes[row]
    }
}
