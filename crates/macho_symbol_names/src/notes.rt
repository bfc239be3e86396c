//! Notes: what is kept of a symbol of an object, read from its entry.
//!
//! Of `_main`, the second symbol of an object with the string table `00 5f 6d 61 69 6e 00`, that stands 16 bytes behind
//! the start of the first section:
//!
//!     name 1, 5 bytes   sort Section   number 0   value 16   global, not weak, not hidden
ghost use Rattle.std.specs.Prelude.{◌≡◌, ◌+◌, ◌^◌, ◌<◌, ◌≤◌, true, false, ◌==◌, length, if◌then◌else◌};
ghost use Rattle.macho_records.specs.Symbols.{is_common_of, common_of, common_size_of, common_exponent_of, is_global};
ghost use Rattle.macho_object.specs.Objects.{num_symbols, strings_of, symbol_at};
ghost use Rattle.macho_symbol_names.specs.Kept.{in_carried, sort_of, number_of, value_of, row_of_symbol};
ghost use Rattle.macho_symbol_names.specs.Events.{strength_of, size_of_common};
ghost use Rattle.macho_symbol_names.specs.Notes.{row_in, AreEnds, CommonFits};
ghost use Rattle.macho_symbol_names.specs.steps.Notes.{IsString};

use crate::ends::string_end;
use crate::kinds::{is_absolute, is_global};
use macho_object::{File, is_carried};
use macho_records::{CommonSymbol, SymtabEntry};

/// Where a symbol leads by itself.
#[derive(Clone, Copy)]
pub enum Sort {
    /// A place in a carried section.
    Section,
    /// An absolute value.
    Absolute,
    /// A common.
    Common,
    /// A name that a library offers.
    Offered,
    /// Nothing: a name that the object only mentions, or a symbol that isn't linked.
    Nowhere,
}

/// Where a name stands in the bytes that are kept of its file.
#[derive(Clone, Copy)]
pub struct Name {
    /// Its first byte.
    pub at: u32,
    /// How many bytes it has.
    pub length: u32,
}

/// What is kept of a symbol, or of a name that a library offers.
#[derive(Clone, Copy)]
pub struct Note {
    /// The name; empty of a local symbol.
    pub name: Name,
    /// The place in the section, the absolute value, or the common's size.
    pub value: u64,
    /// Where it leads by itself.
    pub sort: Sort,
    /// The section's number from 0, or the common's exponent.
    pub number: u8,
    /// Whether other files see it.
    pub global: bool,
    /// Whether it is a weak definition.
    pub weak: bool,
    /// Whether only files of its own image see it.
    pub hidden: bool,
}

/// The name that begins at a place of a string table.
pub(crate) fn name_at(strings: &[u8], ends: &[u32], at: u32) -> Name
    requires few { length strings.now < 2 ^ 32 }
    requires within { at ≤ length strings.now }
    requires ends { AreEnds strings.now ends.now }
    ensures at { result.at ≡ at }
    ensures is { IsString strings.now result }
{
    if at == 0 {
        return Name { at, length: 0 };
    }
    let start = at as usize;
    Name {
        at,
        length: (string_end(strings, ends, start) - start) as u32,
    }
}

/// Whether a symbol of an object stands in a carried section.
#[tactic(auto, using(crate::proofs::Entries::stands_in_carried))]
pub fn in_carried(file: &File<'_>, index: u32) -> bool
    requires object { file.now.is_dynamic ≡ false }
    requires among { index < num_symbols file.now.bytes }
    ensures { result ≡ in_carried file.now.bytes (symbol_at file.now.bytes index) }
{
    let _object = file.is_dynamic();
    let Some(section) = file.symbol_section(index) else {
        return false;
    };
    match file.section(section) {
        Some(header) => is_carried(header),
        None => unreachable!(),
    }
}

/// A symbol of an object as a common, if it is one.
#[tactic(auto, using(crate::proofs::Entries::commons_are_small))]
fn as_common(file: &File<'_>, index: u32, symbol: SymtabEntry) -> Option<CommonSymbol>
    requires object { file.now.is_dynamic ≡ false }
    requires among { index < num_symbols file.now.bytes }
    requires entry { symbol ≡ symbol_at file.now.bytes index }
    ensures is { result ≡ common_of symbol }
    ensures small { is_common_of symbol ≡ true → common_size_of symbol < 2 ^ 64 }
    ensures low { common_exponent_of symbol < 16 }
{
    let _object = file.is_dynamic();
    symbol.as_common()
}

/// Where a symbol leads by itself, with its number and value there.
#[derive(Clone, Copy)]
struct Lead {
    sort: Sort,
    number: u8,
    value: u64,
}

impl Lead {
    /// A lead of a sort, with its number and value.
    fn new(sort: Sort, number: u8, value: u64) -> Lead
        ensures { result ≡ record { sort = sort; number = number; value = value } }
    {
        Lead {
            sort,
            number,
            value,
        }
    }
}

/// Where a symbol of an object leads by itself.
fn lead_of(file: &File<'_>, index: u32, symbol: SymtabEntry) -> Lead
    requires object { file.now.is_dynamic ≡ false }
    requires among { index < num_symbols file.now.bytes }
    requires entry { symbol ≡ symbol_at file.now.bytes index }
    ensures sort { result.sort ≡ sort_of file.now.bytes symbol }
    ensures number { result.number ≡ number_of file.now.bytes symbol result.sort }
    ensures value { result.value ≡ value_of file.now.bytes symbol result.sort }
    ensures small { CommonFits result.sort result.number result.value }
{
    let _object = file.is_dynamic();
    if in_carried(file, index) {
        let Some(offset) = file.symbol_offset_in_section(index) else {
            unreachable!()
        };
        return Lead::new(Sort::Section, symbol.n_sect.saturating_sub(1), offset);
    }
    if is_absolute(symbol) {
        return Lead::new(Sort::Absolute, 0, symbol.n_value);
    }
    match as_common(file, index, symbol) {
        Some(common) => Lead::new(Sort::Common, common.align, symbol.n_value),
        None => Lead::new(Sort::Nowhere, 0, 0),
    }
}

/// The name of a symbol, none of a local one.
#[tactic(auto, using(crate::proofs::Entries::names_begin_inside))]
fn name_of_symbol(file: &File<'_>, ends: &[u32], index: u32, symbol: SymtabEntry) -> Name
    requires few { length (strings_of file.now.bytes) < 2 ^ 32 }
    requires among { index < num_symbols file.now.bytes }
    requires entry { symbol ≡ symbol_at file.now.bytes index }
    requires ends { AreEnds (strings_of file.now.bytes) ends.now }
    ensures is { IsString (strings_of file.now.bytes) result }
    ensures at { result.at ≡ (if is_global symbol then symbol.n_strx else 0) }
{
    let _whole = file.is_dynamic();
    if is_global(symbol) {
        name_at(file.strings(), ends, symbol.n_strx)
    } else {
        Name { at: 0, length: 0 }
    }
}

/// What is kept of a symbol of an object.
pub(crate) fn note_of(file: &File<'_>, ends: &[u32], index: u32) -> Note
    requires object { file.now.is_dynamic ≡ false }
    requires few { length (strings_of file.now.bytes) < 2 ^ 32 }
    requires among { index < num_symbols file.now.bytes }
    requires ends { AreEnds (strings_of file.now.bytes) ends.now }
    ensures named { IsString (strings_of file.now.bytes) result.name }
    ensures row { row_in (strings_of file.now.bytes) result ≡ row_of_symbol file.now.bytes index }
    ensures small { CommonFits result.sort result.number result.value }
{
    let Some(symbol) = file.symbol(index) else {
        unreachable!()
    };
    let lead = lead_of(file, index, symbol);
    let name = name_of_symbol(file, ends, index, symbol);
    Note {
        name,
        value: lead.value,
        sort: lead.sort,
        number: lead.number,
        global: is_global(symbol),
        weak: symbol.is_weak(),
        hidden: symbol.is_hidden(),
    }
}

impl Note {
    /// How strong a definition it is, from 0 for none to 4.
    pub fn strength(self) -> u8
        ensures { result ≡ strength_of self.sort self.weak }
    {
        match self.sort {
            Sort::Section | Sort::Absolute => { if self.weak { 3 } else { 4 } }
            Sort::Common => 2,
            Sort::Offered => 1,
            Sort::Nowhere => 0,
        }
    }

    /// Whether it is a strong definition.
    pub fn is_strong(self) -> bool
        ensures { result ≡ (strength_of self.sort self.weak == 4) }
    {
        self.strength() == 4
    }

    /// The size of a common, 0 of another symbol.
    pub fn common_size(self) -> u64
        ensures { result ≡ size_of_common self.sort self.value }
    {
        match self.sort {
            Sort::Common => self.value,
            _ => 0,
        }
    }
}
