//! Which symbols of the objects stand in the symbol table of an image: those with a name that are defined, a global one where
//! it is the definition of its name, a local one where it is no assembler's label.
ghost use Rattle.std.specs.Prelude.{◌≡◌, ℕ, ◌+◌, ◌*◌, ◌<◌, ◌≤◌, ◌^◌, List, ◌++◌, length, map, filter, false, IfOk, IfSome, OnOk};
ghost use Rattle.std.specs.List.{range_with_len};
ghost use Rattle.macho_model.specs.declared.placed.Counts.{Counts};
ghost use Rattle.macho_model.specs.Placement.{Placed};
ghost use Rattle.macho_linkedit.specs.TableRows.{row_of};
ghost use Rattle.macho_linkedit.specs.Symbols.{row_seen};
ghost use Rattle.macho_linkedit.specs.declared.listing.LinkedObject.{LinkedObject};
ghost use Rattle.macho_model.specs.Objects.{num_symbols, strings_of, symbol_at, symbol_name};
ghost use Rattle.macho_model.specs.Links.{Link, object_of};
ghost use Rattle.macho_symbols.specs.Kept.{IsResolved, HasSymbol, symbol_id};
ghost use Rattle.macho_linkedit.specs.Listing.{AreObjects, CanBeListed, AreListed, IsRowOf};
ghost use Rattle.macho_linkedit.specs.steps.Names.{AreNames};
ghost use Rattle.macho_linkedit.specs.steps.Listing.{is_defined_symbol, name_length, symbols_in, Lists, placed_type_of, placed_description_of};
ghost use Rattle.macho_model.specs.steps.SymbolTable.{is_in_table};

use crate::names::Names;
use crate::symbols::TableRow;
use macho_object::File;
use macho_records::{N_EXT, N_PEXT, N_SECT, SymtabEntry};
use macho_symbol_names::{in_carried, is_absolute, is_common, is_global};
use macho_symbols::Resolved;
use std::alloc::{AllocError, Global};

/// An object of a link.
#[derive(Drop)]
pub struct LinkedObject<'a> {
    /// Its number among the inputs.
    pub number: u32,
    /// The view of its bytes.
    pub file: File<'a>,
}

impl<'a> LinkedObject<'a> {
    /// The name of a symbol, found by the bytes that it has: none of them is read.
    pub fn name(&self, symbol: SymtabEntry, size: u32) -> &'a [u8]
        requires { (index : ℕ) × (symbol ≡ symbol_at self.now.file.bytes index) × (size ≡ length (symbol_name self.now.file.bytes index)) }
        ensures { (index : ℕ) → symbol ≡ symbol_at self.now.file.bytes index → result.now ≡ symbol_name self.now.file.bytes index }
    {
        if size == 0 {
            return &[];
        }
        let at = symbol.n_strx as usize;
        &self.file.strings()[at..at + size as usize]
    }
}

/// A symbol of the table: a symbol of an object.
#[derive(Clone, Copy)]
pub struct TableSymbol {
    /// The number of the object.
    pub file: u32,
    /// The index of the symbol in it.
    pub symbol: u32,
    /// The bytes of its name.
    pub length: u32,
}

/// The symbols of the table, by object, then index.
#[derive(Drop)]
pub struct TableSymbols {
    /// The symbols.
    pub symbols: Vec<TableSymbol>,
    /// The bytes of the string table.
    pub strings: u64,
}

/// Whether a symbol has a name and is defined.
fn is_defined_symbol(file: &File<'_>, index: u32, symbol: SymtabEntry) -> bool
    requires object { file.now.is_dynamic ≡ false }
    requires among { index < num_symbols file.now.bytes }
    requires entry { symbol ≡ symbol_at file.now.bytes index }
    ensures { result ≡ is_defined_symbol file.now.bytes index }
{
    symbol.n_strx != 0 && (in_carried(file, index) || is_absolute(symbol) || is_common(symbol))
}

/// The bytes of a symbol's name, where the symbol stands in the table. Only the name of a local symbol is read: the string table of an
/// object without one isn't.
fn listed_name(
    alloc: Global,
    object: &LinkedObject<'_>,
    names: &mut Names<'_>,
    index: u32,
    resolved: &Resolved<'_>,
) -> Result<Option<u32>, AllocError>
    requires object { object.now.file.is_dynamic ≡ false }
    requires names { AreNames (strings_of object.now.file.bytes) names.old }
    requires among { index < num_symbols object.now.file.bytes }
    requires known { HasSymbol resolved.now object.now.number index }
    ensures is { (l : Link) (noted : List (List ℕ)) → IsResolved l noted resolved.now
        → object_of l object.now.number ≡ object.now.file.bytes
        → IfOk result (λ size. size ≡ name_length l (symbol_id object.now.number index)) }
    ensures kept { OnOk result (AreNames (strings_of object.now.file.bytes) names.new) }
{
    let _object = object.file.is_dynamic();
    let Some(symbol) = object.file.symbol(index) else {
        unreachable!()
    };
    if !is_defined_symbol(&object.file, index, symbol) {
        return Ok(None);
    }
    if is_global(symbol) {
        if !resolved.defines(object.number, index) {
            return Ok(None);
        }
        return Ok(Some(resolved.name_length(object.number, index)));
    }
    let name = names.name(alloc, symbol.n_strx)?;
    if symbol.is_default_strippable(name) {
        return Ok(None);
    }
    Ok(Some(name.len() as u32))
}

/// Lists the symbols of an object behind the others.
fn list_object(
    alloc: Global,
    object: &LinkedObject<'_>,
    resolved: &Resolved<'_>,
    table: &mut TableSymbols,
) -> Result<(), AllocError>
    requires object { object.now.file.is_dynamic ≡ false }
    requires known { (k : ℕ) → k < num_symbols object.now.file.bytes → HasSymbol resolved.now object.now.number k }
    requires room { table.old.strings + 2 ^ 32 * num_symbols object.now.file.bytes < 2 ^ 64 }
    ensures done { (l : Link) (noted : List (List ℕ)) → IsResolved l noted resolved.now
        → object_of l object.now.number ≡ object.now.file.bytes
        → OnOk result (Lists l (symbols_in object.now.number object.now.file.bytes
        (num_symbols object.now.file.bytes)) table.old table.new) }
    ensures room { OnOk result (table.new.strings ≤ table.old.strings + 2 ^ 32 * num_symbols object.now.file.bytes) }
{
    let mut names = Names::new(object.file.strings());
    for symbol in 0..object.file.num_symbols() {
        let listed = listed_name(alloc, object, &mut names, symbol, resolved)?;
        if let Some(length) = listed {
            table.symbols.push(TableSymbol {
                file: object.number,
                symbol,
                length,
            })?;
            table.strings += u64::from(length) + 1;
        }
    }
    Ok(())
}

/// Lists the symbols of the table of a link, by object, then index.
///
/// # Errors
///
/// There is not enough memory.
pub fn table_symbols(
    alloc: Global,
    objects: &[LinkedObject<'_>],
    resolved: &Resolved<'_>,
) -> Result<TableSymbols, AllocError>
    requires { CanBeListed resolved.now objects.now }
    ensures { (l : Link) (noted : List (List ℕ)) → IsResolved l noted resolved.now → AreObjects l objects.now → IfOk result (AreListed l) }
{
    let mut table = TableSymbols {
        symbols: Vec::new(alloc),
        strings: 1,
    };
    for object in objects {
        list_object(alloc, object, resolved, &mut table)?;
    }
    Ok(table)
}

/// The row of a symbol of an object under its name: its type as the object has it, at its place in the image.
///
/// A global symbol that isn't listed for export is hidden, and a common has become a symbol of a section. Of a local symbol
/// `is_listed` isn't looked at.
pub fn table_row<'a>(
    entry: SymtabEntry,
    name: &'a [u8],
    is_listed: bool,
    section: u8,
    address: u64,
) -> TableRow<'a>
    ensures { (l : Link) (counts : Counts) (p : Placed) (o : LinkedObject) (index : ℕ) → entry ≡ symbol_at o.file.bytes index
        → IsRowOf l counts p o index name.now is_listed section address → row_seen result ≡ row_of l counts p (symbol_id o.number index) }
{
    TableRow {
        name,
        kind: placed_type(entry, is_listed),
        section,
        description: placed_description(entry),
        value: address,
    }
}

/// The type of a symbol's row: of a section where it was a common, and hidden where only this image sees it.
fn placed_type(entry: SymtabEntry, is_listed: bool) -> u8
    ensures { result ≡ placed_type_of entry is_listed }
{
    let kind = if is_common(entry) {
        entry.n_type | N_SECT
    } else {
        entry.n_type
    };
    if is_global(entry) && (entry.is_hidden() || !is_listed) {
        (kind & (255 - N_EXT)) | N_PEXT
    } else {
        kind
    }
}

/// The description of a symbol's row: a common has lost its alignment.
fn placed_description(entry: SymtabEntry) -> u16
    ensures { result ≡ placed_description_of entry }
{
    if is_common(entry) {
        entry.n_desc - ((entry.n_desc >> 8) & 15) * 256
    } else {
        entry.n_desc
    }
}
