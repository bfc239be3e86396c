//! The symbol table: a row for each symbol that was listed.
ghost use Rattle.std.specs.Prelude.{◌≡◌, ℕ, ◌+◌, ◌*◌, ◌<◌, ◌≤◌, ◌^◌, true, List, length, All, OnOk};
ghost use Rattle.std.specs.Option.{option_copied};
ghost use Rattle.macho_bytes.specs.Layouts.{size_of};
ghost use Rattle.macho_records.specs.Layouts.{symtab_entry};
ghost use Rattle.macho_records.specs.Symbols.{is_global};
ghost use Rattle.macho_model.specs.declared.placed.Counts.{Counts};
ghost use Rattle.macho_model.specs.Links.{Link};
ghost use Rattle.macho_model.specs.Placement.{Placed};
ghost use Rattle.macho_model.specs.Segments.{common_key};
ghost use Rattle.macho_model.specs.Objects.{num_symbols, symbol_name};
ghost use Rattle.macho_model.specs.Exports.{is_listed};
ghost use Rattle.macho_linkedit.specs.TableRows.{row_of, symbol_rows};
ghost use Rattle.macho_layout.specs.Placements.{placed_of};
ghost use Rattle.macho_symbols.specs.Exported.{AreLists};
ghost use Rattle.macho_symbols.specs.Kept.{symbol_id};
ghost use Rattle.macho_linkedit.specs.Symbols.{row_seen, IsTableWritten};
ghost use Rattle.macho_symbol_tables.specs.steps.Rows.{NumbersRise, HasNumber, IsObjectAt, CanHaveRow, IsListed};
ghost use Rattle.macho_symbol_tables.specs.steps.Sections.{sections_told, number_told};
ghost use Rattle.macho_symbol_tables.specs.Rows.{AreToList};

use crate::sections::{section_numbers, section_of_symbol};
use macho_export_lists::ExportList;
use macho_fields::{Places, address_of};
use macho_layout::Placement;
use macho_linkedit::{LinkedObject, SymbolWriter, TableRow, TableSymbol, TableSymbols, table_row};
use macho_records::SymtabEntry;
use macho_symbol_names::is_global;
use std::alloc::{AllocError, Global};

/// The place of the object of a number: the first whose number isn't below.
fn place_of(objects: &[LinkedObject<'_>], number: u32) -> usize
    requires rise { NumbersRise objects.now }
    requires there { HasNumber objects.now number }
    ensures { IsObjectAt objects.now number result }
{
    let mut low = 0;
    let mut high = objects.len();
    while low < high {
        let middle = low + (high - low) / 2;
        if objects[middle].number < number {
            low = middle + 1;
        } else {
            high = middle;
        }
    }
    low
}

/// The place of the object of a number, where that of the row before mostly is.
fn place_from(objects: &[LinkedObject<'_>], last: usize, number: u32) -> usize
    requires rise { NumbersRise objects.now }
    requires there { HasNumber objects.now number }
    ensures { IsObjectAt objects.now number result }
{
    match objects.get(last) {
        Some(object) if object.number == number => last,
        _ => place_of(objects, number),
    }
}

/// Whether export lists contain the name of a global symbol, where there are any. Of another symbol none is asked.
fn is_listed(lists: Option<&ExportList>, symbol: SymtabEntry, name: &[u8]) -> bool
    ensures { (l : Link) → AreLists l (option_copied lists.entry) → is_global symbol ≡ true → result ≡ is_listed l name.now }
{
    if !is_global(symbol) {
        return true;
    }
    match lists {
        Some(list) => list.contains(name),
        None => true,
    }
}

/// The row of a symbol of the table, by the numbers of its object's sections and that of commons.
fn row_of<'a, P: Places>(
    places: &P,
    object: &LinkedObject<'a>,
    symbol: TableSymbol,
    lists: Option<&ExportList>,
    numbers: &[u8],
    commons: u8,
) -> TableRow<'a>
    requires symbol { CanHaveRow object.now symbol.symbol }
    requires size { symbol.length ≡ length (symbol_name object.now.file.bytes symbol.symbol) }
    requires known { P.has_symbol places.now object.now.number symbol.symbol }
    ensures { (l : Link) (counts : Counts) (p : Placed) → numbers.now ≡ sections_told p object.now.file → commons ≡ number_told p common_key
        → IsListed l counts p (P.look places.now) object.now symbol.symbol (option_copied lists.entry)
        → row_seen result ≡ row_of l counts p (symbol_id object.now.number symbol.symbol) }
{
    let Some(entry) = object.file.symbol(symbol.symbol) else {
        unreachable!()
    };
    let name = object.name(entry, symbol.length);
    let is_listed = is_listed(lists, entry, name);
    let section = section_of_symbol(entry, numbers, commons);
    let address = address_of(places, places.target(object.number, symbol.symbol));
    table_row(entry, name, is_listed, section, address)
}

/// Writes the symbol table of a placed link at the front of a range, with a row for each listed symbol, in order. `listed` are the
/// symbols that were counted before addresses were known; `lists` are the export lists, where there are any.
///
/// # Errors
///
/// There is not enough memory.
pub fn write_symbol_table<P: Places>(
    alloc: Global,
    places: &P,
    placement: &Placement,
    objects: &[LinkedObject<'_>],
    listed: &TableSymbols,
    lists: Option<&ExportList>,
    out: &mut [u8],
) -> Result<(), AllocError>
    requires few { length placement.now.output_sections.items ≤ 255 }
    requires short { listed.now.strings < 2 ^ 32 }
    requires symbols { All (λ o. (k : ℕ) → k < num_symbols o.file.bytes → P.has_symbol places.now o.number k) objects.now }
    requires room { size_of symtab_entry * length listed.now.symbols.items + listed.now.strings ≤ length out.old }
    requires link { (l : Link) × (counts : Counts)
        × AreToList l counts (placed_of placement.now) (P.look places.now) objects.now listed.now (option_copied lists) }
    ensures done { (l : Link) (counts : Counts) → AreToList l counts (placed_of placement.now) (P.look places.now) objects.now listed.now
        (option_copied lists.entry)
        → OnOk result (IsTableWritten (symbol_rows l counts (placed_of placement.now)) out.old out.new) }
    ensures length { length out.new ≡ length out.old }
{
    let numbers = section_numbers(alloc, placement, objects)?;
    let mut table = SymbolWriter::begin(listed.symbols.len(), out);
    let mut place = 0;
    for symbol in listed.symbols.as_slice() {
        place = place_from(objects, place, symbol.file);
        let row = row_of(
            places,
            &objects[place],
            *symbol,
            lists,
            &numbers.objects[place],
            numbers.commons,
        );
        table.push(out, row);
    }
    Ok(())
}
