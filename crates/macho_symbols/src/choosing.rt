//! Which symbols define their names, and the commons among them.
ghost use Rattle.std.specs.Prelude.{◌≡◌, ◌^◌, ◌<◌, ◌++◌, ◌&&◌, ◌==◌, map, filter, length, true, Some, IfOk, IfErr, OnOk};
ghost use Rattle.macho_bytes.specs.Numbers.{rounded_up};
ghost use Rattle.macho_symbol_names.specs.Events.{row_at, row_count, event_at, events, events_of_file, best_of, strength};
ghost use Rattle.macho_symbol_names.specs.Found.{AreFound};
ghost use Rattle.macho_symbol_names.specs.Tables.{heads_of, IsKnown};
ghost use Rattle.macho_symbols.specs.Targets.{defines_in, chosen_in};
ghost use Rattle.macho_symbols.specs.steps.Targets.{is_chosen_in, is_of_object};
ghost use Rattle.macho_symbols.specs.steps.Solved.{common_told};

use crate::solved::Common;
use macho_records::rounded_up;
use macho_symbol_names::{Entry, FileNames, Sort, SymbolFault, Table, note_in, rows_in};
use std::alloc::Global;

/// Whether a row of such a sort defines a name in an object.
pub(crate) fn is_of_object(sort: Sort) -> bool
    ensures { result ≡ is_of_object sort }
{
    match sort {
        Sort::Section | Sort::Absolute | Sort::Common => true,
        Sort::Offered | Sort::Nowhere => false,
    }
}

/// The entry of a global row's name, which leads to the best row of that name.
#[tactic(auto, using(crate::proofs::Leading::best_of_entry))]
fn best_entry(
    files: &[FileNames<'_>],
    table: &Table,
    found: &[Vec<u32>],
    file: u32,
    row: usize,
) -> Entry
    requires file { file < length files.now }
    requires row { row < row_count files.now file }
    requires global { (row_at files.now file row).global ≡ true }
    requires found { AreFound files.now table.now.entries.items (length files.now) found.now }
    requires known { IsKnown files.now (heads_of table.now) table.now.entries.items (events files.now) }
    ensures best { best_of (row_at files.now file row).name (events files.now) ≡ Some (event_at files.now result.file result.row) }
    ensures file { result.file < length files.now }
    ensures row { result.row < row_count files.now result.file }
{
    table.entry(found[file as usize][row] as usize)
}

/// Whether a row is the definition of its name: one of an object to which the entry of its name leads.
pub(crate) fn is_definition(
    files: &[FileNames<'_>],
    table: &Table,
    found: &[Vec<u32>],
    file: u32,
    row: usize,
) -> bool
    requires file { file < length files.now }
    requires row { row < row_count files.now file }
    requires found { AreFound files.now table.now.entries.items (length files.now) found.now }
    requires known { IsKnown files.now (heads_of table.now) table.now.entries.items (events files.now) }
    ensures { result ≡ defines_in files.now (event_at files.now file row) }
{
    if !note_in(files, file, row).global {
        return false;
    }
    let best = best_entry(files, table, found, file, row);
    is_of_object(note_in(files, best.file, best.row as usize).sort)
        && best.file == file
        && best.row as usize == row
}

/// Whether a row is a common that defines its name.
fn is_chosen(
    files: &[FileNames<'_>],
    table: &Table,
    found: &[Vec<u32>],
    file: u32,
    row: usize,
) -> bool
    requires file { file < length files.now }
    requires row { row < row_count files.now file }
    requires found { AreFound files.now table.now.entries.items (length files.now) found.now }
    requires known { IsKnown files.now (heads_of table.now) table.now.entries.items (events files.now) }
    ensures { result ≡ is_chosen_in files.now (event_at files.now file row) }
{
    note_in(files, file, row).strength() == 2 && is_definition(files, table, found, file, row)
}

/// A chosen common, as it is told.
fn common_at(files: &[FileNames<'_>], file: u32, row: usize) -> Result<Common, SymbolFault>
    requires file { file < length files.now }
    requires row { row < row_count files.now file }
    requires common { is_chosen_in files.now (event_at files.now file row) ≡ true }
    ensures told { IfOk result (λ c. c ≡ common_told (event_at files.now file row)) }
    ensures why { IfErr result (λ fault. fault ≡ SymbolFault.OutOfMemory) }
{
    let note = note_in(files, file, row);
    // Objects have fewer symbols than that.
    if row >= u32::MAX as usize {
        return Err(SymbolFault::OutOfMemory);
    }
    Ok(Common {
        file,
        symbol: row as u32,
        size: rounded_up(note.value, note.number),
        align: note.number,
    })
}

/// Adds the chosen commons of a file.
fn add_commons(
    files: &[FileNames<'_>],
    table: &Table,
    found: &[Vec<u32>],
    file: u32,
    commons: &mut Vec<Common>,
) -> Result<(), SymbolFault>
    requires file { file < length files.now }
    requires found { AreFound files.now table.now.entries.items (length files.now) found.now }
    requires known { IsKnown files.now (heads_of table.now) table.now.entries.items (events files.now) }
    ensures added { OnOk result
        (commons.new.items ≡ commons.old.items
        ++ map common_told (filter (is_chosen_in files.now) (events_of_file files.now file (row_count files.now file)))) }
    ensures why { IfErr result (λ fault. fault ≡ SymbolFault.OutOfMemory) }
{
    for row in 0..rows_in(files, file) {
        if !is_chosen(files, table, found, file, row) {
            continue;
        }
        commons.push(common_at(files, file, row)?)?;
    }
    Ok(())
}

/// The commons that define their names, in order.
pub(crate) fn chosen_commons(
    alloc: Global,
    files: &[FileNames<'_>],
    table: &Table,
    found: &[Vec<u32>],
) -> Result<Vec<Common>, SymbolFault>
    requires few { length files.now < 2 ^ 32 }
    requires found { AreFound files.now table.now.entries.items (length files.now) found.now }
    requires known { IsKnown files.now (heads_of table.now) table.now.entries.items (events files.now) }
    ensures commons { IfOk result (λ commons. commons.items ≡ map common_told (chosen_in files.now)) }
    ensures few { IfOk result (λ commons. length commons.items < 2 ^ 32) }
    ensures why { IfErr result (λ fault. fault ≡ SymbolFault.OutOfMemory) }
{
    let mut commons = Vec::new(alloc);
    for file in 0..files.len() {
        add_commons(files, table, found, file as u32, &mut commons)?;
    }
    // Objects have fewer symbols than that together.
    if commons.len() >= u32::MAX as usize {
        return Err(SymbolFault::OutOfMemory);
    }
    Ok(commons)
}
