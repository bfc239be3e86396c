//! The symbol table and its strings, written row by row into the range of the file that is kept for them.
//!
//! `_a` of section 1 at 0x4000 and `_b` behind it at 0x4008:
//!
//!     entries   01 00 00 00 0f 01 00 00 00 40 00 00 00 00 00 00   04 00 00 00 0f 01 00 00 08 40 00 00 00 00 00 00
//!     strings   00 5f 61 00 5f 62 00
//!
//! How many symbols there are is known from the start, and so is where the strings begin.
ghost use Rattle.std.specs.Prelude.{◌≡◌, ℕ, ◌+◌, ◌*◌, ◌<◌, ◌≤◌, ◌^◌, List, [], ◌∷◌, ◌++◌, length};
ghost use Rattle.macho_bytes.specs.Layouts.{size_of};
ghost use Rattle.macho_records.specs.Layouts.{symtab_entry};
ghost use Rattle.macho_linkedit.specs.TableRows.{SymbolRow};
ghost use Rattle.macho_linkedit.specs.Symbols.{row_seen, AreRowsWritten};

use macho_records::SymtabEntry;
use macho_wire::put_text;

/// Where the next row of a symbol table goes, in the range of the file for its entries and strings.
#[derive(Clone, Copy)]
pub struct SymbolWriter {
    /// The place of its entry.
    pub entry: usize,
    /// The place of the strings, behind the room of all entries.
    pub strings: usize,
    /// The place of its name among the strings.
    pub name: usize,
}

/// A symbol of the table: its name, and the fields of its entry but the place of the name.
#[derive(Clone, Copy)]
pub struct TableRow<'a> {
    /// The name.
    pub name: &'a [u8],
    /// `n_type`.
    pub kind: u8,
    /// The number of the output section from 1, 0 for none.
    pub section: u8,
    /// `n_desc`.
    pub description: u16,
    /// The address, or the absolute value.
    pub value: u64,
}

impl SymbolWriter {
    /// Begins the table of a number of symbols at the front of a range: its strings begin with a NUL.
    pub fn begin(symbols: usize, out: &mut [u8]) -> SymbolWriter
        requires { size_of symtab_entry * symbols < length out.old }
        ensures written { AreRowsWritten symbols [] result out.old out.new }
        ensures length { length out.new ≡ length out.old }
    {
        let strings = SymtabEntry::SIZE * symbols;
        put_text(out, strings, &[0]);
        SymbolWriter {
            entry: 0,
            strings,
            name: 1,
        }
    }

    /// Writes a symbol behind the others: its entry, and its name with a NUL.
    pub fn push(&mut self, out: &mut [u8], row: TableRow<'_>)
        requires short { self.old.name < 2 ^ 32 }
        requires entry { self.old.entry + size_of symtab_entry ≤ self.old.strings }
        requires name { self.old.strings + self.old.name + length row.name.now < length out.old }
        ensures written { (symbols : ℕ) (rows : List SymbolRow) (before : List ℕ) → AreRowsWritten symbols rows self.old before out.old
            → AreRowsWritten symbols (rows ++ row_seen row.entry ∷ []) self.new before out.new }
        ensures length { length out.new ≡ length out.old }
    {
        let entry = SymtabEntry {
            n_strx: self.name as u32,
            n_type: row.kind,
            n_sect: row.section,
            n_desc: row.description,
            n_value: row.value,
        };
        entry.write(out, self.entry);
        let place = self.strings + self.name;
        let end = place + row.name.len();
        put_text(out, place, row.name);
        put_text(out, end, &[0]);
        self.entry += SymtabEntry::SIZE;
        self.name += row.name.len() + 1;
    }
}
