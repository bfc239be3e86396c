//! Resolution: one pass over the rows of all files, which leaves the best row of each name in the table.
//!
//! The pass keeps the number of the entry that it finds or adds for each row, so that a symbol that is used many times is led to the
//! entry of its name without a look at the name. An entry keeps its number, and its name:
//!
//!     files     0: _main, _f   1: _f, l_local, _g
//!     entries   _main, _f, _g
//!     found     0: 0, 1        1: 1, none, 2
ghost use Rattle.std.specs.Prelude.{◌≡◌, ◌^◌, ◌<◌, [], ◌∷◌, length, IfOk, OnOk, IfErr};
ghost use Rattle.macho_symbol_names.specs.Events.{row_at, row_count, event_at, events_of_file, events};
ghost use Rattle.macho_symbol_names.specs.Found.{IsFound, AreFoundIn, AreFound};
ghost use Rattle.macho_symbol_names.specs.steps.Tables.{HaveGrown, TakesIn, Refuses};
ghost use Rattle.macho_symbol_names.specs.Tables.{heads_of, IsTable, IsKnown, IsClash};

use crate::fault::SymbolFault;
use crate::files::FileNames;
use crate::table::{Table, note_in, rows_in};

/// The number that stands for no entry, of a row that isn't global.
const NO_ENTRY: u32 = u32::MAX;

impl Table {
    /// Takes a row in, of a name that is new, or that is known: answers the number of the name's entry, or `NO_ENTRY`.
    fn take_row(
        &mut self,
        files: &[FileNames<'_>],
        file: u32,
        row: usize,
    ) -> Result<u32, SymbolFault>
        requires file { file < length files.now }
        requires row { row < row_count files.now file }
        requires table { IsTable files.now (heads_of self.old) self.old.entries.items }
        ensures table { OnOk result (IsTable files.now (heads_of self.new) self.new.entries.items) }
        ensures grown { OnOk result (HaveGrown files.now self.old.entries.items self.new.entries.items) }
        ensures found { IfOk result (λ number. IsFound files.now self.new.entries.items file row number) }
        ensures done { OnOk result
            (TakesIn files.now (heads_of self.old) self.old.entries.items (heads_of self.new) self.new.entries.items
            (event_at files.now file row ∷ [])) }
        ensures why { IfErr result (Refuses files.now (heads_of self.old) self.old.entries.items (event_at files.now file row ∷ [])) }
    {
        if !note_in(files, file, row).global {
            return Ok(NO_ENTRY);
        }
        let hash = self.hash_of_row(files, file, row);
        let Some(number) = self.find_row(files, file, row, hash) else {
            return Ok(self.add(files, file, row, hash)?);
        };
        self.improve(files, number as usize, file, row)?;
        Ok(number)
    }

    /// Takes the rows of a file in: answers the numbers of their entries.
    fn take_file(&mut self, files: &[FileNames<'_>], file: u32) -> Result<Vec<u32>, SymbolFault>
        requires file { file < length files.now }
        requires table { IsTable files.now (heads_of self.old) self.old.entries.items }
        ensures table { OnOk result (IsTable files.now (heads_of self.new) self.new.entries.items) }
        ensures grown { OnOk result (HaveGrown files.now self.old.entries.items self.new.entries.items) }
        ensures found { IfOk result (λ found. AreFoundIn files.now self.new.entries.items file (row_count files.now file) found.items) }
        ensures done { OnOk result
            (TakesIn files.now (heads_of self.old) self.old.entries.items (heads_of self.new) self.new.entries.items
            (events_of_file files.now file (row_count files.now file))) }
        ensures why { IfErr result
            (Refuses files.now (heads_of self.old) self.old.entries.items (events_of_file files.now file (row_count files.now file))) }
    {
        let count = rows_in(files, file);
        let mut found = Vec::with_capacity(*self.heads.allocator(), count)?;
        for row in 0..count {
            found.push(self.take_row(files, file, row)?)?;
        }
        Ok(found)
    }

    /// Takes the rows of all files in, in order: answers for each file the numbers of its rows' entries. The table is without
    /// names before.
    ///
    /// # Errors
    ///
    /// A name has two strong definitions, or there is not enough memory.
    pub fn take_files(&mut self, files: &[FileNames<'_>]) -> Result<Vec<Vec<u32>>, SymbolFault>
        requires few { length files.now < 2 ^ 32 }
        requires known { IsKnown files.now (heads_of self.old) self.old.entries.items [] }
        ensures done { OnOk result (IsKnown files.now (heads_of self.new) self.new.entries.items (events files.now)) }
        ensures found { IfOk result (λ found. AreFound files.now self.new.entries.items (length files.now) found.items) }
        ensures why { IfErr result (IsClash (events files.now)) }
    {
        let mut found = Vec::with_capacity(*self.heads.allocator(), files.len())?;
        for file in 0..files.len() {
            found.push(self.take_file(files, file as u32)?)?;
        }
        Ok(found)
    }
}
