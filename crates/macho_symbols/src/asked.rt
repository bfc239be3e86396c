//! Names that export lists ask for: each is to be defined, and each that a library defines is an import.
ghost use Rattle.std.specs.Prelude.{◌≡◌, OnOk, OnErr, IfErr, All, [], ◌∷◌};
ghost use Rattle.macho_export_lists.specs.Entries.{texts_of};
ghost use Rattle.macho_symbols.specs.steps.Solved.{IsSolved, IsUnchanged, HasGrown, HaveNoted, IsMissingIn};
ghost use Rattle.macho_symbols.specs.Kept.{noted_of};

use crate::solved::{Solved, is_import, is_nothing};
use macho_symbol_names::SymbolFault;

impl<'data> Solved<'data> {
    /// Notes a name, where a library defines it and it isn't noted yet.
    fn note_name(&mut self, name: &[u8]) -> Result<(), SymbolFault>
        requires { IsSolved self.old }
        ensures noted { OnOk result (HaveNoted self.old self.new (name.now ∷ [])) }
        ensures kept { OnErr result (IsUnchanged self.old self.new) }
        ensures why { IfErr result (IsMissingIn self.old.files.items (name.now ∷ [])) }
    {
        let alloc = *self.imports.allocator();
        let target = self.named(name);
        if is_nothing(target) {
            return Err(SymbolFault::ExportListMissing {
                name: Vec::from_slice(alloc, name)?,
            });
        }
        if !is_import(target, self.imports.len()) {
            return Ok(());
        }
        let Some(number) = self.table.find(&self.files, name) else {
            unreachable!()
        };
        self.note(number, Vec::from_slice(alloc, name)?)?;
        Ok(())
    }

    /// Notes names, up to the first that can't be noted.
    fn note_each(&mut self, names: &[Vec<u8>]) -> Result<(), SymbolFault>
        requires { IsSolved self.old }
        ensures noted { OnOk result (HaveNoted self.old self.new (texts_of names.now)) }
        ensures grown { OnErr result (HasGrown self.old self.new) }
        ensures why { IfErr result (IsMissingIn self.old.files.items (texts_of names.now)) }
    {
        for name in names {
            self.note_name(name)?;
        }
        Ok(())
    }

    /// Notes names, all or none.
    pub(crate) fn note_names(&mut self, names: &[Vec<u8>]) -> Result<(), SymbolFault>
        requires { IsSolved self.old }
        ensures noted { OnOk result (HaveNoted self.old self.new (texts_of names.now)) }
        ensures kept { OnErr result (IsUnchanged self.old self.new) }
        ensures why { IfErr result (IsMissingIn self.old.files.items (texts_of names.now)) }
    {
        let count = self.imports.len();
        let numbers = Vec::from_slice(*self.numbers.allocator(), &self.numbers)?;
        if let Err(fault) = self.note_each(names) {
            self.imports.truncate(count);
            self.numbers = numbers;
            return Err(fault);
        }
        Ok(())
    }
}
