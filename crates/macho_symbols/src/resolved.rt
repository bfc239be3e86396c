//! Resolved symbols, as callers see them: what each name and each symbol leads to, and what was noted.
ghost use Rattle.std.specs.Prelude.{◌≡◌, ℕ, List, true, length, map, IfOk, IfErr, OnOk, OnErr};
ghost use Rattle.std.specs.List.{filter_map};
ghost use Rattle.macho_model.specs.Links.{Link};
ghost use Rattle.macho_model.specs.Resolution.{definition_of, defines, entry_at, library_of_input, name_at};
ghost use Rattle.macho_model.specs.Targets.{definition_target};
ghost use Rattle.macho_model.specs.Uses.{target_with};
ghost use Rattle.macho_model.specs.ExportLists.{plain_entries};
ghost use Rattle.std.specs.Option.{option_copied};
ghost use Rattle.macho_records.specs.Symbols.{is_global};
ghost use Rattle.macho_symbols.specs.Exported.{AreLists, AreExports};
ghost use Rattle.macho_symbols.specs.Kept.{IsResolved, HasSymbol, symbol_id};
ghost use Rattle.macho_symbols.specs.Told.{CommonsAre, ImportsAre, IsDefined, IsUndefined, noting, noting_names, AreDefined, IsMissing};

use crate::exports::ExportName;
use crate::libraries::library_names;
use crate::solved::{Common, Import, Solved};
use macho_export_lists::ExportList;
use macho_model::Target;
use macho_symbol_names::SymbolFault;
use std::alloc::{AllocError, Global};
use std::marker::Model;

/// The symbols of a link, resolved. Files are numbered as they were added.
#[derive(Drop)]
pub struct Resolved<'data> {
    pub(crate) solved: Solved<'data>,
}

impl<'data> Model for Resolved<'data> {
    ghost use Rattle.macho_symbols.specs.Kept.{ResolvedRows, noted_of};

    ghost Value = { ResolvedRows };

    ghost use Rattle.macho_symbols.specs.steps.Solved.{IsSolved};

    ghost view = { λ r. record { files = r.solved.files.items; noted = noted_of r.solved.imports.items } };

    ghost invariant = { λ r. IsSolved r.solved };
}

impl<'data> Resolved<'data> {
    /// What a global name leads to: `Target::None` for a name without a definition.
    pub fn definition(&self, name: &[u8]) -> Target
        ensures { (l : Link) (noted : List (List ℕ)) → IsResolved l noted self.now
            → result ≡ definition_target l noted name.now (definition_of l name.now) }
    {
        self.solved.named(name)
    }

    /// What a symbol of an object leads to. A symbol of a library that isn't noted yet is told with the number that it
    /// would get next.
    #[inline(always)]
    pub fn target(&self, file: u32, symbol: u32) -> Target
        requires { HasSymbol self.now file symbol }
        ensures { (l : Link) (noted : List (List ℕ)) → IsResolved l noted self.now → result ≡ target_with l noted (symbol_id file symbol) }
    {
        self.solved.target(file, symbol as usize)
    }

    /// Whether a symbol of an object is global, and the definition of its name.
    pub fn defines(&self, file: u32, symbol: u32) -> bool
        requires { HasSymbol self.now file symbol }
        ensures { (l : Link) (noted : List (List ℕ)) → IsResolved l noted self.now → result ≡ defines l (symbol_id file symbol) }
    {
        self.solved.defines(file, symbol as usize)
    }

    /// How many bytes the name of a global symbol of an object has. It is known since the symbols were resolved, so nothing of
    /// the name is read.
    pub fn name_length(&self, file: u32, symbol: u32) -> u32
        requires { HasSymbol self.now file symbol }
        ensures { (l : Link) (noted : List (List ℕ)) → IsResolved l noted self.now
            → is_global (entry_at l (symbol_id file symbol)) ≡ true → result ≡ length (name_at l (symbol_id file symbol)) }
    {
        self.solved.files[file as usize].name_length(symbol as usize)
    }

    /// The commons that were chosen, in order of their numbers: by file, then symbol.
    pub fn commons(&self) -> &[Common]
        ensures { (l : Link) (noted : List (List ℕ)) → IsResolved l noted self.now → CommonsAre l result.now }
    {
        &self.solved.commons
    }
}

impl<'data> Resolved<'data> {
    /// Notes a use of a symbol of an object, and tells what it leads to. A symbol of a library that is noted for the first
    /// time gets the next number.
    ///
    /// # Errors
    ///
    /// The symbol is global and nothing defines its name, or there is not enough memory. Nothing was noted.
    #[inline(always)]
    pub fn note_use(&mut self, file: u32, symbol: u32) -> Result<Target, SymbolFault>
        requires { HasSymbol self.old file symbol }
        ensures noted { (l : Link) (noted : List (List ℕ)) → IsResolved l noted self.old
            → OnOk result (IsResolved l (noting l noted (symbol_id file symbol)) self.new) }
        ensures target { (l : Link) (noted : List (List ℕ)) → IsResolved l noted self.old
            → IfOk result (λ t. t ≡ target_with l noted (symbol_id file symbol)) }
        ensures found { (l : Link) (noted : List (List ℕ)) → IsResolved l noted self.old
            → OnOk result (IsDefined l (symbol_id file symbol)) }
        ensures why { (l : Link) (noted : List (List ℕ)) → IsResolved l noted self.old
            → IfErr result (IsUndefined l (symbol_id file symbol)) }
        ensures kept { OnErr result (self.new ≡ self.old) }
    {
        self.solved.note_use(file, symbol as usize)
    }
}

impl<'data> Resolved<'data> {
    /// Notes the entries without a star of an export list: each that a library defines, and that isn't noted yet, gets the
    /// next number.
    ///
    /// # Errors
    ///
    /// Nothing defines such an entry, or there is not enough memory. Nothing was noted.
    pub fn note_exports(&mut self, list: &ExportList) -> Result<(), SymbolFault>
        ensures noted { (l : Link) (noted : List (List ℕ)) → IsResolved l noted self.old
            → OnOk result (IsResolved l (noting_names l noted list.now.plain) self.new) }
        ensures found { (l : Link) (noted : List (List ℕ)) → IsResolved l noted self.old → OnOk result (AreDefined l list.now.plain) }
        ensures why { (l : Link) (noted : List (List ℕ)) → IsResolved l noted self.old → IfErr result (IsMissing l list.now.plain) }
        ensures kept { OnErr result (self.new ≡ self.old) }
    {
        self.solved.note_names(list.required_symbols())
    }
}

impl<'data> Resolved<'data> {
    /// The install names of the inputs that are libraries, in order.
    ///
    /// # Errors
    ///
    /// There is not enough memory.
    pub fn libraries(&self, alloc: Global) -> Result<Vec<&[u8]>, AllocError>
        ensures { (l : Link) (noted : List (List ℕ)) → IsResolved l noted self.now
            → IfOk result (λ names. map (λ n. n.now) names.items ≡ filter_map library_of_input l.inputs) }
    {
        library_names(alloc, &self.solved.files)
    }

    /// The imports noted so far, in order of their numbers.
    pub fn imports(&self) -> &[Import]
        ensures { (l : Link) (noted : List (List ℕ)) → IsResolved l noted self.now → ImportsAre l noted result.now }
    {
        &self.solved.imports
    }

    /// The names that are exported, in rising order: those that objects define and show, and imports that were noted where
    /// export lists contain them.
    ///
    /// # Errors
    ///
    /// Nothing defines an entry without a star of the lists, or there is not enough memory.
    pub fn exports(
        &self,
        alloc: Global,
        list: Option<&ExportList>,
    ) -> Result<Vec<ExportName>, SymbolFault>
        ensures exported { (l : Link) (noted : List (List ℕ)) → IsResolved l noted self.now → AreLists l (option_copied list.entry)
            → IfOk result (λ es. AreExports l noted es.items) }
        ensures found { (l : Link) (noted : List (List ℕ)) → IsResolved l noted self.now → AreLists l (option_copied list.entry)
            → OnOk result (AreDefined l (plain_entries l.export_lists)) }
        ensures why { (l : Link) (noted : List (List ℕ)) → IsResolved l noted self.now → AreLists l (option_copied list.entry)
            → IfErr result (IsMissing l (plain_entries l.export_lists)) }
    {
        self.solved.exports(alloc, list)
    }
}
