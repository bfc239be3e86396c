//! A view of an object or of a dynamic library. It holds no list: each accessor decodes in place.
ghost use Rattle.std.specs.Prelude.{◌≡◌, ◌^◌, IfOk, IfErr, OnOk, OnErr, None, get_or, option_copied};
ghost use Rattle.macho_model.specs.Objects.{num_symbols, section_at, section_bytes, strings_of};
ghost use Rattle.macho_model.specs.Grammar.{IsFile, Breaks};
ghost use Rattle.macho_object.specs.Views.{FileBytes, RelocationBytes, section_count, of_section, symbol_of, symbol_name_of, of_symbol_section, section_index_of, symbol_offset_of, IsFirstNamed, install_name_in};

use crate::fault::ObjectFault;
use crate::outline::{Outline, read_outline};
use crate::relocations::RelocationList;
use crate::symbols::{is_in_section, is_stab};
use macho_records::{SectionHeader, SymtabEntry, name_bytes};
use std::marker::Model;

/// A view of the bytes of an object or of a dynamic library.
#[derive(Drop)]
pub struct File<'data> {
    outline: Outline<'data>,
}

impl<'data> Model for File<'data> {
    ghost use Rattle.macho_object.specs.Views.{FileBytes};

    ghost Value = { FileBytes };

    ghost view = { λ f. record { bytes = f.outline.input.now; is_dynamic = f.outline.is_dynamic } };

    ghost use Rattle.macho_object.specs.steps.Wholes.{IsWhole};

    ghost invariant = { λ f. IsWhole f.outline };
}

impl<'data> File<'data> {
    /// Views bytes as an object, or as a dynamic library.
    ///
    /// # Errors
    ///
    /// A rule that the bytes break, and the place of the record that breaks it.
    #[tactic(auto, using(crate::proofs::Wholes::is_whole, crate::proofs::Refusals::no_file, crate::proofs::Wholes::kept))]
    pub fn parse_bytes(input: &'data [u8], is_dynamic: bool) -> Result<File<'data>, ObjectFault>
        ensures view { IfOk result (λ f. f ≡ record { bytes = input.now; is_dynamic = is_dynamic }) }
        ensures found { OnOk result (IsFile is_dynamic input.now) }
        ensures only { OnErr result (¬ IsFile is_dynamic input.now) }
        ensures fault { IfErr result (λ f. Breaks is_dynamic input.now f.rule f.place) }
    {
        let outline = read_outline(input, is_dynamic)?;
        if is_dynamic {
            outline.check_library()?;
        } else {
            outline.check_object()?;
        }
        Ok(File { outline })
    }

    /// Views bytes that are known to keep every rule, as those that a view was made of before. It looks at the commands
    /// alone.
    pub fn of_valid(input: &'data [u8], is_dynamic: bool) -> File<'data>
        requires { IsFile is_dynamic input.now }
        ensures { result ≡ record { bytes = input.now; is_dynamic = is_dynamic } }
    {
        match read_outline(input, is_dynamic) {
            Ok(outline) => File { outline },
            Err(_) => unreachable!(),
        }
    }

    /// Whether the bytes are viewed as a dynamic library.
    pub fn is_dynamic(&self) -> bool
        ensures kind { result ≡ self.now.is_dynamic }
        ensures kept { IsFile self.now.is_dynamic self.now.bytes }
    {
        self.outline.is_dynamic
    }

    /// How many symbols there are.
    #[tactic(auto, unfolding(macho_model::specs::Objects::num_symbols))]
    pub fn num_symbols(&self) -> u32
        ensures { result ≡ num_symbols self.now.bytes }
    {
        self.outline.symtab.nsyms
    }

    /// How many sections there are; 0 for a dynamic library.
    pub fn num_sections(&self) -> u32
        ensures { result ≡ section_count self.now.is_dynamic self.now.bytes }
    {
        self.outline.num_sections
    }

    /// A symbol, None where the index is too large.
    #[tactic(auto, unfolding(macho_model::specs::Objects::num_symbols))]
    pub fn symbol(&self, index: u32) -> Option<SymtabEntry>
        ensures { result ≡ symbol_of self.now index }
    {
        if index >= self.outline.symtab.nsyms {
            return None;
        }
        Some(self.outline.symbol(index))
    }

    /// A section's header, None where the index is too large. Sections count from 0.
    pub fn section(&self, index: u32) -> Option<SectionHeader>
        ensures { result ≡ of_section self.now index (section_at self.now.bytes index) }
    {
        if index >= self.outline.num_sections {
            return None;
        }
        Some(self.outline.section(index))
    }

    /// A symbol's name: empty for a symbol without one, None where the index is too large and for a debugging entry.
    pub fn symbol_name(&self, index: u32) -> Option<&'data [u8]>
        ensures { option_copied result ≡ symbol_name_of self.now index }
    {
        let symbol = self.symbol(index)?;
        if is_stab(symbol) {
            return None;
        }
        Some(self.outline.name(index))
    }

    /// The string table: the bytes in which the names of symbols stand.
    pub fn strings(&self) -> &'data [u8]
        ensures { result.now ≡ strings_of self.now.bytes }
    {
        self.outline.strings()
    }

    /// The first section of a name, None where there is none.
    pub fn section_by_name(&self, name: &[u8]) -> Option<u32>
        ensures { IsFirstNamed self.now name.now result }
    {
        for index in 0..self.outline.num_sections {
            if name_bytes(&self.outline.section(index).sectname) == name {
                return Some(index);
            }
        }
        None
    }

    /// A section's bytes in the input, none for zerofill; None where the index is too large.
    pub fn section_bytes(&self, index: u32) -> Option<&'data [u8]>
        ensures { option_copied result ≡ of_section self.now index (section_bytes self.now.bytes index) }
    {
        if index >= self.outline.num_sections {
            return None;
        }
        Some(self.outline.section_bytes(index))
    }

    /// A section's relocations, None where the index is too large.
    pub fn relocations(&self, index: u32) -> Option<RelocationList<'data>>
        ensures { result ≡ of_section self.now index (record { bytes = self.now.bytes; section = index }) }
    {
        if index >= self.outline.num_sections {
            return None;
        }
        Some(self.outline.relocation_list(index))
    }

    /// The section that an object's symbol is defined in, None for any other symbol and for all of a library's.
    pub fn symbol_section(&self, index: u32) -> Option<u32>
        ensures { result ≡ of_symbol_section self.now index (section_index_of self.now index) }
    {
        let symbol = self.symbol(index)?;
        if self.outline.is_dynamic || !is_in_section(symbol) {
            return None;
        }
        Some(u32::from(symbol.n_sect) - 1)
    }

    /// How far a symbol stands behind the start of its section, None where `symbol_section` is None.
    pub fn symbol_offset_in_section(&self, index: u32) -> Option<u64>
        ensures { result ≡ of_symbol_section self.now index (symbol_offset_of self.now index) }
    {
        self.symbol_section(index)?;
        Some(self.outline.symbol_offset(index))
    }

    /// A section's alignment in bytes, None where the index is too large.
    pub fn section_alignment(&self, index: u32) -> Option<u64>
        ensures { result ≡ of_section self.now index (2 ^ (section_at self.now.bytes index).align) }
    {
        if index >= self.outline.num_sections {
            return None;
        }
        Some(self.outline.section_alignment(index))
    }

    /// The install name of a dynamic library, None for an object.
    pub fn install_name(&self) -> Option<&'data [u8]>
        ensures { option_copied result ≡ install_name_in self.now }
    {
        if !self.outline.is_dynamic {
            return None;
        }
        self.outline.path()
    }
}

/// The view of an object by the number of its file, None of another file.
pub fn view_of<'view, 'data>(
    views: &'view [Option<File<'data>>],
    number: u32,
) -> Option<&'view File<'data>>
    ensures { option_copied result ≡ get_or views.now number None }
{
    match views.get(number as usize) {
        Some(Some(file)) => Some(file),
        Some(None) => None,
        None => None,
    }
}
