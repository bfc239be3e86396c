//! Symbols: their entries and names.
ghost use Rattle.std.specs.Prelude.{◌≡◌, ◌-◌, ◌<◌, true, false};
ghost use Rattle.macho_model.specs.steps.RecordTests.{name_ends};
ghost use Rattle.macho_model.specs.Objects.{num_symbols, section_at, symbol_at, symbol_place, strings_of, symbol_name};
ghost use Rattle.macho_records.specs.Symbols.{is_stab_of, has_type};
ghost use Rattle.macho_records.specs.declared.constants.TheConstants.{N_SECT};
ghost use Rattle.macho_object.specs.steps.Outlines.{IsOutlined};
ghost use Rattle.macho_object.specs.steps.Checks.{AddressFits};

use crate::outline::Outline;
use macho_records::{N_SECT, N_STAB, N_TYPE, SymtabEntry, name_bytes};

impl<'data> Outline<'data> {
    /// The place of a symbol's entry.
    #[tactic(auto, unfolding(macho_model::specs::Objects::symbol_place))]
    pub(crate) fn symbol_place(&self, index: u32) -> usize
        requires { IsOutlined self.now }
        ensures { result ≡ symbol_place self.now.input.now index }
    {
        self.symtab.symoff as usize + SymtabEntry::SIZE * index as usize
    }

    /// A symbol's entry.
    #[tactic(auto, unfolding(macho_model::specs::Objects::symbol_at, macho_model::specs::Objects::symbol_place, macho_model::specs::Objects::num_symbols))]
    pub(crate) fn symbol(&self, index: u32) -> SymtabEntry
        requires outlined { IsOutlined self.now }
        requires among { index < num_symbols self.now.input.now }
        ensures { result ≡ symbol_at self.now.input.now index }
    {
        match SymtabEntry::read(self.input, self.symbol_place(index)) {
            Some(entry) => entry,
            None => unreachable!(),
        }
    }

    /// The bytes that names stand in.
    #[tactic(auto, unfolding(macho_model::specs::Objects::strings_of))]
    pub(crate) fn strings(&self) -> &'data [u8]
        requires { IsOutlined self.now }
        ensures { result.now ≡ strings_of self.now.input.now }
    {
        let start = self.symtab.stroff as usize;
        &self.input[start..start + self.symtab.strsize as usize]
    }

    /// A symbol's name, up to its NUL; empty where it has none.
    #[tactic(auto, unfolding(macho_model::specs::Objects::symbol_name))]
    pub(crate) fn name(&self, index: u32) -> &'data [u8]
        requires outlined { IsOutlined self.now }
        requires among { index < num_symbols self.now.input.now }
        requires named { is_stab_of (symbol_at self.now.input.now index) ≡ false }
        requires ends { name_ends self.now.input.now index ≡ true }
        ensures { result.now ≡ symbol_name self.now.input.now index }
    {
        let symbol = self.symbol(index);
        if !symbol.has_name() {
            return &[];
        }
        name_bytes(&self.strings()[symbol.n_strx as usize..])
    }

    /// How far a symbol of a section stands behind its start.
    pub(crate) fn symbol_offset(&self, index: u32) -> u64
        requires outlined { IsOutlined self.now }
        requires object { self.now.is_dynamic ≡ false }
        requires among { index < num_symbols self.now.input.now }
        requires defined { has_type N_SECT (symbol_at self.now.input.now index) ≡ true }
        requires fits { AddressFits self.now.input.now index }
        ensures { result ≡ (symbol_at self.now.input.now index).n_value
            - (section_at self.now.input.now ((symbol_at self.now.input.now index).n_sect - 1)).addr }
    {
        let symbol = self.symbol(index);
        let header = self.section(u32::from(symbol.n_sect) - 1);
        symbol.n_value - header.addr
    }
}

/// Whether it is an entry for debuggers.
pub(crate) fn is_stab(symbol: SymtabEntry) -> bool
    ensures { result ≡ is_stab_of symbol }
{
    symbol.n_type & N_STAB != 0
}

/// Whether it is defined in a section.
pub(crate) fn is_in_section(symbol: SymtabEntry) -> bool
    ensures { result ≡ has_type N_SECT symbol }
{
    !is_stab(symbol) && symbol.n_type & N_TYPE == N_SECT
}
