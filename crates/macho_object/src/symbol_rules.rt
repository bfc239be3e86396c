//! The rules that symbols keep.
ghost use Rattle.std.specs.Prelude.{◌≡◌, ◌^◌, ◌<◌, ◌&&◌, ◌||◌, nat_le, nat_lt, false, not, OnOk, IfErr, MatchOption, true};
ghost use Rattle.macho_bytes.specs.Numbers.{rounded_up};
ghost use Rattle.macho_model.specs.Objects.{num_symbols, strings_of};
ghost use Rattle.macho_model.specs.Grammar.{ObjectBreaks, DylibBreaks};
ghost use Rattle.macho_records.specs.Symbols.{is_common_of, common_exponent_of, common_size_of};
ghost use Rattle.macho_object.specs.steps.Outlines.{IsOutlined};
ghost use Rattle.macho_object.specs.steps.Checks.{NamesEnd, AddressFits, AddressBreaks, NameFits, NamesFit, NameBreaks, SymbolFits, SymbolsFit, SymbolBreaks};

use crate::fault::ObjectFault;
use crate::outline::Outline;
use crate::sections::GREATEST_EXPONENT;
use crate::symbols::{is_in_section, is_stab};
use macho_model::ObjectRule;
use macho_records::SymtabEntry;
use memchr::memrchr;

impl Outline<'_> {
    /// Whether each symbol of a library keeps the rules on names.
    #[tactic(auto, unfolding(macho_model::specs::Objects::num_symbols))]
    pub(crate) fn check_names(&self) -> Result<(), ObjectFault>
        requires outlined { IsOutlined self.now }
        requires library { self.now.is_dynamic ≡ true }
        ensures ok { OnOk result (NamesFit self.now.input.now) }
        ensures why { IfErr result (λ f. DylibBreaks self.now.input.now f.rule f.place) }
    {
        let end = names_end(self.strings());
        for index in 0..self.symtab.nsyms {
            self.check_name(index, end)?;
        }
        Ok(())
    }

    #[tactic(auto, using(crate::proofs::Breaks::name_breaks))]
    fn check_name(&self, index: u32, end: usize) -> Result<(), ObjectFault>
        requires outlined { IsOutlined self.now }
        requires library { self.now.is_dynamic ≡ true }
        requires among { index < num_symbols self.now.input.now }
        requires end { NamesEnd (strings_of self.now.input.now) end }
        ensures ok { OnOk result (NameFits self.now.input.now index) }
        ensures why { IfErr result (λ f. DylibBreaks self.now.input.now f.rule f.place) }
    {
        match self.broken_in_name(index, end) {
            None => Ok(()),
            Some(rule) => Err(ObjectFault {
                place: self.symbol_place(index) as u64,
                rule,
            }),
        }
    }

    /// The first rule on names that a symbol breaks.
    fn broken_in_name(&self, index: u32, end: usize) -> Option<ObjectRule>
        requires outlined { IsOutlined self.now }
        requires among { index < num_symbols self.now.input.now }
        requires end { NamesEnd (strings_of self.now.input.now) end }
        ensures { MatchOption result (NameFits self.now.input.now index) (NameBreaks self.now.input.now index) }
    {
        let symbol = self.symbol(index);
        if is_stab(symbol) {
            None
        } else if symbol.has_name() && symbol.n_strx as usize >= end {
            Some(ObjectRule::O9)
        } else if !symbol.is_local() && !symbol.has_name() {
            Some(ObjectRule::O13)
        } else {
            None
        }
    }

    /// Whether each symbol of an object keeps its rules.
    #[tactic(auto, unfolding(macho_model::specs::Objects::num_symbols))]
    pub(crate) fn check_symbols(&self) -> Result<(), ObjectFault>
        requires outlined { IsOutlined self.now }
        requires object { self.now.is_dynamic ≡ false }
        ensures ok { OnOk result (SymbolsFit self.now.input.now) }
        ensures why { IfErr result (λ f. ObjectBreaks self.now.input.now f.rule f.place) }
    {
        let end = names_end(self.strings());
        for index in 0..self.symtab.nsyms {
            self.check_symbol(index, end)?;
        }
        Ok(())
    }

    #[tactic(auto, using(crate::proofs::Breaks::symbol_breaks))]
    fn check_symbol(&self, index: u32, end: usize) -> Result<(), ObjectFault>
        requires outlined { IsOutlined self.now }
        requires object { self.now.is_dynamic ≡ false }
        requires among { index < num_symbols self.now.input.now }
        requires end { NamesEnd (strings_of self.now.input.now) end }
        ensures ok { OnOk result (SymbolFits self.now.input.now index) }
        ensures why { IfErr result (λ f. ObjectBreaks self.now.input.now f.rule f.place) }
    {
        match self.broken_in_symbol(index, end) {
            None => Ok(()),
            Some(rule) => Err(ObjectFault {
                place: self.symbol_place(index) as u64,
                rule,
            }),
        }
    }

    /// The first rule that an object's symbol breaks.
    fn broken_in_symbol(&self, index: u32, end: usize) -> Option<ObjectRule>
        requires outlined { IsOutlined self.now }
        requires object { self.now.is_dynamic ≡ false }
        requires among { index < num_symbols self.now.input.now }
        requires end { NamesEnd (strings_of self.now.input.now) end }
        ensures { MatchOption result (SymbolFits self.now.input.now index) (SymbolBreaks self.now.input.now index) }
    {
        let symbol = self.symbol(index);
        if let Some(rule) = self.broken_in_address(index) {
            return Some(rule);
        }
        if let Some(rule) = self.broken_in_name(index, end) {
            return Some(rule);
        }
        if !common_fits(symbol) {
            return Some(ObjectRule::O14);
        }
        None
    }

    /// The first rule on its section and its address that a symbol breaks.
    fn broken_in_address(&self, index: u32) -> Option<ObjectRule>
        requires outlined { IsOutlined self.now }
        requires object { self.now.is_dynamic ≡ false }
        requires among { index < num_symbols self.now.input.now }
        ensures { MatchOption result (AddressFits self.now.input.now index) (AddressBreaks self.now.input.now index) }
    {
        let symbol = self.symbol(index);
        if !is_in_section(symbol) {
            return None;
        }
        let number = u32::from(symbol.n_sect);
        if number == 0 || number > self.num_sections {
            return Some(ObjectRule::O5);
        }
        let header = self.section(number - 1);
        if symbol.n_value < header.addr || symbol.n_value - header.addr > header.size {
            return Some(ObjectRule::O8);
        }
        None
    }
}

/// The place behind the last NUL: a name that begins in front of it ends.
fn names_end(strings: &[u8]) -> usize
    ensures { NamesEnd strings.now result }
{
    match memrchr(0, strings) {
        Some(last) => last + 1,
        None => 0,
    }
}

/// Whether a common's alignment is one that is taken, and its rounded size is below 2^64. Any other symbol passes.
fn common_fits(symbol: SymtabEntry) -> bool
    ensures { result ≡ (not (is_common_of symbol)
        || (nat_le (common_exponent_of symbol) 14 && nat_lt (common_size_of symbol) (2 ^ 64))) }
{
    if !symbol.is_undefined() || symbol.is_local() || symbol.n_value == 0 {
        return true;
    }
    let exponent = symbol.n_desc >> 8 & 15;
    u32::from(exponent) <= GREATEST_EXPONENT && rounds(symbol.n_value, exponent)
}

/// Whether a number rounded up to a multiple of a power of two is below 2^64.
fn rounds(number: u64, exponent: u16) -> bool
    requires { exponent < 16 }
    ensures { result ≡ nat_lt (rounded_up (2 ^ exponent) number) (2 ^ 64) }
{
    number.checked_next_multiple_of(1 << exponent).is_some()
}
