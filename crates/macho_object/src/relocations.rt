//! Relocations of an object's sections, and the rules that each keeps.
ghost use Rattle.std.specs.Prelude.{◌≡◌, ℕ, ◌+◌, ◌*◌, ◌^◌, nat_le, ◌<◌, ◌≤◌, true, false, OnOk, IfErr, IfSome, MatchOption, length};
ghost use Rattle.macho_records.specs.Relocations.{BitsFit};
ghost use Rattle.macho_model.specs.Objects.{section_at, relocation_at, relocation_place};
ghost use Rattle.macho_model.specs.Grammar.{ObjectBreaks};
ghost use Rattle.macho_object.specs.Views.{RelocationBytes, relocation_of};
ghost use Rattle.macho_object.specs.steps.Outlines.{IsOutlined};
ghost use Rattle.macho_object.specs.steps.Checks.{SectionFits, SectionsFit, RelocationFits, RelocationsFit, RelocationBreaks, number_exists};

use crate::fault::ObjectFault;
use crate::outline::Outline;
use macho_model::ObjectRule;
use macho_records::{ARM64_RELOC_ADDEND, RelocationInfo, SectionHeader};
use std::marker::Model;

impl Outline<'_> {
    /// Whether each relocation of an object keeps its rules.
    pub(crate) fn check_relocations(&self) -> Result<(), ObjectFault>
        requires outlined { IsOutlined self.now }
        requires object { self.now.is_dynamic ≡ false }
        requires sections { SectionsFit self.now.input.now self.now.num_sections }
        ensures ok { OnOk result ((k : ℕ) → k < self.now.num_sections → RelocationsFit self.now.input.now k) }
        ensures why { IfErr result (λ f. ObjectBreaks self.now.input.now f.rule f.place) }
    {
        for index in 0..self.num_sections {
            self.check_relocations_of(index)?;
        }
        Ok(())
    }

    /// Whether each relocation of a section keeps its rules.
    fn check_relocations_of(&self, section: u32) -> Result<(), ObjectFault>
        requires outlined { IsOutlined self.now }
        requires object { self.now.is_dynamic ≡ false }
        requires among { section < self.now.num_sections }
        requires fits { SectionFits self.now.input.now section }
        ensures ok { OnOk result (RelocationsFit self.now.input.now section) }
        ensures why { IfErr result (λ f. ObjectBreaks self.now.input.now f.rule f.place) }
    {
        let header = self.section(section);
        for index in 0..header.nreloc {
            self.check_relocation(section, header, index)?;
        }
        Ok(())
    }

    #[tactic(auto, using(crate::proofs::Breaks::relocation_breaks), unfolding(macho_model::specs::Objects::relocation_place, macho_model::specs::Objects::relocation_at))]
    fn check_relocation(
        &self,
        section: u32,
        header: SectionHeader,
        index: u32,
    ) -> Result<(), ObjectFault>
        requires outlined { IsOutlined self.now }
        requires object { self.now.is_dynamic ≡ false }
        requires among { section < self.now.num_sections }
        requires fits { SectionFits self.now.input.now section }
        requires header { header ≡ section_at self.now.input.now section }
        requires index { index < header.nreloc }
        ensures ok { OnOk result (RelocationFits self.now.input.now section index) }
        ensures why { IfErr result (λ f. ObjectBreaks self.now.input.now f.rule f.place) }
    {
        let place = relocation_place(header, index);
        let Some(relocation) = RelocationInfo::read(self.input, place) else {
            unreachable!()
        };
        let rule = if !self.names_target(relocation) {
            ObjectRule::O5
        } else if !is_inside(relocation, header) {
            ObjectRule::O10
        } else {
            return Ok(());
        };
        Err(ObjectFault {
            place: place as u64,
            rule,
        })
    }

    /// Whether a relocation's symbol or section exists; an addend that isn't extern names neither.
    #[tactic(auto, unfolding(macho_model::specs::Objects::num_symbols))]
    fn names_target(&self, relocation: RelocationInfo) -> bool
        requires outlined { IsOutlined self.now }
        requires object { self.now.is_dynamic ≡ false }
        ensures { result ≡ number_exists self.now.input.now relocation }
    {
        let number = relocation.r_symbolnum;
        if relocation.r_extern {
            number < self.symtab.nsyms
        } else {
            relocation.r_type == ARM64_RELOC_ADDEND || number >= 1 && number <= self.num_sections
        }
    }
}

/// The relocations of a section. It holds no list: each is decoded in place.
#[derive(Drop)]
pub struct RelocationList<'data> {
    input: &'data [u8],
    section: u32,
    header: SectionHeader,
}

impl<'data> Model for RelocationList<'data> {
    ghost use Rattle.macho_object.specs.Views.{RelocationBytes};

    ghost Value = { RelocationBytes };

    ghost view = { λ l. record { bytes = l.input.now; section = l.section } };

    ghost use Rattle.std.specs.Prelude.{◌≡◌, true};
    ghost use Rattle.macho_model.specs.Objects.{section_at};
    ghost use Rattle.macho_model.specs.ObjectRules.{section_keeps};
    ghost use Rattle.macho_model.specs.declared.rules.ObjectRule.TheVariants.{O10};

    ghost invariant = { λ l. (l.header ≡ section_at l.input.now l.section)
        × (section_keeps l.input.now O10 (section_at l.input.now l.section) ≡ true) };
}

impl RelocationList<'_> {
    /// How many relocations there are.
    pub fn num_relocations(&self) -> u32
        ensures { result ≡ (section_at self.now.bytes self.now.section).nreloc }
    {
        self.header.nreloc
    }

    /// A relocation, None where the index is too large.
    #[tactic(auto, unfolding(macho_model::specs::Objects::relocation_place, macho_model::specs::Objects::relocation_at))]
    pub fn get(&self, index: u32) -> Option<RelocationInfo>
        ensures done { result ≡ relocation_of self.now index }
        ensures bits { IfSome result BitsFit }
    {
        if index >= self.header.nreloc {
            return None;
        }
        RelocationInfo::read(self.input, relocation_place(self.header, index))
    }
}

impl<'data> Outline<'data> {
    /// A section's relocations.
    pub(crate) fn relocation_list(&self, section: u32) -> RelocationList<'data>
        requires outlined { IsOutlined self.now }
        requires among { section < self.now.num_sections }
        requires fits { SectionFits self.now.input.now section }
        ensures { result ≡ record { bytes = self.now.input.now; section = section } }
    {
        RelocationList {
            input: self.input,
            section,
            header: self.section(section),
        }
    }
}

/// The place of a section's relocation.
pub(crate) fn relocation_place(header: SectionHeader, index: u32) -> usize
    ensures { result ≡ header.reloff + 8 * index }
{
    header.reloff as usize + RelocationInfo::SIZE * index as usize
}

/// Whether a relocation's bytes stand inside its section.
fn is_inside(relocation: RelocationInfo, header: SectionHeader) -> bool
    requires { relocation.r_length < 4 }
    ensures { result ≡ nat_le (relocation.r_address + 2 ^ relocation.r_length) header.size }
{
    u64::from(relocation.r_address) + (1 << relocation.r_length) <= header.size
}
