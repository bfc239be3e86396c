//! The needs of a link, noted one use at a time.
ghost use Rattle.std.specs.Prelude.{◌≡◌, ℕ, ◌-◌, ◌<◌, ◌++◌, ◌∷◌, List, [], true, false, ◌==◌, Contains, OnOk, OnErr, IfOk, IfErr};
ghost use Rattle.macho_records.specs.declared.constants.TheConstants.{ARM64_RELOC_ADDEND};
ghost use Rattle.macho_model.specs.declared.placed.Counts.{Counts};
ghost use Rattle.macho_model.specs.Objects.{num_sections, section_at};
ghost use Rattle.macho_model.specs.Links.{Input, Link, SectionId};
ghost use Rattle.macho_model.specs.Needs.{relocation_in};
ghost use Rattle.macho_model.specs.Uses.{Use, ByRelocation, ByInitializer, ByPersonality, uses_of, target_with};
ghost use Rattle.macho_model.specs.Targets.{target_of_relocation};
ghost use Rattle.macho_symbol_names.specs.Kept.{Keeps};
ghost use Rattle.macho_symbols.specs.Kept.{IsResolved, HasSymbol, symbol_id};
ghost use Rattle.macho_symbols.specs.Told.{IsDefined, noting};
ghost use Rattle.macho_model.specs.Consumed.{is_plain_pointer};
ghost use Rattle.macho_answer.specs.Standing.{Stands};
ghost use Rattle.macho_needs.specs.Noted.{IsNoted, IsNext, IsRelocationOf, HasReferent, referent, pointer_of};
ghost use Rattle.macho_needs.specs.steps.Leads.{carried_start, noting_by, lead_by, IsFoundBy, IsLostBy};

use crate::tables::Tables;
use macho_answer::LinkError;
use macho_model::Target;
use macho_object::{File, is_carried};
use macho_records::{ARM64_RELOC_ADDEND, RelocationInfo};
use macho_symbols::Resolved;
use std::alloc::{AllocError, Global};

/// What a link needs, as far as its uses were noted.
#[derive(Drop)]
pub struct Needs<'data> {
    /// Its symbols, with the imports that are noted.
    pub resolved: Resolved<'data>,
    /// Slots, stubs and import entries of their own.
    pub tables: Tables,
}

/// The start of a section of an object that is named by its number, from 1; nothing where it isn't carried.
fn section_target(object: &File<'_>, file: u32, number: u32) -> Target
    requires object { object.now.is_dynamic ≡ false }
    ensures { number - 1 < num_sections object.now.bytes
        → result ≡ carried_start file (number - 1) (section_at object.now.bytes (number - 1)) }
{
    let section = number.saturating_sub(1);
    match object.section(section) {
        Some(header) if is_carried(header) => Target::Section {
            file,
            section,
            offset: 0,
        },
        _ => Target::None,
    }
}

impl<'data> Needs<'data> {
    /// The needs of a link of which nothing is noted. Nothing is allocated.
    pub fn new(alloc: Global, resolved: Resolved<'data>) -> Needs<'data>
        ensures { (l : Link) → IsResolved l [] resolved.entry → IsNoted l [] result }
    {
        Needs {
            resolved,
            tables: Tables::new(alloc),
        }
    }

    /// Notes the symbol that an extern relocation of an object uses, and tells what it leads to.
    #[inline(always)]
    fn use_symbol(&mut self, file: u32, relocation: RelocationInfo) -> Result<Target, LinkError>
        requires named { relocation.r_extern ≡ true }
        requires symbol { HasSymbol self.old.resolved file relocation.r_symbolnum }
        ensures noted { (l : Link) (noted : List (List ℕ)) → IsResolved l noted self.old.resolved
            → OnOk result (IsResolved l (noting l noted (symbol_id file relocation.r_symbolnum)) self.new.resolved) }
        ensures leads { (l : Link) (noted : List (List ℕ)) → IsResolved l noted self.old.resolved
            → IfOk result (λ t. t ≡ target_with l noted (symbol_id file relocation.r_symbolnum)) }
        ensures found { (l : Link) (noted : List (List ℕ)) → IsResolved l noted self.old.resolved
            → OnOk result (IsDefined l (symbol_id file relocation.r_symbolnum)) }
        ensures why { (l : Link) (noted : List (List ℕ)) → IsResolved l noted self.old.resolved
            → IfErr result (IsLostBy l file relocation) }
        ensures others { self.new.tables ≡ self.old.tables }
        ensures kept { OnErr result (self.new.resolved ≡ self.old.resolved) }
    {
        Ok(self.resolved.note_use(file, relocation.r_symbolnum)?)
    }

    /// Notes the name that a relocation of an object uses, if it uses one, and tells what the relocation leads to.
    #[inline(always)]
    fn lead(
        &mut self,
        object: &File<'_>,
        file: u32,
        relocation: RelocationInfo,
    ) -> Result<Target, LinkError>
        requires object { object.now.is_dynamic ≡ false }
        requires other { (relocation.r_type == ARM64_RELOC_ADDEND) ≡ false }
        requires symbol { HasReferent self.old.resolved file relocation }
        ensures noted { (l : Link) (noted : List (List ℕ)) → IsResolved l noted self.old.resolved
            → OnOk result (IsResolved l (noting_by l noted file relocation) self.new.resolved) }
        ensures leads { (l : Link) (noted : List (List ℕ)) → IsResolved l noted self.old.resolved
            → (relocation.r_extern ≡ false → relocation.r_symbolnum - 1 < num_sections object.now.bytes)
            → IfOk result (λ t. t ≡ lead_by l noted object.now.bytes file relocation) }
        ensures found { (l : Link) (noted : List (List ℕ)) → IsResolved l noted self.old.resolved
            → OnOk result (IsFoundBy l file relocation) }
        ensures why { (l : Link) (noted : List (List ℕ)) → IsResolved l noted self.old.resolved
            → IfErr result (IsLostBy l file relocation) }
        ensures others { self.new.tables ≡ self.old.tables }
        ensures kept { OnErr result (self.new.resolved ≡ self.old.resolved) }
    {
        if relocation.r_extern {
            self.use_symbol(file, relocation)
        } else {
            Ok(section_target(object, file, relocation.r_symbolnum))
        }
    }

    /// Notes the use of a carried relocation of an object, and tells what it leads to. Where it is a pointer of 8 bytes its
    /// addend is told.
    ///
    /// # Errors
    ///
    /// Nothing defines the name that is used, or there is not enough memory. The needs are then of no use.
    pub fn use_relocation(
        &mut self,
        object: &File<'_>,
        file: u32,
        relocation: RelocationInfo,
        pointer: Option<u64>,
    ) -> Result<Target, LinkError>
        requires object { object.now.is_dynamic ≡ false }
        requires symbol { HasReferent self.old.resolved file relocation }
        ensures noted { (l : Link) (us : List Use) (s : SectionId) (r : ℕ) → IsNoted l us self.old → IsNext l us (ByRelocation s r)
            → IsRelocationOf l s r object.now relocation → s.file ≡ file → pointer ≡ pointer_of l s r
            → OnOk result (IsNoted l (us ++ ByRelocation s r ∷ []) self.new) }
        ensures leads { (l : Link) (us : List Use) (s : SectionId) (r : ℕ) → IsNoted l us self.old → IsNext l us (ByRelocation s r)
            → IsRelocationOf l s r object.now relocation → s.file ≡ file → IfOk result (λ t. t ≡ referent l s r) }
        ensures why { (l : Link) (counts : Counts) (noted : List (List ℕ)) (s : SectionId) (r : ℕ) → IsResolved l noted self.old.resolved
            → Contains (uses_of l) (ByRelocation s r) → relocation ≡ relocation_in l s r → s.file ≡ file → IfErr result (Stands l counts) }
        ensures kept { (inputs : List Input) → Keeps inputs self.old.resolved.files → Keeps inputs self.new.resolved.files }
    {
        if relocation.r_type == ARM64_RELOC_ADDEND {
            return Ok(Target::None);
        }
        let _object = object.is_dynamic();
        let target = self.lead(object, file, relocation)?;
        self.tables.note(relocation.r_type, target, pointer)?;
        Ok(target)
    }

    /// Notes the use of an initializer's relocation, a plain pointer to a symbol, and tells what it leads to.
    ///
    /// # Errors
    ///
    /// Nothing defines the name that is used, or there is not enough memory. Nothing was noted.
    pub fn use_initializer(
        &mut self,
        file: u32,
        relocation: RelocationInfo,
    ) -> Result<Target, LinkError>
        requires form { is_plain_pointer relocation ≡ true }
        requires named { relocation.r_extern ≡ true }
        requires symbol { HasSymbol self.old.resolved file relocation.r_symbolnum }
        ensures noted { (l : Link) (us : List Use) (s : SectionId) (r : ℕ) → IsNoted l us self.old → IsNext l us (ByInitializer s r)
            → relocation ≡ relocation_in l s r → s.file ≡ file → OnOk result (IsNoted l (us ++ ByInitializer s r ∷ []) self.new) }
        ensures leads { (l : Link) (us : List Use) (s : SectionId) (r : ℕ) → IsNoted l us self.old → IsNext l us (ByInitializer s r)
            → relocation ≡ relocation_in l s r → s.file ≡ file → IfOk result (λ t. t ≡ target_of_relocation l s r) }
        ensures why { (l : Link) (counts : Counts) (noted : List (List ℕ)) (s : SectionId) (r : ℕ) → IsResolved l noted self.old.resolved
            → Contains (uses_of l) (ByInitializer s r) → relocation ≡ relocation_in l s r → s.file ≡ file → IfErr result (Stands l counts) }
        ensures kept { (inputs : List Input) → Keeps inputs self.old.resolved.files → Keeps inputs self.new.resolved.files }
    {
        self.use_symbol(file, relocation)
    }

    /// Notes the use of a personality function by an unwind entry's relocation, a plain pointer to a symbol, which gets a
    /// slot; and tells what it leads to.
    ///
    /// # Errors
    ///
    /// Nothing defines the name that is used, or there is not enough memory. The needs are then of no use.
    pub fn use_personality(
        &mut self,
        file: u32,
        relocation: RelocationInfo,
    ) -> Result<Target, LinkError>
        requires form { is_plain_pointer relocation ≡ true }
        requires named { relocation.r_extern ≡ true }
        requires symbol { HasSymbol self.old.resolved file relocation.r_symbolnum }
        ensures noted { (l : Link) (us : List Use) (s : SectionId) (r : ℕ) → IsNoted l us self.old → IsNext l us (ByPersonality s r)
            → relocation ≡ relocation_in l s r → s.file ≡ file → OnOk result (IsNoted l (us ++ ByPersonality s r ∷ []) self.new) }
        ensures leads { (l : Link) (us : List Use) (s : SectionId) (r : ℕ) → IsNoted l us self.old → IsNext l us (ByPersonality s r)
            → relocation ≡ relocation_in l s r → s.file ≡ file → IfOk result (λ t. t ≡ target_of_relocation l s r) }
        ensures why { (l : Link) (counts : Counts) (noted : List (List ℕ)) (s : SectionId) (r : ℕ) → IsResolved l noted self.old.resolved
            → Contains (uses_of l) (ByPersonality s r) → relocation ≡ relocation_in l s r → s.file ≡ file → IfErr result (Stands l counts) }
        ensures kept { (inputs : List Input) → Keeps inputs self.old.resolved.files → Keeps inputs self.new.resolved.files }
    {
        let target = self.use_symbol(file, relocation)?;
        self.tables.add_slot(target)?;
        Ok(target)
    }
}
