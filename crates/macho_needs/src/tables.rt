//! The tables of slots, stubs and entries. Each element stands once, at its number, and is found by a hash.
ghost use Rattle.std.specs.Prelude.{◌≡◌, ◌||◌, ◌==◌, true, length, slice_get, option_map, Some, OnOk};
ghost use Rattle.macho_model.specs.declared.targets.Target.TheVariants as target;
ghost use Rattle.macho_model.specs.Targets.{same_target, is_import};
ghost use Rattle.macho_model.specs.Uses.{slot_of_relocation, stub_of_relocation, goes_by_slot};
ghost use Rattle.macho_model.specs.Fixups.{same_entry, own_entry};
ghost use Rattle.macho_needs.specs.Tables.{no_tables, with_some, number_of, own_of_pointer};
ghost use Rattle.macho_symbols.specs.Entries.{entry_of};

use crate::keys::{SlotKey, key, target};
use indexmap::IndexSet;
use macho_model::Target;
use macho_records::{
    ARM64_RELOC_BRANCH26, ARM64_RELOC_GOT_LOAD_PAGE21, ARM64_RELOC_GOT_LOAD_PAGEOFF12,
    ARM64_RELOC_POINTER_TO_GOT, ARM64_RELOC_TLVP_LOAD_PAGE21, ARM64_RELOC_TLVP_LOAD_PAGEOFF12,
};
use macho_symbols::OwnEntry;
use std::alloc::{AllocError, Global};
use std::marker::Model;

/// Slots, stubs and entries of their own, by number.
#[derive(Drop)]
pub struct Tables {
    pub(crate) slots: IndexSet<SlotKey>,
    pub(crate) stubs: IndexSet<u32>,
    pub(crate) own: IndexSet<OwnEntry>,
}

impl Model for Tables {
    ghost use Rattle.std.specs.Prelude.{map};
    ghost use Rattle.macho_model.specs.declared.targets.Target.TheVariants as target;
    ghost use Rattle.macho_needs.specs.Tables.{Numbered, target_of};
    ghost use Rattle.macho_symbols.specs.Entries.{entry_of};

    ghost Value = { Numbered };

    ghost view = { λ t. record {
      slots = map target_of t.slots.keys;
      stubs = map target.Import t.stubs.keys;
      own = map entry_of t.own.keys;
    } };
}

impl Tables {
    /// Empty tables. Nothing is allocated.
    pub fn new(alloc: Global) -> Tables
        ensures { result ≡ no_tables }
    {
        Tables {
            slots: IndexSet::new(alloc),
            stubs: IndexSet::new(alloc),
            own: IndexSet::new(alloc),
        }
    }

    /// How many slots there are. They are numbered from 0.
    pub fn num_slots(&self) -> usize
        ensures { result ≡ length self.now.slots }
    {
        self.slots.len()
    }

    /// The target of a slot, None where no slot has the number.
    pub fn slot(&self, number: usize) -> Option<Target>
        ensures { result ≡ slice_get self.now.slots number }
    {
        match self.slots.get_index(number) {
            Some(key) => Some(target(*key)),
            None => None,
        }
    }

    /// The number of a target's slot, None where it has none.
    pub fn slot_number(&self, target: Target) -> Option<usize>
        ensures { result ≡ number_of same_target self.now.slots target }
    {
        self.slots.get_index_of(&key(target))
    }

    /// How many stubs there are. They are numbered from 0.
    pub fn num_stubs(&self) -> usize
        ensures { result ≡ length self.now.stubs }
    {
        self.stubs.len()
    }

    /// The import of a stub, None where no stub has the number.
    pub fn stub(&self, number: usize) -> Option<u32>
        ensures { option_map target.Import result ≡ slice_get self.now.stubs number }
    {
        self.stubs.get_index(number).copied()
    }

    /// The number of an import's stub, None where it has none.
    pub fn stub_number(&self, import: u32) -> Option<usize>
        ensures { result ≡ number_of same_target self.now.stubs (target.Import import) }
    {
        self.stubs.get_index_of(&import)
    }

    /// How many entries pointers need of their own. They are numbered from 0.
    pub fn num_own(&self) -> usize
        ensures { result ≡ length self.now.own }
    {
        self.own.len()
    }

    /// An entry that a pointer needs of its own, None where no such entry has the number.
    pub fn own_entry(&self, number: usize) -> Option<OwnEntry>
        ensures { option_map entry_of result ≡ slice_get self.now.own number }
    {
        self.own.get_index(number).copied()
    }

    /// The number of an entry that a pointer needs of its own, None where the tables have no such entry.
    pub fn own_number(&self, entry: OwnEntry) -> Option<usize>
        ensures { result ≡ number_of same_entry self.now.own (entry_of entry) }
    {
        self.own.get_index_of(&entry)
    }
}

/// Whether a target is an import.
pub fn is_import(target: Target) -> bool
    ensures { result ≡ is_import target }
{
    match target {
        Target::Import { .. } => true,
        _ => false,
    }
}

/// Whether references of a type go through a slot where the target is an import.
fn goes_by_slot(kind: u8) -> bool
    ensures { result ≡ goes_by_slot kind }
{
    kind == ARM64_RELOC_BRANCH26
        || kind == ARM64_RELOC_GOT_LOAD_PAGE21
        || kind == ARM64_RELOC_GOT_LOAD_PAGEOFF12
        || kind == ARM64_RELOC_TLVP_LOAD_PAGE21
        || kind == ARM64_RELOC_TLVP_LOAD_PAGEOFF12
}

impl Tables {
    /// Gives a target a slot, where it has none.
    pub(crate) fn add_slot(&mut self, target: Target) -> Result<(), AllocError>
        ensures { OnOk result (self.new ≡ record self.old { slots = with_some same_target self.old.slots (Some target) }) }
    {
        self.slots.insert(key(target))?;
        Ok(())
    }

    /// Gives the target of a reference of a type a slot, where it needs one.
    fn note_slot(&mut self, kind: u8, target: Target) -> Result<(), AllocError>
        ensures { OnOk result (self.new
            ≡ record self.old { slots = with_some same_target self.old.slots (slot_of_relocation kind target) }) }
    {
        if kind == ARM64_RELOC_POINTER_TO_GOT || goes_by_slot(kind) && is_import(target) {
            return self.add_slot(target);
        }
        Ok(())
    }

    /// Gives the target of a reference of a type a stub, where it needs one.
    fn note_stub(&mut self, kind: u8, target: Target) -> Result<(), AllocError>
        ensures { OnOk result (self.new
            ≡ record self.old { stubs = with_some same_target self.old.stubs (stub_of_relocation kind target) }) }
    {
        if kind != ARM64_RELOC_BRANCH26 {
            return Ok(());
        }
        if let Target::Import { id } = target {
            self.stubs.insert(id)?;
        }
        Ok(())
    }

    /// Gives a pointer with an addend an entry of its own, where it needs one.
    fn note_own(&mut self, target: Target, addend: u64) -> Result<(), AllocError>
        ensures { OnOk result (self.new ≡ record self.old { own = with_some same_entry self.old.own (own_entry true target addend) }) }
    {
        if addend < 256 {
            return Ok(());
        }
        if let Target::Import { id } = target {
            self.own.insert(OwnEntry { import: id, addend })?;
        }
        Ok(())
    }

    /// Notes what a reference of a type needs; where it is a pointer its addend is told.
    pub(crate) fn note(
        &mut self,
        kind: u8,
        target: Target,
        pointer: Option<u64>,
    ) -> Result<(), AllocError>
        ensures { OnOk result (self.new ≡ record {
          slots = with_some same_target self.old.slots (slot_of_relocation kind target);
          stubs = with_some same_target self.old.stubs (stub_of_relocation kind target);
          own = with_some same_entry self.old.own (own_of_pointer target pointer);
        }) }
    {
        self.note_slot(kind, target)?;
        self.note_stub(kind, target)?;
        match pointer {
            Some(addend) => self.note_own(target, addend),
            None => Ok(()),
        }
    }
}
