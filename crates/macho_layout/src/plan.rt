//! What is to be placed: the carried sections, the chosen commons, the slots and the stubs of a link.
ghost use Rattle.std.specs.Prelude.{◌≡◌, ℕ, ◌+◌, ◌<◌, ◌≤◌, length, OnOk, OnErr, false};
ghost use Rattle.macho_layout.specs.Plans.{new_plan, with_section, with_common, with_slot, with_stub, MayStand};

use crate::spec::{CommonSpec, OutputName, Planned, SectionSpec, StubSpec};
use indexmap::IndexSet;
use macho_model::Target;
use macho_records::SegmentName;
use std::alloc::{AllocError, Global};
use std::marker::Model;

/// What is to be placed.
#[derive(Drop)]
pub struct Plan {
    pub(crate) executable: bool,
    pub(crate) sections: Vec<Planned>,
    pub(crate) commons: Vec<CommonSpec>,
    pub(crate) slots: Vec<Target>,
    pub(crate) stubs: Vec<StubSpec>,
    pub(crate) keys: IndexSet<OutputName>,
    pub(crate) segments: IndexSet<SegmentName>,
}

impl Model for Plan {
    ghost use Rattle.macho_layout.specs.Plans.{Planning};

    ghost Value = { Planning };

    ghost use Rattle.std.specs.Prelude.{◌≡◌, map};
    ghost use Rattle.macho_layout.specs.Keys.{specs_of};
    ghost use Rattle.macho_layout.specs.steps.Holding.{HoldNames, AreSound};

    ghost view = { λ p. record {
      executable = p.executable;
      sections = specs_of p.sections.items;
      commons = p.commons.items;
      slots = p.slots.items;
      stubs = p.stubs.items;
    } };

    ghost invariant = { λ p. HoldNames p.sections.items p.keys.keys p.segments.keys
        × AreSound (specs_of p.sections.items) p.commons.items };
}

impl Plan {
    /// A plan of nothing, for an executable or a dynamic library.
    pub fn new(alloc: Global, executable: bool) -> Plan
        ensures { result ≡ new_plan executable }
    {
        Plan {
            executable,
            sections: Vec::new(alloc),
            commons: Vec::new(alloc),
            slots: Vec::new(alloc),
            stubs: Vec::new(alloc),
            keys: IndexSet::new(alloc),
            segments: IndexSet::new(alloc),
        }
    }

    /// Adds a carried section. Sections are added by file, then section.
    ///
    /// # Errors
    ///
    /// `AllocError` leaves the plan as it was.
    pub fn add_section(&mut self, spec: SectionSpec) -> Result<(), AllocError>
        requires small { spec.align ≤ 14 }
        requires place { MayStand spec }
        ensures done { OnOk result (self.new ≡ with_section self.old spec) }
        ensures kept { OnErr result (self.new ≡ self.old) }
    {
        self.sections.reserve(1)?;
        self.keys.reserve(1)?;
        self.segments.reserve(1)?;
        let (output, _) = self.keys.insert_full(spec.output_key())?;
        self.segments.insert(spec.segment_key())?;
        self.sections.push(Planned { spec, output })?;
        Ok(())
    }

    /// Adds a chosen common: its number, its size, rounded up to its alignment, and that alignment as an exponent of 2.
    ///
    /// # Errors
    ///
    /// `AllocError` leaves the plan as it was.
    pub fn add_common(&mut self, id: u32, size: u64, align: u8) -> Result<(), AllocError>
        requires small { align ≤ 14 }
        ensures done { OnOk result (self.new ≡ with_common self.old (record { id = id; size = size; align = align })) }
        ensures kept { OnErr result (self.new ≡ self.old) }
    {
        self.commons.push(CommonSpec { id, size, align })?;
        Ok(())
    }

    /// Adds a slot of the global offset table, by what it leads to.
    ///
    /// # Errors
    ///
    /// `AllocError` leaves the plan as it was.
    pub fn add_slot(&mut self, target: Target) -> Result<(), AllocError>
        ensures done { OnOk result (self.new ≡ with_slot self.old target) }
        ensures kept { OnErr result (self.new ≡ self.old) }
    {
        self.slots.push(target)?;
        Ok(())
    }

    /// Adds a stub: the number of its import, and that of the slot that it goes through.
    ///
    /// # Errors
    ///
    /// `AllocError` leaves the plan as it was.
    pub fn add_stub(&mut self, import: u32, slot: u32) -> Result<(), AllocError>
        ensures done { OnOk result (self.new ≡ with_stub self.old (record { import = import; slot = slot })) }
        ensures kept { OnErr result (self.new ≡ self.old) }
    {
        self.stubs.push(StubSpec { import, slot })?;
        Ok(())
    }
}
