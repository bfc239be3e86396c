//! The lists of a placement: each thing of a link has a place, once, and nothing else has one.
ghost use Rattle.std.specs.Prelude.{◌≡◌, ◌<◌, true, map, length, All};
ghost use Rattle.std.specs.Bool.{OnTrue};
ghost use Rattle.std.specs.List.{range_with_len};
ghost use Rattle.macho_model.specs.Links.{Link, carried_of};
ghost use Rattle.macho_model.specs.Targets.{same_target};
ghost use Rattle.macho_model.specs.Placement.{id_of};
ghost use Rattle.macho_placement_rules.specs.Lists.{AreStubs, ArePlannedStubs};
ghost use Rattle.macho_layout.specs.Plans.{spec_of};
ghost use Rattle.macho_placement_rules.specs.steps.Lists.{spec_id};

use macho_layout::{SectionSpec, StubSpec};
use macho_model::{PlacedCommon, PlacedSection, Slot, Stub, Target};

/// Whether the sections are those of a link's plan, in its order.
pub fn are_all_sections(sections: &[PlacedSection], specs: &[SectionSpec]) -> bool
    ensures found { (l : Link) → specs.now ≡ map (spec_of l) (carried_of l) → OnTrue result (map id_of sections.now ≡ carried_of l) }
    ensures only { (l : Link) → specs.now ≡ map (spec_of l) (carried_of l) → map id_of sections.now ≡ carried_of l → result ≡ true }
    ensures length { OnTrue result (length sections.now ≡ length specs.now) }
{
    if sections.len() != specs.len() {
        return false;
    }
    for (number, section) in sections.iter().enumerate() {
        if !is_same(section, &specs[number]) {
            return false;
        }
    }
    true
}

/// Whether a section is one of a plan.
fn is_same(section: &PlacedSection, spec: &SectionSpec) -> bool
    ensures found { OnTrue result (id_of section.now ≡ spec_id spec.now) }
    ensures only { id_of section.now ≡ spec_id spec.now → result ≡ true }
{
    section.file == spec.file && section.section == spec.section
}

/// Whether the commons are so many, by number.
pub fn are_all_commons(commons: &[PlacedCommon], count: usize) -> bool
    ensures found { OnTrue result (map (λ c. c.id) commons.now ≡ range_with_len 0 count) }
    ensures only { map (λ c. c.id) commons.now ≡ range_with_len 0 count → result ≡ true }
    ensures within { OnTrue result (All (λ c. c.id < count) commons.now) }
{
    if commons.len() != count {
        return false;
    }
    for (number, common) in commons.iter().enumerate() {
        if common.id as usize != number {
            return false;
        }
    }
    true
}

/// Whether two targets are one.
fn is_same_target(first: Target, second: Target) -> bool
    ensures { result ≡ same_target first second }
{
    match (first, second) {
        (
            Target::Section {
                file,
                section,
                offset,
            },
            Target::Section {
                file: other_file,
                section: other_section,
                offset: other_offset,
            },
        ) => file == other_file && section == other_section && offset == other_offset,
        (Target::Common { id }, Target::Common { id: other }) => id == other,
        (Target::Import { id }, Target::Import { id: other }) => id == other,
        (Target::Base, Target::Base) => true,
        (Target::Absolute { value }, Target::Absolute { value: other }) => value == other,
        (Target::None, Target::None) => true,
        _ => false,
    }
}

/// Whether the slots are those of a list of targets, in its order.
pub fn are_all_slots(slots: &[Slot], targets: &[Target]) -> bool
    ensures found { OnTrue result (map (λ s. s.target) slots.now ≡ targets.now) }
    ensures only { map (λ s. s.target) slots.now ≡ targets.now → result ≡ true }
{
    if slots.len() != targets.len() {
        return false;
    }
    for (number, slot) in slots.iter().enumerate() {
        if !is_same_target(slot.target, targets[number]) {
            return false;
        }
    }
    true
}

/// Whether the stubs are those of a link's plan, in its order, each through its slot.
pub fn are_all_stubs(stubs: &[Stub], specs: &[StubSpec]) -> bool
    ensures found { (l : Link) → ArePlannedStubs l specs.now → OnTrue result (AreStubs l stubs.now) }
    ensures only { (l : Link) → ArePlannedStubs l specs.now → AreStubs l stubs.now → result ≡ true }
{
    if stubs.len() != specs.len() {
        return false;
    }
    for (number, stub) in stubs.iter().enumerate() {
        if !is_same_stub(stub, &specs[number]) {
            return false;
        }
    }
    true
}

/// Whether a stub is one of a plan.
fn is_same_stub(stub: &Stub, spec: &StubSpec) -> bool
    ensures found { OnTrue result ((stub.now.import ≡ spec.now.import) × (stub.now.slot ≡ spec.now.slot)) }
    ensures only { stub.now.import ≡ spec.now.import → stub.now.slot ≡ spec.now.slot → result ≡ true }
{
    stub.import == spec.import && stub.slot == spec.slot
}
