//! Whether sections lie in their segments, which a placement tells by number.
ghost use Rattle.std.specs.Prelude.{◌≡◌, ◌≤◌, ◌&&◌, ◌==◌, not, true, All, map, length};
ghost use Rattle.std.specs.Bool.{OnTrue};
ghost use Rattle.macho_records.specs.Sections.{is_zerofill_type};
ghost use Rattle.macho_model.specs.Links.{Link, carried_of};
ghost use Rattle.macho_model.specs.Placement.{SectionLies, id_of};
ghost use Rattle.macho_layout.specs.Members.{type_of_spec};
ghost use Rattle.macho_layout.specs.Placements.{placed_of};
ghost use Rattle.macho_layout.specs.Plans.{spec_of};
ghost use Rattle.macho_placement_rules.specs.steps.Lying.{HoldsSection, HoldEach};

use crate::lying::{holds, is_named};
use macho_layout::{Placement, SectionSpec};
use macho_model::{PlacedSection, PlacedSegment};
use macho_records::{SectionFlags, is_zerofill_type, name_bytes};

/// Whether a section has bytes in the file.
fn has_bytes(spec: &SectionSpec) -> bool
    ensures { result ≡ (not (is_zerofill_type (type_of_spec spec.now)) && not (spec.now.size == 0)) }
{
    !is_zerofill_type(SectionFlags(spec.flags).typ()) && spec.size != 0
}

/// Whether the segment of a section's number has its segment's name and holds it.
fn section_lies(segments: &[PlacedSegment], section: &PlacedSection, spec: &SectionSpec) -> bool
    ensures found { OnTrue result (HoldsSection segments.now section.now spec.now) }
    ensures only { HoldsSection segments.now section.now spec.now → result ≡ true }
{
    let number = section.segment as usize;
    if segments.len() <= number {
        return false;
    }
    let segment = &segments[number];
    let bytes = spec.segment.into_bytes();
    is_named(segment, name_bytes(&bytes))
        && holds(segment, section.address, spec.size, has_bytes(spec))
}

/// Whether sections lie in the segments of their numbers.
fn sections_in(
    segments: &[PlacedSegment],
    sections: &[PlacedSection],
    specs: &[SectionSpec],
) -> bool
    requires { length sections.now ≤ length specs.now }
    ensures found { OnTrue result (HoldEach segments.now sections.now specs.now) }
    ensures only { HoldEach segments.now sections.now specs.now → result ≡ true }
{
    for (number, section) in sections.iter().enumerate() {
        if !section_lies(segments, section, &specs[number]) {
            return false;
        }
    }
    true
}

/// Whether the sections, which are those of a link's plan, lie in their segments.
pub fn sections_lie(placement: &Placement, specs: &[SectionSpec]) -> bool
    requires { length placement.now.sections.items ≤ length specs.now }
    ensures found { (l : Link) → specs.now ≡ map (spec_of l) (carried_of l) → map id_of placement.now.sections.items ≡ carried_of l
        → OnTrue result (All (SectionLies l (placed_of placement.now)) placement.now.sections.items) }
    ensures only { (l : Link) → specs.now ≡ map (spec_of l) (carried_of l) → map id_of placement.now.sections.items ≡ carried_of l
        → All (SectionLies l (placed_of placement.now)) placement.now.sections.items → result ≡ true }
{
    sections_in(
        placement.segments.as_slice(),
        placement.sections.as_slice(),
        specs,
    )
}
