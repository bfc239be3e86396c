//! The thread-local template: a range that holds all initial values of thread-local variables, and shares no address with any
//! other part.
//!
//! The parts of a placement begin with that of header and commands. Its sections come next, and then all others.
ghost use Rattle.std.specs.Prelude.{◌≡◌, ◌+◌, ◌<◌, ◌≤◌, true, All, map, length};
ghost use Rattle.std.specs.Bool.{OnTrue};
ghost use Rattle.std.specs.List.{list_any};
ghost use Rattle.macho_records.specs.Sections.{is_template_type};
ghost use Rattle.macho_model.specs.declared.placed.Counts.{Counts};
ghost use Rattle.macho_model.specs.Links.{Link, carried_of};
ghost use Rattle.macho_model.specs.Placement.{AreApart, TemplateHolds, pieces_with, range_piece, id_of};
ghost use Rattle.macho_layout.specs.Members.{type_of_spec};
ghost use Rattle.macho_layout.specs.Placements.{placed_of};
ghost use Rattle.macho_layout.specs.Plans.{spec_of};
ghost use Rattle.macho_placement_rules.specs.Parts.{piece_of};
ghost use Rattle.macho_placement_rules.specs.steps.Template.{Suits, SuitsEach, SuitsAll};

use crate::parts::Part;
use crate::pieces::{is_template, range_part, section_part};
use macho_layout::{Placement, SectionSpec};
use macho_model::{PlacedSection, Range64};

/// Whether two parts share no address.
fn is_apart(first: &Part, second: &Part) -> bool
    ensures found { OnTrue result (AreApart (piece_of first.now) (piece_of second.now)) }
    ensures only { AreApart (piece_of first.now) (piece_of second.now) → result ≡ true }
{
    let behind = first.start <= second.start && first.size <= second.start - first.start;
    let before = second.start <= first.start && second.size <= first.start - second.start;
    first.size == 0 || second.size == 0 || behind || before
}

/// Whether a part shares no address with any of some others.
fn meets_none(whole: &Part, parts: &[Part]) -> bool
    ensures found { OnTrue result (All (AreApart (piece_of whole.now)) (map piece_of parts.now)) }
    ensures only { All (AreApart (piece_of whole.now)) (map piece_of parts.now) → result ≡ true }
{
    for part in parts {
        if !is_apart(whole, part) {
            return false;
        }
    }
    true
}

/// Whether a range holds a section of the template, or shares no address with another section.
fn suits(range: Range64, section: &PlacedSection, spec: &SectionSpec) -> bool
    ensures found { OnTrue result (Suits range section.now spec.now) }
    ensures only { Suits range section.now spec.now → result ≡ true }
{
    if is_template(spec) {
        let end = section.address as u128 + spec.size as u128;
        range.start <= section.address && end <= range.end as u128
    } else {
        is_apart(&range_part(range), &section_part(section, spec, 0))
    }
}

/// Whether a range holds the sections of the template among these, and shares no address with the others.
fn suits_each(range: Range64, sections: &[PlacedSection], specs: &[SectionSpec]) -> bool
    requires { length sections.now ≤ length specs.now }
    ensures found { OnTrue result (SuitsEach range sections.now specs.now) }
    ensures only { SuitsEach range sections.now specs.now → result ≡ true }
{
    for (number, section) in sections.iter().enumerate() {
        if !suits(range, section, &specs[number]) {
            return false;
        }
    }
    true
}

/// Whether some section has initial values of thread-local variables.
fn has_template(specs: &[SectionSpec]) -> bool
    ensures { result ≡ list_any (λ s. is_template_type (type_of_spec s)) specs.now }
{
    for spec in specs {
        if is_template(spec) {
            return true;
        }
    }
    false
}

/// Whether a range holds the sections of the template, and shares no address with any other of a placement's parts.
fn suits_all(
    range: Range64,
    sections: &[PlacedSection],
    specs: &[SectionSpec],
    parts: &[Part],
) -> bool
    requires sections { length sections.now ≤ length specs.now }
    requires parts { length sections.now < length parts.now }
    ensures found { OnTrue result (SuitsAll range sections.now specs.now parts.now) }
    ensures only { SuitsAll range sections.now specs.now parts.now → result ≡ true }
{
    let whole = range_part(range);
    suits_each(range, sections, specs)
        && meets_none(&whole, &parts[..1])
        && meets_none(&whole, &parts[1 + sections.len()..])
}

/// Whether the template is told exactly where the link has sections of it, and its range holds them and shares no address with
/// any other part. The sections are those of a link's plan, and the parts those of the placement.
pub(crate) fn template_holds(placement: &Placement, specs: &[SectionSpec], parts: &[Part]) -> bool
    requires sections { length placement.now.sections.items ≤ length specs.now }
    requires parts { length placement.now.sections.items < length parts.now }
    ensures found { (l : Link) (counts : Counts) → specs.now ≡ map (spec_of l) (carried_of l)
        → map id_of placement.now.sections.items ≡ carried_of l
        → map piece_of parts.now ≡ pieces_with l counts (placed_of placement.now) placement.now.sections.items
        → OnTrue result (TemplateHolds l counts (placed_of placement.now) placement.now.template) }
    ensures only { (l : Link) (counts : Counts) → specs.now ≡ map (spec_of l) (carried_of l)
        → map id_of placement.now.sections.items ≡ carried_of l
        → map piece_of parts.now ≡ pieces_with l counts (placed_of placement.now) placement.now.sections.items
        → TemplateHolds l counts (placed_of placement.now) placement.now.template → result ≡ true }
{
    let told = has_template(specs);
    match placement.template {
        None => !told,
        Some(range) => told && suits_all(range, placement.sections.as_slice(), specs, parts),
    }
}
