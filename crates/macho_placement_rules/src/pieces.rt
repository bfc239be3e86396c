//! The parts of a given placement: header and commands, sections, commons, slots, stubs, and what else the linker makes.
ghost use Rattle.std.specs.Prelude.{◌≡◌, ◌+◌, ◌-◌, ◌<◌, ◌≤◌, ◌∷◌, ◌++◌, [], All, map, length, filter, get_or, OnOk, IfOk};
ghost use Rattle.macho_model.specs.Lists.{of_first};
ghost use Rattle.macho_model.specs.Links.{Link, carried_of};
ghost use Rattle.macho_model.specs.Segments.{LINKEDIT};
ghost use Rattle.macho_model.specs.Placement.{IsWholeList, pieces_with, section_piece, common_piece, slot_piece, stub_piece, range_piece, head_size, is_segment_named, id_of};
ghost use Rattle.macho_records.specs.Sections.{is_template_type};
ghost use Rattle.macho_layout.specs.Members.{type_of_spec};
ghost use Rattle.macho_layout.specs.Placements.{placed_of};
ghost use Rattle.macho_layout.specs.Plans.{Planning, IsPlanOf};
ghost use Rattle.macho_placement_rules.specs.Parts.{piece_of};
ghost use Rattle.macho_placement_rules.specs.steps.Pieces.{template_exponent_of, section_part, section_parts, common_part, slot_part, stub_part, table_piece, as_part, tables_of, made_parts};

use crate::parts::Part;
use macho_layout::{CommonSpec, Placement, SectionSpec};
use macho_model::{
    Counts, Linkedit, PlacedCommon, PlacedSection, PlacedSegment, Range64, Slot, Stub,
};
use macho_records::{
    S_THREAD_LOCAL_REGULAR, S_THREAD_LOCAL_VARIABLES, S_THREAD_LOCAL_ZEROFILL, SectionFlags,
    SegmentName, name_bytes,
};
use std::alloc::{AllocError, Global};

/// Whether a section has initial values of thread-local variables.
pub(crate) fn is_template(spec: &SectionSpec) -> bool
    ensures { result ≡ is_template_type (type_of_spec spec.now) }
{
    let kind = SectionFlags(spec.flags).typ();
    kind == S_THREAD_LOCAL_REGULAR || kind == S_THREAD_LOCAL_ZEROFILL
}

/// The alignment of the template: the greatest of its sections'.
fn template_of(specs: &[SectionSpec]) -> u8
    ensures { result ≡ template_exponent_of specs.now }
{
    let mut align = 0u8;
    for spec in specs {
        if is_template(spec) {
            align = align.max(spec.align);
        }
    }
    align
}

/// A section as a part, where the template has an alignment.
pub(crate) fn section_part(section: &PlacedSection, spec: &SectionSpec, template: u8) -> Part
    ensures { result ≡ section_part template section.now spec.now }
{
    let exponent = if is_template(spec) {
        template
    } else if SectionFlags(spec.flags).typ() == S_THREAD_LOCAL_VARIABLES {
        spec.align.max(3)
    } else {
        spec.align
    };
    Part {
        start: section.address as u128,
        size: spec.size as u128,
        exponent: exponent as u32,
    }
}

/// Adds the sections, of which the plan tells as many, where the template has an alignment.
fn push_sections(
    parts: &mut Vec<Part>,
    sections: &[PlacedSection],
    specs: &[SectionSpec],
    template: u8,
) -> Result<(), AllocError>
    requires { length sections.now ≤ length specs.now }
    ensures { OnOk result (parts.new.items ≡ parts.old.items ++ section_parts template specs.now sections.now) }
{
    for (number, section) in sections.iter().enumerate() {
        parts.push(section_part(section, &specs[number], template))?;
    }
    Ok(())
}

/// Adds the commons, which the plan tells by number.
fn push_commons(
    parts: &mut Vec<Part>,
    commons: &[PlacedCommon],
    specs: &[CommonSpec],
) -> Result<(), AllocError>
    requires { All (λ c. c.id < length specs.now) commons.now }
    ensures { OnOk result (parts.new.items ≡ parts.old.items ++ map (common_part specs.now) commons.now) }
{
    for common in commons {
        let spec = specs[common.id as usize];
        parts.push(Part {
            start: common.address as u128,
            size: spec.size as u128,
            exponent: spec.align as u32,
        })?;
    }
    Ok(())
}

/// Adds the slots.
fn push_slots(parts: &mut Vec<Part>, slots: &[Slot]) -> Result<(), AllocError>
    ensures { OnOk result (parts.new.items ≡ parts.old.items ++ map slot_part slots.now) }
{
    for slot in slots {
        parts.push(Part {
            start: slot.address as u128,
            size: 8,
            exponent: 3,
        })?;
    }
    Ok(())
}

/// Adds the stubs.
fn push_stubs(parts: &mut Vec<Part>, stubs: &[Stub]) -> Result<(), AllocError>
    ensures { OnOk result (parts.new.items ≡ parts.old.items ++ map stub_part stubs.now) }
{
    for stub in stubs {
        parts.push(Part {
            start: stub.address as u128,
            size: 12,
            exponent: 2,
        })?;
    }
    Ok(())
}

/// A range as a part.
pub(crate) fn range_part(range: Range64) -> Part
    ensures { result ≡ as_part (range_piece 0 range) }
{
    Part {
        start: range.start as u128,
        size: range.end.saturating_sub(range.start) as u128,
        exponent: 0,
    }
}

/// The address that `__LINKEDIT` maps a file offset to, or the offset itself where there is no such segment.
fn mapped(segments: &[PlacedSegment], start: u64) -> u128
    ensures { result ≡ of_first start (λ s. s.address + start - s.file_offset) (filter (is_segment_named LINKEDIT) segments.now) }
{
    for segment in segments {
        let bytes = segment.name.into_bytes();
        if name_bytes(&bytes) == b"__LINKEDIT".as_slice() {
            let end = segment.address as u128 + start as u128;
            return end.saturating_sub(segment.file_offset as u128);
        }
    }
    start as u128
}

/// A table of `__LINKEDIT` as a part.
fn table_part(segments: &[PlacedSegment], range: Range64) -> Part
    ensures { result ≡ as_part (table_piece segments.now range) }
{
    let mut part = range_part(range);
    part.start = mapped(segments, range.start);
    part
}

/// Adds the tables of `__LINKEDIT`.
fn push_tables(
    parts: &mut Vec<Part>,
    segments: &[PlacedSegment],
    tables: &Linkedit,
) -> Result<(), AllocError>
    ensures { OnOk result (parts.new.items ≡ parts.old.items ++ map (λ r. as_part (table_piece segments.now r)) (tables_of tables.now)) }
{
    parts.push(table_part(segments, tables.fixups))?;
    parts.push(table_part(segments, tables.trie))?;
    parts.push(table_part(segments, tables.symtab))?;
    parts.push(table_part(segments, tables.strtab))?;
    parts.push(table_part(segments, tables.signature))?;
    Ok(())
}

/// Header, load commands and the padding behind them as a part.
fn head_part(placement: &Placement, counts: &Counts) -> Part
    ensures { result
        ≡ as_part (record { start = placement.now.base; size = head_size counts.now (placed_of placement.now); exponent = 0 }) }
{
    let segments = 72 * placement.segments.len() as u128;
    let sections = 80 * placement.output_sections.len() as u128;
    Part {
        start: placement.base as u128,
        size: 32 + segments + sections + counts.commands as u128 + counts.padding as u128,
        exponent: 0,
    }
}

/// All parts of a placement.
#[tactic(auto, unfolding(crate::specs::steps::Pieces::made_parts))]
fn made_parts(
    alloc: Global,
    placement: &Placement,
    sections: &[SectionSpec],
    commons: &[CommonSpec],
    counts: &Counts,
) -> Result<Vec<Part>, AllocError>
    requires sections { length placement.now.sections.items ≤ length sections.now }
    requires commons { All (λ c. c.id < length commons.now) placement.now.commons.items }
    ensures { IfOk result (λ v. v.items ≡ made_parts counts.now (placed_of placement.now) sections.now commons.now) }
{
    let template = template_of(sections);
    let mut parts = Vec::new(alloc);
    parts.push(head_part(placement, counts))?;
    push_sections(
        &mut parts,
        placement.sections.as_slice(),
        sections,
        template,
    )?;
    push_commons(&mut parts, placement.commons.as_slice(), commons)?;
    push_slots(&mut parts, placement.slots.as_slice())?;
    push_stubs(&mut parts, placement.stubs.as_slice())?;
    parts.push(range_part(placement.init_offsets))?;
    parts.push(range_part(placement.unwind))?;
    push_tables(
        &mut parts,
        placement.segments.as_slice(),
        &placement.linkedit,
    )?;
    Ok(parts)
}

/// All parts of a placement. The sections and commons are those of a link's plan, and the placement has each of them once.
pub fn all_parts(
    alloc: Global,
    placement: &Placement,
    sections: &[SectionSpec],
    commons: &[CommonSpec],
    counts: &Counts,
) -> Result<Vec<Part>, AllocError>
    requires sections { length placement.now.sections.items ≤ length sections.now }
    requires commons { All (λ c. c.id < length commons.now) placement.now.commons.items }
    ensures found { (l : Link) (p : Planning) → IsPlanOf l p → p.sections ≡ sections.now → p.commons ≡ commons.now
        → IsWholeList l (placed_of placement.now)
        → IfOk result (λ v. map piece_of v.items ≡ pieces_with l counts.now (placed_of placement.now) placement.now.sections.items) }
    ensures long { IfOk result (λ v. length placement.now.sections.items < length v.items) }
{
    let parts = made_parts(alloc, placement, sections, commons, counts)?;
    Ok(parts)
}
