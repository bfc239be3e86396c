//! The first rule that a given placement breaks.
//!
//! The rules have the numbers 1 to 8: the base is that of the link's kind; each thing has a place, and nothing else; parts are
//! aligned, lie in their segments, and are apart; segments are whole pages, one behind the other; the template of thread-local
//! variables stands by itself; the image is no longer than its written sum.
ghost use Rattle.std.specs.Prelude.{◌≡◌, ◌+◌, ◌<◌, ◌≤◌, true, None, All, length, IfOk, IfSome};
ghost use Rattle.std.specs.Bool.{OnTrue};
ghost use Rattle.macho_model.specs.Links.{Link};
ghost use Rattle.macho_model.specs.WrittenSum.{written_sum_of};
ghost use Rattle.macho_model.specs.Placement.{Placed, IsInSegment, IsPlaced, IsWholeList};
ghost use Rattle.macho_layout.specs.Placements.{placed_of};
ghost use Rattle.macho_placement_rules.specs.Lists.{TableLies};
ghost use Rattle.macho_placement_rules.specs.Rules.{AreListsOf, IsFirstBroken, EightRules, KeepsEight};
ghost use Rattle.macho_placement_rules.specs.steps.Rules.{TellsRules, MadeLie, AreInOrder, first_unkept};

use crate::lists::{are_all_commons, are_all_sections, are_all_slots, are_all_stubs};
use crate::lying::{commons_lie, range_lies, slots_lie, stubs_lie, table_lies};
use crate::parts::{are_aligned, are_apart};
use crate::pieces::all_parts;
use crate::sections::sections_lie;
use crate::segments::{are_paged, are_within, begins, follow, is_based};
use crate::template::template_holds;
use macho_layout::{CommonSpec, Placement, SectionSpec, StubSpec};
use macho_model::{Counts, PlacedSegment, Range64, Target};
use macho_records::SegmentName;
use std::alloc::{AllocError, Global};

/// What a plan says of a link: what gets a place, and which segments it has.
#[derive(Clone, Copy)]
pub struct PlanLists<'a> {
    /// Whether the link makes an executable, and not a library.
    pub executable: bool,
    /// The carried sections, by file, then section.
    pub sections: &'a [SectionSpec],
    /// The chosen commons, by number.
    pub commons: &'a [CommonSpec],
    /// What the slots lead to, by number.
    pub slots: &'a [Target],
    /// The stubs, by number.
    pub stubs: &'a [StubSpec],
    /// The segments that have no place of their own in the order of segments, as the sections name them first.
    pub others: &'a [SegmentName],
}

/// Which rules of parts and of segments a placement keeps.
#[derive(Clone, Copy)]
struct Kept {
    aligned: bool,
    in_segment: bool,
    apart: bool,
    in_order: bool,
    template: bool,
    within_sum: bool,
}

impl Kept {
    /// The number of the first rule that isn't kept.
    fn first_broken(&self) -> Option<u8>
        ensures { result ≡ first_unkept self.now }
    {
        if !self.aligned {
            Some(3)
        } else if !self.in_segment {
            Some(4)
        } else if !self.apart {
            Some(5)
        } else if !self.in_order {
            Some(6)
        } else if !self.template {
            Some(7)
        } else if !self.within_sum {
            Some(8)
        } else {
            None
        }
    }
}

/// Whether each thing of a plan has a place, and nothing else.
fn is_whole(placement: &Placement, lists: &PlanLists<'_>) -> bool
    ensures found { (l : Link) → AreListsOf l lists.now → OnTrue result (IsWholeList l (placed_of placement.now)) }
    ensures only { (l : Link) → AreListsOf l lists.now → IsWholeList l (placed_of placement.now) → result ≡ true }
    ensures sections { OnTrue result (length placement.now.sections.items ≤ length lists.now.sections.now) }
    ensures commons { OnTrue result (All (λ c. c.id < length lists.now.commons.now) placement.now.commons.items) }
{
    if !are_all_sections(placement.sections.as_slice(), lists.sections) {
        return false;
    }
    if !are_all_commons(placement.commons.as_slice(), lists.commons.len()) {
        return false;
    }
    if !are_all_slots(placement.slots.as_slice(), lists.slots) {
        return false;
    }
    are_all_stubs(placement.stubs.as_slice(), lists.stubs)
}

/// Whether each of some tables of `__LINKEDIT` lies in its file part.
fn tables_lie(segments: &[PlacedSegment], tables: &[Range64]) -> bool
    ensures found { (p : Placed) → p.segments ≡ segments.now → OnTrue result (All (TableLies p) tables.now) }
    ensures only { (p : Placed) → p.segments ≡ segments.now → All (TableLies p) tables.now → result ≡ true }
{
    for table in tables {
        if !table_lies(segments, *table) {
            return false;
        }
    }
    true
}

/// Whether what the linker makes lies in its segments.
fn made_lie(placement: &Placement) -> bool
    ensures found { OnTrue result (MadeLie (placed_of placement.now)) }
    ensures only { MadeLie (placed_of placement.now) → result ≡ true }
{
    let segments = placement.segments.as_slice();
    if !range_lies(segments, placement.init_offsets) {
        return false;
    }
    if !range_lies(segments, placement.unwind) {
        return false;
    }
    let tables = &placement.linkedit;
    tables_lie(
        segments,
        &[
            tables.fixups,
            tables.trie,
            tables.symtab,
            tables.strtab,
            tables.signature,
        ],
    )
}

/// Whether each part lies in its segment.
fn lie_in_segments(
    alloc: Global,
    placement: &Placement,
    lists: &PlanLists<'_>,
) -> Result<bool, AllocError>
    requires sections { length placement.now.sections.items ≤ length lists.now.sections.now }
    requires commons { All (λ c. c.id < length lists.now.commons.now) placement.now.commons.items }
    ensures found { (l : Link) → AreListsOf l lists.now → IsWholeList l (placed_of placement.now)
        → IfOk result (λ b. OnTrue b (IsInSegment l (placed_of placement.now))) }
    ensures only { (l : Link) → AreListsOf l lists.now → IsWholeList l (placed_of placement.now)
        → IsInSegment l (placed_of placement.now) → IfOk result (λ b. b ≡ true) }
{
    if !sections_lie(placement, lists.sections) {
        return Ok(false);
    }
    let commons = commons_lie(alloc, placement, lists.commons)?;
    if !commons {
        return Ok(false);
    }
    let slots = slots_lie(alloc, placement)?;
    if !slots {
        return Ok(false);
    }
    let stubs = stubs_lie(alloc, placement)?;
    if !stubs {
        return Ok(false);
    }
    Ok(made_lie(placement))
}

/// Whether segments are whole pages and stand one behind the other, from the base on.
fn are_in_order(placement: &Placement, lists: &PlanLists<'_>) -> bool
    ensures found { (l : Link) → AreListsOf l lists.now → OnTrue result (AreInOrder l (placed_of placement.now)) }
    ensures only { (l : Link) → AreListsOf l lists.now → AreInOrder l (placed_of placement.now) → result ≡ true }
{
    let segments = placement.segments.as_slice();
    if !are_paged(segments) {
        return false;
    }
    if !follow(segments, lists.others) {
        return false;
    }
    begins(placement, lists.executable)
}

/// Which rules of parts and segments a placement keeps that has a place for each thing of a plan.
fn rules_kept(
    alloc: Global,
    placement: &Placement,
    lists: &PlanLists<'_>,
    counts: &Counts,
    sum: u64,
) -> Result<Kept, AllocError>
    requires sections { length placement.now.sections.items ≤ length lists.now.sections.now }
    requires commons { All (λ c. c.id < length lists.now.commons.now) placement.now.commons.items }
    ensures { (l : Link) → AreListsOf l lists.now → written_sum_of l counts.now ≡ sum → IsWholeList l (placed_of placement.now)
        → IfOk result (TellsRules l counts.now (placed_of placement.now)) }
{
    let mut parts = all_parts(alloc, placement, lists.sections, lists.commons, counts)?;
    let aligned = are_aligned(parts.as_slice());
    let in_segment = lie_in_segments(alloc, placement, lists)?;
    let template = template_holds(placement, lists.sections, parts.as_slice());
    let apart = are_apart(parts.as_mut_slice());
    let in_order = are_in_order(placement, lists);
    let within_sum = are_within(placement.segments.as_slice(), placement.base, sum);
    Ok(Kept {
        aligned,
        in_segment,
        apart,
        in_order,
        template,
        within_sum,
    })
}

/// The number of the first rule that a placement breaks, from 1 to 8, of a link whose plan says these lists, with its written
/// sum; None where it keeps all. Any numbers may stand in the placement.
///
/// It takes the time of one walk and of one sort of the parts, where no two segments have one name. Each common, slot and stub
/// is looked for in all segments of its segment's name, and each segment that stands behind the one before it in the names of
/// `others`, of which a link has few.
pub fn first_broken_rule(
    alloc: Global,
    placement: &Placement,
    lists: &PlanLists<'_>,
    counts: &Counts,
    sum: u64,
) -> Result<Option<u8>, AllocError>
    ensures found { (l : Link) → AreListsOf l lists.now → written_sum_of l counts.now ≡ sum
        → IfOk result (λ rule. rule ≡ None → IsPlaced l counts.now (placed_of placement.now)) }
    ensures only { (l : Link) → AreListsOf l lists.now → written_sum_of l counts.now ≡ sum
        → IsPlaced l counts.now (placed_of placement.now) → IfOk result (λ rule. rule ≡ None) }
    ensures fault { (l : Link) → AreListsOf l lists.now → written_sum_of l counts.now ≡ sum
        → IfOk result (λ rule. IfSome rule (IsFirstBroken l counts.now (placed_of placement.now))) }
{
    if !is_based(placement, lists.executable) {
        return Ok(Some(1));
    }
    if !is_whole(placement, lists) {
        return Ok(Some(2));
    }
    let kept = rules_kept(alloc, placement, lists, counts, sum)?;
    Ok(kept.first_broken())
}

/// A placement is right exactly where it keeps the eight rules.
pub fn a_placement_keeps_eight_rules()
    ensures found { EightRules }
    ensures only { KeepsEight }
{}
