//! Placing a plan.
ghost use Rattle.std.specs.Prelude.{◌≡◌, ◌+◌, ◌*◌, ◌<◌, ◌≤◌, ◌^◌, ◌++◌, ◌∷◌, ◌&&◌, [], length, OnOk, IfOk, IfErr};
ghost use Rattle.macho_layout.specs.Placements.{placed_of};
ghost use Rattle.macho_layout.specs.Sums.{members_cost, head_size, base_of, FitsLimits};
ghost use Rattle.macho_model.specs.Segments.{list_if};
ghost use Rattle.macho_layout.specs.Laid.{FaultIs, IsLaidOut, FaultStands, IsSmall, is_small_segment, is_small_tables, zero_page, tables_segment};
ghost use Rattle.std.specs.List.{list_all};
ghost use Rattle.macho_stack.specs.Stacks.{AreStacked};
ghost use Rattle.macho_layout.specs.Names.{mapped_names, merged_count};
ghost use Rattle.macho_layout.specs.Members.{members_of, first_flags};
ghost use Rattle.macho_layout.specs.Cells.{cells_of};
ghost use Rattle.macho_stack.specs.Rows.{AreRows};

use crate::cells::{MADE_INIT_OFFSETS, MADE_SLOTS, MADE_STUBS, MADE_UNWIND_INFO};
use crate::fault::LayoutFault;
use crate::placement::Placement;
use crate::places::{
    placed_commons, placed_sections, placed_slots, placed_stubs, pointer_pages, range_at, start_of,
    template_range,
};
use crate::plan::Plan;
use macho_model::{Counts, LIMIT_32, Limit, Linkedit, PlacedSegment, SEGMENT_PAGE};
use macho_records::SegmentName;
use macho_stack::{PlacedMember, Rows, Stacked, place_rows, stack, starts, tables};
use std::alloc::{AllocError, Global};

/// The most segments that a file may have, `__PAGEZERO` and `__LINKEDIT` among them.
const MOST_SEGMENTS: u64 = 6;
/// The most output sections.
const MOST_SECTIONS: u64 = 255;
/// The first 4 GiB of an executable, which `__PAGEZERO` keeps free.
const PAGEZERO_SIZE: u64 = 0x1_0000_0000;
/// What the written sum has to stay below 2^64 by.
const SPARE: u64 = 0x1_0000_0000;

impl Plan {
    /// Tests what is known before any address is.
    fn check(&self, counts: &Counts) -> Result<(), LayoutFault>
        requires { counts.now.import_size ≤ 8 }
        ensures found { OnOk result (FitsLimits self.now counts.now) }
        ensures why { IfErr result (FaultIs self.now counts.now) }
    {
        let segments = self.num_segments();
        if segments > MOST_SEGMENTS {
            return Err(LayoutFault::TooMany {
                what: Limit::Segments,
                number: segments,
            });
        }
        let sections = self.num_outputs(counts);
        if sections > MOST_SECTIONS {
            return Err(LayoutFault::TooMany {
                what: Limit::Sections,
                number: sections,
            });
        }
        match self.written_sum(counts) {
            Some(sum) if sum < u64::MAX - SPARE + 1 => Ok(()),
            _ => Err(LayoutFault::TooLarge { placement: None }),
        }
    }

    /// The bytes of header and load commands, with the padding behind them.
    fn head_size(&self, counts: &Counts) -> u64
        requires { head_size self.now counts.now < 2 ^ 64 }
        ensures { result ≡ head_size self.now counts.now }
    {
        32 + 72 * self.num_segments()
            + 80 * self.num_outputs(counts)
            + counts.commands
            + counts.padding
    }

    /// The address of the image's first byte.
    fn base(&self) -> u64
        ensures { result ≡ base_of self.now }
    {
        if self.executable { PAGEZERO_SIZE } else { 0 }
    }

    /// Sections and commons in their output sections.
    fn stacked(&self, alloc: Global) -> Result<Stacked, AllocError>
        requires few { merged_count self.now ≤ 255 }
        requires room { members_cost self.now + 2 ^ 14 ≤ 2 ^ 64 }
        ensures { IfOk result (λ s. AreStacked (first_flags self.now) (members_of self.now) s.extents.items s.placed.items) }
    {
        let _executable = self.executable;
        let flags = self.first_flags(alloc)?;
        let members = self.members(alloc)?;
        stack(alloc, &flags, &members)
    }

    /// The segments with their output sections.
    fn rows(
        &self,
        alloc: Global,
        counts: &Counts,
        names: &[SegmentName],
        stacked: &Stacked,
    ) -> Result<Rows, AllocError>
        requires fits { FitsLimits self.now counts.now }
        requires names { names.now ≡ mapped_names self.now }
        requires stacked { AreStacked (first_flags self.now) (members_of self.now) stacked.now.extents.items stacked.now.placed.items }
        ensures { IfOk result
            (λ r. AreRows (mapped_names self.now) (cells_of self.now counts.now (mapped_names self.now) stacked.now.extents.items)
            (base_of self.now) (head_size self.now counts.now)
            (length (mapped_names self.now)) r.segments.items r.placed.items r.address r.offset) }
    {
        let _executable = self.executable;
        let base = self.base();
        let head = self.head_size(counts);
        let cells = self.cells(alloc, counts, names, &stacked.extents)?;
        place_rows(alloc, names, &cells, base, head)
    }

    /// The placement of rows, with the tables behind them.
    fn placement(
        &self,
        alloc: Global,
        counts: &Counts,
        names: &[SegmentName],
        stacked: &Stacked,
        rows: Rows,
    ) -> Result<Placement, AllocError>
        requires fits { FitsLimits self.now counts.now }
        requires names { names.now ≡ mapped_names self.now }
        requires stacked { AreStacked (first_flags self.now) (members_of self.now) stacked.now.extents.items stacked.now.placed.items }
        requires rows { AreRows (mapped_names self.now) (cells_of self.now counts.now (mapped_names self.now) stacked.now.extents.items)
            (base_of self.now) (head_size self.now counts.now)
            (length (mapped_names self.now)) rows.segments.items rows.placed.items rows.address rows.offset }
        ensures { IfOk result (λ q. IsLaidOut self.now counts.now (placed_of q)) }
    {
        let merged = stacked.extents.len();
        let starts = starts(alloc, merged + 4, &rows.placed)?;
        let linkedit = tables(counts, rows.offset, pointer_pages(&rows.segments));
        let last = tables_segment(rows.address, rows.offset, &linkedit);
        let before = u32::from(self.executable);
        let count = self.sections.len();
        let members: &[PlacedMember] = &stacked.placed;
        let init_offsets = start_of(&starts, merged + MADE_INIT_OFFSETS as usize);
        let unwind = start_of(&starts, merged + MADE_UNWIND_INFO as usize);
        let stubs = start_of(&starts, merged + MADE_STUBS as usize);
        let slots = start_of(&starts, merged + MADE_SLOTS as usize);
        Ok(Placement {
            base: self.base(),
            sections: placed_sections(alloc, &self.sections, before, names, members, &starts)?,
            commons: placed_commons(alloc, &self.commons, count, members, &starts)?,
            slots: placed_slots(alloc, &self.slots, slots)?,
            stubs: placed_stubs(alloc, &self.stubs, stubs)?,
            output_sections: self.headers(alloc, &stacked.extents, &rows.segments, &rows.placed)?,
            init_offsets: range_at(init_offsets, 4 * counts.initializers),
            unwind: range_at(unwind, counts.unwind),
            template: template_range(&rows.placed),
            segments: all_segments(alloc, self.executable, &rows.segments, last)?,
            linkedit,
        })
    }

    /// Places the parts of an image.
    ///
    /// # Errors
    ///
    /// `TooMany` past 6 segments or 255 output sections; `TooLarge` without a placement where the written sum comes within
    /// 4 GiB of 2^64, and with one where a file offset or size of it needs more than 32 bits; `OutOfMemory`.
    pub fn compute(&self, alloc: Global, counts: &Counts) -> Result<Placement, LayoutFault>
        requires { counts.now.import_size ≤ 8 }
        ensures laid { IfOk result (λ q. IsLaidOut self.now counts.now (placed_of q)) }
        ensures found { OnOk result (FitsLimits self.now counts.now) }
        ensures small { IfOk result (λ q. IsSmall (placed_of q)) }
        ensures why { IfErr result (FaultStands self.now counts.now) }
    {
        self.check(counts)?;
        let names = self.mapped_names(alloc)?;
        let stacked = self.stacked(alloc)?;
        let rows = self.rows(alloc, counts, &names, &stacked)?;
        let placement = self.placement(alloc, counts, &names, &stacked, rows)?;
        if is_small(&placement.segments, &placement.linkedit) {
            Ok(placement)
        } else {
            Err(LayoutFault::TooLarge {
                placement: Some(placement),
            })
        }
    }
}

/// The segment of the tables, from an address and a file offset on.
fn tables_segment(address: u64, offset: u64, tables: &Linkedit) -> PlacedSegment
    requires ordered { offset ≤ tables.now.signature.end }
    requires room { tables.now.signature.end + 2 ^ 14 ≤ 2 ^ 64 }
    ensures { result ≡ tables_segment address offset tables.now }
{
    let size = tables.signature.end - offset;
    PlacedSegment {
        name: SegmentName::LINKEDIT,
        address,
        size: size.next_multiple_of(SEGMENT_PAGE),
        file_offset: offset,
        file_size: size,
    }
}

/// Whether all file offsets and sizes fit 32 bits.
fn is_small(segments: &[PlacedSegment], tables: &Linkedit) -> bool
    ensures { result ≡ (list_all is_small_segment segments.now && is_small_tables tables.now) }
{
    for segment in segments {
        if segment.file_offset >= LIMIT_32 || segment.file_size >= LIMIT_32 {
            return false;
        }
    }
    tables.signature.end < LIMIT_32
}

/// All segments: `__PAGEZERO` of an executable, those that are mapped, and `__LINKEDIT`.
fn all_segments(
    alloc: Global,
    executable: bool,
    mapped: &[PlacedSegment],
    last: PlacedSegment,
) -> Result<Vec<PlacedSegment>, AllocError>
    ensures { IfOk result (λ segments. segments.items ≡ list_if executable (zero_page ∷ []) ++ mapped.now ++ last ∷ []) }
{
    let mut segments = Vec::new(alloc);
    if executable {
        segments.push(PlacedSegment {
            name: SegmentName::PAGEZERO,
            address: 0,
            size: PAGEZERO_SIZE,
            file_offset: 0,
            file_size: 0,
        })?;
    }
    for segment in mapped {
        segments.push(*segment)?;
    }
    segments.push(last)?;
    Ok(segments)
}
