//! Output sections as cells: their ranks, sizes and alignments.
//!
//! A rank tells the segment, and in it the class, by which output sections stand one behind the other: code, what the linker
//! makes, data, initial values of thread-local variables with bytes and without, commons, other zerofill.
ghost use Rattle.std.specs.Prelude.{◌≡◌, ◌+◌, ◌<◌, ◌≤◌, ◌^◌, ◌*◌, ◌++◌, length, IfOk, OnOk};
ghost use Rattle.macho_layout.specs.Cells.{class_of, class_of_data, segment_number, merged_cell, made_cells, cells_of, FitSizes, cell_if, is_template_class};
ghost use Rattle.macho_layout.specs.Names.{merged_count};

use crate::names::common_name;
use crate::plan::Plan;
use crate::spec::OutputName;
use macho_model::Counts;
use macho_records::{
    S_THREAD_LOCAL_REGULAR, S_THREAD_LOCAL_ZEROFILL, SegmentName, has_instructions,
    is_zerofill_type,
};
use macho_stack::{CLASSES, Cell, Extent};
use std::alloc::{AllocError, Global};

const CODE: u32 = 0;

const INIT_OFFSETS: u32 = 1;

const UNWIND_INFO: u32 = 2;

const STUBS: u32 = 3;

const SLOTS: u32 = 3;

const DATA: u32 = 4;

const TEMPLATE_DATA: u32 = 5;

const TEMPLATE_ZEROS: u32 = 6;

const COMMONS: u32 = 7;

const ZEROS: u32 = 8;

/// The numbers of what the linker makes count from behind the merged output sections.
pub(crate) const MADE_INIT_OFFSETS: u32 = 0;

pub(crate) const MADE_UNWIND_INFO: u32 = 1;

pub(crate) const MADE_STUBS: u32 = 2;

pub(crate) const MADE_SLOTS: u32 = 3;

/// Whether a class has initial values of thread-local variables.
pub(crate) fn is_template_class(class: u32) -> bool
    ensures { result ≡ is_template_class class }
{
    class == TEMPLATE_DATA || class == TEMPLATE_ZEROS
}

/// The class of a merged output section.
fn class_of(name: &OutputName, flags: u32) -> u32
    ensures value { result ≡ class_of name.now flags }
    ensures small { result < 9 }
{
    let zeros = is_zerofill_type(name.kind);
    if name.segment == SegmentName::TEXT {
        if zeros {
            ZEROS
        } else if has_instructions(flags) {
            CODE
        } else {
            DATA
        }
    } else if name.segment == SegmentName::DATA {
        class_of_data(name, zeros)
    } else if zeros {
        ZEROS
    } else {
        DATA
    }
}

fn class_of_data(name: &OutputName, zeros: bool) -> u32
    ensures value { result ≡ class_of_data name.now zeros }
    ensures small { result < 9 }
{
    if !zeros {
        if name.kind == S_THREAD_LOCAL_REGULAR {
            TEMPLATE_DATA
        } else {
            DATA
        }
    } else if name.kind == S_THREAD_LOCAL_ZEROFILL {
        TEMPLATE_ZEROS
    } else if *name == common_name() {
        COMMONS
    } else {
        ZEROS
    }
}

/// The number of a segment among the mapped ones.
pub(crate) fn segment_number(names: &[SegmentName], name: SegmentName) -> usize
    ensures value { result ≡ segment_number names.now name }
    ensures within { result ≤ length names.now }
{
    for (number, other) in names.iter().enumerate() {
        if *other == name {
            return number;
        }
    }
    names.len()
}

impl Plan {
    /// The cell of a merged output section.
    fn merged_cell(&self, names: &[SegmentName], number: usize, extent: Extent) -> Cell
        requires few { length names.now < 16 }
        requires number { number < 2 ^ 32 }
        ensures { result ≡ merged_cell self.now names.now number extent }
    {
        let name = self.output_at(number);
        let segment = segment_number(names, name.segment) as u32;
        Cell {
            number: number as u32,
            rank: CLASSES * segment + class_of(&name, extent.flags),
            exponent: extent.exponent,
            size: extent.size,
        }
    }

    /// Adds the cells of what the linker makes, where they aren't empty.
    fn made_cells(
        &self,
        counts: &Counts,
        first: u32,
        cells: &mut Vec<Cell>,
    ) -> Result<(), AllocError>
        requires number { first < 2 ^ 31 }
        requires sizes { FitSizes self.now counts.now }
        ensures { OnOk result (cells.new.items ≡ cells.old.items ++ made_cells self.now counts.now first) }
    {
        let slots = Cell {
            number: first + MADE_SLOTS,
            rank: CLASSES + SLOTS,
            exponent: 3,
            size: 8 * self.slots.len() as u64,
        };
        let text = |number, class, size| Cell {
            number: first + number,
            rank: class,
            exponent: 2,
            size,
        };
        push_filled(
            cells,
            text(MADE_INIT_OFFSETS, INIT_OFFSETS, 4 * counts.initializers),
        )?;
        push_filled(cells, text(MADE_UNWIND_INFO, UNWIND_INFO, counts.unwind))?;
        push_filled(cells, text(MADE_STUBS, STUBS, 12 * self.stubs.len() as u64))?;
        push_filled(cells, slots)
    }

    /// The cells of all output sections.
    pub(crate) fn cells(
        &self,
        alloc: Global,
        counts: &Counts,
        names: &[SegmentName],
        extents: &[Extent],
    ) -> Result<Vec<Cell>, AllocError>
        requires few { length names.now < 16 }
        requires many { length extents.now < 2 ^ 31 }
        requires sizes { FitSizes self.now counts.now }
        ensures { IfOk result (λ cells. cells.items ≡ cells_of self.now counts.now names.now extents.now) }
    {
        let mut cells = Vec::new(alloc);
        for (number, extent) in extents.iter().enumerate() {
            cells.push(self.merged_cell(names, number, *extent))?;
        }
        self.made_cells(counts, extents.len() as u32, &mut cells)?;
        Ok(cells)
    }
}

/// Adds a cell that isn't empty.
fn push_filled(cells: &mut Vec<Cell>, cell: Cell) -> Result<(), AllocError>
    ensures { OnOk result (cells.new.items ≡ cells.old.items ++ cell_if cell) }
{
    if cell.size > 0 {
        cells.push(cell)?;
    }
    Ok(())
}
