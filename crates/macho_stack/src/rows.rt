//! Rows: the segments one behind the other, and in each its output sections.
ghost use Rattle.std.specs.Prelude.{◌≡◌, ◌+◌, ◌*◌, ◌<◌, ◌≤◌, ◌^◌, length, IfOk, All, sum_by};
ghost use Rattle.macho_stack.specs.Ranks.{cell_cost, of_ranks};
ghost use Rattle.macho_stack.specs.Rows.{AddsRow, AreRows, front_at};

use crate::place::{Cell, PlacedCell, place_ranks};
use macho_model::{PlacedSegment, SEGMENT_PAGE};
use macho_records::SegmentName;
use std::alloc::{AllocError, Global};

/// Ranks of one segment: six classes with bytes in the file, then three without.
pub const CLASSES: u32 = 9;
/// The classes with bytes in the file.
pub const FILLED_CLASSES: u32 = 6;

/// The segments that are mapped from the file, but for `__LINKEDIT`.
#[derive(Drop)]
pub struct Rows {
    /// The segments, in order.
    pub segments: Vec<PlacedSegment>,
    /// Their output sections, in the order in which they stand.
    pub placed: Vec<PlacedCell>,
    /// The address behind the last segment.
    pub address: u64,
    /// The file offset behind it.
    pub offset: u64,
}

/// Places the output sections of a segment, and tells the segment.
fn place_row(
    cells: &[Cell],
    row: Row,
    placed: &mut Vec<PlacedCell>,
) -> Result<PlacedSegment, AllocError>
    requires few { row.number < 16 }
    requires small { All (λ c. c.exponent ≤ 14) cells.now }
    requires room { row.address + row.front + sum_by cell_cost (of_ranks (9 * row.number) 9 cells.now) + 2 ^ 15 ≤ 2 ^ 64 }
    ensures { IfOk result (λ s. AddsRow cells.now row placed.old.items placed.new.items s) }
{
    let first = CLASSES * row.number;
    let start = row.address + row.front;
    let filled = place_ranks(cells, first, FILLED_CLASSES, start, placed)?;
    let end = place_ranks(
        cells,
        first + FILLED_CLASSES,
        CLASSES - FILLED_CLASSES,
        filled,
        placed,
    )?;
    Ok(PlacedSegment {
        name: row.name,
        address: row.address,
        size: (end - row.address).next_multiple_of(SEGMENT_PAGE),
        file_offset: row.offset,
        file_size: (filled - row.address).next_multiple_of(SEGMENT_PAGE),
    })
}

/// A segment before its output sections are placed.
#[derive(Clone, Copy)]
pub struct Row {
    /// Its name.
    pub name: SegmentName,
    /// Its number among the mapped segments.
    pub number: u32,
    /// The bytes in front of its output sections.
    pub front: u64,
    /// Its address.
    pub address: u64,
    /// Its file offset.
    pub offset: u64,
}

/// Header and load commands stand in front of the first segment's output sections.
fn front_at(head: u64, number: usize) -> u64
    ensures { result ≡ front_at head number }
{
    if number == 0 { head } else { 0 }
}

/// Places all segments from the base on; header and load commands stand in front of the first one's output sections.
pub fn place_rows(
    alloc: Global,
    names: &[SegmentName],
    cells: &[Cell],
    base: u64,
    head: u64,
) -> Result<Rows, AllocError>
    requires few { length names.now < 16 }
    requires small { All (λ c. c.exponent ≤ 14) cells.now }
    requires room { base + head + sum_by cell_cost cells.now + 2 ^ 14 * length names.now + 2 ^ 15 ≤ 2 ^ 64 }
    ensures { IfOk result
        (λ rows. AreRows names.now cells.now base head (length names.now) rows.segments.items rows.placed.items rows.address rows.offset) }
{
    let mut segments = Vec::new(alloc);
    let mut placed = Vec::new(alloc);
    let mut address = base;
    let mut offset = 0;
    for (number, name) in names.iter().enumerate() {
        let row = Row {
            name: *name,
            number: number as u32,
            front: front_at(head, number),
            address,
            offset,
        };
        let segment = place_row(cells, row, &mut placed)?;
        segments.push(segment)?;
        address += segment.size;
        offset += segment.file_size;
    }
    Ok(Rows {
        segments,
        placed,
        address,
        offset,
    })
}
