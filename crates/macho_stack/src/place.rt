//! Cells one behind the other, by rank, and in a rank as they are given.
ghost use Rattle.std.specs.Prelude.{◌≡◌, ℕ, ◌+◌, ◌-◌, ◌^◌, ◌<◌, ◌≤◌, ◌++◌, length, sum_by, All, IfOk, filter};
ghost use Rattle.macho_stack.specs.Costs.{MOST_EXPONENT};
ghost use Rattle.macho_stack.specs.Ranks.{AddsCells, cell_cost, has_rank, of_ranks, HasStarts};

use crate::members::aligned;
use std::alloc::{AllocError, Global};

/// A cell.
#[derive(Clone, Copy)]
pub struct Cell {
    /// Its number.
    pub number: u32,
    /// Its rank: cells of a lower rank stand before it.
    pub rank: u32,
    /// Its alignment, as an exponent of 2.
    pub exponent: u8,
    /// Its bytes.
    pub size: u64,
}

/// A cell with its place.
#[derive(Clone, Copy)]
pub struct PlacedCell {
    /// The cell.
    pub cell: Cell,
    /// The place of its first byte.
    pub start: u64,
}

/// Places the cells of a rank, and gives the place behind the last one.
fn place_rank(
    cells: &[Cell],
    rank: u32,
    start: u64,
    placed: &mut Vec<PlacedCell>,
) -> Result<u64, AllocError>
    requires small { All (λ c. c.exponent ≤ MOST_EXPONENT) cells.now }
    requires room { start + sum_by cell_cost (filter (has_rank rank) cells.now) + 2 ^ MOST_EXPONENT ≤ 2 ^ 64 }
    ensures { IfOk result (λ end. AddsCells (filter (has_rank rank) cells.now) start placed.old.items placed.new.items end) }
{
    let mut place = start;
    for cell in cells {
        if cell.rank == rank {
            let start = aligned(place, cell.exponent);
            placed.push(PlacedCell { cell: *cell, start })?;
            place = start + cell.size;
        }
    }
    Ok(place)
}

/// Places the cells of so many ranks from the first one on, and gives the place behind the last cell.
pub fn place_ranks(
    cells: &[Cell],
    first: u32,
    count: u32,
    start: u64,
    placed: &mut Vec<PlacedCell>,
) -> Result<u64, AllocError>
    requires ranks { first + count < 2 ^ 32 }
    requires small { All (λ c. c.exponent ≤ MOST_EXPONENT) cells.now }
    requires room { start + sum_by cell_cost (of_ranks first count cells.now) + 2 ^ MOST_EXPONENT ≤ 2 ^ 64 }
    ensures { IfOk result (λ end. AddsCells (of_ranks first count cells.now) start placed.old.items placed.new.items end) }
{
    let mut place = start;
    for rank in 0..count {
        place = place_rank(cells, first + rank, place, placed)?;
    }
    Ok(place)
}

/// The starts of so many cells by their numbers; 0 for one that isn't placed.
pub fn starts(alloc: Global, count: usize, placed: &[PlacedCell]) -> Result<Vec<u64>, AllocError>
    requires { All (λ q. q.cell.number < count) placed.now }
    ensures { IfOk result (λ starts. HasStarts count placed.now starts.items) }
{
    let mut starts = vec![in alloc; 0; count]?;
    for one in placed {
        starts[one.cell.number as usize] = one.start;
    }
    Ok(starts)
}
