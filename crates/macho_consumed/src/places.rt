//! The relocations of a consumed section, by place: none, one or several at each multiple of 8, and the least address of one that
//! stands elsewhere.
//!
//! The table can be made of any section, so that whoever goes through it tells the first place that is broken.
ghost use Rattle.std.specs.Prelude.{◌≡◌, ◌≢◌, true, false, ℕ, List, ◌+◌, ◌/◌, ◌<◌, ◌++◌, ◌∷◌, [], replicate, MatchOption, IfOk};
ghost use Rattle.macho_model.specs.Objects.{section_at, relocation_at};
ghost use Rattle.macho_model.specs.Consumed.{is_plain_pointer};
ghost use Rattle.macho_consumed.specs.declared.places.Cell.TheVariants as Cell;
ghost use Rattle.macho_consumed.specs.steps.Places.{CellTells, IsTable, IsLeast, IsBetween, NoneBelow, ArePlaces};

use macho_object::RelocationList;
use macho_records::{ARM64_RELOC_UNSIGNED, RelocationInfo};
use std::alloc::{AllocError, Global};

/// The relocations at a place.
#[derive(Clone, Copy)]
pub(crate) enum Cell {
    /// There is none.
    Empty,
    /// There is one, by its number in the section's table, from 0.
    One(u32),
    /// There are two or more.
    Several,
}

impl Cell {
    /// Whether nothing stands there.
    pub(crate) fn is_empty(self) -> bool
        ensures empty { result ≡ true → self ≡ Cell.Empty }
        ensures some { result ≡ false → self ≢ Cell.Empty }
    {
        match self {
            Cell::Empty => true,
            Cell::One(_) | Cell::Several => false,
        }
    }
}

/// The relocations of a section, by place.
#[derive(Drop)]
pub(crate) struct Places {
    /// What stands at each multiple of 8, in units of 8 bytes.
    pub(crate) cells: Vec<Cell>,
    /// The least address of one that stands at no multiple of 8.
    pub(crate) between: Option<u32>,
}

impl Places {
    /// The least address of a relocation that stands at no multiple of 8, if it is below a bound.
    pub(crate) fn between_below(&self, bound: u64) -> Option<u32>
        ensures { (b : List ℕ) (k : ℕ) → ArePlaces b k self.now
            → MatchOption result (NoneBelow b k (section_at b k).nreloc bound)
            (λ a. IsBetween b k (section_at b k).nreloc a × (a < bound)) }
    {
        match self.between {
            Some(address) if u64::from(address) < bound => Some(address),
            Some(_) | None => None,
        }
    }
}

/// Whether a relocation is a pointer of 8 bytes.
pub fn is_plain_pointer(relocation: RelocationInfo) -> bool
    ensures { result ≡ is_plain_pointer relocation }
{
    relocation.r_type == ARM64_RELOC_UNSIGNED && relocation.r_length == 3 && !relocation.r_pcrel
}

/// A cell with a relocation more.
fn with(cell: Cell, number: u32) -> Cell
    ensures { (xs : List ℕ) → CellTells xs cell → CellTells (xs ++ number ∷ []) result }
{
    match cell {
        Cell::Empty => Cell::One(number),
        Cell::One(_) | Cell::Several => Cell::Several,
    }
}

/// The least address that is no multiple of 8, with an address more.
fn least(between: Option<u32>, address: u32) -> Option<u32>
    ensures { (b : List ℕ) (k n : ℕ) → IsLeast b k n between → address ≡ (relocation_at b k n).r_address → IsLeast b k (n + 1) result }
{
    if address % 8 == 0 {
        return between;
    }
    match between {
        Some(before) if before <= address => Some(before),
        Some(_) | None => Some(address),
    }
}

/// Notes a relocation at its place, if it has one.
fn note(cells: &mut Vec<Cell>, address: u32, number: u32)
    ensures { (b : List ℕ) (k : ℕ) → IsTable b k number cells.old.items → address ≡ (relocation_at b k number).r_address
        → IsTable b k (number + 1) cells.new.items }
{
    if address % 8 != 0 {
        return;
    }
    let place = address as usize / 8;
    if place >= cells.len() {
        return;
    }
    cells[place] = with(cells[place], number);
}

/// So many places without a relocation.
fn empty_places(alloc: Global, count: usize) -> Result<Vec<Cell>, AllocError>
    ensures { IfOk result (λ v. v.items ≡ replicate count Cell.Empty) }
{
    let mut cells = Vec::with_capacity(alloc, count)?;
    for place in 0..count {
        cells.push(Cell::Empty)?;
    }
    Ok(cells)
}

/// The relocations of a section of so many bytes.
pub(crate) fn by_place(
    alloc: Global,
    relocations: &RelocationList<'_>,
    size: u64,
) -> Result<Places, AllocError>
    requires size { size ≡ (section_at relocations.now.bytes relocations.now.section).size }
    ensures { IfOk result (ArePlaces relocations.now.bytes relocations.now.section) }
{
    let mut cells = empty_places(alloc, (size / 8) as usize)?;
    let mut between = None;
    for index in 0..relocations.num_relocations() {
        let Some(relocation) = relocations.get(index) else {
            unreachable!()
        };
        note(&mut cells, relocation.r_address, index);
        between = least(between, relocation.r_address);
    }
    Ok(Places { cells, between })
}
