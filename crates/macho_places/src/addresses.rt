//! Look-up of addresses in a placement: of a section by file and number, of a common by number, each in constant time.
//!
//! The table is built once, in the time of the placement's lists:
//!
//!     let addresses = Addresses::new(alloc, &placement)?;
//!     let address = addresses.section(0, 2);
ghost use Rattle.std.specs.Prelude.{ℕ, ◌≡◌, ◌<◌, [], get_or, length, map, IfOk, OnOk};
ghost use Rattle.macho_model.specs.Placement.{Placed};
ghost use Rattle.macho_model.specs.Addresses.{section_address};
ghost use Rattle.macho_layout.specs.Placements.{placed_of};
ghost use Rattle.macho_places.specs.Lookups.{rows_of, address_in, HoldsSections, AreAddresses};
ghost use Rattle.macho_places.specs.steps.Puts.{PutsInRow, Puts};

use indexmap::IndexMap;
use macho_layout::{PlacedCommon, PlacedSection, Placement};
use std::alloc::{AllocError, Global};

/// A section, by its file and its number there.
#[derive(Clone, Copy, PartialEq, Eq, Hash)]
pub struct SectionKey {
    /// The number of the file.
    pub file: u32,
    /// The number of the section in it, from 0.
    pub section: u32,
}

/// A section with a greater number has no place in a row: an object has up to 255 sections.
const ROW: u32 = 256;

/// So many files more than sections that are listed have a row.
const OTHER_FILES: usize = 65536;

/// The addresses of sections, 0 where there is none: in a row for each of the first files, and by their keys where the file or
/// the section has a number that is too great for that.
#[derive(Drop)]
struct SectionTable {
    rows: Vec<Vec<u64>>,
    others: IndexMap<SectionKey, u64>,
}

/// The addresses of a placement.
#[derive(Drop)]
pub struct Addresses {
    sections: SectionTable,
    commons: Vec<u64>,
}

/// How many files have a row: all up to the last section's, which has the greatest number where sections are listed by file.
/// A number that is much greater than that of sections makes no more rows.
fn row_count(sections: &[PlacedSection]) -> usize {
    match sections.last() {
        Some(last) => {
            let bound = sections.len().saturating_add(OTHER_FILES);
            (last.file as usize).saturating_add(1).min(bound)
        }
        None => 0,
    }
}

/// So many empty rows.
fn empty_rows(alloc: Global, many: usize) -> Result<Vec<Vec<u64>>, AllocError>
    ensures { IfOk result (λ rows. (file : ℕ) → get_or (rows_of rows.items) file [] ≡ []) }
{
    let mut rows = Vec::with_capacity(alloc, many)?;
    for done in 0..many {
        rows.push(Vec::new(alloc))?;
    }
    Ok(rows)
}

/// Lengthens a row by zeros, so that it has an element of a number.
fn lengthen(row: &mut Vec<u64>, section: usize) -> Result<(), AllocError>
    ensures long { OnOk result (section < length row.new.items) }
    ensures kept { OnOk result ((k : ℕ) → get_or row.new.items k 0 ≡ get_or row.old.items k 0) }
{
    let long = section.saturating_add(1);
    row.reserve_exact(long.saturating_sub(row.len()))?;
    while row.len() <= section {
        row.push(0)?;
    }
    Ok(())
}

/// Puts an address into a row.
fn put_in_row(row: &mut Vec<u64>, section: usize, address: u64) -> Result<(), AllocError>
    ensures { OnOk result (PutsInRow row.old.items row.new.items section address) }
{
    lengthen(row, section)?;
    row[section] = address;
    Ok(())
}

impl SectionTable {
    /// A table of no section.
    fn new(alloc: Global, many: usize) -> Result<SectionTable, AllocError>
        ensures { IfOk result (λ table. (file section : ℕ) → address_in table file section ≡ 0) }
    {
        Ok(SectionTable {
            rows: empty_rows(alloc, many)?,
            others: IndexMap::new(alloc),
        })
    }

    /// Puts the address of a section, over one that was there.
    fn put(&mut self, file: u32, section: u32, address: u64) -> Result<(), AllocError>
        ensures { OnOk result (Puts self.old self.new file section address) }
    {
        if (file as usize) < self.rows.len() && section < ROW {
            put_in_row(&mut self.rows[file as usize], section as usize, address)?;
            return Ok(());
        }
        self.others.insert(SectionKey { file, section }, address)?;
        Ok(())
    }

    /// The address of a section; 0 where there is none.
    fn address(&self, file: u32, section: u32) -> u64
        ensures { result ≡ address_in self.now file section }
    {
        if section < ROW {
            if let Some(row) = self.rows.get(file as usize) {
                return numbered(row, section);
            }
        }
        match self.others.get(&SectionKey { file, section }) {
            Some(address) => *address,
            None => 0,
        }
    }
}

/// The addresses of sections; of a section that is listed twice, the first.
fn section_table(alloc: Global, sections: &[PlacedSection]) -> Result<SectionTable, AllocError>
    ensures { IfOk result (λ table. HoldsSections table sections.now) }
{
    let mut table = SectionTable::new(alloc, row_count(sections))?;
    let many = sections.len();
    for done in 0..many {
        let one = &sections[many - 1 - done];
        table.put(one.file, one.section, one.address)?;
    }
    Ok(table)
}

/// The addresses of commons.
fn common_list(alloc: Global, commons: &[PlacedCommon]) -> Result<Vec<u64>, AllocError>
    ensures { IfOk result (λ list. list.items ≡ map (λ c. c.address) commons.now) }
{
    let mut list = Vec::new(alloc);
    for common in commons {
        list.push(common.address)?;
    }
    Ok(list)
}

/// An element by its number, 0 past the end.
fn numbered(list: &[u64], number: u32) -> u64
    ensures { result ≡ get_or list.now number 0 }
{
    match list.get(number as usize) {
        Some(address) => *address,
        None => 0,
    }
}

impl Addresses {
    /// The addresses of a placement.
    ///
    /// # Errors
    ///
    /// `AllocError` where memory ran out, and only there.
    pub fn new(alloc: Global, placement: &Placement) -> Result<Addresses, AllocError>
        ensures { IfOk result (λ a. AreAddresses a (placed_of placement.now)) }
    {
        Ok(Addresses {
            sections: section_table(alloc, &placement.sections)?,
            commons: common_list(alloc, &placement.commons)?,
        })
    }

    /// The address of a section; 0 where it has no place.
    pub fn section(&self, file: u32, section: u32) -> u64
        ensures { (q : Placed) → AreAddresses self.now q → result ≡ section_address q file section }
    {
        self.sections.address(file, section)
    }

    /// The address of a common by its place in the placement's list, which is its number; 0 past the end.
    pub fn common(&self, number: u32) -> u64
        ensures { (q : Placed) → AreAddresses self.now q → result ≡ get_or (map (λ c. c.address) q.commons) number 0 }
    {
        numbered(&self.commons, number)
    }
}
