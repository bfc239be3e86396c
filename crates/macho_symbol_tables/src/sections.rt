//! The numbers of output sections, by which symbols tell where they stand. There are at most 255.
//!
//! A table has them by what sections are merged by. The output section of each section of an object is looked up once, before the rows of
//! symbols are made:
//!
//! ```text
//! sections of an object     __text   __compact_unwind   __data
//! their output sections          1                  0        4   ->   a symbol whose n_sect is 3 stands in output section 4
//! ```
ghost use Rattle.std.specs.Prelude.{◌≡◌, ◌<◌, ◌≤◌, nat_lt, ◌&&◌, false, length, map, get_or, unwrap_or, Some, IfOk, codes};
ghost use Rattle.indexmap.specs.IndexMap.{get};
ghost use Rattle.macho_bytes.specs.Texts.{name_of};
ghost use Rattle.macho_records.specs.declared.constants.TheConstants.{S_ZEROFILL};
ghost use Rattle.macho_model.specs.Segments.{DATA, common_key};
ghost use Rattle.macho_model.specs.Placement.{Placed};
ghost use Rattle.macho_object.specs.Views.{FileBytes};
ghost use Rattle.macho_layout.specs.Keys.{same_output};
ghost use Rattle.macho_layout.specs.Placements.{placed_of};
ghost use Rattle.macho_symbol_tables.specs.steps.Sections.{begins_at, fills, holds_slots, is_made, output_name, merged_name, FindsNumbers, number_told, number_with, header_with, section_told, sections_told, objects_told, AreNumbers};

use indexmap::IndexMap;
use macho_layout::{OutputName, Placement};
use macho_linkedit::LinkedObject;
use macho_model::{Range64, Slot};
use macho_object::File;
use macho_records::{
    S_ZEROFILL, SectionFlags, SectionHeader, SegmentName, SymtabEntry, name_bytes,
};
use macho_symbol_names::{is_absolute, is_common};
use std::alloc::{AllocError, Global};

/// The numbers of the output sections that the sections of some objects, and commons, are merged into; 0 where there is none.
#[derive(Drop)]
pub(crate) struct SectionNumbers {
    /// Those of each object's sections, in order.
    pub(crate) objects: Vec<Vec<u8>>,
    /// That of commons.
    pub(crate) commons: u8,
}

/// What the section of a header is merged by: those of one segment, name and type become one output section.
fn merged_by(header: &SectionHeader) -> OutputName
    ensures { result ≡ merged_name header.now }
{
    OutputName {
        segment: SegmentName::from_bytes(&header.segname),
        name: SegmentName::from_bytes(&header.sectname),
        kind: SectionFlags(header.flags).typ(),
    }
}

/// What commons are merged by.
fn common_name() -> OutputName
    ensures { result ≡ output_name DATA (codes "__common") S_ZEROFILL }
{
    OutputName {
        segment: SegmentName::DATA,
        name: SegmentName::from_bytes(b"__common"),
        kind: S_ZEROFILL,
    }
}

/// Whether an output section of a segment begins at an address, and has bytes.
fn begins_at(header: &SectionHeader, segment: &[u8], address: u64) -> bool
    ensures { result ≡ begins_at header.now segment.now address }
{
    name_bytes(&header.segname) == segment && header.addr == address && header.size != 0
}

/// Whether an output section is that of a range that the linker fills.
fn fills(header: &SectionHeader, range: Range64) -> bool
    ensures { result ≡ fills header.now range }
{
    range.start < range.end && begins_at(header, b"__TEXT", range.start)
}

/// Whether an output section is that of the slots.
fn holds_slots(header: &SectionHeader, slots: &[Slot]) -> bool
    ensures { result ≡ holds_slots header.now slots.now }
{
    match slots.first() {
        Some(slot) => begins_at(header, b"__DATA_CONST", slot.address),
        None => false,
    }
}

/// Whether the linker makes an output section. Stubs tell their size.
fn is_made(placement: &Placement, header: &SectionHeader) -> bool
    ensures { result ≡ is_made (placed_of placement.now) header.now }
{
    header.reserved2 != 0
        || fills(header, placement.init_offsets)
        || fills(header, placement.unwind)
        || holds_slots(header, &placement.slots)
}

/// The numbers of output sections from 1 in the order of section headers, by what sections are merged by. The linker makes the others.
fn numbers_by_name(
    alloc: Global,
    placement: &Placement,
) -> Result<IndexMap<OutputName, u8>, AllocError>
    requires { length placement.now.output_sections.items ≤ 255 }
    ensures { IfOk result (λ numbers. FindsNumbers (placed_of placement.now) (get same_output numbers)) }
{
    let headers = placement.output_sections.as_slice();
    let many = headers.len();
    let mut numbers = IndexMap::new(alloc);
    for done in 0..many {
        // of several with one name the first is put in last
        let index = many - 1 - done;
        let header = &headers[index];
        if !is_made(placement, header) {
            numbers.insert(merged_by(header), (index + 1) as u8)?;
        }
    }
    Ok(numbers)
}

/// The number of an output section; 0 where there is none.
fn number_of(numbers: &IndexMap<OutputName, u8>, name: &OutputName) -> u8
    ensures { result ≡ unwrap_or (get same_output numbers.now name.now) 0 }
{
    match numbers.get(name) {
        Some(number) => *number,
        None => 0,
    }
}

/// The number of the output section that a section of an object is merged into; 0 where there is none.
fn number_of_section(numbers: &IndexMap<OutputName, u8>, file: &File<'_>, section: u32) -> u8
    ensures { (p : Placed) → FindsNumbers p (get same_output numbers.now) → result ≡ number_with p (header_with file.now (Some section)) }
{
    match file.section(section) {
        Some(header) => number_of(numbers, &merged_by(&header)),
        None => 0,
    }
}

/// The numbers of the output sections that the sections of an object are merged into, in order.
fn numbers_of_sections(
    alloc: Global,
    by_name: &IndexMap<OutputName, u8>,
    file: &File<'_>,
) -> Result<Vec<u8>, AllocError>
    ensures { (p : Placed) → FindsNumbers p (get same_output by_name.now)
        → IfOk result (λ numbers. numbers.items ≡ sections_told p file.now) }
{
    let count = file.num_sections();
    let mut numbers = Vec::with_capacity(alloc, count as usize)?;
    for section in 0..count {
        numbers.push(number_of_section(by_name, file, section))?;
    }
    Ok(numbers)
}

/// The same for each object.
fn numbers_of_objects(
    alloc: Global,
    by_name: &IndexMap<OutputName, u8>,
    objects: &[LinkedObject<'_>],
) -> Result<Vec<Vec<u8>>, AllocError>
    ensures { (p : Placed) → FindsNumbers p (get same_output by_name.now)
        → IfOk result (λ all. map (λ numbers. numbers.items) all.items ≡ objects_told p objects.now) }
{
    let mut all = Vec::with_capacity(alloc, objects.len())?;
    for object in objects {
        all.push(numbers_of_sections(alloc, by_name, &object.file)?)?;
    }
    Ok(all)
}

/// The numbers of the output sections of objects' sections and of commons.
pub(crate) fn section_numbers(
    alloc: Global,
    placement: &Placement,
    objects: &[LinkedObject<'_>],
) -> Result<SectionNumbers, AllocError>
    requires { length placement.now.output_sections.items ≤ 255 }
    ensures { IfOk result (AreNumbers (placed_of placement.now) objects.now) }
{
    let by_name = numbers_by_name(alloc, placement)?;
    let objects = numbers_of_objects(alloc, &by_name, objects)?;
    Ok(SectionNumbers {
        objects,
        commons: number_of(&by_name, &common_name()),
    })
}

/// The number at a place; 0 past the end.
fn number_at(numbers: &[u8], place: usize) -> u8
    ensures { result ≡ get_or numbers.now place 0 }
{
    match numbers.get(place) {
        Some(number) => *number,
        None => 0,
    }
}

/// The number of the output section that a symbol of an object stands in, by those of the object's sections and that of commons; 0 for a
/// value of its own.
pub(crate) fn section_of_symbol(symbol: SymtabEntry, numbers: &[u8], commons: u8) -> u8
    ensures { (p : Placed) (f : FileBytes) → numbers.now ≡ sections_told p f → commons ≡ number_told p common_key
        → result ≡ section_told p f symbol }
{
    if is_common(symbol) {
        return commons;
    }
    if is_absolute(symbol) {
        return 0;
    }
    number_at(numbers, symbol.n_sect.saturating_sub(1) as usize)
}
