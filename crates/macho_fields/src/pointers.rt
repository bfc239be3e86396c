//! The pointers of a section that the loader writes, told and not written.
//!
//! A pointer of 8 bytes at 0x100008010 to a function at 0x100004010 moves with the image, so the loader writes it: it is told
//! with its address, its target and its addend. An offset in the thread-local template stands in the bytes, and is none.
ghost use Rattle.std.specs.Prelude.{◌≡◌, ℕ, ◌+◌, ◌^◌, ◌<◌, ◌≤◌, ◌++◌, List, false, OnOk};
ghost use Rattle.macho_records.specs.Sections.{is_zerofill};
ghost use Rattle.macho_model.specs.Objects.{num_sections, num_symbols, section_at};
ghost use Rattle.macho_model.specs.Links.{Link};
ghost use Rattle.macho_model.specs.Placement.{Placed};
ghost use Rattle.macho_fields.specs.declared.pointers.Pointer.{Pointer};
ghost use Rattle.macho_fields.specs.Filling.{IsToFill};
ghost use Rattle.macho_fields.specs.Pointers.{pointer_of, pointers_in};
ghost use Rattle.macho_fields.specs.steps.Fields.{seen, IsNear};
ghost use Rattle.macho_fields.specs.steps.Filled.{IsSource};
ghost use Rattle.macho_fields.specs.steps.Pointers.{IsNoted, ArePointersTo};

use crate::asking::asks;
use crate::field::{Field, Near, near_at, read_field};
use crate::kinds::is_prefix;
use crate::places::Places;
use crate::source::{Source, source_of};
use macho_model::{PlacedSection, Target};
use macho_object::File;
use std::alloc::AllocError;

/// A pointer that the loader writes.
#[derive(Clone, Copy, Drop)]
pub struct Pointer {
    /// The number of its object among the inputs, from 0.
    pub file: u32,
    /// The number of its section in the object, from 0.
    pub section: u32,
    /// The number of its relocation in the section's table, from 0.
    pub relocation: u32,
    /// Its address in the image, before any slide.
    pub address: u64,
    /// What it points to.
    pub target: Target,
    /// What it adds, modulo 2^64.
    pub addend: u64,
}

/// The pointer that a field of a section is.
fn pointer_of(place: PlacedSection, field: &Field) -> Pointer
    requires low { place.address + field.now.offset < 2 ^ 64 }
    ensures { result ≡ pointer_of place (seen field.now) }
{
    Pointer {
        file: place.file,
        section: place.section,
        relocation: field.relocation,
        address: place.address + u64::from(field.offset),
        target: field.target,
        addend: field.addend,
    }
}

/// Pushes a field that the loader writes.
fn push_field<P: Places>(
    places: &P,
    source: &Source<'_, '_>,
    field: &Field,
    run: &mut Vec<Pointer>,
) -> Result<(), AllocError>
    requires low { source.now.place.address + field.now.offset < 2 ^ 64 }
    ensures done { OnOk result (IsNoted (P.look places.now) source.now.descriptors source.now.place (seen field.now)
        run.old.items run.new.items) }
{
    if asks(places, field, source.descriptors) {
        run.push(pointer_of(source.place, field))?;
    }
    Ok(())
}

/// Takes care of a relocation of a section.
fn push_one<P: Places>(
    places: &P,
    source: &Source<'_, '_>,
    near: &Near,
    run: &mut Vec<Pointer>,
) -> Result<(), AllocError>
    requires source { IsSource source.now }
    requires near { IsNear source.now.list.bytes source.now.list.section near.now.index near.now }
    requires index { near.now.index < (section_at source.now.file.now.bytes source.now.place.section).nreloc }
    requires symbols { (s : ℕ) → s < num_symbols source.now.file.now.bytes → P.has_symbol places.now source.now.place.file s }
    ensures done { (l : Link) (p : Placed) (asked : List Pointer)
        → IsToFill l p source.now.place (P.look places.now) source.now.file.now.bytes
        → ArePointersTo l source.now.place near.now.index asked run.old.items
        → OnOk result (ArePointersTo l source.now.place (near.now.index + 1) asked run.new.items) }
{
    if is_prefix(near.relocation.r_type) {
        return Ok(());
    }
    let field = read_field(places, source.place.file, source.file, source.bytes, near);
    push_field(places, source, &field, run)
}

/// Takes care of all relocations of a section, in their order.
fn push_all<P: Places>(
    places: &P,
    source: &Source<'_, '_>,
    run: &mut Vec<Pointer>,
) -> Result<(), AllocError>
    requires source { IsSource source.now }
    requires symbols { (s : ℕ) → s < num_symbols source.now.file.now.bytes → P.has_symbol places.now source.now.place.file s }
    ensures done { (l : Link) (p : Placed) → IsToFill l p source.now.place (P.look places.now) source.now.file.now.bytes
        → OnOk result (ArePointersTo l source.now.place (section_at source.now.file.now.bytes source.now.place.section).nreloc
        run.old.items run.new.items) }
{
    let mut previous = None;
    for index in 0..source.list.num_relocations() {
        let near = near_at(&source.list, index, previous);
        push_one(places, source, &near, run)?;
        previous = Some(near.relocation);
    }
    Ok(())
}

/// Pushes each pointer of a section that the loader has to write, in the order of its relocations.
///
/// # Errors
///
/// There is not enough memory. Some of the pointers were pushed then.
pub fn pointers_of<P: Places>(
    places: &P,
    file: &File<'_>,
    place: PlacedSection,
    run: &mut Vec<Pointer>,
) -> Result<(), AllocError>
    requires object { file.now.is_dynamic ≡ false }
    requires among { place.section < num_sections file.now.bytes }
    requires filled { is_zerofill (section_at file.now.bytes place.section) ≡ false }
    requires low { place.address + (section_at file.now.bytes place.section).size ≤ 2 ^ 64 }
    requires symbols { (s : ℕ) → s < num_symbols file.now.bytes → P.has_symbol places.now place.file s }
    ensures done { (l : Link) (p : Placed) → IsToFill l p place (P.look places.now) file.now.bytes
        → OnOk result (run.new.items ≡ run.old.items ++ pointers_in l place) }
{
    let source = source_of(file, place);
    push_all(places, &source, run)
}
