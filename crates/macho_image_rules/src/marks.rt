//! Which bytes of a section stand in no field, and the first of these that isn't the input's.
ghost use Rattle.std.specs.Prelude.{◌≡◌, ℕ, ◌+◌, ◌^◌, ◌<◌, ◌≤◌, true, false, length, get_or, None, IfOk, IfSome, slice_index};
ghost use Rattle.macho_records.specs.Sections.{is_zerofill};
ghost use Rattle.macho_model.specs.Fields.{is_prefix_type};
ghost use Rattle.macho_model.specs.Loader.{IsAccepted};
ghost use Rattle.macho_model.specs.Links.{Link, object_of};
ghost use Rattle.macho_model.specs.Objects.{num_sections, section_at, relocation_at};
ghost use Rattle.macho_image_rules.specs.Bytes.{IsMapped, SectionBytesAre, IsWrongByte};
ghost use Rattle.macho_image_rules.specs.steps.Marks.{MarkedMore, AreMarks};

use crate::bytes::{filed_bytes, first_nonzero};
use macho_model::{PlacedSection, PlacedSegment};
use macho_object::{File, RelocationList};
use macho_records::{
    ARM64_RELOC_ADDEND, ARM64_RELOC_SUBTRACTOR, RelocationInfo, SectionFlags, is_zerofill_type,
};
use std::alloc::{AllocError, Global};

/// Marks the bytes from one place up to another.
fn mark(marks: &mut [bool], from: usize, to: usize)
    requires order { from ≤ to }
    requires inside { to ≤ length marks.old }
    ensures { MarkedMore from to marks.old marks.new }
{
    for i in from..to {
        marks[i] = true;
    }
}

/// Marks the bytes of a relocation's field, unless the relocation is part of the field of the one behind it.
fn mark_field(marks: &mut [bool], relocation: RelocationInfo)
    requires inside { relocation.r_address + 2 ^ relocation.r_length ≤ length marks.old }
    requires bits { relocation.r_length < 4 }
    ensures field { is_prefix_type relocation.r_type ≡ false
        → MarkedMore relocation.r_address (relocation.r_address + 2 ^ relocation.r_length) marks.old marks.new }
    ensures prefix { is_prefix_type relocation.r_type ≡ true → marks.new ≡ marks.old }
{
    if relocation.r_type == ARM64_RELOC_SUBTRACTOR || relocation.r_type == ARM64_RELOC_ADDEND {
        return;
    }
    let from = relocation.r_address as usize;
    mark(marks, from, from + (1 << relocation.r_length));
}

/// Marks the bytes of a section, of which there are so many, that stand in a field.
fn mark_fields(list: &RelocationList<'_>, marks: &mut [bool])
    requires none { (k : ℕ) → get_or marks.old k false ≡ false }
    requires inside { (r : ℕ) → r < (section_at list.now.bytes list.now.section).nreloc
        → (relocation_at list.now.bytes list.now.section r).r_address + 2 ^ (relocation_at list.now.bytes list.now.section r).r_length
        ≤ length marks.old }
    ensures { AreMarks list.now.bytes list.now.section (section_at list.now.bytes list.now.section).nreloc (length marks.old) marks.new }
{
    for index in 0..list.num_relocations() {
        let Some(relocation) = list.get(index) else {
            unreachable!()
        };
        mark_field(marks, relocation);
    }
}

/// A byte of a list, 0 behind its end.
fn byte_or_zero(bytes: &[u8], i: usize) -> u8
    ensures { result ≡ slice_index bytes.now i }
{
    if i < bytes.len() { bytes[i] } else { 0 }
}

/// The first byte without a mark that isn't the wanted one.
fn first_other(marks: &[bool], wanted: &[u8], found: &[u8]) -> Option<usize>
    requires { length marks.now ≡ length wanted.now }
    ensures found { result ≡ None → (i : ℕ) → i < length wanted.now → get_or marks.now i false ≡ false
        → slice_index found.now i ≡ slice_index wanted.now i }
    ensures why { IfSome result (λ i. (i < length wanted.now) × (get_or marks.now i false ≡ false)
        × (slice_index found.now i ≡ slice_index wanted.now i → ⊥)) }
{
    for i in 0..wanted.len() {
        if !marks[i] && byte_or_zero(found, i) != wanted[i] {
            return Some(i);
        }
    }
    None
}

/// The marks of a section's bytes, of which there are so many: of those that stand in a field.
fn field_marks(
    alloc: Global,
    list: &RelocationList<'_>,
    size: usize,
) -> Result<Vec<bool>, AllocError>
    requires { (r : ℕ) → r < (section_at list.now.bytes list.now.section).nreloc
        → (relocation_at list.now.bytes list.now.section r).r_address + 2 ^ (relocation_at list.now.bytes list.now.section r).r_length
        ≤ size }
    ensures { IfOk result (λ v.
        AreMarks list.now.bytes list.now.section (section_at list.now.bytes list.now.section).nreloc size v.items) }
{
    let mut marks = vec![in alloc; false; size]?;
    mark_fields(list, &mut marks);
    Ok(marks)
}

/// The first byte of a section, which isn't zerofill and lies in a segment, that stands in no field and isn't the input's.
fn first_unlike(
    alloc: Global,
    image: &[u8],
    segment: PlacedSegment,
    file: &File<'_>,
    place: PlacedSection,
) -> Result<Option<u64>, AllocError>
    requires accepted { IsAccepted image.now }
    requires mapped { 0 < (section_at file.now.bytes place.section).size → IsMapped image.now segment }
    requires from { segment.address ≤ place.address }
    requires to { place.address + (section_at file.now.bytes place.section).size ≤ segment.address + segment.size }
    requires object { file.now.is_dynamic ≡ false }
    requires among { place.section < num_sections file.now.bytes }
    requires filled { is_zerofill (section_at file.now.bytes place.section) ≡ false }
    ensures found { (l : Link) → object_of l place.file ≡ file.now.bytes
        → IfOk result (λ r. r ≡ None → SectionBytesAre l image.now place) }
    ensures why { (l : Link) → object_of l place.file ≡ file.now.bytes → IfOk result (λ r. IfSome r (IsWrongByte l image.now place)) }
{
    let _object = file.is_dynamic();
    let (Some(bytes), Some(list)) = (
        file.section_bytes(place.section),
        file.relocations(place.section),
    ) else {
        unreachable!()
    };
    let marks = field_marks(alloc, &list, bytes.len())?;
    let found = filed_bytes(image, segment, place.address, bytes.len() as u64);
    match first_other(&marks, bytes, found) {
        Some(i) => Ok(Some(i as u64)),
        None => Ok(None),
    }
}

/// The first byte of a section, which lies in a segment, that stands in no field and isn't the input's; in zerofill one that isn't 0.
///
/// # Errors
///
/// There is not enough memory.
pub fn first_wrong_byte(
    alloc: Global,
    image: &[u8],
    segment: PlacedSegment,
    file: &File<'_>,
    place: PlacedSection,
) -> Result<Option<u64>, AllocError>
    requires accepted { IsAccepted image.now }
    requires mapped { 0 < (section_at file.now.bytes place.section).size → IsMapped image.now segment }
    requires from { segment.address ≤ place.address }
    requires to { place.address + (section_at file.now.bytes place.section).size ≤ segment.address + segment.size }
    requires object { file.now.is_dynamic ≡ false }
    requires among { place.section < num_sections file.now.bytes }
    ensures found { (l : Link) → object_of l place.file ≡ file.now.bytes
        → IfOk result (λ r. r ≡ None → SectionBytesAre l image.now place) }
    ensures why { (l : Link) → object_of l place.file ≡ file.now.bytes → IfOk result (λ r. IfSome r (IsWrongByte l image.now place)) }
{
    let _object = file.is_dynamic();
    let Some(header) = file.section(place.section) else {
        unreachable!()
    };
    if is_zerofill_type(SectionFlags(header.flags).typ()) {
        return Ok(first_nonzero(image, segment, place.address, header.size));
    }
    first_unlike(alloc, image, segment, file, place)
}
