//! The fields of a section in given bytes, checked against what they are to say.
//!
//! A BL at 0x100004000 to a function at 0x100004010 is right with the bytes `04 00 00 94`, and wrong with `05 00 00 94`, which
//! goes 4 bytes too far, or with `04 00 00 14`, which is no BL. A pointer that the loader writes isn't looked at: what its
//! bytes say is told by the chain that they are part of.
ghost use Rattle.std.specs.Prelude.{◌≡◌, ℕ, ◌+◌, ◌^◌, ◌<◌, ◌≤◌, false, true, length, IfNone, IfSome};
ghost use Rattle.macho_records.specs.Sections.{is_zerofill};
ghost use Rattle.macho_model.specs.Objects.{num_sections, num_symbols, section_at};
ghost use Rattle.macho_model.specs.Links.{Link};
ghost use Rattle.macho_model.specs.Placement.{Placed};
ghost use Rattle.macho_fields.specs.Filling.{IsToFill};
ghost use Rattle.macho_fields.specs.Reads.{PlainFieldsRead, IsFirstWrong};
ghost use Rattle.macho_fields.specs.steps.Fields.{seen, IsNear};
ghost use Rattle.macho_fields.specs.steps.Filled.{IsSource};
ghost use Rattle.macho_fields.specs.steps.Reads.{IsJudged, ReadTo, IsWrong};

use crate::asking::asks;
use crate::decoding::holds;
use crate::field::{Field, Near, near_at, read_field};
use crate::kinds::is_prefix;
use crate::making::written_of;
use crate::places::Places;
use crate::source::{Source, source_of};
use macho_model::PlacedSection;
use macho_object::File;

/// Whether the bytes of a field don't hold what is to be written to it.
fn is_wrong_field<P: Places>(
    places: &P,
    source: &Source<'_, '_>,
    field: &Field,
    bytes: &[u8],
) -> bool
    requires low { source.now.place.address + field.now.offset < 2 ^ 64 }
    requires long { length bytes.now ≡ length source.now.bytes.now }
    ensures { IsJudged (P.look places.now) source.now.descriptors source.now.place (seen field.now) source.now.bytes.now bytes.now result }
{
    if asks(places, field, source.descriptors) {
        return false;
    }
    let write = written_of(places, source.place, field, source.descriptors);
    !holds(&write, source.bytes, bytes)
}

/// Whether the field of a relocation is wrong.
fn is_wrong<P: Places>(places: &P, source: &Source<'_, '_>, near: &Near, bytes: &[u8]) -> bool
    requires source { IsSource source.now }
    requires near { IsNear source.now.list.bytes source.now.list.section near.now.index near.now }
    requires index { near.now.index < (section_at source.now.file.now.bytes source.now.place.section).nreloc }
    requires symbols { (s : ℕ) → s < num_symbols source.now.file.now.bytes → P.has_symbol places.now source.now.place.file s }
    requires long { length bytes.now ≡ length source.now.bytes.now }
    ensures right { (l : Link) (p : Placed) → IsToFill l p source.now.place (P.look places.now) source.now.file.now.bytes
        → result ≡ false
        → ReadTo l p source.now.place near.now.index bytes.now → ReadTo l p source.now.place (near.now.index + 1) bytes.now }
    ensures wrong { (l : Link) (p : Placed) → IsToFill l p source.now.place (P.look places.now) source.now.file.now.bytes
        → result ≡ true → IsWrong l p source.now.place near.now.index bytes.now }
{
    if is_prefix(near.relocation.r_type) {
        return false;
    }
    let field = read_field(places, source.place.file, source.file, source.bytes, near);
    is_wrong_field(places, source, &field, bytes)
}

/// The first relocation whose field is wrong.
fn first_wrong<P: Places>(places: &P, source: &Source<'_, '_>, bytes: &[u8]) -> Option<u32>
    requires source { IsSource source.now }
    requires symbols { (s : ℕ) → s < num_symbols source.now.file.now.bytes → P.has_symbol places.now source.now.place.file s }
    requires long { length bytes.now ≡ length source.now.bytes.now }
    ensures found { (l : Link) (p : Placed) → IsToFill l p source.now.place (P.look places.now) source.now.file.now.bytes
        → IfNone result (PlainFieldsRead l p source.now.place bytes.now) }
    ensures why { (l : Link) (p : Placed) → IsToFill l p source.now.place (P.look places.now) source.now.file.now.bytes
        → IfSome result (IsFirstWrong l p source.now.place bytes.now) }
{
    let mut previous = None;
    for index in 0..source.list.num_relocations() {
        let near = near_at(&source.list, index, previous);
        if is_wrong(places, source, &near, bytes) {
            return Some(index);
        }
        previous = Some(near.relocation);
    }
    None
}

/// The relocation of the first field of a section that doesn't say its target and addend in given bytes, None where all do.
/// Pointers that the loader has to write are passed over.
///
/// `bytes` is the part of an image that is the section's, as long as the section is.
pub fn first_wrong_field<P: Places>(
    places: &P,
    file: &File<'_>,
    place: PlacedSection,
    bytes: &[u8],
) -> Option<u32>
    requires object { file.now.is_dynamic ≡ false }
    requires among { place.section < num_sections file.now.bytes }
    requires filled { is_zerofill (section_at file.now.bytes place.section) ≡ false }
    requires long { length bytes.now ≡ (section_at file.now.bytes place.section).size }
    requires low { place.address + length bytes.now ≤ 2 ^ 64 }
    requires symbols { (s : ℕ) → s < num_symbols file.now.bytes → P.has_symbol places.now place.file s }

    // None is told only where all say it, and the one that is told is the first that doesn't.
    ensures found { (l : Link) (p : Placed) → IsToFill l p place (P.look places.now) file.now.bytes
        → IfNone result (PlainFieldsRead l p place bytes.now) }
    ensures why { (l : Link) (p : Placed) → IsToFill l p place (P.look places.now) file.now.bytes
        → IfSome result (IsFirstWrong l p place bytes.now) }
{
    let source = source_of(file, place);
    first_wrong(places, &source, bytes)
}
