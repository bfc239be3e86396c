//! The fault that is told of a section: of all that stand in it, and one from elsewhere, the first in the order of refusals.
ghost use Rattle.std.specs.Prelude.{◌≡◌, ℕ, ◌+◌, ◌^◌, ◌<◌, ◌≤◌, ◌⊎◌, false, length, IfSome};
ghost use Rattle.macho_records.specs.Sections.{is_zerofill};
ghost use Rattle.macho_model.specs.Objects.{num_sections, num_symbols, section_at};
ghost use Rattle.macho_model.specs.Links.{Link};
ghost use Rattle.macho_model.specs.Placement.{Placed};
ghost use Rattle.macho_fields.specs.Filling.{IsToFill};
ghost use Rattle.macho_fields.specs.Faults.{FillStands};
ghost use Rattle.macho_fields.specs.steps.Fields.{seen, IsNear};
ghost use Rattle.macho_fields.specs.steps.Filled.{IsSource, IsStopped};

use crate::asking::asks;
use crate::fault::FillFault;
use crate::field::{Field, Near, near_at, read_field};
use crate::making::{fault_of, word_of, written_of};
use crate::places::Places;
use crate::source::{Source, source_of};
use crate::write::write_fault;
use macho_model::{PlacedSection, Site};
use macho_object::File;
use macho_records::ARM64_RELOC_UNSIGNED;

/// Where a fault stands in the order of refusals: a bad place, then a value that has no word, then one that doesn't fit; a
/// field's before a slot's, and that before a stub's.
fn rank(fault: FillFault) -> u8 {
    match fault {
        FillFault::Place { .. } => 0,
        FillFault::Rebase {
            at: Site::Field { .. },
        } => 1,
        FillFault::Rebase { .. } => 2,
        FillFault::Range {
            at: Site::Field { .. },
        } => 3,
        _ => 4,
    }
}

/// Of two faults the one that is told: the first in the order of refusals, and of one rank the first of the two.
fn lesser(told: FillFault, other: FillFault) -> FillFault
    ensures { (result ≡ told) ⊎ (result ≡ other) }
{
    if rank(other) < rank(told) {
        other
    } else {
        told
    }
}

/// Why the field of a pointer or a difference can't be filled, None where it can.
fn field_fault<P: Places>(places: &P, source: &Source<'_, '_>, field: &Field) -> Option<FillFault>
    requires low { source.now.place.address + field.now.offset < 2 ^ 64 }
    requires number { field.now.r_type ≡ ARM64_RELOC_UNSIGNED }
    ensures { IfSome result (IsStopped (P.look places.now) source.now.descriptors source.now.place (seen field.now) source.now.bytes.now) }
{
    if asks(places, field, source.descriptors) {
        return match word_of(places, source.place, field) {
            Ok(_) => None,
            Err(fault) => Some(fault),
        };
    }
    let write = written_of(places, source.place, field, source.descriptors);
    match write_fault(&write, source.bytes) {
        Some(fault) => Some(fault_of(fault, source.place, field)),
        None => None,
    }
}

/// Why a pointer can't be filled, None where it can or the relocation is of another type: what else can't be filled is out of
/// range, and of such fields the first one was met already.
fn relocation_fault<P: Places>(
    places: &P,
    source: &Source<'_, '_>,
    near: &Near,
) -> Option<FillFault>
    requires source { IsSource source.now }
    requires near { IsNear source.now.list.bytes source.now.list.section near.now.index near.now }
    requires index { near.now.index < (section_at source.now.file.now.bytes source.now.place.section).nreloc }
    requires symbols { (s : ℕ) → s < num_symbols source.now.file.now.bytes → P.has_symbol places.now source.now.place.file s }
    ensures { (l : Link) (p : Placed) → IsToFill l p source.now.place (P.look places.now) source.now.file.now.bytes
        → IfSome result (FillStands l p) }
{
    if near.relocation.r_type != ARM64_RELOC_UNSIGNED {
        return None;
    }
    let field = read_field(places, source.place.file, source.file, source.bytes, near);
    field_fault(places, source, &field)
}

/// The fault that is told of all relocations of a section and another one.
fn relocations_fault<P: Places>(places: &P, source: &Source<'_, '_>, told: FillFault) -> FillFault
    requires source { IsSource source.now }
    requires symbols { (s : ℕ) → s < num_symbols source.now.file.now.bytes → P.has_symbol places.now source.now.place.file s }
    ensures { (l : Link) (p : Placed) → IsToFill l p source.now.place (P.look places.now) source.now.file.now.bytes
        → FillStands l p told → FillStands l p result }
{
    let mut least = told;
    let mut previous = None;
    for index in 0..source.list.num_relocations() {
        let near = near_at(&source.list, index, previous);
        if let Some(fault) = relocation_fault(places, source, &near) {
            least = lesser(least, fault);
        }
        previous = Some(near.relocation);
    }
    least
}

/// The fault that is told where pointers of a section may have several, and another fault stands already, the first that was
/// met: the first in the order of refusals, and of one rank the one that stands already, or the first by relocation. Nothing is
/// written, and no memory taken.
pub fn section_fault<P: Places>(
    places: &P,
    file: &File<'_>,
    place: PlacedSection,
    told: FillFault,
) -> FillFault
    requires object { file.now.is_dynamic ≡ false }
    requires among { place.section < num_sections file.now.bytes }
    requires filled { is_zerofill (section_at file.now.bytes place.section) ≡ false }
    requires low { place.address + (section_at file.now.bytes place.section).size ≤ 2 ^ 64 }
    requires symbols { (s : ℕ) → s < num_symbols file.now.bytes → P.has_symbol places.now place.file s }

    // Where the other one stands, the answer stands.
    ensures why { (l : Link) (p : Placed) → IsToFill l p place (P.look places.now) file.now.bytes → FillStands l p told
        → FillStands l p result }
{
    let source = source_of(file, place);
    relocations_fault(places, &source, told)
}
