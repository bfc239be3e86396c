//! A section: its bytes, then its fields, one after the other.
ghost use Rattle.std.specs.Prelude.{◌≡◌, ℕ, ◌+◌, ◌^◌, ◌<◌, ◌≤◌, ◌++◌, List, false, length, OnOk, IfErr};
ghost use Rattle.macho_records.specs.Sections.{is_zerofill};
ghost use Rattle.macho_model.specs.Objects.{num_sections, num_symbols, section_at, section_bytes};
ghost use Rattle.macho_model.specs.Links.{Link};
ghost use Rattle.macho_model.specs.Placement.{Placed};
ghost use Rattle.macho_fixups.specs.declared.run.Fixup.{Fixup};
ghost use Rattle.macho_promise.specs.Asked.{fixups_in};
ghost use Rattle.macho_promise.specs.Filled.{IsFilled};
ghost use Rattle.macho_fields.specs.Filling.{IsToFill};
ghost use Rattle.macho_fields.specs.Faults.{FillStands, NoneStandsIn};
ghost use Rattle.macho_fields.specs.steps.Fields.{seen, IsNear};
ghost use Rattle.macho_fields.specs.steps.Writes.{IsPut};
ghost use Rattle.macho_fields.specs.steps.Filled.{IsSource, IsAsked, CannotAsk, CannotSet, written_in, IsDone, IsStopped};
ghost use Rattle.macho_fields.specs.steps.Sections.{IsFilledTo};

use crate::asking::asks;
use crate::fault::FillFault;
use crate::field::{Field, Near, near_at, read_field};
use crate::kinds::is_prefix;
use crate::making::{fault_of, word_of, written_of};
use crate::places::Places;
use crate::source::{Source, source_of};
use crate::write::put_field;
use macho_fixups::Fixup;
use macho_model::PlacedSection;
use macho_object::File;

/// Asks the loader to write a pointer.
fn ask<P: Places>(
    places: &P,
    place: PlacedSection,
    field: &Field,
    run: &mut Vec<Fixup>,
) -> Result<(), FillFault>
    requires low { place.address + field.now.offset < 2 ^ 64 }
    ensures done { OnOk result (IsAsked (P.look places.now) place (seen field.now) run.old.items run.new.items) }
    ensures why { IfErr result (CannotAsk (P.look places.now) place (seen field.now)) }
{
    run.push(word_of(places, place, field)?)?;
    Ok(())
}

/// Writes the value of a field.
fn set<P: Places>(
    places: &P,
    place: PlacedSection,
    field: &Field,
    descriptors: bool,
    out: &mut [u8],
) -> Result<(), FillFault>
    requires low { place.address + field.now.offset < 2 ^ 64 }
    ensures done { OnOk result (IsPut (written_in (P.look places.now) descriptors place (seen field.now)) out.old out.new) }
    ensures why { IfErr result (CannotSet (P.look places.now) descriptors place (seen field.now) out.old) }
{
    let write = written_of(places, place, field, descriptors);
    match put_field(&write, out) {
        Ok(()) => Ok(()),
        Err(fault) => Err(fault_of(fault, place, field)),
    }
}

/// Asks for a field or writes it.
fn fill_field<P: Places>(
    places: &P,
    source: &Source<'_, '_>,
    field: &Field,
    run: &mut Vec<Fixup>,
    out: &mut [u8],
) -> Result<(), FillFault>
    requires low { source.now.place.address + field.now.offset < 2 ^ 64 }
    ensures done { OnOk result (IsDone (P.look places.now) source.now.descriptors source.now.place (seen field.now)
        out.old out.new run.old.items run.new.items) }
    ensures why { IfErr result (IsStopped (P.look places.now) source.now.descriptors source.now.place (seen field.now) out.old) }
{
    if asks(places, field, source.descriptors) {
        ask(places, source.place, field, run)
    } else {
        set(places, source.place, field, source.descriptors, out)
    }
}

/// Takes care of a relocation of a section.
fn fill_one<P: Places>(
    places: &P,
    source: &Source<'_, '_>,
    near: &Near,
    run: &mut Vec<Fixup>,
    out: &mut [u8],
) -> Result<(), FillFault>
    requires source { IsSource source.now }
    requires near { IsNear source.now.list.bytes source.now.list.section near.now.index near.now }
    requires index { near.now.index < (section_at source.now.file.now.bytes source.now.place.section).nreloc }
    requires symbols { (s : ℕ) → s < num_symbols source.now.file.now.bytes → P.has_symbol places.now source.now.place.file s }
    ensures done { (l : Link) (p : Placed) (asked : List Fixup)
        → IsToFill l p source.now.place (P.look places.now) source.now.file.now.bytes
        → IsFilledTo l p source.now.place near.now.index asked out.old run.old.items
        → OnOk result (IsFilledTo l p source.now.place (near.now.index + 1) asked out.new run.new.items) }
    ensures why { (l : Link) (p : Placed) (asked : List Fixup)
        → IsToFill l p source.now.place (P.look places.now) source.now.file.now.bytes
        → IsFilledTo l p source.now.place near.now.index asked out.old run.old.items
        → IfErr result (FillStands l p) }
{
    if is_prefix(near.relocation.r_type) {
        return Ok(());
    }
    let field = read_field(places, source.place.file, source.file, source.bytes, near);
    fill_field(places, source, &field, run, out)
}

/// Takes care of all relocations of a section. Each is read once, and kept for the one behind it.
fn fill_fields<P: Places>(
    places: &P,
    source: &Source<'_, '_>,
    run: &mut Vec<Fixup>,
    out: &mut [u8],
) -> Result<(), FillFault>
    requires source { IsSource source.now }
    requires symbols { (s : ℕ) → s < num_symbols source.now.file.now.bytes → P.has_symbol places.now source.now.place.file s }
    requires copied { out.old ≡ source.now.bytes.now }
    ensures done { (l : Link) (p : Placed) → IsToFill l p source.now.place (P.look places.now) source.now.file.now.bytes
        → OnOk result (IsFilledTo l p source.now.place (section_at source.now.file.now.bytes source.now.place.section).nreloc
        run.old.items out.new run.new.items) }
    ensures why { (l : Link) (p : Placed) → IsToFill l p source.now.place (P.look places.now) source.now.file.now.bytes
        → IfErr result (FillStands l p) }
{
    let mut previous = None;
    for index in 0..source.list.num_relocations() {
        let near = near_at(&source.list, index, previous);
        fill_one(places, source, &near, run, out)?;
        previous = Some(near.relocation);
    }
    Ok(())
}

/// Fills a section at its place: its bytes are copied from its object, each field that the loader doesn't write is written for
/// its target and addend, and for each other one a fixup is pushed to the run.
///
/// `out` is the part of the image that is the section's, as long as the section is.
///
/// # Errors
///
/// A value doesn't fit, or a pointer can't be written by the loader: at the first such relocation. Or there is not enough
/// memory. A relocation without a row is told only of a link that is not sound. The bytes of the section and the run are
/// then of no use.
pub fn fill_section<P: Places>(
    places: &P,
    file: &File<'_>,
    place: PlacedSection,
    run: &mut Vec<Fixup>,
    out: &mut [u8],
) -> Result<(), FillFault>
    requires object { file.now.is_dynamic ≡ false }
    requires among { place.section < num_sections file.now.bytes }
    requires filled { is_zerofill (section_at file.now.bytes place.section) ≡ false }
    requires room { length out.old ≡ (section_at file.now.bytes place.section).size }
    requires low { place.address + length out.old ≤ 2 ^ 64 }
    requires symbols { (s : ℕ) → s < num_symbols file.now.bytes → P.has_symbol places.now place.file s }

    // The section is filled, and its fixups stand behind those of the run.
    ensures done { (l : Link) (p : Placed) → IsToFill l p place (P.look places.now) file.now.bytes
        → OnOk result (IsFilled l p place out.new) }
    ensures asked { (l : Link) (p : Placed) → IsToFill l p place (P.look places.now) file.now.bytes
        → OnOk result (run.new.items ≡ run.old.items ++ fixups_in l p place) }

    // It is done only where nothing stands against its fields, and a refusal stands.
    ensures only { (l : Link) (p : Placed) → IsToFill l p place (P.look places.now) file.now.bytes → OnOk result (NoneStandsIn l p place) }
    ensures why { (l : Link) (p : Placed) → IsToFill l p place (P.look places.now) file.now.bytes → IfErr result (FillStands l p) }
{
    let source = source_of(file, place);
    out.copy_from_slice(source.bytes);
    fill_fields(places, &source, run, out)
}
