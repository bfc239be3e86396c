//! Sections: each into its range of the file.
ghost use Rattle.std.specs.Prelude.{◌≡◌, ℕ, ◌^◌, ◌<◌, ◌≤◌, ◌⊎◌, ◌++◌, false, length, All, Contains, OnOk, IfErr};
ghost use Rattle.std.specs.List.{flat_map};
ghost use Rattle.macho_records.specs.Sections.{is_zerofill};
ghost use Rattle.macho_model.specs.Objects.{num_sections, num_symbols, section_at};
ghost use Rattle.macho_model.specs.Links.{Link};
ghost use Rattle.macho_model.specs.Addresses.{offset_in_file};
ghost use Rattle.macho_layout.specs.Placements.{placed_of};
ghost use Rattle.macho_promise.specs.Asked.{fixups_in};
ghost use Rattle.macho_fields.specs.Faults.{FillStands, NoneStandsIn};
ghost use Rattle.macho_fields.specs.Filling.{IsToFill};
ghost use Rattle.macho_contents.specs.Fitting.{HasRoom, SectionFits, SectionsFit, AreKnown, AreToFill};
ghost use Rattle.macho_contents.specs.Filled.{SectionsAreFilled};
ghost use Rattle.macho_contents.specs.steps.Sections.{IsPut, IsDone};

use macho_fields::{FillFault, Places, fill_section};
use macho_fixups::Fixup;
use macho_layout::{PlacedSection, Placement};
use macho_object::{File, view_of};
use macho_places::file_offset;

/// Where a section of so many bytes begins in the file. An empty one is written nowhere.
fn place_in_file(placement: &Placement, address: u64, size: usize) -> usize
    requires { (size ≡ 0) ⊎ (offset_in_file (placed_of placement.now) address < 2 ^ 64) }
    ensures empty { size ≡ 0 → result ≡ 0 }
    ensures some { 1 ≤ size → result ≡ offset_in_file (placed_of placement.now) address }
{
    if size == 0 {
        return 0;
    }
    file_offset(&placement.segments, address) as usize
}

/// Fills a section that has bytes at its range of the file.
fn fill_range<P: Places>(
    places: &P,
    file: &File<'_>,
    placement: &Placement,
    place: PlacedSection,
    run: &mut Vec<Fixup>,
    out: &mut [u8],
) -> Result<(), FillFault>
    requires object { file.now.is_dynamic ≡ false }
    requires among { place.section < num_sections file.now.bytes }
    requires filled { is_zerofill (section_at file.now.bytes place.section) ≡ false }
    requires room { HasRoom (placed_of placement.now) (length out.old) place (section_at file.now.bytes place.section) }
    requires symbols { (s : ℕ) → s < num_symbols file.now.bytes → P.has_symbol places.now place.file s }
    ensures done { (l : Link) → IsToFill l (placed_of placement.now) place (P.look places.now) file.now.bytes
        → OnOk result (IsPut l (placed_of placement.now) place out.old out.new) }
    ensures asked { (l : Link) → IsToFill l (placed_of placement.now) place (P.look places.now) file.now.bytes
        → OnOk result (run.new.items ≡ run.old.items ++ fixups_in l (placed_of placement.now) place) }
    ensures only { (l : Link) → IsToFill l (placed_of placement.now) place (P.look places.now) file.now.bytes
        → OnOk result (NoneStandsIn l (placed_of placement.now) place) }
    ensures why { (l : Link) → IsToFill l (placed_of placement.now) place (P.look places.now) file.now.bytes
        → IfErr result (FillStands l (placed_of placement.now)) }
{
    let Some(header) = file.section(place.section) else {
        unreachable!()
    };
    let size = header.size as usize;
    let at = place_in_file(placement, place.address, size);
    fill_section(places, file, place, run, &mut out[at..at + size])
}

/// Takes care of a placed section.
fn fill_one<P: Places>(
    places: &P,
    views: &[Option<File<'_>>],
    placement: &Placement,
    place: PlacedSection,
    run: &mut Vec<Fixup>,
    out: &mut [u8],
) -> Result<(), FillFault>
    requires fit { SectionFits views.now (placed_of placement.now) (length out.old) place }
    requires symbols { AreKnown views.now (P.has_symbol places.now) }
    ensures done { (l : Link) → AreToFill l (placed_of placement.now) views.now (P.look places.now)
        → Contains placement.now.sections.items place
        → OnOk result (IsDone l (placed_of placement.now) place out.old out.new run.old.items run.new.items) }
    ensures why { (l : Link) → AreToFill l (placed_of placement.now) views.now (P.look places.now)
        → Contains placement.now.sections.items place
        → IfErr result (FillStands l (placed_of placement.now)) }
{
    let Some(file) = view_of(views, place.file) else {
        unreachable!()
    };
    let Some(header) = file.section(place.section) else {
        unreachable!()
    };
    if header.is_no_bits() {
        return Ok(());
    }
    fill_range(places, file, placement, place, run, out)
}

/// Fills each section of a placement that has bytes at its range of the file, and pushes the fixups that sections ask for to
/// the run. `views` are views of the objects by the numbers of their files; `out` is the whole file.
///
/// # Errors
///
/// A value doesn't fit its field, or a pointer can't be written by the loader: in the first such section, by the first such
/// relocation. Or there is not enough memory. The bytes and the run are then of no use.
pub fn fill_sections<P: Places>(
    places: &P,
    views: &[Option<File<'_>>],
    placement: &Placement,
    run: &mut Vec<Fixup>,
    out: &mut [u8],
) -> Result<(), FillFault>
    requires fit { SectionsFit views.now (placed_of placement.now) (length out.old) }
    requires symbols { AreKnown views.now (P.has_symbol places.now) }

    // Each section is filled, and their fixups stand behind those of the run.
    ensures done { (l : Link) → AreToFill l (placed_of placement.now) views.now (P.look places.now)
        → OnOk result (SectionsAreFilled l (placed_of placement.now) out.old out.new) }
    ensures asked { (l : Link) → AreToFill l (placed_of placement.now) views.now (P.look places.now)
        → OnOk result (run.new.items ≡ run.old.items ++ flat_map (fixups_in l (placed_of placement.now)) placement.now.sections.items) }

    // They are filled only where nothing stands against their fields, and a refusal stands.
    ensures only { (l : Link) → AreToFill l (placed_of placement.now) views.now (P.look places.now)
        → OnOk result (All (NoneStandsIn l (placed_of placement.now)) placement.now.sections.items) }
    ensures why { (l : Link) → AreToFill l (placed_of placement.now) views.now (P.look places.now)
        → IfErr result (FillStands l (placed_of placement.now)) }
{
    for index in 0..placement.sections.len() {
        let section = placement.sections[index];
        fill_one(places, views, placement, section, run, out)?;
    }
    Ok(())
}
