//! The walk: all objects in the order of the inputs, their carried sections and relocations in the order of the tables.
ghost use Rattle.std.specs.Prelude.{◌≡◌, ℕ, ◌^◌, ◌<◌, ◌++◌, ◌∷◌, [], false, List, length, get_or, Option, Some, None, is_some, IfOk, IfErr, IfSome, IfNone, OnOk};
ghost use Rattle.macho_bytes.specs.Texts.{name_of};
ghost use Rattle.macho_model.specs.declared.placed.Counts.{Counts};
ghost use Rattle.macho_model.specs.Objects.{num_sections};
ghost use Rattle.macho_model.specs.Links.{Input, Object, Link, SectionId, section_id, no_input, sections_of_file};
ghost use Rattle.macho_model.specs.Uses.{Use};
ghost use Rattle.macho_symbol_names.specs.Kept.{Keeps};
ghost use Rattle.macho_answer.specs.Standing.{Stands};
ghost use Rattle.macho_promise.specs.Noted.{BeginsWith, uses_of_carried};
ghost use Rattle.macho_promise.specs.Sound.{IsSound};
ghost use Rattle.macho_needs.specs.Noted.{IsNoted};
ghost use Rattle.macho_promise.specs.Views.{views_of, object_view};
ghost use Rattle.macho_relocation_scan.specs.Surveys.{AreOfInputs};
ghost use Rattle.macho_relocation_scan.specs.steps.Found.{IsSurveyed};
ghost use Rattle.macho_relocation_scan.specs.steps.Sections.{HasRows, HasObject, carried_among, uses_among, carried_in, uses_in, input_at};

use crate::findings::Findings;
use crate::section::{Section, survey_section};
use macho_answer::LinkError;
use macho_model::may_hold_pointers;
use macho_needs::Needs;
use macho_object::{File, is_carried};
use macho_records::name_bytes;
use std::alloc::Global;

/// Looks at a section of an object, if it is carried.
fn survey_if_carried(
    alloc: Global,
    needs: &mut Needs<'_>,
    findings: &mut Findings,
    object: &File<'_>,
    file: u32,
    section: u32,
) -> Result<(), LinkError>
    requires kind { object.now.is_dynamic ≡ false }
    requires there { section < num_sections object.now.bytes }
    requires rows { HasRows needs.old.resolved.files file object.now.bytes }
    ensures surveyed { (l : Link) (ss : List SectionId) (us : List Use) → HasObject l file object.now.bytes
        → BeginsWith l (us ++ uses_among l (section_id file section ∷ [])) → IsSurveyed l ss us needs.old findings.old
        → OnOk result (IsSurveyed l (ss ++ carried_among l (section_id file section ∷ []))
        (us ++ uses_among l (section_id file section ∷ [])) needs.new findings.new) }
    ensures why { (l : Link) (counts : Counts) (ss : List SectionId) (us : List Use) → HasObject l file object.now.bytes
        → BeginsWith l (us ++ uses_among l (section_id file section ∷ [])) → IsSurveyed l ss us needs.old findings.old
        → IfErr result (Stands l counts) }
    ensures kept { (inputs : List Input) → Keeps inputs needs.old.resolved.files → Keeps inputs needs.new.resolved.files }
{
    let Some(header) = object.section(section) else {
        unreachable!()
    };
    if !is_carried(header) {
        return Ok(());
    }
    let at = Section {
        file,
        section,
        holds_pointers: may_hold_pointers(name_bytes(&header.segname)),
    };
    survey_section(alloc, needs, findings, object, at)
}

/// Looks at the carried sections of an object, in the order of its headers.
fn survey_object(
    alloc: Global,
    needs: &mut Needs<'_>,
    findings: &mut Findings,
    object: &File<'_>,
    file: u32,
) -> Result<(), LinkError>
    requires kind { object.now.is_dynamic ≡ false }
    requires rows { HasRows needs.old.resolved.files file object.now.bytes }
    ensures surveyed { (l : Link) (ss : List SectionId) (us : List Use) → HasObject l file object.now.bytes
        → BeginsWith l (us ++ uses_among l (sections_of_file file (Object object.now.bytes))) → IsSurveyed l ss us needs.old findings.old
        → OnOk result (IsSurveyed l (ss ++ carried_among l (sections_of_file file (Object object.now.bytes)))
        (us ++ uses_among l (sections_of_file file (Object object.now.bytes))) needs.new findings.new) }
    ensures why { (l : Link) (counts : Counts) (ss : List SectionId) (us : List Use) → HasObject l file object.now.bytes
        → BeginsWith l (us ++ uses_among l (sections_of_file file (Object object.now.bytes))) → IsSurveyed l ss us needs.old findings.old
        → IfErr result (Stands l counts) }
    ensures kept { (inputs : List Input) → Keeps inputs needs.old.resolved.files → Keeps inputs needs.new.resolved.files }
{
    for section in 0..object.num_sections() {
        survey_if_carried(alloc, needs, findings, object, file, section)?;
    }
    Ok(())
}

/// Looks at the carried sections of a file, if it is an object.
fn survey_file(
    alloc: Global,
    needs: &mut Needs<'_>,
    findings: &mut Findings,
    views: &[Option<File<'_>>],
    file: u32,
) -> Result<(), LinkError>
    requires there { file < length views.now }
    requires same { AreOfInputs views.now needs.old.resolved.files }
    ensures surveyed { (l : Link) (ss : List SectionId) (us : List Use) → views.now ≡ views_of l
        → BeginsWith l (us ++ uses_in l (input_at l file ∷ [])) → IsSurveyed l ss us needs.old findings.old
        → OnOk result (IsSurveyed l (ss ++ carried_in l (input_at l file ∷ []))
        (us ++ uses_in l (input_at l file ∷ [])) needs.new findings.new) }
    ensures why { (l : Link) (counts : Counts) (ss : List SectionId) (us : List Use) → views.now ≡ views_of l
        → BeginsWith l (us ++ uses_in l (input_at l file ∷ [])) → IsSurveyed l ss us needs.old findings.old
        → IfErr result (Stands l counts) }
    ensures kept { (inputs : List Input) → Keeps inputs needs.old.resolved.files → Keeps inputs needs.new.resolved.files }
{
    match &views[file as usize] {
        Some(object) => survey_object(alloc, needs, findings, object, file),
        None => Ok(()),
    }
}

/// Looks at all carried relocations of a link, in the order of the walk, given views of its objects by the numbers of their
/// files. Each use is noted. What stands against the link and needs no address is answered, the least by the order of
/// refusals, and of one kind the first; a link against which nothing is answered is sound.
///
/// # Errors
///
/// A relocation uses a name that nothing defines, or there is not enough memory. The needs are then of no use.
pub fn survey(
    alloc: Global,
    needs: &mut Needs<'_>,
    views: &[Option<File<'_>>],
) -> Result<Option<LinkError>, LinkError>
    requires few { length views.now < 2 ^ 32 }
    requires same { AreOfInputs views.now needs.old.resolved.files }

    // All uses by carried relocations are noted, and what they name is found.
    ensures noted { (l : Link) → views.now ≡ views_of l → IsNoted l [] needs.old → OnOk result (IsNoted l (uses_of_carried l) needs.new) }

    // What is answered stands, and where nothing is, the link is sound.
    ensures told { (l : Link) (counts : Counts) → views.now ≡ views_of l → IsNoted l [] needs.old
        → IfOk result (λ told. IfSome told (Stands l counts)) }
    ensures sound { (l : Link) → views.now ≡ views_of l → IsNoted l [] needs.old → IfOk result (λ told. IfNone told (IsSound l)) }
    ensures why { (l : Link) (counts : Counts) → views.now ≡ views_of l → IsNoted l [] needs.old → IfErr result (Stands l counts) }
    ensures kept { (inputs : List Input) → Keeps inputs needs.old.resolved.files → Keeps inputs needs.new.resolved.files }
{
    let mut findings = Findings::new();
    for file in 0..views.len() as u32 {
        survey_file(alloc, needs, &mut findings, views, file)?;
    }
    Ok(findings.least())
}
