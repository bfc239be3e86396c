//! The carried sections of objects, file by file.
ghost use Rattle.std.specs.Prelude.{◌≡◌, ◌+◌, ◌<◌, ◌≤◌, ◌^◌, [], ◌∷◌, ◌++◌, true, false, length, map, All, OnOk, OnErr};
ghost use Rattle.macho_model.specs.Grammar.{IsObject};
ghost use Rattle.macho_model.specs.Links.{is_carried};
ghost use Rattle.macho_model.specs.Objects.{num_sections};
ghost use Rattle.macho_model.specs.Segments.{list_if};
ghost use Rattle.macho_promise.specs.Views.{ViewsObject};
ghost use Rattle.macho_sizing.specs.Sections.{spec_for, KeepsRules, specs_below, specs_of_view, specs_of_views};

use macho_layout::{Plan, SectionSpec};
use macho_object::{File, is_carried};
use macho_records::{SectionHeader, SegmentName};
use std::alloc::AllocError;

/// What a plan has of a section.
fn spec_for(file: u32, section: u32, header: &SectionHeader) -> SectionSpec
    requires { header.now.align ≤ 14 }
    ensures { result ≡ spec_for file section header.now }
{
    SectionSpec {
        file,
        section,
        segment: SegmentName::from_bytes(&header.segname),
        name: header.sectname,
        flags: header.flags,
        align: header.align as u8,
        size: header.size,
    }
}

/// Adds a section, where it is carried.
fn add_section(
    plan: &mut Plan,
    file: u32,
    section: u32,
    header: &SectionHeader,
) -> Result<(), AllocError>
    requires { KeepsRules header.now }
    ensures { OnOk result
        (plan.new
        ≡ record plan.old { sections = plan.old.sections ++ list_if (is_carried header.now) (spec_for file section header.now ∷ []) }) }
{
    if is_carried(*header) {
        plan.add_section(spec_for(file, section, header))?;
    }
    Ok(())
}

/// Adds the carried sections of an object.
fn add_sections(plan: &mut Plan, file: u32, object: &File<'_>) -> Result<(), AllocError>
    requires object { object.now.is_dynamic ≡ false }
    requires rules { IsObject object.now.bytes }
    ensures { OnOk result
        (plan.new ≡ record plan.old { sections = plan.old.sections ++ specs_below file object.now.bytes (num_sections object.now.bytes) }) }
{
    for section in 0..object.num_sections() {
        let Some(header) = object.section(section) else {
            unreachable!()
        };
        add_section(plan, file, section, &header)?;
    }
    Ok(())
}

/// Adds those of a file, none of what is no object.
fn add_view(plan: &mut Plan, file: u32, view: &Option<File<'_>>) -> Result<(), AllocError>
    requires { ViewsObject view.now }
    ensures { OnOk result (plan.new ≡ record plan.old { sections = plan.old.sections ++ specs_of_view file view.now }) }
{
    match view {
        Some(object) => add_sections(plan, file, object),
        None => Ok(()),
    }
}

/// Adds the carried sections of all objects, by file, then number.
///
/// # Errors
///
/// There is not enough memory.
pub fn plan_sections(plan: &mut Plan, views: &[Option<File<'_>>]) -> Result<(), AllocError>
    requires few { length views.now < 2 ^ 32 }
    requires rules { All ViewsObject views.now }
    ensures { OnOk result (plan.new ≡ record plan.old { sections = plan.old.sections ++ specs_of_views views.now }) }
{
    for (file, view) in views.iter().enumerate() {
        add_view(plan, file as u32, view)?;
    }
    Ok(())
}
