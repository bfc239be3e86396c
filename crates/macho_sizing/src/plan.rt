//! The plan of a link: sections, commons, slots and stubs, in the order of their numbers.
ghost use Rattle.std.specs.Prelude.{◌≡◌, ℕ, ◌^◌, ◌<◌, ◌≤◌, ◌++◌, List, length, All, IfOk, OnOk};
ghost use Rattle.std.specs.List.{position_or_len};
ghost use Rattle.macho_model.specs.Links.{Link};
ghost use Rattle.macho_model.specs.Needs.{imports_of};
ghost use Rattle.macho_model.specs.Targets.{same_target};
ghost use Rattle.macho_promise.specs.Noted.{AreNeeds};
ghost use Rattle.macho_promise.specs.Views.{views_of, ViewsObject};
ghost use Rattle.macho_symbols.specs.Kept.{IsResolved};
ghost use Rattle.macho_needs.specs.Noted.{needed_of};
ghost use Rattle.macho_layout.specs.Plans.{IsPlanOf, new_plan};
ghost use Rattle.macho_sizing.specs.steps.Planned.{common_specs, AddsStubs};

use crate::sections::plan_sections;
use macho_layout::Plan;
use macho_model::Target;
use macho_needs::{Needs, Tables};
use macho_object::File;
use macho_symbols::Common;
use std::alloc::{AllocError, Global};

/// Adds the chosen commons. As many as 2^32 would take more memory than there is.
fn add_commons(plan: &mut Plan, commons: &[Common]) -> Result<(), AllocError>
    requires { All (λ c. c.align ≤ 14) commons.now }
    ensures { OnOk result (plan.new ≡ record plan.old { commons = plan.old.commons ++ common_specs commons.now }) }
{
    for (number, common) in commons.iter().enumerate() {
        if number > u32::MAX as usize {
            return Err(AllocError);
        }
        plan.add_common(number as u32, common.size, common.align)?;
    }
    Ok(())
}

/// Adds the slots.
fn add_slots(plan: &mut Plan, tables: &Tables) -> Result<(), AllocError>
    ensures { OnOk result (plan.new ≡ record plan.old { slots = plan.old.slots ++ tables.now.slots }) }
{
    for number in 0..tables.num_slots() {
        let Some(target) = tables.slot(number) else {
            unreachable!()
        };
        plan.add_slot(target)?;
    }
    Ok(())
}

/// The number of an import's slot, that of slots where it has none. A number of 2^32 would take more memory than there is.
fn slot_of_import(tables: &Tables, import: u32) -> Result<u32, AllocError>
    ensures { IfOk result (λ n. n ≡ position_or_len (same_target (Target.Import import)) tables.now.slots) }
{
    let number = match tables.slot_number(Target::Import { id: import }) {
        Some(number) => number,
        None => tables.num_slots(),
    };
    if number > u32::MAX as usize {
        return Err(AllocError);
    }
    Ok(number as u32)
}

/// Adds the stubs, each with the slot that it goes through.
fn add_stubs(plan: &mut Plan, tables: &Tables) -> Result<(), AllocError>
    ensures { OnOk result (AddsStubs tables.now.slots tables.now.stubs plan.old plan.new) }
{
    for number in 0..tables.num_stubs() {
        let Some(import) = tables.stub(number) else {
            unreachable!()
        };
        let slot = slot_of_import(tables, import)?;
        plan.add_stub(import, slot)?;
    }
    Ok(())
}

/// Adds all parts of a link, in their order.
fn add_parts(
    plan: &mut Plan,
    views: &[Option<File<'_>>],
    needs: &Needs<'_>,
) -> Result<(), AllocError>
    requires few { length views.now < 2 ^ 32 }
    requires rules { All ViewsObject views.now }
    requires link { (l : Link) × (views.now ≡ views_of l) × IsResolved l (imports_of l) needs.now.resolved }
    ensures { (l : Link) → plan.old ≡ new_plan l.executable → views.now ≡ views_of l → AreNeeds l (needed_of needs.now)
        → IsResolved l (imports_of l) needs.now.resolved → OnOk result (IsPlanOf l plan.new) }
{
    plan_sections(plan, views)?;
    add_commons(plan, needs.resolved.commons())?;
    add_slots(plan, &needs.tables)?;
    add_stubs(plan, &needs.tables)?;
    Ok(())
}

/// The plan of a link.
pub(crate) fn make_plan(
    alloc: Global,
    executable: bool,
    views: &[Option<File<'_>>],
    needs: &Needs<'_>,
) -> Result<Plan, AllocError>
    requires few { length views.now < 2 ^ 32 }
    requires rules { All ViewsObject views.now }
    requires link { (l : Link) × (views.now ≡ views_of l) × IsResolved l (imports_of l) needs.now.resolved }
    ensures { (l : Link) → executable ≡ l.executable → views.now ≡ views_of l → AreNeeds l (needed_of needs.now)
        → IsResolved l (imports_of l) needs.now.resolved → IfOk result (IsPlanOf l) }
{
    let mut plan = Plan::new(alloc, executable);
    add_parts(&mut plan, views, needs)?;
    Ok(plan)
}
