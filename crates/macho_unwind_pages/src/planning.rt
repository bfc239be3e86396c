//! The plan of entries.
ghost use Rattle.std.specs.Prelude.{◌≡◌, ◌==◌, ◌^◌, ◌<◌, ◌≤◌, true, length, map, All, IfOk, IfErr, OnOk};
ghost use Rattle.std.specs.List.{AllPairs, list_any};
ghost use Rattle.macho_unwind_pages.specs.Bounds.{globals_of};
ghost use Rattle.macho_unwind_pages.specs.Entries.{MOST_PERSONALITIES, AreEntries, inputs_of, ids_of};
ghost use Rattle.macho_unwind_pages.specs.steps.Ranks.{ranked};
ghost use Rattle.macho_unwind_pages.specs.Plans.{plan_list, page_list, IsPlan, IsPlanOf, HasFarOffset};
ghost use Rattle.macho_unwind_pages.specs.steps.Paging.{ArePages};
ghost use Rattle.macho_unwind_pages.specs.steps.Planning.{IsReady, IsAssembled};
ghost use Rattle.macho_unwind_pages.specs.Laws.{HasFewPages, IsShort};
ghost use Rattle.macho_unwind_pages.specs.Calls.{PlanFault};

use crate::entries::{ResolvedUnwindInfo, UnwindFault};
use crate::numbering::{codes, inputs, personality_ids};
use crate::offsets::{by_start, end, globals, lsdas, rows, slots};
use crate::paging::{Row, paged};
use crate::plans::{Page, Plan};
use crate::ranking::ranks;
use std::alloc::{AllocError, Global};

/// The codes that every page may name, and the pages of functions in order of their starts, one or more.
fn globals_and_pages(
    alloc: Global,
    codes: &[u64],
    rows: &[Row],
) -> Result<(Vec<u32>, Vec<Page>), AllocError>
    requires fit { All (λ code. code < 2 ^ 32) codes.now }
    requires some { 0 < length rows.now }
    requires rising { AllPairs (λ r s. r.start < s.start) rows.now }
    requires ranked { All (λ r. list_any (λ other. r.code == other) (ranked codes.now) ≡ true) rows.now }
    ensures globals { IfOk result (λ made. made.0.items ≡ globals_of codes.now) }
    ensures pages { IfOk result (λ made. ArePages (globals_of codes.now) rows.now (map page_list made.1.items)) }
{
    let ranks = ranks(alloc, codes)?;
    let globals = globals(alloc, &ranks)?;
    let pages = paged(alloc, &ranks, rows)?;
    Ok((globals, pages))
}

/// The plan of a run of entries that ends at an offset.
fn assembled(
    alloc: Global,
    text_start: u64,
    ids: &[u32],
    codes: &[u64],
    run: &[ResolvedUnwindInfo],
    end: u32,
) -> Result<Plan, AllocError>
    requires { IsReady text_start ids.now codes.now run.now }
    ensures done { IfOk result (λ p. IsAssembled text_start ids.now codes.now run.now (plan_list p)) }
    ensures formed { IfOk result (λ p. IsPlan (plan_list p)) }
    ensures end { IfOk result (λ p. p.end ≡ end) }
{
    let personalities = slots(alloc, text_start, ids, run)?;
    let lsdas = lsdas(alloc, text_start, run)?;
    let rows = rows(alloc, text_start, ids, run)?;
    let (globals, pages) = globals_and_pages(alloc, codes, rows.as_slice())?;
    Ok(Plan {
        globals,
        personalities,
        lsdas,
        pages,
        end,
    })
}

/// The plan of one entry or more: what the section says of them. It is refused where they name more than three
/// personality functions, and else where an offset from the start of the text doesn't fit 32 bits.
pub fn plan(
    alloc: Global,
    text_start: u64,
    entries: &[ResolvedUnwindInfo],
) -> Result<Plan, UnwindFault>
    requires some { 0 < length entries.now }
    requires entries { AreEntries text_start entries.now }
    ensures done { IfOk result (λ p. IsPlanOf text_start entries.now (plan_list p)) }
    ensures formed { IfOk result (λ p. IsPlan (plan_list p)) }
    ensures pages { IfOk result (λ p. HasFewPages entries.now (plan_list p)) }
    ensures short { IfOk result (λ p. IsShort entries.now (plan_list p)) }
    ensures few { OnOk result (length (ids_of (inputs_of entries.now)) ≤ MOST_PERSONALITIES) }
    ensures near { OnOk result (¬ HasFarOffset text_start entries.now) }
    ensures why { IfErr result (PlanFault text_start entries.now) }
{
    let inputs = inputs(alloc, entries)?;
    let ids = personality_ids(alloc, inputs.as_slice())?;
    let run = by_start(alloc, entries)?;
    let end = end(text_start, run.as_slice())?;
    let codes = codes(alloc, ids.as_slice(), inputs.as_slice())?;
    let plan = assembled(
        alloc,
        text_start,
        ids.as_slice(),
        codes.as_slice(),
        run.as_slice(),
        end,
    )?;
    Ok(plan)
}
