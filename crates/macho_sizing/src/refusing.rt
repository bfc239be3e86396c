//! Refusals that need no placement.
ghost use Rattle.std.specs.Prelude.{◌≡◌, ◌^◌, ◌≤◌, ◌⊎◌, Some, None, IfSome, IfErr, OnOk};
ghost use Rattle.macho_model.specs.declared.placed.Counts.{Counts as LinkCounts};
ghost use Rattle.macho_model.specs.Links.{Link};
ghost use Rattle.macho_model.specs.WrittenSum.{content_sum};
ghost use Rattle.macho_promise.specs.Sizes.{AreCounts};
ghost use Rattle.macho_layout.specs.declared.fault.LayoutFault.TheVariants.{TooMany};
ghost use Rattle.macho_layout.specs.Laid.{FaultStands};
ghost use Rattle.macho_layout.specs.Plans.{IsPlanOf};
ghost use Rattle.macho_answer.specs.Standing.{Stands};
ghost use Rattle.macho_sizing.specs.Asked.{AreOf};
ghost use Rattle.macho_sizing.specs.steps.Passing.{counts_before, AreNumbers, AreSymbols, AreWithin};

use crate::asked::SizesOf;
use crate::numbers::{Numbers, Passed, check_numbers};
use macho_answer::LinkError;
use macho_layout::{Counts, LayoutFault, Plan};
use macho_model::Limit;
use std::alloc::Global;

/// The number of segments or output sections of a plan, where it passes the limit. Both depend on sizes only by whether there are
/// initializers and unwind entries.
fn plan_passes(alloc: Global, plan: &Plan, initializers: u64, entries: u64) -> Option<Passed>
    ensures { IfSome result (λ p. FaultStands plan.now (counts_before initializers entries) (TooMany p.what p.number)) }
{
    let counts = Counts {
        commands: 0,
        padding: 0,
        initializers,
        unwind: entries,
        imports: 0,
        import_size: 4,
        name_bytes: 0,
        trie: 0,
        symbols: 0,
        strings: 0,
        identifier: 0,
    };
    match plan.compute(alloc, &counts) {
        Err(LayoutFault::TooMany { what, number }) => Some(Passed { what, number }),
        _ => None,
    }
}

/// Which of two numbers that pass limits is told: symbols, segments, libraries, output sections, then the others.
fn told_first(passed: Passed, of_plan: Option<Passed>) -> Passed
    ensures { (result ≡ passed) ⊎ (of_plan ≡ Some result) }
{
    match of_plan {
        None => passed,
        Some(other) => match passed.what {
            Limit::Symbols => passed,
            Limit::Libraries if other.what == Limit::Sections => passed,
            _ => other,
        },
    }
}

/// A number that passes a limit, as a refusal.
fn too_many(passed: Passed) -> LinkError
    ensures { result ≡ LinkError.TooMany passed.what passed.number None }
{
    LinkError::TooMany {
        what: passed.what,
        number: passed.number,
        placement: None,
    }
}

/// Refuses a link of which a number passes its limit: with `TooMany`, without a placement, for the number that is told first.
pub(crate) fn check_limits(
    alloc: Global,
    asked: &SizesOf<'_>,
    plan: &Plan,
    numbers: &Numbers,
) -> Result<(), LinkError>
    ensures within { OnOk result (AreWithin numbers.now) }
    ensures why { (l : Link) (counts : LinkCounts) → AreOf l asked.now → IsPlanOf l plan.now → AreNumbers l numbers.now
        → AreSymbols l numbers.now → AreCounts l counts → IfErr result (Stands l counts) }
{
    let Err(passed) = check_numbers(numbers) else {
        return Ok(());
    };
    let of_plan = plan_passes(
        alloc,
        plan,
        asked.initializers.len() as u64,
        asked.entries.len() as u64,
    );
    Err(too_many(told_first(passed, of_plan)))
}

/// The refusal of a link whose content has 2^64 bytes or more: `TooMany` where the plan passes a limit, else `ImageTooLarge`, both
/// without a placement.
pub(crate) fn too_large(alloc: Global, asked: &SizesOf<'_>, plan: &Plan) -> LinkError
    ensures { (l : Link) (counts : LinkCounts) → AreOf l asked.now → IsPlanOf l plan.now → AreCounts l counts
        → 2 ^ 64 ≤ content_sum l counts
        → Stands l counts result }
{
    let of_plan = plan_passes(
        alloc,
        plan,
        asked.initializers.len() as u64,
        asked.entries.len() as u64,
    );
    match of_plan {
        Some(passed) => too_many(passed),
        None => LinkError::ImageTooLarge { placement: None },
    }
}
