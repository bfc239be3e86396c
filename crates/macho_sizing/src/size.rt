//! The plan and the sizes of a link, and its placement.
ghost use Rattle.std.specs.Prelude.{◌≡◌, ◌≤◌, List, IfOk, IfErr};
ghost use Rattle.std.specs.Option.{option_copied};
ghost use Rattle.macho_model.specs.declared.placed.Counts.{Counts as LinkCounts};
ghost use Rattle.macho_model.specs.Links.{Link};
ghost use Rattle.macho_promise.specs.Sizes.{AreCounts, unwind_size};
ghost use Rattle.macho_symbols.specs.Exported.{AreLists};
ghost use Rattle.macho_answer.specs.Standing.{Stands};
ghost use Rattle.macho_answer.specs.declared.fault.LinkError.TheVariants.{OutOfMemory};
ghost use Rattle.macho_sizing.specs.Asked.{AreOf, CanBeSized};
ghost use Rattle.macho_sizing.specs.Sized.{AreSizesOf, IsPlannedOf, IsSizedOf};
ghost use Rattle.macho_sizing.specs.steps.Passing.{AreNumbers, AreSymbols, AreWithin, AreCounted};
ghost use Rattle.macho_linkedit.specs.declared.exports.NamedExport.{NamedExport as Exported};
ghost use Rattle.macho_layout.specs.Plans.{IsPlanOf};
ghost use Rattle.macho_symbols.specs.Told.{ImportsAre};
ghost use Rattle.macho_model.specs.Needs.{imports_of};

use crate::asked::{LinkSizes, PlannedLink, SizedLink, SizesOf};
use crate::counting::count_sizes;
use crate::numbers::{Numbers, count_numbers};
use crate::placing::place;
use crate::plan::make_plan;
use crate::refusing::{check_limits, too_large};
use crate::unwind::unwind_bytes;
use macho_answer::LinkError;
use macho_layout::Plan;
use macho_linkedit::{reserve_trie, table_symbols};
use macho_symbols::{ExportList, Import};
use std::alloc::Global;

/// The sizes of a link whose numbers are within the limits, and whose unwind information has at most `unwind` bytes.
fn sizes_within(
    alloc: Global,
    asked: &SizesOf<'_>,
    imports: &[Import],
    numbers: &Numbers,
    unwind: u64,
) -> Result<LinkSizes, LinkError>
    requires sized { CanBeSized asked.now }
    requires within { AreWithin numbers.now }
    requires counted { AreCounted asked.now imports.now numbers.now }
    requires link { (l : Link) × AreOf l asked.now × ImportsAre l (imports_of l) imports.now × (unwind ≡ unwind_size l) }
    ensures small { IfOk result (λ s. s.counts.import_size ≤ 8) }
    ensures done { (l : Link) → AreOf l asked.now → ImportsAre l (imports_of l) imports.now → AreNumbers l numbers.now
        → AreSymbols l numbers.now → unwind ≡ unwind_size l → IfOk result (AreSizesOf l asked.now.exports.now) }
    ensures why { IfErr result (λ e. e ≡ OutOfMemory) }
{
    let symbols = table_symbols(alloc, asked.objects, &asked.needs.resolved)?;
    let trie = reserve_trie(alloc, asked.exports)?;
    let size = trie.size as u64;
    let counts = count_sizes(asked, imports, numbers, unwind, size, &symbols)?;
    Ok(LinkSizes {
        counts,
        symbols,
        trie,
    })
}

/// The sizes of a link that is planned.
fn plan_sizes(
    alloc: Global,
    asked: &SizesOf<'_>,
    plan: &Plan,
    list: Option<&ExportList>,
) -> Result<LinkSizes, LinkError>
    requires { CanBeSized asked.now }
    ensures small { IfOk result (λ s. s.counts.import_size ≤ 8) }
    ensures done { (l : Link) → AreOf l asked.now → AreLists l (option_copied list.entry)
        → IfOk result (AreSizesOf l asked.now.exports.now) }
    ensures why { (l : Link) (counts : LinkCounts) → AreOf l asked.now → AreLists l (option_copied list.entry) → IsPlanOf l plan.now
        → AreCounts l counts → IfErr result (Stands l counts) }
{
    let imports = asked.needs.resolved.imports();
    let numbers = count_numbers(alloc, asked, imports, list)?;
    check_limits(alloc, asked, plan, &numbers)?;
    match unwind_bytes(alloc, asked)? {
        Some(unwind) => sizes_within(alloc, asked, imports, &numbers, unwind),
        None => Err(too_large(alloc, asked, plan)),
    }
}

/// The plan and the sizes of a link, with what was listed and reserved for them. `list` is that of the export lists, if there are
/// any.
///
/// # Errors
///
/// `TooMany` where a number passes a limit of the format, `ImageTooLarge` where the unwind information alone comes near 2^64, both
/// without a placement; `OutOfMemory`, also where a path has 2^32 bytes or more, or there are 2^28 search paths.
pub fn plan_link(
    alloc: Global,
    asked: &SizesOf<'_>,
    list: Option<&ExportList>,
) -> Result<PlannedLink, LinkError>
    requires { CanBeSized asked.now }
    ensures small { IfOk result (λ p. p.sizes.counts.import_size ≤ 8) }
    ensures done { (l : Link) → AreOf l asked.now → AreLists l (option_copied list.entry)
        → IfOk result (IsPlannedOf l asked.now.exports.now) }
    ensures why { (l : Link) (counts : LinkCounts) → AreOf l asked.now → AreLists l (option_copied list.entry) → AreCounts l counts
        → IfErr result (Stands l counts) }
{
    let plan = make_plan(alloc, asked.arguments.executable, asked.views, asked.needs)?;
    let sizes = plan_sizes(alloc, asked, &plan, list)?;
    Ok(PlannedLink { plan, sizes })
}

/// Places a link that is planned.
///
/// # Errors
///
/// `TooMany` where there are too many segments or sections, without a placement, and for the pages of a segment, with one;
/// `ImageTooLarge` without a placement where the sum of all sizes comes near 2^64, and with one where a file offset or size of
/// it needs more than 32 bits; `OutOfMemory`.
pub fn place_link(alloc: Global, planned: PlannedLink) -> Result<SizedLink, LinkError>
    requires { planned.sizes.counts.import_size ≤ 8 }
    ensures done { (l : Link) (exports : List Exported) → IsPlannedOf l exports planned → IfOk result (IsSizedOf l exports) }
    ensures why { (l : Link) (exports : List Exported) → IsPlannedOf l exports planned
        → IfErr result (Stands l planned.sizes.counts) }
{
    let PlannedLink { plan, sizes } = planned;
    let placement = place(alloc, &plan, &sizes.counts)?;
    let LinkSizes {
        counts,
        symbols,
        trie,
    } = sizes;
    Ok(SizedLink {
        counts,
        placement,
        symbols,
        trie,
    })
}

/// The sizes and the placement of a link, with what was listed and reserved for them. `list` is that of the export lists, if
/// there are any.
///
/// # Errors
///
/// `TooMany` where a number passes a limit of the format, without a placement but for the pages of a segment;
/// `ImageTooLarge` without a placement where the sum of all sizes comes near 2^64, and with one where a file offset or size of
/// it needs more than 32 bits; `OutOfMemory`, also where a path has 2^32 bytes or more, or there are 2^28 search paths.
pub fn size_link(
    alloc: Global,
    asked: &SizesOf<'_>,
    list: Option<&ExportList>,
) -> Result<SizedLink, LinkError>
    requires { CanBeSized asked.now }
    ensures done { (l : Link) → AreOf l asked.now → AreLists l (option_copied list.entry)
        → IfOk result (IsSizedOf l asked.now.exports.now) }
    ensures why { (l : Link) (counts : LinkCounts) → AreOf l asked.now → AreLists l (option_copied list.entry) → AreCounts l counts
        → IfErr result (Stands l counts) }
{
    let planned = plan_link(alloc, asked, list)?;
    place_link(alloc, planned)
}
