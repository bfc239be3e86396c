//! The section of entries.
ghost use Rattle.std.specs.Prelude.{◌≡◌, ℕ, ◌<◌, ◌≤◌, [], length, IfOk, IfErr, OnOk};
ghost use Rattle.macho_bytes.specs.Texts.{put};
ghost use Rattle.macho_unwind_pages.specs.Entries.{MOST_PERSONALITIES, AreEntries, inputs_of, ids_of};
ghost use Rattle.macho_unwind_pages.specs.Plans.{HasFarOffset};
ghost use Rattle.macho_unwind.specs.Entries.{FindsEntries, FindsOnlyEntries, FindsNothing, IsSectionOf, FitsTheBound, HasFarPage, BuildFault};

use crate::writing::{section_size, write_plan};
use macho_unwind_pages::{Plan, ResolvedUnwindInfo, UnwindFault, plan};
use std::alloc::Global;
use std::marker::Model;

/// The section of entries, ready to be written. To a clause it is its bytes; they stand nowhere before `write`.
#[derive(Drop)]
pub struct UnwindSection {
    /// None for no entries, which have no bytes.
    plan: Option<Plan>,
    size: usize,
}

impl Model for UnwindSection {
    ghost use Rattle.std.specs.Prelude.{ℕ, List};

    ghost Value = { List ℕ };

    ghost use Rattle.macho_unwind.specs.Texts.{planned_text};
    ghost use Rattle.macho_unwind.specs.steps.Planned.{HasSize};

    ghost view = { λ s. planned_text s.plan };

    ghost invariant = { λ s. HasSize s.plan s.size };
}

impl UnwindSection {
    /// The section of entries; no entries give no bytes.
    ///
    /// Asked of the caller: no two starts alike, nothing below the text's start, no end at 2^64 or past it, one slot for each id,
    /// encodings without a personality's number. `TooManyPersonalities` is told of more than three ids, else `OffsetTooLarge`
    /// exactly where an offset from the text's start, or that of a page from the section's start, doesn't fit 32 bits.
    pub fn new(
        alloc: Global,
        text_start: u64,
        entries: &[ResolvedUnwindInfo],
    ) -> Result<UnwindSection, UnwindFault>
        requires { AreEntries text_start entries.now }
        ensures found { IfOk result (FindsEntries text_start entries.now) }
        ensures only { IfOk result (λ s. 0 < length entries.now → FindsOnlyEntries text_start entries.now s) }
        ensures nothing { IfOk result (λ s. length entries.now ≡ 0 → FindsNothing s) }
        ensures done { IfOk result (λ s. 0 < length entries.now → IsSectionOf text_start entries.now s) }
        ensures empty { IfOk result (λ s. length entries.now ≡ 0 → s ≡ []) }
        ensures room { IfOk result (FitsTheBound entries.now) }
        ensures few { OnOk result (length (ids_of (inputs_of entries.now)) ≤ MOST_PERSONALITIES) }
        ensures near { OnOk result (HasFarOffset text_start entries.now → ⊥) }
        ensures fits { OnOk result (HasFarPage text_start entries.now → ⊥) }
        ensures why { IfErr result (BuildFault text_start entries.now) }
    {
        if entries.is_empty() {
            return Ok(UnwindSection {
                plan: None,
                size: 0,
            });
        }
        let plan = plan(alloc, text_start, entries)?;
        let Some(size) = section_size(&plan) else {
            return Err(UnwindFault::OffsetTooLarge);
        };
        Ok(UnwindSection {
            plan: Some(plan),
            size,
        })
    }

    /// How many bytes the section has.
    pub fn size(&self) -> usize
        ensures { result ≡ length self.now }
    {
        self.size
    }

    /// Writes the section at the front of `out`; the bytes behind it stay.
    pub fn write(&self, out: &mut [u8])
        requires room { length self.now ≤ length out.old }
        ensures { out.new ≡ put 0 self.now out.old }
    {
        if let Some(plan) = &self.plan {
            write_plan(out, plan);
        }
    }
}

/// The section of entries, as bytes; no entries give no bytes.
///
/// Asked of the caller: no two starts alike, nothing below the text's start, no end at 2^64 or past it, one slot for each id,
/// encodings without a personality's number. `TooManyPersonalities` is told of more than three ids, else `OffsetTooLarge` exactly
/// where an offset from the text's start, or that of a page from the section's start, doesn't fit 32 bits.
pub fn build(
    alloc: Global,
    text_start: u64,
    entries: &[ResolvedUnwindInfo],
) -> Result<Vec<u8>, UnwindFault>
    requires { AreEntries text_start entries.now }
    ensures found { IfOk result (λ v. FindsEntries text_start entries.now v.items) }
    ensures only { IfOk result (λ v. 0 < length entries.now → FindsOnlyEntries text_start entries.now v.items) }
    ensures nothing { IfOk result (λ v. length entries.now ≡ 0 → FindsNothing v.items) }
    ensures done { IfOk result (λ v. 0 < length entries.now → IsSectionOf text_start entries.now v.items) }
    ensures empty { IfOk result (λ v. length entries.now ≡ 0 → v.items ≡ []) }
    ensures room { IfOk result (λ v. FitsTheBound entries.now v.items) }
    ensures few { OnOk result (length (ids_of (inputs_of entries.now)) ≤ MOST_PERSONALITIES) }
    ensures near { OnOk result (HasFarOffset text_start entries.now → ⊥) }
    ensures fits { OnOk result (HasFarPage text_start entries.now → ⊥) }
    ensures why { IfErr result (BuildFault text_start entries.now) }
{
    let section = UnwindSection::new(alloc, text_start, entries)?;
    let mut bytes = vec![in alloc; 0u8; section.size()]?;
    section.write(&mut bytes);
    Ok(bytes)
}
