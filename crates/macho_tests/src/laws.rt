//! Callers of the laws of exports tries and of compact unwind: each says of its own values what the law says of all.
ghost use Rattle.std.specs.Prelude.{◌≡◌, ℕ, ◌^◌, ◌<◌, ◌≤◌, ◌↔◌, length};
ghost use Rattle.std.specs.List.{range_with_len};
ghost use Rattle.macho_unwind_pages.specs.Entries.{AreEntries, SpansAtMost, inputs_of, ids_of};
ghost use Rattle.macho_unwind_pages.specs.Bounds.{unwind_bound_of};
ghost use Rattle.macho_unwind_pages.specs.Plans.{PlanList, IsPlanOf, size_of};
ghost use Rattle.macho_unwind_pages.specs.Laws.{Names};
ghost use Rattle.macho_unwind.specs.Entries.{HasFarPage};
ghost use Rattle.macho_trie.specs.Symbols.{names_of, symbols_of};
ghost use Rattle.macho_trie.specs.Tries.{IsSizeOf};

use macho_trie::{Symbols, Trie, sizes_are_one};
use macho_unwind::{ResolvedUnwindInfo, UnwindInput, far_page_needs_room, ids_are_named};
use macho_unwind_pages::{plans_are_one, plans_are_short};

/// Entries whose last page would be far have a bound of 4 GiB or more.
fn bound_of_far_entries(text: u64, span: u64, entries: &[ResolvedUnwindInfo])
    requires entries { AreEntries text entries.now }
    requires far { HasFarPage text entries.now }
    requires spans { SpansAtMost span entries.now }
    ensures { 2 ^ 32 ≤ unwind_bound_of (inputs_of entries.now) span }
{
    far_page_needs_room();
}

/// Entries that name the numbers below a count have these ids.
fn ids_by_number(entries: &[UnwindInput], count: usize)
    requires { (id : ℕ) → (id < count) ↔ Names entries.now id }
    ensures { ids_of entries.now ≡ range_with_len 0 count }
{
    ids_are_named();
}

/// Entries have one plan at most.
fn plan_of_entries(text: u64, entries: &[ResolvedUnwindInfo])
    requires { 0 < length entries.now }
    ensures { (plan other : PlanList) → IsPlanOf text entries.now plan → IsPlanOf text entries.now other → plan ≡ other }
{
    plans_are_one();
}

/// Every plan of entries has no more bytes than their bound.
fn plans_of_entries(text: u64, span: u64, entries: &[ResolvedUnwindInfo])
    requires some { 0 < length entries.now }
    requires entries { AreEntries text entries.now }
    requires spans { SpansAtMost span entries.now }
    ensures { (plan : PlanList) → IsPlanOf text entries.now plan → size_of plan ≤ unwind_bound_of (inputs_of entries.now) span }
{
    plans_are_short();
}

/// A size that a trie has is its only one.
fn size_of_a_trie(trie: &Trie, symbols: &Symbols<'_>, size: usize)
    requires { IsSizeOf trie.now (names_of symbols.now) (symbols_of symbols.now) size }
    ensures { (n : ℕ) → IsSizeOf trie.now (names_of symbols.now) (symbols_of symbols.now) n → n ≡ size }
{
    sizes_are_one();
}
