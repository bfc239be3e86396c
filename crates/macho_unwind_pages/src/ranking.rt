//! Codes by rank: by how often they stand, then by value, both falling. The first 224 are those that every page may name.
ghost use Rattle.std.specs.Prelude.{◌≡◌, ◌==◌, take, is_some, IfSome, IfOk};
ghost use Rattle.std.specs.List.{list_any};
ghost use Rattle.std.specs.Ordering.{nat_cmp, ordering_then};
ghost use Rattle.indexmap.specs.IndexMap.{keys};
ghost use Rattle.macho_unwind_pages.specs.steps.Ranks.{ranked, Counts, IsNumberOf};
ghost use Rattle.macho_unwind_pages.specs.steps.Tallies.{locals_in};

use indexmap::IndexMap;
use std::alloc::{AllocError, Global};
use std::cmp::Ordering;

/// The most encodings that every page may name.
pub(crate) const MOST_GLOBALS: usize = 224;

/// The codes, each with how often it stands in the list.
fn counts(alloc: Global, codes: &[u64]) -> Result<IndexMap<u64, u64>, AllocError>
    ensures { IfOk result (λ counts. Counts codes.now counts) }
{
    let mut counts: IndexMap<u64, u64> = IndexMap::new(alloc);
    for code in codes {
        let times = counts.get(code).copied().unwrap_or(0);
        counts.insert(*code, times + 1)?;
    }
    Ok(counts)
}

/// The codes by rank, each with how often it stands in the list.
pub(crate) fn ranks(alloc: Global, codes: &[u64]) -> Result<IndexMap<u64, u64>, AllocError>
    ensures { IfOk result (λ ranks. keys ranks ≡ ranked codes.now) }
{
    let mut ranks = counts(alloc, codes)?;
    ranks.sort_by(
        |code: &u64, times: &u64, other: &u64, other_times: &u64| -> Ordering
            ensures { result ≡ ordering_then (nat_cmp other_times.now times.now) (nat_cmp other.now code.now) }
        { other_times.cmp(times).then(other.cmp(code)) },
    )?;
    Ok(ranks)
}

/// The number of a code among those that every page may name.
pub(crate) fn global_number(ranks: &IndexMap<u64, u64>, code: u64) -> Option<usize>
    ensures number { IfSome result (λ n. IsNumberOf (take MOST_GLOBALS (keys ranks.now)) code n) }
    ensures found { is_some result ≡ list_any (λ global. code == global) (take MOST_GLOBALS (keys ranks.now)) }
{
    match ranks.get_index_of(&code) {
        Some(rank) if rank < MOST_GLOBALS => Some(rank),
        _ => None,
    }
}

/// How many of these codes not every page may name.
pub(crate) fn local_count(ranks: &IndexMap<u64, u64>, codes: &[u64]) -> u64
    ensures { result ≡ locals_in (take MOST_GLOBALS (keys ranks.now)) codes.now }
{
    let mut count = 0;
    for code in codes {
        if global_number(ranks, *code).is_none() {
            count += 1;
        }
    }
    count
}
