//! The starts of functions: no two entries have one.
ghost use Rattle.std.specs.Prelude.{◌≡◌, ◌≢◌, map, IfErr, OnOk};
ghost use Rattle.std.specs.List.{AllPairs};
ghost use Rattle.macho_consumed.specs.steps.Checked.{start_key, IsAgainOrMemory};

use crate::fault::ConsumedFault;
use crate::rows::UnwindEntry;
use indexmap::IndexSet;
use macho_model::UnwindRule;
use std::alloc::Global;

/// Where a function starts.
#[derive(Clone, Copy, PartialEq, Eq, Hash)]
pub(crate) struct StartKey {
    /// The number of the file.
    file: u32,
    /// The number of the section in it.
    section: u32,
    /// Bytes from the section's start.
    offset: u64,
}

/// Where an entry's function starts.
fn start_key(entry: UnwindEntry) -> StartKey
    ensures { result ≡ start_key entry }
{
    StartKey {
        file: entry.file,
        section: entry.start.section,
        offset: entry.start.offset,
    }
}

/// Whether each entry has a start of its own; of those that haven't the first is told. Starts are found by a hash, from the last
/// entry to the first.
pub(crate) fn check_starts(alloc: Global, entries: &[UnwindEntry]) -> Result<(), ConsumedFault>
    ensures found { OnOk result (AllPairs (λ d e. start_key d ≢ start_key e) entries.now) }
    ensures why { IfErr result (IsAgainOrMemory entries.now) }
{
    let mut starts = IndexSet::new(alloc);
    let mut again = None;
    for index in 0..entries.len() {
        let entry = entries[entries.len() - 1 - index];
        if !starts.insert(start_key(entry))? {
            again = Some(entry);
        }
    }
    match again {
        None => Ok(()),
        Some(entry) => Err(ConsumedFault::BadUnwind {
            file: entry.file,
            section: entry.section,
            entry: entry.entry,
            rule: UnwindRule::U6,
        }),
    }
}
