//! The personality functions of a link, each counted once.
ghost use Rattle.std.specs.Prelude.{◌≡◌, List, length, map, All, IfOk, OnOk};
ghost use Rattle.std.specs.List.{filter_map};
ghost use Rattle.macho_model.specs.Links.{Link};
ghost use Rattle.macho_model.specs.Needs.{imports_of, distinct};
ghost use Rattle.macho_model.specs.Targets.{same_target};
ghost use Rattle.macho_symbols.specs.Kept.{IsResolved};
ghost use Rattle.macho_needs.specs.Tables.{target_of, with_some};
ghost use Rattle.macho_consumed.specs.Symbols.{HasPersonality};
ghost use Rattle.macho_sizing.specs.steps.Personalities.{personality_of};

use indexmap::IndexSet;
use macho_consumed::UnwindEntry;
use macho_needs::{Needs, SlotKey, key};
use std::alloc::{AllocError, Global};

/// Notes the personality function of an entry, if it has one.
fn note(
    needs: &Needs<'_>,
    entry: UnwindEntry,
    seen: &mut IndexSet<SlotKey>,
) -> Result<(), AllocError>
    requires { HasPersonality needs.now.resolved entry }
    ensures { (l : Link) → IsResolved l (imports_of l) needs.now.resolved
        → OnOk result (map target_of seen.new.keys ≡ with_some same_target (map target_of seen.old.keys) (personality_of l entry)) }
{
    if let Some(used) = entry.personality {
        let target = needs
            .resolved
            .target(entry.file, used.relocation.r_symbolnum);
        seen.insert(key(target))?;
    }
    Ok(())
}

/// How many personality functions entries name.
pub(crate) fn count_personalities(
    alloc: Global,
    needs: &Needs<'_>,
    entries: &[UnwindEntry],
) -> Result<usize, AllocError>
    requires { All (HasPersonality needs.now.resolved) entries.now }
    ensures { (l : Link) → IsResolved l (imports_of l) needs.now.resolved
        → IfOk result (λ n. n ≡ length (distinct same_target (filter_map (personality_of l) entries.now))) }
{
    let mut seen = IndexSet::new(alloc);
    for entry in entries {
        note(needs, *entry, &mut seen)?;
    }
    Ok(seen.len())
}
