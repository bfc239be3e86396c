//! Personality functions are numbered from 1 by rising id; a code is an encoding with that number in bits 28 and 29.
ghost use Rattle.std.specs.Prelude.{◌≡◌, ◌≤◌, nat_lt, length, map, IfOk, IfErr, OnOk};
ghost use Rattle.macho_unwind_pages.specs.Orders.{put_in_order};
ghost use Rattle.macho_unwind_pages.specs.Entries.{MOST_PERSONALITIES, input_of, inputs_of, ids_of, place_in, code_in};
ghost use Rattle.macho_unwind_pages.specs.Calls.{BoundFault};

use crate::entries::{MOST_PERSONALITIES, ResolvedUnwindInfo, UnwindFault, UnwindInput};
use std::alloc::{AllocError, Global};

/// An entry without its addresses.
pub(crate) fn input(entry: ResolvedUnwindInfo) -> UnwindInput
    ensures { result ≡ input_of entry }
{
    UnwindInput {
        encoding: entry.encoding,
        personality: entry.personality.map(|personality| personality.id),
        lsda: entry.lsda.is_some(),
    }
}

/// Entries without their addresses.
pub(crate) fn inputs(
    alloc: Global,
    entries: &[ResolvedUnwindInfo],
) -> Result<Vec<UnwindInput>, AllocError>
    ensures { IfOk result (λ inputs. inputs.items ≡ inputs_of entries.now) }
{
    let mut inputs = Vec::new(alloc);
    for entry in entries {
        inputs.push(input(*entry))?;
    }
    Ok(inputs)
}

/// Puts an id in its place among rising ids, unless it is there.
fn put_id(ids: &mut Vec<u32>, id: u32) -> Result<(), AllocError>
    ensures done { OnOk result (ids.new.items ≡ put_in_order nat_lt id ids.old.items) }
{
    let mut place = 0;
    while place < ids.len() && ids[place] < id {
        place += 1;
    }
    if place == ids.len() || ids[place] != id {
        ids.insert(place, id)?;
    }
    Ok(())
}

/// The ids of the personality functions, rising, each once.
pub(crate) fn personality_ids(
    alloc: Global,
    entries: &[UnwindInput],
) -> Result<Vec<u32>, UnwindFault>
    ensures done { IfOk result (λ ids. ids.items ≡ ids_of entries.now) }
    ensures few { OnOk result (length (ids_of entries.now) ≤ MOST_PERSONALITIES) }
    ensures why { IfErr result (BoundFault entries.now) }
{
    let mut ids = Vec::new(alloc);
    for entry in entries {
        if let Some(id) = entry.personality {
            put_id(&mut ids, id)?;
            if ids.len() > MOST_PERSONALITIES {
                return Err(UnwindFault::TooManyPersonalities);
            }
        }
    }
    Ok(ids)
}

/// How many ids are lesser.
pub(crate) fn place(ids: &[u32], id: u32) -> usize
    ensures place { result ≡ place_in ids.now id }
    ensures within { result ≤ length ids.now }
{
    let mut place = 0;
    for other in ids {
        if *other < id {
            place += 1;
        }
    }
    place
}

/// The code of an entry.
pub(crate) fn code(ids: &[u32], entry: UnwindInput) -> u64
    requires { length ids.now ≤ MOST_PERSONALITIES }
    ensures { result ≡ code_in ids.now entry }
{
    let number = match entry.personality {
        None => 0,
        Some(id) => 1 + place(ids, id) as u64,
    };
    u64::from(entry.encoding) + 0x1000_0000 * number
}

/// The code of each entry.
pub(crate) fn codes(
    alloc: Global,
    ids: &[u32],
    entries: &[UnwindInput],
) -> Result<Vec<u64>, AllocError>
    requires { length ids.now ≤ MOST_PERSONALITIES }
    ensures { IfOk result (λ codes. codes.items ≡ map (code_in ids.now) entries.now) }
{
    let mut codes = Vec::new(alloc);
    for entry in entries {
        codes.push(code(ids, *entry))?;
    }
    Ok(codes)
}
