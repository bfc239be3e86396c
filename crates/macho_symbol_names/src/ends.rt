//! Where the strings of a string table end.
//!
//! An end is looked for once for each block of the table, and not once for each symbol: so a long string that many symbols
//! name, or the tails of one, cost its length once. Of `00 5f 66 00 5f 6d 61 69 6e 00`, were blocks of 4 bytes:
//!
//!     blocks   00 5f 66 00   5f 6d 61 69   6e 00
//!     ends     0             9             9
ghost use Rattle.std.specs.Prelude.{◌≡◌, ◌^◌, ◌<◌, ◌≤◌, length, IfOk};
ghost use Rattle.macho_symbol_names.specs.Notes.{AreEnds, end_at};

use macho_records::name_bytes;
use std::alloc::{AllocError, Global};

/// How many bytes a block has.
const BLOCK: usize = 256;

/// Where the string ends that begins at a place.
fn end_of(strings: &[u8], at: usize) -> usize
    requires { at ≤ length strings.now }
    ensures is { result ≡ end_at strings.now at }
    ensures from { at ≤ result }
    ensures to { result ≤ length strings.now }
{
    at + name_bytes(&strings[at..]).len()
}

/// Where the strings of a table end that reach its blocks, or begin there. The table is read once.
///
/// # Errors
///
/// There is not enough memory.
pub fn block_ends(alloc: Global, strings: &[u8]) -> Result<Vec<u32>, AllocError>
    requires { length strings.now < 2 ^ 32 }
    ensures { IfOk result (λ ends. AreEnds strings.now ends.items) }
{
    let count = strings.len() / BLOCK + 1;
    let mut ends = Vec::with_capacity(alloc, count)?;
    let mut end = end_of(strings, 0);
    for block in 0..count {
        let start = block * BLOCK;
        if end < start {
            end = end_of(strings, start);
        }
        ends.push(end as u32)?;
    }
    Ok(ends)
}

/// Where the string ends that begins at a place of a string table, of whose blocks the ends are given: the place of its NUL, or
/// the end of the table.
pub fn string_end(strings: &[u8], ends: &[u32], at: usize) -> usize
    requires within { at ≤ length strings.now }
    requires ends { AreEnds strings.now ends.now }
    ensures is { result ≡ end_at strings.now at }
    ensures from { at ≤ result }
    ensures to { result ≤ length strings.now }
{
    let block = at / BLOCK + 1;
    if strings.len() / BLOCK < block {
        return end_of(strings, at);
    }
    let next = block * BLOCK;
    let end = at + name_bytes(&strings[at..next]).len();
    if end < next {
        end
    } else {
        ends[block] as usize
    }
}
