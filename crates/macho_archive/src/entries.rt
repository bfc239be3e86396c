//! One entry: its header, and the contents behind it.
//!
//! ```text
//! 2f 30 20 20 ..                16 bytes   the field of the name: `/0`, filled with spaces
//! 30 20 20 ..                   32 bytes   date, owner, group and mode
//! 35 20 20 20 20 20 20 20 20 20 10 bytes   the size: `5`
//! 60 0a                          2 bytes   the end
//! 68 65 6c 6c 6f                 5 bytes   the contents
//! 0a                             1 byte    which fills an odd size up
//! ```
ghost use Rattle.std.specs.Prelude.{◌≡◌, ◌<◌, length, nat_eq, true, IfOk, IfErr};
ghost use Rattle.std.specs.List.{starts_with};
ghost use Rattle.macho_archive.specs.Entries.{MAGIC};
ghost use Rattle.macho_archive.specs.steps.Reads.{IsRead, IsSized, IsUnsized, IsBrokenRule};

use crate::fault::ArchiveRule;
use crate::fields::{decimal, trimmed};
use crate::names::name_in;

/// What a header ends with.
const END: &[u8] = b"`\n";

/// An entry of an archive.
#[derive(Clone, Copy)]
pub(crate) struct Entry<'data> {
    /// The field of the name.
    pub(crate) stem: &'data [u8],
    /// The name.
    pub(crate) name: &'data [u8],
    /// How many bytes of the contents are the name.
    pub(crate) width: usize,
    /// The contents.
    pub(crate) contents: &'data [u8],
    /// Where the next entry begins.
    pub(crate) next: usize,
}

/// Where the contents of an entry end.
#[tactic(auto, unfolding(crate::specs::Entries::stated_size))]
fn contents_end(bytes: &[u8], at: usize) -> Result<usize, ArchiveRule>
    requires { at < length bytes.now }
    ensures found { IfOk result (IsSized bytes.now at) }
    ensures why { IfErr result (IsUnsized bytes.now at) }
{
    if bytes.len() - at < 60 {
        return Err(ArchiveRule::A2);
    }
    if &bytes[at + 58..at + 60] != END {
        return Err(ArchiveRule::A3);
    }
    let Some(size) = decimal(trimmed(&bytes[at + 48..at + 58], b' ')) else {
        return Err(ArchiveRule::A4);
    };
    if size > (bytes.len() - at - 60) as u64 {
        return Err(ArchiveRule::A4);
    }
    Ok(at + 60 + size as usize)
}

/// The entry at a place, behind a table of names.
///
/// # Errors
///
/// A rule that it breaks.
#[tactic(auto, unfolding(crate::specs::Entries::stem_at, crate::specs::Entries::contents_at, crate::specs::Entries::next_of))]
pub(crate) fn entry_at<'data>(
    bytes: &'data [u8],
    at: usize,
    table: &'data [u8],
) -> Result<Entry<'data>, ArchiveRule>
    requires within { at < length bytes.now }
    requires magic { starts_with nat_eq bytes.now MAGIC ≡ true }
    ensures found { IfOk result (IsRead bytes.now table.now at) }
    ensures why { IfErr result (IsBrokenRule bytes.now table.now at) }
{
    let end = contents_end(bytes, at)?;
    let stem = trimmed(&bytes[at..at + 16], b' ');
    let contents = &bytes[at + 60..end];
    let named = name_in(stem, contents, table)?;
    Ok(Entry {
        stem,
        name: named.name,
        width: named.width,
        contents,
        next: end + end % 2,
    })
}
