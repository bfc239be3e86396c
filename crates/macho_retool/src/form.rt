//! The signature of an image, where it has the form of a linker's.
ghost use Rattle.std.specs.Prelude.{◌≡◌, ◌+◌, ◌*◌, ◌≤◌, ◌<◌, ◌^◌, ℕ, None, Some, IfOk, length};
ghost use Rattle.macho_bytes.specs.Numbers.{be_at};
ghost use Rattle.macho_model.specs.Loader.{IsAccepted};
ghost use Rattle.macho_model.specs.Images.{Table};
ghost use Rattle.macho_retool.specs.Parts.{text_end};
ghost use Rattle.macho_retool.specs.Forms.{directory_says};
ghost use Rattle.macho_retool.specs.steps.Formed.{table_in, super_blob_of, IsFormIn, IsFormHere};

use macho_image_walks::{Listed, nth, segment_at};
use macho_loader::{LinkeditRange, Loaded};
use macho_records::{CodeDirectory, LC_CODE_SIGNATURE};
use macho_signature::page_count;
use macho_wire::big_at;
use std::alloc::{AllocError, Global};

/// The bytes of a super blob with one blob, behind which the code directory stands.
const DIRECTORY_PLACE: usize = 20;

/// A signature of a linker's form.
#[derive(Clone, Copy)]
pub(crate) struct Form {
    /// Where it begins in the file, and the signed bytes end.
    pub(crate) limit: u32,
    /// Where its digests stand in it.
    pub(crate) hashes_offset: u32,
}

/// Where the file bytes of `__TEXT` end: it begins with the file.
pub(crate) fn text_end(bytes: &[u8]) -> u64
    requires { IsAccepted bytes.now }
    ensures { result ≡ text_end bytes.now }
{
    match nth(bytes, Listed::Texts, 0) {
        Some(place) => segment_at(bytes, place).file_size,
        None => 0,
    }
}

/// The big-endian word at an offset from a place.
fn word_at(bytes: &[u8], at: usize, offset: usize) -> u32
    requires { at + offset + 4 ≤ length bytes.now }
    ensures { result ≡ be_at 4 bytes.now (at + offset) }
{
    big_at(bytes, at, offset)
}

/// Whether a super blob stands in a range, in front of a code directory of so many bytes.
fn has_super_blob(bytes: &[u8], at: usize, size: u32, rest: u32) -> bool
    requires { at + 20 ≤ length bytes.now }
    ensures { result ≡ super_blob_of bytes.now at size rest }
{
    word_at(bytes, at, 0) == 0xfade_0cc0
        && word_at(bytes, at, 4) as u64 == 20 + rest as u64
        && word_at(bytes, at, 8) == 1
        && word_at(bytes, at, 12) == 0
        && word_at(bytes, at, 16) == 20
        && 20 + rest as u64 <= size as u64
}

/// Whether a code directory says what a linker's does.
fn is_directory(limit: u32, directory: &CodeDirectory) -> bool
    ensures { result ≡ directory_says limit directory.now }
{
    let d = *directory;
    d.magic == 0xfade_0c02
        && d.version == 0x2_0400
        && d.ident_offset == 88
        && d.hash_offset >= 88
        && d.special_slots == 0
        && d.code_limit == limit
        && d.hash_size == 32
        && d.hash_type == 2
        && d.platform == 0
        && d.page_exponent == 12
        && d.spare == 0
        && d.scatter_offset == 0
        && d.team_offset == 0
        && d.spare2 == 0
        && d.code_limit64 == 0
        && d.code_slots as usize == page_count(limit as usize)
        && d.hash_offset as u64 + 32 * d.code_slots as u64 <= d.length as u64
}

/// The signature of a range, where it has the form.
fn form_in(bytes: &[u8], range: LinkeditRange) -> Option<Form>
    requires { IsAccepted bytes.now }
    ensures { IsFormHere bytes.now (table_in range) result }
{
    let at = range.at as usize;
    if at as u64 + range.size as u64 != bytes.len() as u64 || text_end(bytes) > at as u64 {
        return None;
    }
    match CodeDirectory::read(bytes, at + DIRECTORY_PLACE) {
        Some(directory)
            if has_super_blob(bytes, at, range.size, directory.length)
                && is_directory(range.at, &directory) => {
            Some(Form {
                limit: range.at,
                hashes_offset: 20 + directory.hash_offset,
            })
        }
        _ => None,
    }
}

/// The signature of an image, where it has one of the form.
pub(crate) fn form_of(
    alloc: Global,
    bytes: &[u8],
    loaded: &Loaded<'_>,
) -> Result<Option<Form>, AllocError>
    requires same { loaded.now ≡ bytes.now }
    requires accepted { IsAccepted bytes.now }
    ensures { IfOk result (IsFormIn bytes.now) }
{
    let ranges = loaded.ranges(alloc, LC_CODE_SIGNATURE)?;
    match ranges.as_slice() {
        [range] => Ok(form_in(bytes, *range)),
        _ => Ok(None),
    }
}
