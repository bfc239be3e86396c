//! Patterns: a star stands for any run of bytes, every other byte for itself.
//!
//! The bytes between two stars are looked for once, at the first place behind what was found before them: where any
//! choice of places matches, so does this one, since the star behind takes the rest. Of `_a*b*` and `_axbyb`:
//!
//!     _a   at the front, then the rest is  xbyb
//!     b    first at 1,   then the rest is  yb
//!          nothing behind the last star: any rest ends so
ghost use Rattle.std.specs.Prelude.{◌≡◌, ◌+◌, ◌≤◌, length, drop};
ghost use Rattle.macho_model.specs.ExportLists.{matches};
ghost use Rattle.macho_export_lists.specs.steps.Matching.{matches_behind};

use memchr::{memchr, memmem};

/// What stands in a text behind a place and some bytes more.
pub(crate) fn behind(text: &[u8], at: usize, more: usize) -> &[u8]
    requires { at + more ≤ length text.now }
    ensures { result.now ≡ drop (at + more) text.now }
{
    &text[at..][more..]
}

/// Whether some rest of a name matches what stands in an entry behind a star.
fn matches_behind(rest: &[u8], name: &[u8]) -> bool
    ensures { result ≡ matches_behind rest.now name.now }
{
    let mut entry = rest;
    let mut left = name;
    while let Some(star) = memchr(b'*', entry) {
        let Some(at) = memmem::find(left, &entry[..star]) else {
            return false;
        };
        left = behind(left, at, star);
        entry = behind(entry, star, 1);
    }
    left.ends_with(entry)
}

/// Whether a name matches an entry.
pub(crate) fn matches(entry: &[u8], name: &[u8]) -> bool
    ensures { result ≡ matches entry.now name.now }
{
    let Some(star) = memchr(b'*', entry) else {
        return entry == name;
    };
    if !name.starts_with(&entry[..star]) {
        return false;
    }
    matches_behind(behind(entry, star, 1), behind(name, star, 0))
}
