//! Names that can be written into a stub text.
ghost use Rattle.std.specs.Prelude.{◌≡◌, ◌&&◌, option_copied, if◌then◌else◌, Some, None};
ghost use Rattle.std.specs.List.{list_any};
ghost use Rattle.macho_tbd.specs.Writable.{is_control, has_single, has_double, is_writable};

use std::str;

/// Whether a name has a control character of ASCII.
fn has_control(name: &[u8]) -> bool
    ensures { result ≡ list_any is_control name.now }
{
    name.iter().any(|b| *b < b' ' || *b == 127)
}

/// Whether a name has a single quote.
pub(crate) fn has_single(name: &[u8]) -> bool
    ensures { result ≡ has_single name.now }
{
    name.iter().any(|b| *b == b'\'')
}

/// Whether a name has a double quote or a backslash.
fn has_double(name: &[u8]) -> bool
    ensures { result ≡ has_double name.now }
{
    name.iter().any(|b| *b == b'"' || *b == b'\\')
}

/// Whether a name fits neither single quotes nor double ones.
fn has_both(name: &[u8]) -> bool
    ensures { result ≡ (has_single name.now && has_double name.now) }
{
    has_single(name) && has_double(name)
}

/// A name as text, if it can be written.
pub(crate) fn written<'data>(name: &'data [u8]) -> Option<&'data str>
    ensures { option_copied result ≡ (if is_writable name.now then Some name.now else None) }
{
    let Ok(text) = str::from_utf8(name) else {
        return None;
    };
    if has_control(name) || has_both(name) {
        return None;
    }
    Some(text)
}
