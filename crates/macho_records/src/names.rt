//! Names of segments and sections: 16 bytes, of which the name is what stands before the first NUL.
//!
//!     5f 5f 54 45 58 54 00 00 00 00 00 00 00 00 00 00   `__TEXT`
ghost use Rattle.std.specs.Prelude.{◌≡◌, bytes_eq};
ghost use Rattle.std.specs.Fmt.{DisplaysOnOk};
ghost use Rattle.macho_bytes.specs.Texts.{name_of};
ghost use Rattle.macho_records.specs.Texts.{ascii_output};

use memchr::memchr;
use std::fmt;

/// The bytes of a name: those before the first NUL, all of them where there is none.
pub fn name_bytes(field: &[u8]) -> &[u8]
    ensures { result.now ≡ name_of field.now }
{
    match memchr(0, field) {
        Some(end) => &field[..end],
        None => field,
    }
}

/// Whether the name that stands in a field is this one.
pub(crate) fn is_named(field: &[u8], name: &[u8]) -> bool
    ensures { result ≡ bytes_eq (name_of field.now) name.now }
{
    name_bytes(field) == name
}

/// Prints bytes: as they are where they are text, with U+FFFD for what is none.
pub(crate) fn write_bytes<W: fmt::Write>(f: &mut fmt::Formatter<W>, bytes: &[u8]) -> fmt::Result
    ensures { DisplaysOnOk W.write_str_gives f.old result (ascii_output bytes.now) f.new }
{
    match str::from_utf8(bytes) {
        Ok(text) => f.write_str(text),
        Err(_) => write_chunks(f, bytes),
    }
}

fn write_chunks<W: fmt::Write>(f: &mut fmt::Formatter<W>, bytes: &[u8]) -> fmt::Result {
    for chunk in bytes.utf8_chunks() {
        f.write_str(chunk.valid())?;
        if !chunk.invalid().is_empty() {
            f.write_str("\u{FFFD}")?;
        }
    }
    Ok(())
}
