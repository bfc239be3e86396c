//! Texts: bytes as they are, read and written at a place.
ghost use Rattle.std.specs.Prelude.{◌≡◌, ◌+◌, ◌≤◌, length, slice_range};
ghost use Rattle.macho_bytes.specs.Texts.{put};

/// The 16 bytes at an offset from a place: a name, or a UUID.
pub fn text_at(bytes: &[u8], at: usize, offset: usize) -> [u8; 16]
    requires { at + offset + 16 ≤ length bytes.now }
    ensures { result ≡ slice_range bytes.now (at + offset) (at + (offset + 16)) }
{
    let mut text = [0; 16];
    text.copy_from_slice(&bytes[at + offset..at + offset + 16]);
    text
}

/// Writes bytes at a place.
pub fn put_text(out: &mut [u8], at: usize, text: &[u8])
    requires { at + length text.now ≤ length out.old }
    ensures { out.new ≡ put at text.now out.old }
{
    out[at..at + text.len()].copy_from_slice(text);
}
