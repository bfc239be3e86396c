//! The bytes of a stub text, and what may stand at the ends of a line.

ghost use Rattle.std.specs.Prelude.{◌≡◌, ◌≤◌, ◌<◌, ◌+◌, ◌-◌, ℕ, length, drop, take, slice_index};
ghost use Rattle.std.specs.List.{prefix_len};
ghost use Rattle.std.specs.Str.{IsCharBoundary};
ghost use Rattle.macho_stub_lines.specs.Bytes.{is_key_byte, is_mark, is_plain_byte, has_late_control, indent, unspaced, is_passed, is_tail, has_barred};

use memchr::memchr2;

/// Whether a byte may stand in a key.
#[tactic(auto, unfolding(crate::specs::Bytes::is_key_byte))]
pub fn is_key_byte(byte: u8) -> bool
    ensures { result ≡ is_key_byte byte }
{
    byte.is_ascii_alphanumeric() || byte == b'-'
}

/// Whether a byte has a meaning of its own outside quotes.
#[tactic(auto, unfolding(crate::specs::Bytes::is_mark))]
fn is_mark(byte: u8) -> bool
    ensures { result ≡ is_mark byte }
{
    match byte {
        b',' | b'\'' | b'"' | b'#' | b'[' | b']' | b'{' | b'}' => true,
        _ => false,
    }
}

/// Whether a byte may stand in a plain scalar.
#[tactic(auto, unfolding(crate::specs::Bytes::is_plain_byte))]
pub fn is_plain_byte(byte: u8) -> bool
    ensures { result ≡ is_plain_byte byte }
{
    byte > b' ' && byte != 0x7f && !is_mark(byte)
}

/// How many bytes at the front may stand in a plain scalar.
pub fn plain_len(bytes: &[u8]) -> usize
    ensures { result ≡ prefix_len is_plain_byte bytes.now }
{
    bytes
        .iter()
        .take_while(|byte| is_plain_byte(**byte))
        .count()
}

/// How many bytes at the front may stand in a key.
pub fn key_len(bytes: &[u8]) -> usize
    ensures { result ≡ prefix_len is_key_byte bytes.now }
{
    bytes.iter().take_while(|byte| is_key_byte(**byte)).count()
}

/// How many spaces the bytes begin with.
#[tactic(auto, unfolding(crate::specs::Bytes::indent))]
pub fn indent(bytes: &[u8]) -> usize
    ensures count { result ≡ indent bytes.now }
    ensures within { result ≤ length bytes.now }
{
    bytes.iter().take_while(|byte| **byte == b' ').count()
}

/// Whether some byte is NUL or a tab.
#[tactic(auto, unfolding(crate::specs::Bytes::has_barred))]
pub fn has_barred(bytes: &[u8]) -> bool
    ensures { result ≡ has_barred bytes.now }
{
    memchr2(0, b'\t', bytes).is_some()
}

/// Whether some character is a control character past ASCII.
#[tactic(auto, unfolding(crate::specs::Bytes::has_late_control_after))]
pub fn has_late_control(bytes: &[u8]) -> bool
    ensures { result ≡ has_late_control bytes.now }
{
    let mut last = 0;
    for byte in bytes {
        if last == 0xc2 && *byte < 0xa0 {
            return true;
        }
        last = *byte;
    }
    false
}

/// Whether a line is passed over: it is blank, or its first byte past spaces is a `#`.
#[tactic(auto, unfolding(crate::specs::Bytes::is_passed, crate::specs::Bytes::unspaced, crate::specs::Bytes::is_blank_or_comment))]
pub fn is_passed(line: &[u8]) -> bool
    ensures { result ≡ is_passed line.now }
{
    let front = indent(line);
    match &line[front..] {
        [] => true,
        [first, ..] => *first == b'#',
    }
}

/// Whether nothing stands there, or spaces and then nothing or a comment.
#[tactic(auto, unfolding(crate::specs::Bytes::is_tail))]
pub fn is_tail(bytes: &[u8]) -> bool
    ensures { result ≡ is_tail bytes.now }
{
    match bytes {
        [] => true,
        [first, rest @ ..] => *first == b' ' && is_passed(rest),
    }
}

/// The text behind its first bytes, where it may be cut.
pub fn after(text: &str, count: usize) -> &str
    requires { IsCharBoundary text.now count }
    ensures { result.now ≡ drop count text.now }
{
    let (_front, rest) = text.split_at(count);
    rest
}

/// The byte at a place, or NUL past the end.
pub fn byte_at(text: &str, place: usize) -> u8
    ensures { result ≡ slice_index text.now place }
{
    let bytes = text.as_bytes();
    if place < bytes.len() { bytes[place] } else { 0 }
}
