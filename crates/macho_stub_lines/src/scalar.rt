//! Scalars: plain, in single quotes, or in double quotes.
//!
//! ```text
//! 1.2.3    '/usr/lib/libMain.dylib'    "_operator new"
//! ```

ghost use Rattle.std.specs.Prelude.{◌≡◌, ◌≤◌, ◌<◌, ◌+◌, ◌-◌, ℕ, length, Option, Some, None, IfSome, slice_index};
ghost use Rattle.std.specs.Option.{option_map};
ghost use Rattle.std.specs.List.{prefix_len};
ghost use Rattle.std.specs.Str.{IsCharBoundary};
ghost use Rattle.macho_stub_lines.specs.Bytes.{single_quote, double_quote};
ghost use Rattle.macho_stub_lines.specs.Scalars.{span_of, plain_front, quoted_front, scalar_front, in_single, in_double};

use crate::bytes::{after, byte_at, has_late_control, plain_len};
use memchr::{memchr, memchr2};

/// A scalar at the front of a text: what it says, and how many bytes it takes with its quotes.
#[derive(Clone, Copy)]
pub struct Scalar<'data> {
    pub text: &'data str,
    pub width: usize,
}

/// The plain scalar that the text begins with.
#[tactic(auto, unfolding(crate::specs::Scalars::plain_front))]
fn plain_front<'data>(text: &'data str) -> Option<Scalar<'data>>
    ensures value { option_map span_of result ≡ plain_front text.now }
    ensures cut { IfSome result (λ scalar. IsCharBoundary text.now scalar.width) }
    ensures some { IfSome result (λ scalar. 0 < scalar.width) }
{
    let width = plain_len(text.as_bytes());
    if width == 0 {
        return None;
    }
    let (front, _rest) = text.split_at(width);
    if has_late_control(front.as_bytes()) {
        return None;
    }
    Some(Scalar { text: front, width })
}

/// How many bytes at the front may stand in single quotes.
fn single_len(bytes: &[u8]) -> usize
    ensures { result ≡ prefix_len in_single bytes.now }
{
    memchr(b'\'', bytes).unwrap_or(bytes.len())
}

/// How many bytes at the front may stand in double quotes.
fn double_len(bytes: &[u8]) -> usize
    ensures { result ≡ prefix_len in_double bytes.now }
{
    memchr2(b'"', b'\\', bytes).unwrap_or(bytes.len())
}

/// The scalar in single quotes, from behind the first.
#[tactic(auto, unfolding(crate::specs::Scalars::quoted_front))]
fn single_front<'data>(text: &'data str) -> Option<Scalar<'data>>
    ensures value { option_map span_of result ≡ quoted_front in_single single_quote text.now }
    ensures cut { IfSome result (λ scalar. IsCharBoundary text.now (scalar.width - 1)) }
    ensures some { IfSome result (λ scalar. 1 < scalar.width) }
{
    let len = single_len(text.as_bytes());
    if byte_at(text, len) != b'\'' {
        return None;
    }
    let (front, _rest) = text.split_at(len);
    Some(Scalar {
        text: front,
        width: len + 2,
    })
}

/// The scalar in double quotes, from behind the first.
#[tactic(auto, unfolding(crate::specs::Scalars::quoted_front))]
fn double_front<'data>(text: &'data str) -> Option<Scalar<'data>>
    ensures value { option_map span_of result ≡ quoted_front in_double double_quote text.now }
    ensures cut { IfSome result (λ scalar. IsCharBoundary text.now (scalar.width - 1)) }
    ensures some { IfSome result (λ scalar. 1 < scalar.width) }
{
    let len = double_len(text.as_bytes());
    if byte_at(text, len) != b'"' {
        return None;
    }
    let (front, _rest) = text.split_at(len);
    Some(Scalar {
        text: front,
        width: len + 2,
    })
}

/// The scalar that the text begins with.
#[tactic(auto, unfolding(crate::specs::Scalars::scalar_front))]
pub fn scalar_front<'data>(text: &'data str) -> Option<Scalar<'data>>
    ensures value { option_map span_of result ≡ scalar_front text.now }
    ensures cut { IfSome result (λ scalar. IsCharBoundary text.now scalar.width) }
    ensures some { IfSome result (λ scalar. 0 < scalar.width) }
{
    if text.is_empty() {
        return None;
    }
    match byte_at(text, 0) {
        b'\'' => single_front(after(text, 1)),
        b'"' => double_front(after(text, 1)),
        _ => plain_front(text),
    }
}
