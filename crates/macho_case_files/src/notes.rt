//! Differences between what is wanted and what came, in lines.

use std::alloc::{AllocError, Global};

/// The bytes from a place on, at most so many.
pub(crate) fn part(bytes: &[u8], place: usize, count: usize) -> &[u8] {
    let behind = bytes.get(place..).unwrap_or(b"");
    behind.get(..count).unwrap_or(behind)
}

/// No more bytes are shown.
const MOST_SHOWN: usize = 400;

// Bytes as they are shown: a text on one line, or digits; the first of them alone.
fn shown(alloc: Global, bytes: &[u8]) -> Result<String, AllocError> {
    let bytes = part(bytes, 0, MOST_SHOWN);
    match std::str::from_utf8(bytes) {
        Ok(text) => format!(in alloc; "{text:?}"),
        Err(_error) => hex::encode(alloc, bytes),
    }
}

// Adds bytes as they are shown, behind a word.
fn show(alloc: Global, out: &mut String, word: &str, bytes: &[u8]) -> Result<(), AllocError> {
    let count = bytes.len();
    let text = shown(alloc, bytes)?;
    let text = format!(in alloc; "{word} {text} of {count} bytes")?;
    out.push_str(text.as_str())
}

/// Notes a difference of what is wanted and what came.
///
/// # Errors
///
/// There is not enough memory.
pub fn note(
    alloc: Global,
    found: &mut String,
    what: &str,
    want: &[u8],
    came: &[u8],
) -> Result<(), AllocError> {
    if want == came {
        return Ok(());
    }
    found.push_str(what)?;
    show(alloc, found, ": wanted", want)?;
    show(alloc, found, ", came", came)?;
    found.push_str("\n")
}

// Whether a printed text is as wanted: there is `more`, or it is `cut`, or it is whole.
fn fits(extent: Option<&str>, want: &[u8], came: &[u8]) -> bool {
    match extent {
        Some("more") => came.starts_with(want) && came.len() > want.len(),
        Some("cut") => want.starts_with(came) && !came.is_empty() && came.len() < want.len(),
        _ => came == want,
    }
}

/// Notes a difference, of a printed text.
pub(crate) fn note_printed(
    alloc: Global,
    found: &mut String,
    extent: Option<&str>,
    want: &[u8],
    came: &[u8],
) -> Result<(), AllocError> {
    if fits(extent, want, came) {
        return Ok(());
    }
    found.push_str("not so much of a text, or another one\n")?;
    note(alloc, found, "printed", want, came)
}
