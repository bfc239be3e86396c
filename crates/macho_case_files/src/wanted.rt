//! What a case wants of its run, beside what came.

use crate::files::{GivenFile, bytes_under};
use crate::lines::{Line, first_word, rest_of};
use crate::notes::{note, note_printed, part};
use crate::values::{Unread, add_bytes, add_text_line, quoted, size, wrong};
use sha2::{Digest, Sha256};
use std::alloc::{AllocError, Global};

/// What a run answered.
#[derive(Clone, Copy)]
pub struct Came<'a> {
    /// The status that it ended with.
    pub status: u8,
    /// What stands on standard output.
    pub printed: &'a [u8],
    /// What the fault keeps beside its line.
    pub kept: &'a str,
    /// Whether there is an image.
    pub has_image: bool,
}

// The status that is wanted, and the line.
fn end_of<'a>(case: &[Line<'a>]) -> Line<'a> {
    match rest_of(case, "ends") {
        Some(rest) => first_word(rest),
        None => Line { key: "0", rest: "" },
    }
}

// Adds the line of standard error that is wanted.
fn add_fault(out: &mut Vec<u8>, case: &[Line<'_>]) -> Result<(), AllocError> {
    if let Some(rest) = rest_of(case, "line_is") {
        return out.extend_from_slice(quoted(rest).unwrap_or(rest).as_bytes());
    }
    let end = end_of(case);
    if end.key == "0" {
        return Ok(());
    }
    out.extend_from_slice(b"wild_macho: ")?;
    add_text_line(out, end.rest)
}

// Adds the lines that a case wants under a key.
fn add_lines(out: &mut Vec<u8>, case: &[Line<'_>], key: &str) -> Result<(), AllocError> {
    for line in case {
        if line.key == key {
            add_text_line(out, line.rest)?;
        }
    }
    Ok(())
}

/// Notes the line of standard error where it isn't as wanted.
///
/// # Errors
///
/// There is not enough memory.
pub fn check_line(
    alloc: Global,
    found: &mut String,
    case: &[Line<'_>],
    came: &[u8],
) -> Result<(), AllocError> {
    let mut want = Vec::new(alloc);
    add_fault(&mut want, case)?;
    note_printed(alloc, found, rest_of(case, "line"), &want, came)
}

// Adds what is to be printed.
fn add_printed(out: &mut Vec<u8>, case: &[Line<'_>]) -> Result<(), AllocError> {
    add_lines(out, case, "prints")?;
    match rest_of(case, "prints_part") {
        Some(rest) => out.extend_from_slice(quoted(rest).unwrap_or(rest).as_bytes()),
        None => Ok(()),
    }
}

// Notes what is printed where it isn't as wanted.
fn check_printed(
    alloc: Global,
    found: &mut String,
    case: &[Line<'_>],
    came: &[u8],
) -> Result<(), AllocError> {
    let mut want = Vec::new(alloc);
    add_printed(&mut want, case)?;
    note_printed(alloc, found, rest_of(case, "printed"), &want, came)
}

// Notes a number, or a text, that a line wants, where it isn't as wanted.
fn check_text(
    alloc: Global,
    found: &mut String,
    case: &[Line<'_>],
    key: &str,
    came: &str,
) -> Result<(), AllocError> {
    match rest_of(case, key) {
        Some(want) => note(alloc, found, key, want.as_bytes(), came.as_bytes()),
        None => Ok(()),
    }
}

// Notes a status that isn't as wanted, and an image that isn't wanted or doesn't come.
fn check_status(
    alloc: Global,
    found: &mut String,
    case: &[Line<'_>],
    came: &Came<'_>,
) -> Result<(), AllocError> {
    let want = end_of(case).key;
    let status = format!(in alloc; "{}", came.status)?;
    note(alloc, found, "status", want.as_bytes(), status.as_bytes())?;
    let has_image = want == "0" || want == "4";
    if has_image != came.has_image {
        found.push_str("an image that is not wanted, or none\n")?;
    }
    Ok(())
}

/// Notes a status, what is printed or what a fault keeps, where they are not as wanted, and an image that isn't wanted or doesn't come.
///
/// # Errors
///
/// A line isn't of the form, or there is not enough memory.
pub fn check_answer(
    alloc: Global,
    found: &mut String,
    case: &[Line<'_>],
    came: &Came<'_>,
) -> Result<(), Unread> {
    if rest_of(case, "linked").is_some() == rest_of(case, "ends").is_some() {
        return Err(wrong("a case has one line `linked` or `ends`"));
    }
    check_status(alloc, found, case, came)?;
    check_printed(alloc, found, case, came.printed)?;
    Ok(check_text(alloc, found, case, "keeps", came.kept)?)
}

// Notes bytes at a place, by a line's place and bytes.
fn check_place(alloc: Global, found: &mut String, text: &str, image: &[u8]) -> Result<(), Unread> {
    let place = first_word(text);
    let start = size(place.key)?;
    let mut want = Vec::new(alloc);
    add_bytes(alloc, &mut want, place.rest)?;
    let came = part(image, start, want.len());
    Ok(note(alloc, found, place.key, &want, came)?)
}

// Notes a length that isn't as wanted.
fn check_length(
    alloc: Global,
    found: &mut String,
    case: &[Line<'_>],
    length: usize,
) -> Result<(), AllocError> {
    let length = format!(in alloc; "{length}")?;
    check_text(alloc, found, case, "length", length.as_str())
}

/// Notes the length of an image and bytes of it that are not as wanted.
///
/// # Errors
///
/// A line isn't of the form, or there is not enough memory.
pub fn check_bytes(
    alloc: Global,
    found: &mut String,
    case: &[Line<'_>],
    image: &[u8],
) -> Result<(), Unread> {
    check_length(alloc, found, case, image.len())?;
    for line in case {
        if line.key == "at" {
            check_place(alloc, found, line.rest, image)?;
        }
    }
    Ok(())
}

// Notes what is told of an image, where all of it is wanted.
fn check_list(
    alloc: Global,
    found: &mut String,
    case: &[Line<'_>],
    came: &[u8],
) -> Result<(), AllocError> {
    let mut want = Vec::new(alloc);
    add_lines(&mut want, case, "told")?;
    if want.is_empty() {
        return Ok(());
    }
    note(alloc, found, "told", &want, came)
}

// Notes an image's digest, where it isn't as wanted.
fn check_digest(
    alloc: Global,
    found: &mut String,
    case: &[Line<'_>],
    image: &[u8],
) -> Result<(), AllocError> {
    let Some(want) = rest_of(case, "sha256") else {
        return Ok(());
    };
    let digest = hex::encode(alloc, &Sha256::digest(image))?;
    note(alloc, found, "sha256", want.as_bytes(), digest.as_bytes())
}

/// Notes what of an image and of what is told of it is not as wanted.
///
/// # Errors
///
/// A line isn't of the form, or there is not enough memory.
pub fn check_image(
    alloc: Global,
    found: &mut String,
    case: &[Line<'_>],
    image: &[u8],
    told: &[u8],
) -> Result<(), Unread> {
    check_list(alloc, found, case, told)?;
    check_digest(alloc, found, case, image)?;
    check_bytes(alloc, found, case, image)
}

// Adds the bytes that a path is to hold.
fn add_held(alloc: Global, out: &mut Vec<u8>, line: Line<'_>, image: &[u8]) -> Result<(), Unread> {
    match line.key {
        "nothing" => Ok(()),
        "image" if line.rest.is_empty() => Ok(out.extend_from_slice(image)?),
        "image" => Ok(out.extend_from_slice(part(image, 0, size(line.rest)?))?),
        "bytes" => add_bytes(alloc, out, line.rest),
        _ => Err(wrong("a path holds nothing, an image or bytes")),
    }
}

/// Notes what a path holds, where it is not what a line wants.
///
/// # Errors
///
/// The line isn't of the form, or there is not enough memory.
pub fn check_held(
    alloc: Global,
    found: &mut String,
    text: &str,
    image: &[u8],
    came: Option<&[u8]>,
) -> Result<(), Unread> {
    let path = first_word(text);
    let held = first_word(path.rest);
    if (held.key == "nothing") == came.is_some() {
        found.push_str("a path that holds a file, or none\n")?;
    }
    let mut want = Vec::new(alloc);
    add_held(alloc, &mut want, held, image)?;
    Ok(note(alloc, found, path.key, &want, came.unwrap_or(b""))?)
}

/// Notes two files whose bytes are to be the same, where they are not.
///
/// # Errors
///
/// There is not enough memory.
pub fn check_same(
    alloc: Global,
    found: &mut String,
    case: &[Line<'_>],
    files: &[GivenFile<'_>],
) -> Result<(), AllocError> {
    if let Some(rest) = rest_of(case, "same") {
        let paths = first_word(rest);
        let one = bytes_under(files, paths.key);
        let other = bytes_under(files, paths.rest);
        if one.is_empty() {
            found.push_str("there is no such file\n")?;
        }
        note(alloc, found, "same", other, one)?;
    }
    Ok(())
}
