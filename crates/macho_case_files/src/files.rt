//! The files of a case, and the words of its run.

use crate::lines::{Line, first_word, rest_of};
use crate::object::{add_zeros, bytes_of_object};
use crate::reader::file_at;
use crate::values::{Unread, add_bytes, add_text_line, byte, size, wrong};
use macho_samples::{Library, dylib_bytes, stub_bytes};
use std::alloc::{AllocError, Global};

/// A file of a case.
#[derive(Drop)]
pub struct GivenFile<'a> {
    /// The path under which the run finds it.
    pub path: &'a str,
    /// What the run finds there.
    pub bytes: Vec<u8>,
}

// The words of a text.
fn words_of(alloc: Global, text: &str) -> Result<Vec<&str>, AllocError> {
    let mut words = Vec::new(alloc);
    for word in text.split_whitespace() {
        words.push(word)?;
    }
    Ok(words)
}

// The bytes of a library of a line `INSTALL_NAME NAME .. weak NAME ..`.
fn bytes_of_library(alloc: Global, is_stub: bool, text: &str) -> Result<Vec<u8>, AllocError> {
    let line = first_word(text);
    let (names, weak) = line.rest.split_once("weak ").unwrap_or((line.rest, ""));
    let names = words_of(alloc, names)?;
    let weak = words_of(alloc, weak)?;
    let library = Library {
        install_name: line.key,
        names: &names,
        weak: &weak,
    };
    if is_stub {
        stub_bytes(alloc, &library)
    } else {
        dylib_bytes(alloc, &library)
    }
}

// Adds bytes so many times.
fn add_times(bytes: &mut Vec<u8>, once: &[u8], count: usize) -> Result<(), AllocError> {
    bytes.reserve(once.len().saturating_mul(count))?;
    for _turn in 0..count {
        bytes.extend_from_slice(once)?;
    }
    Ok(())
}

// Adds the bytes of a line `COUNT BYTES ..` so many times.
fn add_repeated(alloc: Global, bytes: &mut Vec<u8>, text: &str) -> Result<(), Unread> {
    let count = first_word(text);
    let mut once = Vec::new(alloc);
    add_bytes(alloc, &mut once, count.rest)?;
    Ok(add_times(bytes, &once, size(count.key)?)?)
}

// Adds the bytes that a line says.
fn add_said(alloc: Global, bytes: &mut Vec<u8>, line: Line<'_>) -> Result<(), Unread> {
    match line.key {
        "bytes" | "hex" => add_bytes(alloc, bytes, line.rest),
        "zeros" => add_zeros(bytes, size(line.rest)?),
        "repeat" => add_repeated(alloc, bytes, line.rest),
        ">" => Ok(add_text_line(bytes, line.rest)?),
        _ => Ok(()),
    }
}

// The bytes that lines say.
fn bytes_said(alloc: Global, lines: &[Line<'_>]) -> Result<Vec<u8>, Unread> {
    let mut bytes = Vec::new(alloc);
    for line in lines {
        add_said(alloc, &mut bytes, *line)?;
    }
    Ok(bytes)
}

// The bytes of a file as it is made.
fn bytes_made(alloc: Global, lines: &[Line<'_>]) -> Result<Vec<u8>, Unread> {
    let Some(first) = lines.first() else {
        return Err(wrong("a file of nothing"));
    };
    match first.key {
        "object" => bytes_of_object(alloc, lines),
        "bytes" => bytes_said(alloc, lines),
        "stub" => Ok(bytes_of_library(alloc, true, first.rest)?),
        "dylib" => Ok(bytes_of_library(alloc, false, first.rest)?),
        _ => Err(wrong("a file is an object, a dylib, a stub or bytes")),
    }
}

// Changes the bytes of a file, where the line says so.
fn change(bytes: &mut Vec<u8>, line: Line<'_>) -> Result<(), Unread> {
    if line.key == "cut" {
        let left = size(line.rest)?;
        if left > bytes.len() {
            return Err(wrong("a file is cut behind its end"));
        }
        bytes.truncate(left);
    }
    if line.key == "change" {
        let place = first_word(line.rest);
        let value = byte(place.rest)?;
        let Some(one) = bytes.get_mut(size(place.key)?) else {
            return Err(wrong("a byte is changed behind a file's end"));
        };
        *one = value;
    }
    Ok(())
}

// The bytes of a file, cut and changed.
fn bytes_of_file(alloc: Global, lines: &[Line<'_>]) -> Result<Vec<u8>, Unread> {
    let mut bytes = bytes_made(alloc, lines)?;
    for line in lines {
        change(&mut bytes, *line)?;
    }
    Ok(bytes)
}

/// The bytes of the file under a path, none where there is no such file.
pub fn bytes_under<'a>(files: &'a [GivenFile<'_>], path: &str) -> &'a [u8] {
    for file in files {
        if file.path == path {
            return &file.bytes;
        }
    }
    b""
}

/// The files of a case.
///
/// # Errors
///
/// A line isn't of the form, or there is not enough memory.
pub fn files_of<'a>(alloc: Global, case: &[Line<'a>]) -> Result<Vec<GivenFile<'a>>, Unread> {
    let mut files = Vec::new(alloc);
    for (place, line) in case.iter().enumerate() {
        if line.key == "file" {
            files.push(GivenFile {
                path: line.rest,
                bytes: bytes_of_file(alloc, file_at(case, place))?,
            })?;
        }
    }
    Ok(files)
}

// Adds the words of a text.
fn add_words(words: &mut Vec<String>, alloc: Global, text: &str) -> Result<(), AllocError> {
    for word in text.split_whitespace() {
        words.push(String::from_str(alloc, word)?)?;
    }
    Ok(())
}

/// The words of a case's run: its own, or the paths of its files.
///
/// # Errors
///
/// There is not enough memory.
pub fn words_of_case(alloc: Global, case: &[Line<'_>]) -> Result<Vec<String>, AllocError> {
    let mut words = Vec::new(alloc);
    if let Some(own) = rest_of(case, "words") {
        add_words(&mut words, alloc, own)?;
        return Ok(words);
    }
    for line in case {
        if line.key == "file" {
            add_words(&mut words, alloc, line.rest)?;
        }
    }
    Ok(words)
}
