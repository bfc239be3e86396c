//! Numbers, bytes and names, as the words of a line say them.

use std::alloc::{AllocError, AllocFailed, Global};

/// Why a case file is not read: what is wrong with a line, or that memory ran out.
#[derive(Clone, Copy)]
pub struct Unread {
    /// What is told of it.
    pub what: &'static str,
}

/// A line that isn't of the form.
pub(crate) fn wrong(what: &'static str) -> Unread {
    Unread { what }
}

impl From<AllocError> for Unread {
    fn from(_error: AllocError) -> Unread {
        wrong("memory ran out")
    }
}

impl<T: Drop> From<AllocFailed<T>> for Unread {
    fn from(_error: AllocFailed<T>) -> Unread {
        wrong("memory ran out")
    }
}

/// The number that a word says, decimal or in base 16 behind `0x`, and not above another.
///
/// # Errors
///
/// The word says no number, or a greater one.
pub fn number(word: &str, most: u64) -> Result<u64, Unread> {
    let read = match word.strip_prefix("0x") {
        Some(digits) => u64::from_str_radix(digits, 16),
        None => u64::from_str_radix(word, 10),
    };
    match read {
        Ok(number) if number <= most => Ok(number),
        _ => Err(wrong("no number, or one that is too great")),
    }
}

/// A place or a length.
pub(crate) fn size(word: &str) -> Result<usize, Unread> {
    Ok(number(word, u64::MAX)? as usize)
}

/// A number of 32 bits.
pub(crate) fn word_number(word: &str) -> Result<u32, Unread> {
    Ok((number(word, 0xffff_ffff)? % 0x1_0000_0000) as u32)
}

/// A number of 8 bits.
pub(crate) fn byte(word: &str) -> Result<u8, Unread> {
    Ok((number(word, 0xff)? % 0x100) as u8)
}

/// A byte that a table may have a name for.
pub(crate) fn named_byte(names: &[(&str, u8)], word: &str) -> Result<u8, Unread> {
    for (name, value) in names {
        if *name == word {
            return Ok(*value);
        }
    }
    byte(word)
}

/// The text between quotes.
pub(crate) fn quoted(word: &str) -> Option<&str> {
    match word.strip_prefix('"') {
        Some(rest) => rest.strip_suffix('"'),
        None => None,
    }
}

/// Adds the bytes that words say: digits of base 16, or a text between quotes.
pub(crate) fn add_bytes(alloc: Global, out: &mut Vec<u8>, words: &str) -> Result<(), Unread> {
    for word in words.split_whitespace() {
        add_word(alloc, out, word)?;
    }
    Ok(())
}

// Adds the bytes of a word.
fn add_word(alloc: Global, out: &mut Vec<u8>, word: &str) -> Result<(), Unread> {
    if let Some(text) = quoted(word) {
        return Ok(out.extend_from_slice(text.as_bytes())?);
    }
    match hex::decode(alloc, word) {
        Ok(bytes) => Ok(out.extend_from_slice(&bytes)?),
        Err(_error) => Err(wrong("no bytes")),
    }
}

/// Adds a text and the end of its line.
pub(crate) fn add_text_line(out: &mut Vec<u8>, text: &str) -> Result<(), AllocError> {
    out.extend_from_slice(text.as_bytes())?;
    out.extend_from_slice(b"\n")
}
