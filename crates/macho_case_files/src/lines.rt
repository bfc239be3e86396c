//! Lines of a case.

use crate::values::{Unread, number};

/// A line: its first word, and what stands behind it.
#[derive(Clone, Copy)]
pub struct Line<'a> {
    /// The first word.
    pub key: &'a str,
    /// What stands behind it.
    pub rest: &'a str,
}

/// The first word of a text, and what stands behind it.
pub(crate) fn first_word(text: &str) -> Line<'_> {
    match text.split_once(' ') {
        Some((key, rest)) => Line { key, rest },
        None => Line {
            key: text,
            rest: "",
        },
    }
}

/// Whether a table has the word.
pub(crate) fn is_in(words: &[&str], word: &str) -> bool {
    for one in words {
        if *one == word {
            return true;
        }
    }
    false
}

/// What stands behind the first word of the first line that begins with it.
pub fn rest_of<'a>(case: &[Line<'a>], key: &str) -> Option<&'a str> {
    for line in case {
        if line.key == key {
            return Some(line.rest);
        }
    }
    None
}

/// The number that stands there.
///
/// # Errors
///
/// What stands there is no number.
pub fn number_of(case: &[Line<'_>], key: &str) -> Result<Option<u64>, Unread> {
    match rest_of(case, key) {
        Some(rest) => Ok(Some(number(rest, u64::MAX)?)),
        None => Ok(None),
    }
}
