//! The words behind a program's name.

ghost use Rattle.std.specs.Prelude.{◌≡◌, ◌<◌, ◌-◌, ◌^◌, IfOk, vec_len};
ghost use Rattle.macho_tools.specs.declared.words.BadWords.TheVariants.{OutOfMemory};
ghost use Rattle.macho_tools.specs.Words.{status_of_bad};

use std::alloc::{AllocError, AllocFailed, Global};
use std::env::FillError;
use std::rt::Env;

/// How many bytes a word may have before more room is made for it.
const WORD_ROOM: usize = 4096;

/// The status where memory ran out.
const OUT_OF_MEMORY: u8 = 5;

/// The status where a word is not UTF-8, or there are too many.
const BAD_WORDS: u8 = 6;

/// There are fewer words than this.
const TOO_MANY_WORDS: u32 = 0xffff_ffff;

/// Why the words can't be had.
#[derive(Clone, Copy)]
pub enum BadWords {
    /// A word is not UTF-8; the first is told, counted from 0 behind the program's name.
    NotUtf8 {
        /// The word.
        word: u32,
    },
    /// There are too many words.
    TooMany,
    /// Memory ran out.
    OutOfMemory,
}

impl From<AllocError> for BadWords {
    ghost from_gives = { λ _ bad. bad ≡ OutOfMemory };

    fn from(_error: AllocError) -> BadWords {
        BadWords::OutOfMemory
    }
}

impl<T: Drop> From<AllocFailed<T>> for BadWords {
    ghost from_gives = { λ _ bad. bad ≡ OutOfMemory };

    fn from(_error: AllocFailed<T>) -> BadWords {
        BadWords::OutOfMemory
    }
}

// Fills the buffer with an argument, which it makes room for, and answers the argument's length; None behind the last.
fn fill<R: Env>(rt: &R, number: usize, buffer: &mut Vec<u8>) -> Result<Option<usize>, AllocError> {
    for _ in 0..usize::BITS {
        match rt.arg(number, buffer) {
            Ok(length) => return Ok(Some(length)),
            Err(FillError::NotPresent) => return Ok(None),
            Err(FillError::TooLong) => {
                let room = buffer.len().saturating_mul(2);
                buffer.resize(room, 0)?;
            }
        }
    }
    Err(AllocError)
}

// The text of a word, by its bytes.
fn text_of(alloc: Global, word: u32, bytes: &[u8]) -> Result<String, BadWords> {
    match String::from_utf8(bytes.to_vec(alloc)?) {
        Ok(text) => Ok(text),
        Err(_error) => Err(BadWords::NotUtf8 { word }),
    }
}

/// The words behind the program's name. There are fewer than 2^32 - 1 of them.
pub fn words_of<R: AllocGlobal + Env>(rt: &R) -> Result<Vec<String>, BadWords>
    ensures { IfOk result (λ words. vec_len words < 2 ^ 32 - 1) }
{
    let mut words = Vec::new(rt.alloc());
    let mut buffer = vec![in rt.alloc(); 0u8; WORD_ROOM]?;
    for word in 0..TOO_MANY_WORDS {
        let Some(length) = fill(rt, word as usize + 1, &mut buffer)? else {
            return Ok(words);
        };
        words.push(text_of(rt.alloc(), word, buffer.get(..length).unwrap_or(b""))?)?;
    }
    Err(BadWords::TooMany)
}

/// The status of a program whose words can't be had; a line on standard error, behind the program's name, says why.
pub fn status_of_words<R: Eprint>(rt: &R, name: &str, bad: BadWords) -> u8
    ensures { result ≡ status_of_bad bad }
{
    match bad {
        BadWords::OutOfMemory => {
            let _ = eprintln!(rt; "{name}: out of memory");
            OUT_OF_MEMORY
        }
        BadWords::TooMany => {
            let _ = eprintln!(rt; "{name}: too many words");
            BAD_WORDS
        }
        BadWords::NotUtf8 { word } => {
            let _ = eprintln!(rt; "{name}: word {word} is not UTF-8");
            BAD_WORDS
        }
    }
}
