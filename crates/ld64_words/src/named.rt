//! The files that a command line names in place of words, and the words that stand in their place.

ghost use Rattle.std.specs.Prelude.{◌≡◌, ◌<◌, ◌==◌, length, drop, map, IfOk, IfErr};
ghost use Rattle.std.specs.List.{before_first, after_first};
ghost use Rattle.std.specs.Option.{option_map};
ghost use Rattle.std.specs.String.{string_bytes};
ghost use Rattle.ld64_words.specs.declared.fault.WordFault.TheVariants.{OutOfMemory};
ghost use Rattle.ld64_words.specs.Files.{file_of, expanded_of, words_behind as behind_of, file_said};

use crate::adding::add_texts;
use crate::effects::Effect;
use crate::fault::WordFault;
use crate::files::FileKind;
use crate::table::{Operands, operand, row_for};
use std::alloc::Global;

/// A file that a word names.
#[derive(Clone, Copy)]
pub struct NamedFile<'a> {
    /// How it is cut into words.
    pub kind: FileKind,
    /// Its path.
    pub path: &'a str,
    /// The folder that the paths of a list are below; empty, where none is given.
    pub folder: &'a str,
}

/// The file that a word names, where these words stand behind it: `@FILE`, or `-filelist FILE,FOLDER`.
#[tactic(auto, unfolding(crate::specs::Files::file_of))]
pub fn file_named<'a>(word: &'a str, behind: &'a [String]) -> Option<NamedFile<'a>>
    ensures { option_map file_said result ≡ file_of word.now (map string_bytes behind.now) }
{
    let row = row_for(word, behind);
    let text = operand(row, word, behind);
    match (row.effect, row.operands) {
        (Effect::Unread, Operands::Joined) => Some(NamedFile {
            kind: FileKind::Words,
            path: text,
            folder: "",
        }),
        (Effect::Unread, Operands::Behind(_)) => {
            let (path, folder) = parts(text);
            Some(NamedFile {
                kind: FileKind::Inputs,
                path,
                folder,
            })
        }
        _ => None,
    }
}

// What stands in front of the first comma, and what behind it.
fn parts(text: &str) -> (&str, &str)
    ensures front { result.0.now ≡ before_first (λ b. b == 44) text.now }
    ensures back { result.1.now ≡ after_first (λ b. b == 44) text.now }
{
    match text.split_once(',') {
        Some((path, folder)) => (path, folder),
        None => (text, ""),
    }
}

/// The words with these texts in place of the word at this place and its operands.
#[tactic(auto, unfolding(crate::specs::Files::expanded_of))]
pub fn expanded(
    alloc: Global,
    words: &[String],
    place: usize,
    texts: &[String],
) -> Result<Vec<String>, WordFault>
    requires within { place < length words.now }
    ensures done { IfOk result (λ all.
        map string_bytes all.items ≡ expanded_of (map string_bytes words.now) place (map string_bytes texts.now)) }
    ensures why { IfErr result (λ fault. fault ≡ OutOfMemory) }
{
    let mut all = Vec::new(alloc);
    add_texts(alloc, &mut all, &words[..place])?;
    add_texts(alloc, &mut all, texts)?;
    add_texts(alloc, &mut all, words_behind(words, place))?;
    Ok(all)
}

// The words behind the word at this place and its operands.
fn words_behind(words: &[String], place: usize) -> &[String]
    requires { place < length words.now }
    ensures { map string_bytes result.now ≡ behind_of (drop place (map string_bytes words.now)) }
{
    let behind = &words[place + 1..];
    let row = row_for(words[place].as_str(), behind);
    let count = row.operands.count();
    if count < behind.len() {
        &behind[count..]
    } else {
        &[]
    }
}
