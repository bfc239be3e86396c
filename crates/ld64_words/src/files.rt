//! The texts of the files that a command line names in place of words.

ghost use Rattle.std.specs.Prelude.{◌≡◌, ◌++◌, map, codes, if◌then◌else◌, IfOk, IfErr};
ghost use Rattle.std.specs.List.{All};
ghost use Rattle.std.specs.Str.{IsUtf8};
ghost use Rattle.std.specs.String.{string_bytes};
ghost use Rattle.ld64_words.specs.declared.files.FileFault.TheVariants.{OutOfMemory};
ghost use Rattle.ld64_words.specs.declared.files.FileKind.TheVariants.{Words, Inputs};
ghost use Rattle.ld64_words.specs.Files.{texts_in as texts_of, inputs_in as inputs_of, below as below_folder};
ghost use Rattle.ld64_words.specs.Words.{input_word};

use crate::cutting::Cutting;
use crate::table::begins_with;
use std::alloc::{AllocError, AllocFailed, Global};

/// How a file is cut into texts.
#[derive(Clone, Copy)]
pub enum FileKind {
    /// Words between blanks. Quotes hold a word together, and the byte behind a backslash stands for itself.
    Words,
    /// One path in a line.
    Inputs,
}

/// Why a file gives no words.
#[derive(Clone, Copy)]
pub enum FileFault {
    /// A text of the file isn't UTF-8.
    NotUtf8,
    /// Memory ran out.
    OutOfMemory,
}

impl From<AllocError> for FileFault {
    ghost from_gives = { λ _ fault. fault ≡ OutOfMemory };

    fn from(_error: AllocError) -> FileFault {
        FileFault::OutOfMemory
    }
}

impl<T: Drop> From<AllocFailed<T>> for FileFault {
    ghost from_gives = { λ _ fault. fault ≡ OutOfMemory };

    fn from(_error: AllocFailed<T>) -> FileFault {
        FileFault::OutOfMemory
    }
}

/// The words of a file of words, which stand in place of `@FILE`.
pub fn words_in(alloc: Global, bytes: &[u8]) -> Result<Vec<String>, FileFault>
    ensures done { IfOk result (λ words. map string_bytes words.items ≡ texts_of Words bytes.now) }
    ensures only { All IsUtf8 (texts_of Words bytes.now) → IfErr result (λ fault. fault ≡ OutOfMemory) }
{
    let texts = texts_in(alloc, FileKind::Words, bytes)?;
    all_texts(alloc, &texts)
}

/// The words of a list of inputs, which stand in place of `-filelist FILE,FOLDER`. Where no folder is given, it is empty.
#[tactic(auto, unfolding(crate::specs::Files::inputs_in))]
pub fn inputs_in(alloc: Global, folder: &str, bytes: &[u8]) -> Result<Vec<String>, FileFault>
    ensures done { IfOk result (λ words. map string_bytes words.items ≡ inputs_of folder.now bytes.now) }
    ensures only { All IsUtf8 (texts_of Inputs bytes.now) → IfErr result (λ fault. fault ≡ OutOfMemory) }
{
    let paths = texts_in(alloc, FileKind::Inputs, bytes)?;
    all_inputs(alloc, folder, &paths)
}

// The texts with these bytes.
fn all_texts(alloc: Global, texts: &[Vec<u8>]) -> Result<Vec<String>, FileFault>
    ensures done { IfOk result (λ words. map string_bytes words.items ≡ map (λ text. text.items) texts.now) }
    ensures only { All IsUtf8 (map (λ text. text.items) texts.now) → IfErr result (λ fault. fault ≡ OutOfMemory) }
{
    let mut words = Vec::new(alloc);
    for text in texts {
        words.push(text_of(alloc, text)?)?;
    }
    Ok(words)
}

// The words of the inputs with these paths below a folder.
fn all_inputs(alloc: Global, folder: &str, paths: &[Vec<u8>]) -> Result<Vec<String>, FileFault>
    ensures done { IfOk result (λ words.
        map string_bytes words.items ≡ map (λ path. input_word (below_folder folder.now path)) (map (λ path. path.items) paths.now)) }
    ensures only { All IsUtf8 (map (λ path. path.items) paths.now) → IfErr result (λ fault. fault ≡ OutOfMemory) }
{
    let mut words = Vec::new(alloc);
    for path in paths {
        words.push(input_of(alloc, folder, path)?)?;
    }
    Ok(words)
}

// The texts of a file.
#[tactic(auto, unfolding(crate::specs::Files::texts_in))]
fn texts_in(alloc: Global, kind: FileKind, bytes: &[u8]) -> Result<Vec<Vec<u8>>, FileFault>
    ensures done { IfOk result (λ texts. map (λ text. text.items) texts.items ≡ texts_of kind bytes.now) }
    ensures why { IfErr result (λ fault. fault ≡ OutOfMemory) }
{
    let mut cutting = Cutting::new(alloc);
    cutting.take(alloc, kind, bytes)?;
    cutting.end(alloc)?;
    Ok(cutting.texts)
}

// The text with these bytes.
fn text_of(alloc: Global, bytes: &[u8]) -> Result<String, FileFault>
    ensures done { IfOk result (λ text. string_bytes text ≡ bytes.now) }
    ensures only { IsUtf8 bytes.now → IfErr result (λ fault. fault ≡ OutOfMemory) }
{
    match String::from_utf8(bytes.to_vec(alloc)?) {
        Ok(text) => Ok(text),
        Err(_error) => Err(FileFault::NotUtf8),
    }
}

// The word of an input, by its path below a folder.
#[tactic(auto, unfolding(crate::specs::Words::input_word))]
fn input_of(alloc: Global, folder: &str, path: &[u8]) -> Result<String, FileFault>
    ensures done { IfOk result (λ word. string_bytes word ≡ input_word (below_folder folder.now path.now)) }
    ensures only { IsUtf8 path.now → IfErr result (λ fault. fault ≡ OutOfMemory) }
{
    let path = text_of(alloc, path)?;
    let below = below(alloc, folder, path.as_str())?;
    let mut word = String::new(alloc);
    if begins_with(below.as_str(), "-") || begins_with(below.as_str(), "@") {
        word.push_str("./")?;
    }
    word.push_str(below.as_str())?;
    Ok(word)
}

// A path below a folder.
fn below(alloc: Global, folder: &str, path: &str) -> Result<String, FileFault>
    ensures done { IfOk result (λ text. string_bytes text ≡ below_folder folder.now path.now) }
    ensures why { IfErr result (λ fault. fault ≡ OutOfMemory) }
{
    let mut text = String::from_str(alloc, folder)?;
    if !folder.is_empty() {
        text.push_str("/")?;
    }
    text.push_str(path)?;
    Ok(text)
}
