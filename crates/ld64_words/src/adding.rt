//! What each option adds to what is read so far.

ghost use Rattle.std.specs.Prelude.{◌≡◌, ◌∷◌, ◌++◌, ◌||◌, [], map, nat_eq, codes, if◌then◌else◌, Ok, OnOk, IfErr};
ghost use Rattle.std.specs.List.{starts_with};
ghost use Rattle.std.specs.String.{string_bytes};
ghost use Rattle.ld64_words.specs.declared.fault.WordFault.TheVariants.{OutOfMemory};
ghost use Rattle.ld64_words.specs.Words.{with_effect, with_words, with_note, said_by, input_word};
ghost use Rattle.ld64_words.specs.steps.Words.{asked_of, HasCause};

use crate::effects::{Effect, Note};
use crate::fault::WordFault;
use crate::reading::{NotedWord, Reading};
use crate::table::begins_with;
use std::alloc::Global;

impl Reading {
    /// Adds what an option does: `word` is its word, which has this index, `operands` are its operands behind it, and `text` is its first
    /// operand.
    #[tactic(auto, unfolding(crate::specs::Words::with_effect))]
    pub(crate) fn add(
        &mut self,
        alloc: Global,
        effect: Effect,
        place: usize,
        word: &str,
        operands: &[String],
        text: &str,
    ) -> Result<(), WordFault>
        ensures done { OnOk result
            (with_effect effect place (word.now ∷ map string_bytes operands.now) text.now (asked_of self.old) ≡ Ok (asked_of self.new)) }
        ensures why { IfErr result (HasCause
            (with_effect effect place (word.now ∷ map string_bytes operands.now) text.now (asked_of self.old))) }
    {
        match effect {
            Effect::Kept => {
                add_text(alloc, &mut self.words, word)?;
                add_texts(alloc, &mut self.words, operands)
            }
            Effect::Renamed(name) => add_two(alloc, &mut self.words, name.text(), text),
            Effect::First(name) => add_two(alloc, &mut self.front, name.text(), text),
            Effect::Lowest => {
                add_two(alloc, &mut self.words, "-platform_version", "macos")?;
                add_two(alloc, &mut self.words, text, text)
            }
            Effect::Noted(note) => self.note(alloc, note, place, text),
            Effect::Marked(name, note) => {
                add_two(alloc, &mut self.words, name.text(), text)?;
                self.note(alloc, note, place, text)
            }
            Effect::Path(note) => {
                add_path(alloc, &mut self.words, text)?;
                self.note(alloc, note, place, text)
            }
            Effect::Ignored(_) => Ok(()),
            Effect::Refused(why) => Err(WordFault::RefusedWord { word: place, why }),
            Effect::Unread => Err(WordFault::UnreadFile { word: place }),
        }
    }

    // Notes what the option of the word with this index asks for.
    fn note(&mut self, alloc: Global, note: Note, word: usize, text: &str) -> Result<(), WordFault>
        ensures done { OnOk result (asked_of self.new ≡ with_note note word text.now (asked_of self.old)) }
        ensures why { IfErr result (λ fault. fault ≡ OutOfMemory) }
    {
        let text = String::from_str(alloc, text)?;
        self.notes.push(NotedWord { note, word, text })?;
        Ok(())
    }
}

// Adds a text behind others.
fn add_text(alloc: Global, texts: &mut Vec<String>, text: &str) -> Result<(), WordFault>
    ensures done { OnOk result (map string_bytes texts.new.items ≡ map string_bytes texts.old.items ++ text.now ∷ []) }
    ensures why { IfErr result (λ fault. fault ≡ OutOfMemory) }
{
    texts.push(String::from_str(alloc, text)?)?;
    Ok(())
}

// Adds two texts behind others.
fn add_two(alloc: Global, texts: &mut Vec<String>, one: &str, two: &str) -> Result<(), WordFault>
    ensures done { OnOk result (map string_bytes texts.new.items ≡ map string_bytes texts.old.items ++ one.now ∷ two.now ∷ []) }
    ensures why { IfErr result (λ fault. fault ≡ OutOfMemory) }
{
    add_text(alloc, texts, one)?;
    add_text(alloc, texts, two)
}

/// Adds texts behind others.
pub(crate) fn add_texts(
    alloc: Global,
    texts: &mut Vec<String>,
    more: &[String],
) -> Result<(), WordFault>
    ensures done { OnOk result (map string_bytes texts.new.items ≡ map string_bytes texts.old.items ++ map string_bytes more.now) }
    ensures why { IfErr result (λ fault. fault ≡ OutOfMemory) }
{
    for text in more {
        add_text(alloc, texts, text.as_str())?;
    }
    Ok(())
}

// Adds the path of an input as a word that is read as one.
#[tactic(auto, unfolding(crate::specs::Words::input_word))]
fn add_path(alloc: Global, texts: &mut Vec<String>, path: &str) -> Result<(), WordFault>
    ensures done { OnOk result (map string_bytes texts.new.items ≡ map string_bytes texts.old.items ++ input_word path.now ∷ []) }
    ensures why { IfErr result (λ fault. fault ≡ OutOfMemory) }
{
    let mut word = String::new(alloc);
    if begins_with(path, "-") || begins_with(path, "@") {
        word.push_str("./")?;
    }
    word.push_str(path)?;
    texts.push(word)?;
    Ok(())
}
