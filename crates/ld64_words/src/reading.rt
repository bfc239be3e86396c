//! The words, read one after another.
//!
//! So `-o out -macosx_version_min 14.0 -lc` becomes `-o out -platform_version macos 14.0 14.0 -lc`.

ghost use Rattle.std.specs.Prelude.{◌≡◌, ◌⊎◌, ◌+◌, ◌<◌, ◌∷◌, ◌++◌, [], length, drop, take, map, Ok, Err, OnOk, IfOk, IfErr};
ghost use Rattle.std.specs.String.{string_bytes};
ghost use Rattle.ld64_words.specs.declared.fault.WordFault.TheVariants.{OutOfMemory};
ghost use Rattle.ld64_words.specs.Rows.{row_for as row_of, operand_of, row_said};
ghost use Rattle.ld64_words.specs.Words.{read_from, read_row, given_by, given_from, given_of, nothing_asked};
ghost use Rattle.ld64_words.specs.steps.Words.{asked_of, HasCause};

use crate::effects::Note;
use crate::fault::WordFault;
use crate::table::{operand, row_for};
use std::alloc::Global;

/// What an option notes beside the words for the core.
#[derive(Drop)]
pub struct NotedWord {
    /// What is asked for.
    pub note: Note,
    /// The index of the option's word, from 0.
    pub word: usize,
    /// The option's operand; empty, where it has none.
    pub text: String,
}

/// A command line for the core.
#[derive(Drop)]
pub struct CoreWords {
    /// The words for the core.
    pub words: Vec<String>,
    /// What the core has no word for, in the order of the words.
    pub notes: Vec<NotedWord>,
}

/// The words for the core that a command line of ld64 gives, with what is noted beside them. The words follow the program's name.
///
/// A fault names the first word that breaks its row's rule.
#[tactic(auto, unfolding(crate::specs::Words::given_by))]
pub fn core_words(alloc: Global, words: &[String]) -> Result<CoreWords, WordFault>
    // The words are what the table says of them, one row after the other.
    ensures done { IfOk result (λ core. given_by (map string_bytes words.now) ≡ Ok (given_of core)) }

    // A fault is that of the words, or memory ran out.
    ensures why { IfErr result (λ fault. (fault ≡ OutOfMemory) ⊎ (given_by (map string_bytes words.now) ≡ Err fault)) }
{
    let mut reading = Reading::new(alloc);
    reading.read_words(alloc, words)?;
    reading.finished()
}

/// What is read so far.
#[derive(Drop)]
pub(crate) struct Reading {
    /// The words in front of all others.
    pub(crate) front: Vec<String>,
    /// The words for the core.
    pub(crate) words: Vec<String>,
    /// What is noted.
    pub(crate) notes: Vec<NotedWord>,
}

impl Reading {
    // Before any word is read.
    fn new(alloc: Global) -> Reading
        ensures { asked_of result ≡ nothing_asked }
    {
        Reading {
            front: Vec::new(alloc),
            words: Vec::new(alloc),
            notes: Vec::new(alloc),
        }
    }

    // All words in order, those in front of all others first.
    fn finished(mut self) -> Result<CoreWords, WordFault>
        ensures done { IfOk result (λ core. given_of core ≡ given_from (asked_of self)) }
        ensures why { IfErr result (λ fault. fault ≡ OutOfMemory) }
    {
        self.front.append(&mut self.words)?;
        Ok(CoreWords {
            words: self.front,
            notes: self.notes,
        })
    }

    // Reads the words in order.
    fn read_words(&mut self, alloc: Global, words: &[String]) -> Result<(), WordFault>
        ensures done { OnOk result
            (read_from 0 0 (map string_bytes words.now) (asked_of self.old) ≡ Ok (asked_of self.new)) }
        ensures why { IfErr result (HasCause (read_from 0 0 (map string_bytes words.now) (asked_of self.old))) }
    {
        let mut passed = 0;
        for i in 0..words.len() {
            passed = self.read_next(alloc, words, i, passed)?;
        }
        Ok(())
    }

    // Reads the word at this place, unless it is an operand of the option before it, as the next `passed` words are. Answers the same
    // of the words behind it.
    fn read_next(
        &mut self,
        alloc: Global,
        words: &[String],
        place: usize,
        passed: usize,
    ) -> Result<usize, WordFault>
        requires within { place < length words.now }
        ensures done { IfOk result (λ left.
            read_from passed place (map string_bytes (drop place words.now)) (asked_of self.old)
            ≡ read_from left (place + 1) (map string_bytes (drop (place + 1) words.now)) (asked_of self.new)) }
        ensures why { IfErr result
            (HasCause (read_from passed place (map string_bytes (drop place words.now)) (asked_of self.old))) }
    {
        if passed > 0 {
            return Ok(passed - 1);
        }
        self.read_word(alloc, place, words[place].as_str(), &words[place + 1..])
    }

    // Reads the word with this index, and answers how many of the words behind it are its operands.
    #[tactic(auto, unfolding(crate::specs::Words::read_row))]
    fn read_word(
        &mut self,
        alloc: Global,
        place: usize,
        word: &str,
        behind: &[String],
    ) -> Result<usize, WordFault>
        ensures done { IfOk result (λ count.
            read_row (row_of word.now (map string_bytes behind.now)) place word.now (map string_bytes behind.now) (asked_of self.old)
            ≡ Ok (asked_of self.new, count)) }
        ensures why { IfErr result (HasCause
            (read_row (row_of word.now (map string_bytes behind.now)) place word.now (map string_bytes behind.now) (asked_of self.old))) }
    {
        let row = row_for(word, behind);
        let count = row.operands.count();
        if behind.len() < count {
            return Err(WordFault::MissingOperand { word: place });
        }
        let text = operand(row, word, behind);
        self.add(alloc, row.effect, place, word, &behind[..count], text)?;
        Ok(count)
    }
}
