//! What a user is told of a fault, behind its line.

use crate::fault::ToolFault;

// The word with a number, and nothing where there is none.
fn word_at(words: &[String], word: u32) -> &str {
    match words.get(word as usize) {
        Some(word) => word.as_str(),
        None => "",
    }
}

/// Says in words, on standard error behind the program's name, a fault of a file, of printing or of memory. The faults of words and of
/// what a file says are each tool's own, and nothing is printed of them here.
pub fn explain<R: Eprint, T>(
    rt: &R,
    name: &str,
    words: &[String],
    output: &str,
    fault: &ToolFault<T>,
) {
    match fault {
        ToolFault::Words | ToolFault::Refused { .. } => {}
        ToolFault::MissingFile { word } => {
            let path = word_at(words, *word);
            let _ = eprintln!(rt; "{name}: cannot find {path}");
        }
        ToolFault::Read { word } => {
            let path = word_at(words, *word);
            let _ = eprintln!(rt; "{name}: cannot read {path}");
        }
        ToolFault::Write => {
            let _ = eprintln!(rt; "{name}: cannot write {output}");
        }
        ToolFault::Print => {
            let _ = eprintln!(rt; "{name}: cannot print");
        }
        ToolFault::OutOfMemory => {
            let _ = eprintln!(rt; "{name}: out of memory");
        }
    }
}
