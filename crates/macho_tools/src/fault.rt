//! How a run of a tool ends.

ghost use Rattle.std.specs.Prelude.{◌≡◌, Some};
ghost use Rattle.macho_tools.specs.Runs.{status_of};

/// Why the status of a run is not 0. `T` says what a tool refuses in a file.
#[derive(Drop)]
pub enum ToolFault<T> {
    /// No file stands under the path in this word. Words are counted from 0.
    MissingFile {
        /// The word.
        word: u32,
    },
    /// The tool refuses the file.
    Refused {
        /// Why.
        fault: T,
    },
    /// The words are not of the form that the tool takes.
    Words,
    /// The file of this word could not be read.
    Read {
        /// The word.
        word: u32,
    },
    /// The answer could not be written. Its path may hold the first bytes of the answer.
    Write,
    /// The answer could not be printed. The first of it may have been.
    Print,
    /// There was not enough memory.
    OutOfMemory,
}

/// What a run of a tool answers.
#[derive(Drop)]
pub struct ToolRan<T> {
    /// The status that the program ends with: 0 where the answer was given; 1 where the file is missing or refused; 2 where the words
    /// are; 3 where the read failed; 4 where the write or a print did; 5 where memory ran out.
    pub status: u8,
    /// Why the status is not 0.
    pub fault: Option<ToolFault<T>>,
}

impl<T> ToolFault<T> {
    /// The status of the fault.
    pub fn status(&self) -> u8
        ensures { result ≡ status_of (Some self.now) }
    {
        match self {
            ToolFault::MissingFile { .. } | ToolFault::Refused { .. } => 1,
            ToolFault::Words => 2,
            ToolFault::Read { .. } => 3,
            ToolFault::Write | ToolFault::Print => 4,
            ToolFault::OutOfMemory => 5,
        }
    }
}
