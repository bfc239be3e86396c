//! Why a run answers no image, or does not write it.

ghost use Rattle.std.specs.Prelude.{◌≡◌};
ghost use Rattle.macho_args.specs.declared.fault.ArgsFault.TheVariants as words;
ghost use Rattle.macho_answer.specs.declared.fault.LinkError.TheVariants as refusal;
ghost use Rattle.macho_job.specs.declared.fault.Fault.TheVariants.{Words, Link, Input, OutOfMemory};
ghost use Rattle.macho_job.specs.Refused.{Tells};

use macho_args::ArgsFault;
use macho_linker::LinkError;
use std::alloc::AllocError;

/// What a file that is no input is, by its first bytes.
#[derive(Clone, Copy)]
pub enum InputKind {
    /// An archive of objects: it begins with `!<arch>` and a line feed.
    Archive,
    /// A file of several architectures: it begins with `ca fe ba be` or `ca fe ba bf`.
    Universal,
    /// Anything else.
    Other,
}

/// Why a run fails. Words are told by their indices, from 0.
#[derive(Drop)]
pub enum Fault {
    /// There is no file under the path.
    MissingFile {
        /// The index of the word in which the path stands.
        word: u32,
    },
    /// The file begins as no input: neither as an object, nor as a dynamic library or a text stub.
    UnknownKind {
        /// The index of the word in which the path stands.
        word: u32,
        /// What it begins as.
        kind: InputKind,
    },
    /// The file breaks a rule of its kind: of objects, of dynamic libraries or of text stubs.
    Input {
        /// The index of the word in which the path stands; of a made object its number, from 0.
        word: u32,
        /// The rule, and where it is broken.
        error: LinkError,
    },
    /// The link is refused.
    Link {
        /// Why it is refused.
        error: LinkError,
    },
    /// An argument is not accepted.
    Words {
        /// The first such argument, by its index among the words, and why.
        fault: ArgsFault,
    },
    /// A read failed.
    Read {
        /// The index of the word in which the path stands.
        word: u32,
    },
    /// The write of the image failed.
    Write,
    /// A print to the output failed.
    Print,
    /// Memory ran out.
    OutOfMemory,
}

impl Fault {
    /// The fault of words.
    pub fn of_words(fault: ArgsFault) -> Fault
        ensures { Tells fault words.OutOfMemory (Words fault) result }
    {
        match fault {
            ArgsFault::OutOfMemory => Fault::OutOfMemory,
            fault => Fault::Words { fault },
        }
    }

    /// The fault of a refused link.
    pub fn of_link(error: LinkError) -> Fault
        ensures { Tells error refusal.OutOfMemory (Link error) result }
    {
        match error {
            LinkError::OutOfMemory => Fault::OutOfMemory,
            error => Fault::Link { error },
        }
    }

    /// The fault of a refused input.
    pub fn of_input(word: u32, error: LinkError) -> Fault
        ensures { Tells error refusal.OutOfMemory (Input word error) result }
    {
        match error {
            LinkError::OutOfMemory => Fault::OutOfMemory,
            error => Fault::Input { word, error },
        }
    }
}

impl From<AllocError> for Fault {
    ghost from_gives = { λ _ fault. fault ≡ OutOfMemory };

    fn from(_error: AllocError) -> Fault {
        Fault::OutOfMemory
    }
}
