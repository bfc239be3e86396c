//! What is asked for, and why it is refused.
ghost use Rattle.std.specs.Prelude.{◌≡◌};
ghost use Rattle.macho_retool.specs.Changes.{command_number, count_of_change, path_for, record_size};

use macho_loader::LoadFault;
use macho_records::{LC_ID_DYLIB, LC_LOAD_DYLIB, LC_RPATH};

/// A new name for one of those in an image's head.
#[derive(Drop)]
pub enum Change {
    /// The name of the library itself.
    Id {
        /// The new name.
        name: Vec<u8>,
    },
    /// The name of a library that the image needs.
    Library {
        /// Which one: its number among their load commands, from 1.
        number: u32,
        /// The new name.
        name: Vec<u8>,
    },
    /// A directory where libraries are looked for.
    Rpath {
        /// Which one: its number among their load commands, from 1.
        number: u32,
        /// The new name.
        name: Vec<u8>,
    },
}

/// Why there is no changed image. The refusals are told in this order.
#[derive(Drop)]
pub enum RetoolFault {
    /// The loader does not accept the file.
    Rejected {
        /// The rule that it breaks, and where.
        fault: LoadFault,
    },
    /// The new name holds a NUL.
    BadName,
    /// The image has no load command of the name.
    NotThere,
    /// The image is not signed in the form of a linker's signature: one code directory with a SHA-256 digest of each page, which
    /// ends the file.
    Unsigned,
    /// A part of the file begins among the load commands, or what the loader writes in reaches into the signature.
    Tangled {
        /// The file offset of the part.
        place: u64,
    },
    /// The new load commands would be too long.
    NoRoom {
        /// Where they would end.
        needed: u64,
        /// Where they may end.
        room: u64,
    },
    /// The room behind the load commands is in use.
    PaddingUsed {
        /// The file offset of the first byte there that is not zero.
        place: u64,
    },
    /// There is not enough memory.
    OutOfMemory,
}

impl Change {
    /// The number of the load commands that have names of the kind.
    pub(crate) fn command_number(&self) -> u32
        ensures { result ≡ command_number self.now }
    {
        match self {
            Change::Id { .. } => LC_ID_DYLIB,
            Change::Library { .. } => LC_LOAD_DYLIB,
            Change::Rpath { .. } => LC_RPATH,
        }
    }

    /// Which of these commands is meant, from 1.
    pub(crate) fn count(&self) -> u32
        ensures { result ≡ count_of_change self.now }
    {
        match self {
            Change::Id { .. } => 1,
            Change::Library { number, .. } => *number,
            Change::Rpath { number, .. } => *number,
        }
    }

    /// The new name.
    pub(crate) fn path(&self) -> &[u8]
        ensures { result.now ≡ path_for self.now }
    {
        match self {
            Change::Id { name } => name,
            Change::Library { name, .. } => name,
            Change::Rpath { name, .. } => name,
        }
    }

    /// The bytes of such a command in front of its name.
    pub(crate) fn record_size(&self) -> usize
        ensures { result ≡ record_size self.now }
    {
        match self {
            Change::Rpath { .. } => 12,
            _ => 24,
        }
    }
}
