//! Why bytes are no archive.
ghost use Rattle.std.specs.Prelude.{◌≡◌};
ghost use Rattle.macho_archive.specs.declared.fault.ArchiveFault.TheVariants.{OutOfMemory};

use std::alloc::AllocError;

/// What an archive keeps.
#[derive(Clone, Copy, PartialEq, Eq)]
pub enum ArchiveRule {
    /// The file begins with `!<arch>` and a line feed. (A thin archive, whose members are files of their own, begins otherwise.)
    A1,
    /// The header of an entry stands inside the file.
    A2,
    /// A header ends with a grave accent and a line feed.
    A3,
    /// A header states the size of the contents in decimal digits, and the contents end inside the file.
    A4,
    /// The length in `#1/LENGTH` is decimal, and at most that of the contents.
    A5,
    /// The offset in `/OFFSET` is decimal, and a name that ends with `/` and a line feed stands there in the table of names before.
    A6,
}

/// Why there is no archive.
#[derive(Clone, Copy, PartialEq, Eq)]
pub enum ArchiveFault {
    /// A rule is broken.
    Broken {
        /// The rule.
        rule: ArchiveRule,
        /// The file offset of the entry; 0 for the file.
        place: u64,
    },
    /// There is not enough memory.
    OutOfMemory,
}

impl From<AllocError> for ArchiveFault {
    ghost from_gives = { λ _ fault. fault ≡ OutOfMemory };

    fn from(_error: AllocError) -> ArchiveFault {
        ArchiveFault::OutOfMemory
    }
}
