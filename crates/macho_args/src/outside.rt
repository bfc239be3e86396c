//! What a command line asks of the file system.

ghost use Rattle.std.specs.Prelude.{◌≡◌, IfOk};
ghost use Rattle.std.specs.Option.{option_map};
ghost use Rattle.std.specs.String.{string_bytes};
ghost use Rattle.macho_args.specs.Store.{FileSystem, IsToldDirectory, IsToldCanonical};

use std::alloc::{AllocError, Global};

/// A file system that tells directories and canonical paths. No question changes it.
///
/// Its state, for proofs, is what it tells, and how many of its reads and writes have failed.
pub trait Paths {
    ghost state: { Self → FileSystem };

    /// Whether the path is a directory. What can't be found out is no directory.
    fn is_dir(&mut self, path: &str) -> bool
        ensures told { IsToldDirectory (state self.old).directories path.now result }
        ensures kept { state self.new ≡ state self.old };

    /// The canonical path of the path, or `None` where there is none.
    fn canonical(&mut self, alloc: Global, path: &str) -> Result<Option<String>, AllocError>
        ensures told { IfOk result (λ answer.
            IsToldCanonical (state self.old).canonical_paths path.now (option_map string_bytes answer)) }
        ensures kept { state self.new ≡ state self.old };
}
