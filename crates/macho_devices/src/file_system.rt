//! Files that a linker reads and writes.

ghost use Rattle.std.specs.Prelude.{◌≡◌, IfOk, IfErr, OnOk};
ghost use Rattle.macho_devices.specs.declared.file_system.FileFault.TheVariants.{OutOfMemory};
ghost use Rattle.macho_devices.specs.Faults.{HasCause};
ghost use Rattle.macho_devices.specs.Devices.{content_of, ReadsFile, WritesFile, LeavesFiles, OnlyReads, OnlyWrites};

use macho_args::Paths;
use std::alloc::{AllocError, Global};
use thiserror::Error;

/// Why a file was not read or not written.
#[derive(Clone, Copy, Debug, PartialEq, Eq, Error)]
pub enum FileFault {
    /// The device failed. Its count of failed reads, or of failed writes, has risen.
    #[error("failed")]
    Failed,
    /// There was no memory for the bytes. Nothing has changed.
    #[error("out of memory")]
    OutOfMemory,
}

impl From<AllocError> for FileFault {
    ghost from_gives = { λ _ fault. fault ≡ OutOfMemory };

    fn from(_error: AllocError) -> FileFault {
        FileFault::OutOfMemory
    }
}

/// A file system that is read and written whole files at a time.
///
/// It tells what it holds, or nothing of it; it always counts its failed reads and its failed writes.
pub trait Files: Paths {
    /// The bytes of the file under the path, or `None` where there is no such file.
    fn read(&mut self, alloc: Global, path: &str) -> Result<Option<Vec<u8>>, FileFault>
        ensures found { IfOk result (λ answer. ReadsFile (Self.state self.old).files path.now (content_of answer)) }
        ensures why { IfErr result (λ fault. HasCause fault (Self.state self.old).failed_reads (Self.state self.new).failed_reads) }
        ensures kept { OnlyReads (Self.state self.old) (Self.state self.new) };

    /// Makes the path hold the bytes. A write that failed may leave the first of them.
    fn write(&mut self, path: &str, bytes: &[u8]) -> Result<(), FileFault>
        ensures done { OnOk result (WritesFile (Self.state self.old).files (Self.state self.new).files path.now bytes.now) }
        ensures left { IfErr result (λ fault.
            LeavesFiles fault (Self.state self.old).files (Self.state self.new).files path.now bytes.now) }
        ensures why { IfErr result (λ fault. HasCause fault (Self.state self.old).failed_writes (Self.state self.new).failed_writes) }
        ensures kept { OnlyWrites (Self.state self.old) (Self.state self.new) };
}
