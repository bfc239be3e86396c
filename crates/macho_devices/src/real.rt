//! The system's own files and streams. They are trusted: what the system holds is told by no clause.

ghost use Rattle.macho_devices.specs.Devices.{only_count, only_counts};

use crate::file_system::{FileFault, Files};
use crate::output::{Sink, SinkFault};
use crate::read::read_file;
use crate::write::{PROGRAM_MODE, TEXT_MODE, write_all, write_file};
use macho_args::Paths;
use std::alloc::{AllocError, Global};
use std::io::{ErrorKind, Write};
use std::{fs, rt};

/// The system's files. It tells nothing of what the system holds.
///
/// A read answers `None` exactly where the system says that there is no such file. Every other error is a failed
/// read, a path below a plain file too, and so is a file of 4 GiB or more. A call that a signal interrupts is made again.
///
/// Where the path of a write is a plain file or nothing, or a symbolic link to one or to nothing, the bytes are written to a new
/// file in the same folder, which takes the path's place when it is whole; after a failure that file is removed, and the path has
/// what it had. So a write that is cut off leaves no half file under the path, and the file may be run as a program whatever the
/// old one was: no bytes of a file that may be running change. What a link led to stays as it was. Anything else, as a device or a
/// pipe, and each path below `/dev`, is written in place. A write fails at an error, and where the system takes no byte. Each failure
/// raises its count by one.
#[derive(Drop)]
pub struct RealFiles<'a, R> {
    rt: &'a R,
    alloc: Global,
    faults: u64,
    write_faults: u64,
    mode: u32,
}

/// A stream of the system, as standard output. It tells nothing of what it took.
///
/// A write fails at an error, and where the stream takes no byte; each failure raises the count by one.
#[derive(Drop)]
pub struct RealSink<W> {
    stream: W,
    faults: u64,
}

impl<'a, R> RealFiles<'a, R> {
    /// The files that the runtime reaches, where what is written is a program. The allocator serves the names of new files.
    pub fn new(rt: &'a R, alloc: Global) -> RealFiles<'a, R> {
        RealFiles {
            rt,
            alloc,
            faults: 0,
            write_faults: 0,
            mode: PROGRAM_MODE,
        }
    }

    /// The same files, where what is written is a text, which no one executes.
    pub fn of_texts(rt: &'a R, alloc: Global) -> RealFiles<'a, R> {
        RealFiles {
            rt,
            alloc,
            faults: 0,
            write_faults: 0,
            mode: TEXT_MODE,
        }
    }
}

impl<'a, R: rt::Files> Paths for RealFiles<'a, R> {
    ghost state = { λ files. only_counts files.faults files.write_faults };

    fn is_dir(&mut self, path: &str) -> bool {
        match fs::metadata(self.rt, path) {
            Ok(metadata) => metadata.is_dir(),
            Err(_error) => false,
        }
    }

    fn canonical(&mut self, alloc: Global, path: &str) -> Result<Option<String>, AllocError> {
        match self.rt.canonicalize(alloc, path) {
            Ok(path) => Ok(Some(path.into_string())),
            Err(error) if error.kind() == ErrorKind::OutOfMemory => Err(AllocError),
            Err(_error) => Ok(None),
        }
    }
}

impl<'a, R: rt::Files> Files for RealFiles<'a, R> {
    fn read(&mut self, alloc: Global, path: &str) -> Result<Option<Vec<u8>>, FileFault> {
        match read_file(self.rt, alloc, path) {
            Err(FileFault::Failed) => {
                self.faults = self.faults.saturating_add(1);
                Err(FileFault::Failed)
            }
            answer => answer,
        }
    }

    fn write(&mut self, path: &str, bytes: &[u8]) -> Result<(), FileFault> {
        if write_file(self.rt, self.alloc, path, bytes, self.mode)? {
            return Ok(());
        }
        self.write_faults = self.write_faults.saturating_add(1);
        Err(FileFault::Failed)
    }
}

impl<W> RealSink<W> {
    /// The stream.
    pub fn new(stream: W) -> RealSink<W> {
        RealSink { stream, faults: 0 }
    }
}

impl<W: Write> Sink for RealSink<W> {
    ghost state = { λ sink. only_count sink.faults };

    fn write(&mut self, bytes: &[u8]) -> Result<(), SinkFault> {
        if write_all(&mut self.stream, bytes) {
            return Ok(());
        }
        self.faults = self.faults.saturating_add(1);
        Err(SinkFault::Failed)
    }
}
