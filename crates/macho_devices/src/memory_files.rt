//! File systems in memory: one that fails where it is told to, and one that never fails.

ghost use Rattle.std.specs.Prelude.{◌≡◌, ◌==◌, Some, IfOk, IfErr, OnOk, OnErr, MatchResult, find, map, take};
ghost use Rattle.std.specs.Ordering.{nat_cmp};
ghost use Rattle.std.specs.Option.{option_map, option_copied};
ghost use Rattle.std.specs.FinMap as maps;
ghost use Rattle.std.specs.FinSet as sets;
ghost use Rattle.macho_devices.specs.declared.file_system.FileFault.TheVariants.{OutOfMemory};
ghost use Rattle.macho_devices.specs.Faults.{HasCause};
ghost use Rattle.macho_devices.specs.Devices.{content_of, LeavesFiles, OnlyReads, OnlyWrites};
ghost use Rattle.macho_devices.specs.Memory.{memory_of, steady_of, fresh_files, nothing_held, failing_entry, with_dir, with_canonical, with_file, all_told, told_by, ChangesHeld, FailsRead, FailsWrite, ReadsAsTold, WritesAsTold};

use crate::file_system::{FileFault, Files};
use crate::held_files::HeldFiles;
use crate::numbers::is_among;
use macho_args::Paths;
use std::alloc::{AllocError, Global};
use std::collections::VecDeque;

/// A write that is to fail, by its number, and how many of its bytes it leaves.
#[derive(Clone, Copy)]
struct FailingWrite {
    number: u64,
    left: u64,
}

/// A file system in memory, whose reads and writes fail where it is told so.
///
/// Reads and writes are numbered apart, each from 0 since the value was made. A call that finds no memory has no
/// number.
#[derive(Drop)]
pub struct MemoryFiles {
    held: HeldFiles,
    failing_reads: VecDeque<u64>,
    failing_writes: VecDeque<FailingWrite>,
    reads: u64,
    writes: u64,
    faults: u64,
    write_faults: u64,
}

fn find_failing(writes: &VecDeque<FailingWrite>, number: u64) -> Option<&FailingWrite>
    ensures { option_copied result ≡ find (λ write. number == write.number) writes.now.items }
{
    writes.iter().find(|write| number == write.number)
}

// How many bytes the write of that number leaves, if it is to fail.
fn left_by(writes: &VecDeque<FailingWrite>, number: u64) -> Option<u64>
    ensures { result ≡ maps.get (maps.from_entries {R = nat_cmp} (map failing_entry writes.now.items)) number }
{
    match find_failing(writes, number) {
        Some(write) => Some(write.left),
        None => None,
    }
}

// The first of the bytes, or all where there are fewer.
fn front(bytes: &[u8], left: u64) -> &[u8]
    ensures { result.now ≡ take left bytes.now }
{
    if left < bytes.len() as u64 {
        &bytes[..left as usize]
    } else {
        bytes
    }
}

impl MemoryFiles {
    /// Holds nothing, and no call is to fail. It takes no memory.
    pub fn new(alloc: Global) -> MemoryFiles
        ensures { memory_of result ≡ fresh_files }
    {
        MemoryFiles {
            held: HeldFiles::new(alloc),
            failing_reads: VecDeque::new(alloc),
            failing_writes: VecDeque::new(alloc),
            reads: 0,
            writes: 0,
            faults: 0,
            write_faults: 0,
        }
    }

    /// Makes the path a directory.
    pub fn add_dir(&mut self, path: &str) -> Result<(), AllocError>
        ensures done { OnOk result (ChangesHeld (with_dir path.now) (memory_of self.old) (memory_of self.new)) }
        ensures kept { OnErr result (memory_of self.new ≡ memory_of self.old) }
    {
        self.held.add_dir(path)
    }

    /// Sets the canonical path of the path.
    pub fn add_canonical(&mut self, path: &str, canonical: &str) -> Result<(), AllocError>
        ensures done { OnOk result (ChangesHeld (with_canonical path.now canonical.now) (memory_of self.old) (memory_of self.new)) }
        ensures kept { OnErr result (memory_of self.new ≡ memory_of self.old) }
    {
        self.held.add_canonical(path, canonical)
    }

    /// Makes the path hold the bytes.
    pub fn add_file(&mut self, path: &str, bytes: Vec<u8>) -> Result<(), AllocError>
        ensures done { OnOk result (ChangesHeld (with_file path.now bytes.items) (memory_of self.old) (memory_of self.new)) }
        ensures kept { OnErr result (memory_of self.new ≡ memory_of self.old) }
    {
        self.held.add_file(path, bytes)
    }

    /// Makes the read of that number fail. Reads are counted from 0 since the value was made.
    pub fn fail_read(&mut self, number: u64) -> Result<(), AllocError>
        ensures done { OnOk result (FailsRead number (memory_of self.old) (memory_of self.new)) }
        ensures kept { OnErr result (memory_of self.new ≡ memory_of self.old) }
    {
        self.failing_reads.push_front(number)?;
        Ok(())
    }

    /// Makes the write of that number fail, and leave the first `left` of its bytes under its path, or all where
    /// there are fewer. Writes are counted from 0 since the value was made.
    pub fn fail_write(&mut self, number: u64, left: u64) -> Result<(), AllocError>
        ensures done { OnOk result (FailsWrite number left (memory_of self.old) (memory_of self.new)) }
        ensures kept { OnErr result (memory_of self.new ≡ memory_of self.old) }
    {
        self.failing_writes
            .push_front(FailingWrite { number, left })?;
        Ok(())
    }
}

impl Paths for MemoryFiles {
    ghost state = { told_by };

    fn is_dir(&mut self, path: &str) -> bool {
        self.held.is_dir(path)
    }

    fn canonical(&mut self, alloc: Global, path: &str) -> Result<Option<String>, AllocError> {
        self.held.canonical(alloc, path)
    }
}

impl Files for MemoryFiles {
    fn read(&mut self, alloc: Global, path: &str) -> Result<Option<Vec<u8>>, FileFault>
        ensures found { IfOk result (λ answer. content_of answer ≡ maps.get (memory_of self.old).held.files path.now) }
        ensures why { IfErr result (λ fault. HasCause fault (memory_of self.old).faults (memory_of self.new).faults) }
        ensures kept { OnlyReads (told_by self.old) (told_by self.new) }
        ensures exact { ReadsAsTold (memory_of self.old) (memory_of self.new) result }
    {
        if is_among(&self.failing_reads, self.reads) {
            self.reads = self.reads.saturating_add(1);
            self.faults = self.faults.saturating_add(1);
            return Err(FileFault::Failed);
        }
        match self.held.read(alloc, path) {
            Ok(answer) => {
                self.reads = self.reads.saturating_add(1);
                Ok(answer)
            }
            Err(_error) => Err(FileFault::OutOfMemory),
        }
    }

    fn write(&mut self, path: &str, bytes: &[u8]) -> Result<(), FileFault>
        ensures left { IfErr result (λ fault. LeavesFiles fault (told_by self.old).files (told_by self.new).files path.now bytes.now) }
        ensures why { IfErr result (λ fault. HasCause fault (memory_of self.old).write_faults (memory_of self.new).write_faults) }
        ensures kept { OnlyWrites (told_by self.old) (told_by self.new) }
        ensures exact { WritesAsTold (memory_of self.old) (memory_of self.new) path.now bytes.now result }
    {
        match left_by(&self.failing_writes, self.writes) {
            Some(left) => match self.held.write(path, front(bytes, left)) {
                Ok(()) => {
                    self.writes = self.writes.saturating_add(1);
                    self.write_faults = self.write_faults.saturating_add(1);
                    Err(FileFault::Failed)
                }
                Err(_error) => Err(FileFault::OutOfMemory),
            },
            None => match self.held.write(path, bytes) {
                Ok(()) => {
                    self.writes = self.writes.saturating_add(1);
                    Ok(())
                }
                Err(_error) => Err(FileFault::OutOfMemory),
            },
        }
    }
}

/// A file system in memory that never fails.
#[derive(Drop)]
pub struct SteadyFiles {
    held: HeldFiles,
}

impl SteadyFiles {
    /// Holds nothing. It takes no memory.
    pub fn new(alloc: Global) -> SteadyFiles
        ensures { steady_of result ≡ nothing_held }
    {
        SteadyFiles {
            held: HeldFiles::new(alloc),
        }
    }

    /// Makes the path a directory.
    pub fn add_dir(&mut self, path: &str) -> Result<(), AllocError>
        ensures done { OnOk result (steady_of self.new ≡ with_dir path.now (steady_of self.old)) }
        ensures kept { OnErr result (steady_of self.new ≡ steady_of self.old) }
    {
        self.held.add_dir(path)
    }

    /// Sets the canonical path of the path.
    pub fn add_canonical(&mut self, path: &str, canonical: &str) -> Result<(), AllocError>
        ensures done { OnOk result (steady_of self.new ≡ with_canonical path.now canonical.now (steady_of self.old)) }
        ensures kept { OnErr result (steady_of self.new ≡ steady_of self.old) }
    {
        self.held.add_canonical(path, canonical)
    }

    /// Makes the path hold the bytes.
    pub fn add_file(&mut self, path: &str, bytes: Vec<u8>) -> Result<(), AllocError>
        ensures done { OnOk result (steady_of self.new ≡ with_file path.now bytes.items (steady_of self.old)) }
        ensures kept { OnErr result (steady_of self.new ≡ steady_of self.old) }
    {
        self.held.add_file(path, bytes)
    }
}

impl Paths for SteadyFiles {
    ghost state = { λ files. all_told (steady_of files) 0 0 };

    fn is_dir(&mut self, path: &str) -> bool {
        self.held.is_dir(path)
    }

    fn canonical(&mut self, alloc: Global, path: &str) -> Result<Option<String>, AllocError> {
        self.held.canonical(alloc, path)
    }
}

impl Files for SteadyFiles {
    fn read(&mut self, alloc: Global, path: &str) -> Result<Option<Vec<u8>>, FileFault>
        ensures found { IfOk result (λ answer. content_of answer ≡ maps.get (steady_of self.old).files path.now) }
        ensures why { IfErr result (λ fault. fault ≡ OutOfMemory) }
        ensures kept { steady_of self.new ≡ steady_of self.old }
    {
        Ok(self.held.read(alloc, path)?)
    }

    fn write(&mut self, path: &str, bytes: &[u8]) -> Result<(), FileFault>
        ensures done { OnOk result (steady_of self.new ≡ with_file path.now bytes.now (steady_of self.old)) }
        ensures why { IfErr result (λ fault. fault ≡ OutOfMemory) }
        ensures kept { OnErr result (steady_of self.new ≡ steady_of self.old) }
    {
        self.held.write(path, bytes)?;
        Ok(())
    }
}
