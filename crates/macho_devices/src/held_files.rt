//! What the file systems in memory hold: directories, canonical paths and files.
//!
//! Each table lists its newest entry first, and the first entry of a path counts.

ghost use Rattle.std.specs.Prelude.{◌≡◌, IfOk, OnOk, OnErr, find};
ghost use Rattle.std.specs.Option.{option_map, option_copied};
ghost use Rattle.std.specs.List.{list_any};
ghost use Rattle.std.specs.Str.{bytes_eq};
ghost use Rattle.std.specs.String.{string_bytes};
ghost use Rattle.std.specs.FinMap.{get};
ghost use Rattle.std.specs.FinSet as sets;
ghost use Rattle.macho_devices.specs.Devices.{content_of};
ghost use Rattle.macho_devices.specs.Memory.{held_of, nothing_held, with_dir, with_canonical, with_file};

use std::alloc::{AllocError, Global};
use std::collections::VecDeque;

/// A path with the bytes that stand under it.
#[derive(Drop)]
pub(crate) struct HeldFile {
    path: String,
    bytes: Vec<u8>,
}

/// A path with its canonical path.
#[derive(Drop)]
pub(crate) struct CanonicalPath {
    path: String,
    canonical: String,
}

/// A file system in memory.
#[derive(Drop)]
pub(crate) struct HeldFiles {
    alloc: Global,
    directories: VecDeque<String>,
    canonical_paths: VecDeque<CanonicalPath>,
    files: VecDeque<HeldFile>,
}

fn names_path(paths: &VecDeque<String>, path: &str) -> bool
    ensures { result ≡ list_any (λ name. bytes_eq path.now (string_bytes name)) paths.now.items }
{
    paths.iter().any(|name| path == name.as_str())
}

fn find_file<'a>(files: &'a VecDeque<HeldFile>, path: &str) -> Option<&'a HeldFile>
    ensures { option_copied result ≡ find (λ file. bytes_eq path.now (string_bytes file.path)) files.now.items }
{
    files.iter().find(|file| path == file.path.as_str())
}

fn find_canonical<'a>(paths: &'a VecDeque<CanonicalPath>, path: &str) -> Option<&'a CanonicalPath>
    ensures { option_copied result ≡ find (λ entry. bytes_eq path.now (string_bytes entry.path)) paths.now.items }
{
    paths.iter().find(|entry| path == entry.path.as_str())
}

impl HeldFiles {
    /// Holds nothing.
    pub(crate) fn new(alloc: Global) -> HeldFiles
        ensures { held_of result ≡ nothing_held }
    {
        HeldFiles {
            alloc,
            directories: VecDeque::new(alloc),
            canonical_paths: VecDeque::new(alloc),
            files: VecDeque::new(alloc),
        }
    }

    /// Makes the path a directory.
    pub(crate) fn add_dir(&mut self, path: &str) -> Result<(), AllocError>
        ensures done { OnOk result (held_of self.new ≡ with_dir path.now (held_of self.old)) }
        ensures kept { OnErr result (held_of self.new ≡ held_of self.old) }
    {
        let directory = String::from_str(self.alloc, path)?;
        self.directories.push_front(directory)?;
        Ok(())
    }

    /// Sets the canonical path of the path.
    pub(crate) fn add_canonical(&mut self, path: &str, canonical: &str) -> Result<(), AllocError>
        ensures done { OnOk result (held_of self.new ≡ with_canonical path.now canonical.now (held_of self.old)) }
        ensures kept { OnErr result (held_of self.new ≡ held_of self.old) }
    {
        let path = String::from_str(self.alloc, path)?;
        let canonical = String::from_str(self.alloc, canonical)?;
        self.canonical_paths
            .push_front(CanonicalPath { path, canonical })?;
        Ok(())
    }

    /// Makes the path hold the bytes.
    pub(crate) fn add_file(&mut self, path: &str, bytes: Vec<u8>) -> Result<(), AllocError>
        ensures done { OnOk result (held_of self.new ≡ with_file path.now bytes.items (held_of self.old)) }
        ensures kept { OnErr result (held_of self.new ≡ held_of self.old) }
    {
        let path = String::from_str(self.alloc, path)?;
        self.files.push_front(HeldFile { path, bytes })?;
        Ok(())
    }

    /// Makes the path hold a copy of the bytes.
    pub(crate) fn write(&mut self, path: &str, bytes: &[u8]) -> Result<(), AllocError>
        ensures done { OnOk result (held_of self.new ≡ with_file path.now bytes.now (held_of self.old)) }
        ensures kept { OnErr result (held_of self.new ≡ held_of self.old) }
    {
        let copy = Vec::from_slice(self.alloc, bytes)?;
        self.add_file(path, copy)
    }

    /// Whether the path is a directory.
    pub(crate) fn is_dir(&self, path: &str) -> bool
        ensures { result ≡ sets.contains (held_of self.now).directories path.now }
    {
        names_path(&self.directories, path)
    }

    /// The canonical path of the path, if it has one.
    pub(crate) fn canonical(&self, alloc: Global, path: &str) -> Result<Option<String>, AllocError>
        ensures { IfOk result (λ answer. option_map string_bytes answer ≡ get (held_of self.now).canonical_paths path.now) }
    {
        match find_canonical(&self.canonical_paths, path) {
            Some(entry) => Ok(Some(String::from_str(alloc, entry.canonical.as_str())?)),
            None => Ok(None),
        }
    }

    /// A copy of the bytes under the path, if it holds any.
    pub(crate) fn read(&self, alloc: Global, path: &str) -> Result<Option<Vec<u8>>, AllocError>
        ensures { IfOk result (λ answer. content_of answer ≡ get (held_of self.now).files path.now) }
    {
        match find_file(&self.files, path) {
            Some(file) => Ok(Some(Vec::from_slice(alloc, file.bytes.as_slice())?)),
            None => Ok(None),
        }
    }
}
