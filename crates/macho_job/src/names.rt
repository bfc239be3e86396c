//! The paths by which the files of a link are told.

ghost use Rattle.std.specs.Prelude.{◌≡◌, [], ◌∷◌, ◌++◌, OnOk, OnErr};
ghost use Rattle.std.specs.String.{string_bytes};
ghost use Rattle.macho_job.specs.Names.{names_of, file_name, last_name};

use std::alloc::{AllocError, Global};

/// The paths of the files that were read or made, in order.
#[derive(Drop)]
pub struct FileNames {
    paths: Vec<String>,
}

impl FileNames {
    /// The paths of no files.
    pub fn new(alloc: Global) -> FileNames
        ensures { names_of result ≡ [] }
    {
        FileNames {
            paths: Vec::new(alloc),
        }
    }

    /// Adds the path of a file behind the others; the file's number is how many there were.
    ///
    /// # Errors
    ///
    /// There is not enough memory. The paths are as they were.
    pub fn push(&mut self, path: String) -> Result<(), AllocError>
        ensures added { OnOk result (names_of self.new ≡ names_of self.old ++ string_bytes path ∷ []) }
        ensures kept { OnErr result (names_of self.new ≡ names_of self.old) }
    {
        self.paths.push(path)?;
        Ok(())
    }

    /// The path of a file by its number, empty where there is none.
    pub fn path(&self, number: u32) -> &[u8]
        ensures { result.now ≡ file_name (names_of self.now) number }
    {
        match self.paths.get(number as usize) {
            Some(path) => path.as_bytes(),
            None => b"",
        }
    }

    /// The path of the last file, empty where there is none.
    pub fn last(&self) -> &[u8]
        ensures { result.now ≡ last_name (names_of self.now) }
    {
        let last = self.paths.len().saturating_sub(1);
        match self.paths.get(last) {
            Some(path) => path.as_bytes(),
            None => b"",
        }
    }
}
