//! Names in a string table, each found with its end in constant time, however long it is and however many share it.
ghost use Rattle.std.specs.Prelude.{◌≡◌, drop, IfOk, OnOk};
ghost use Rattle.macho_bytes.specs.Texts.{name_of};
ghost use Rattle.macho_linkedit.specs.steps.Names.{AreNames, AreRead};

use macho_symbol_names::{block_ends, string_end};
use std::alloc::{AllocError, Global};

/// A string table, with the ends of the names that reach its blocks, once one of its names was asked for.
#[derive(Drop)]
pub(crate) struct Names<'a> {
    strings: &'a [u8],
    ends: Option<Vec<u32>>,
}

impl<'a> Names<'a> {
    /// The names of a string table. Nothing of it is read yet.
    pub(crate) fn new(strings: &'a [u8]) -> Names<'a>
        ensures { AreNames strings.now result }
    {
        Names {
            strings,
            ends: None,
        }
    }

    /// Reads the table, unless it was read.
    fn read(&mut self, alloc: Global) -> Result<(), AllocError>
        requires { AreNames self.old.strings.now self.old }
        ensures { OnOk result (AreRead self.old.strings.now self.new) }
    {
        if self.ends.is_some() {
            return Ok(());
        }
        // The size of a string table has 32 bits.
        if self.strings.len() > u32::MAX as usize {
            return Err(AllocError);
        }
        self.ends = Some(block_ends(alloc, self.strings)?);
        Ok(())
    }

    /// The name that begins at a place; empty behind the table's end. The table is read at the first call.
    ///
    /// # Errors
    ///
    /// There is not enough memory.
    pub(crate) fn name(&mut self, alloc: Global, at: u32) -> Result<&'a [u8], AllocError>
        requires { AreNames self.old.strings.now self.old }
        ensures found { IfOk result (λ name. name.now ≡ name_of (drop at self.old.strings.now)) }
        ensures kept { OnOk result (AreNames self.old.strings.now self.new) }
    {
        let strings = self.strings;
        let at = at as usize;
        if strings.len() < at {
            return Ok(&[]);
        }
        self.read(alloc)?;
        match &self.ends {
            Some(ends) => Ok(&strings[at..string_end(strings, ends, at)]),
            None => unreachable!(),
        }
    }
}
