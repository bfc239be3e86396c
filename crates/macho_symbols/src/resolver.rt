//! The resolver: it takes the symbols of inputs in, and resolves them once it has all.
ghost use Rattle.std.specs.Prelude.{◌≡◌, ℕ, ◌+◌, ◌^◌, ◌-◌, ◌<◌, ◌≤◌, List, [], ◌∷◌, ◌++◌, length, true, false, IfOk, IfErr, OnOk, OnErr};
ghost use Rattle.macho_model.specs.Links.{Input, Link, Object, Dylib, Stub};
ghost use Rattle.macho_model.specs.Resolution.{strong_of};
ghost use Rattle.macho_symbols.specs.Told.{IsDuplicateOf};
ghost use Rattle.macho_symbol_names.specs.Kept.{Keeps, reading_of};
ghost use Rattle.macho_symbols.specs.Kept.{IsResolved};

use crate::choosing::chosen_commons;
use crate::resolved::Resolved;
use crate::solved::{Solved, UNNUMBERED};
use macho_symbol_names::{DefinedStubLibrary, File, FileNames, SymbolFault, Table};
use std::alloc::{AllocError, Global};
use std::marker::Model;

/// Symbols of inputs. Files are numbered from 0, in the order in which they are added.
#[derive(Drop)]
pub struct Resolver<'data> {
    pub(crate) alloc: Global,
    pub(crate) seed: u64,
    pub(crate) files: Vec<FileNames<'data>>,
}

impl<'data> Model for Resolver<'data> {
    ghost use Rattle.std.specs.Prelude.{List, length, ◌<◌, ◌^◌};
    ghost use Rattle.macho_symbol_names.specs.Kept.{FileRows};

    ghost Value = { List FileRows };

    ghost view = { λ r. r.files.items };

    ghost invariant = { λ r. length r.files.items < 2 ^ 32 };
}

impl<'data> Resolver<'data> {
    /// A resolver without inputs. It takes no memory. Names are looked for by hashes that begin with the seed: so if whoever makes
    /// an object doesn't know it, no names can be chosen that make this slow.
    pub fn new(alloc: Global, seed: u64) -> Resolver<'data>
        ensures { Keeps [] result }
    {
        Resolver {
            alloc,
            seed,
            files: Vec::new(alloc),
        }
    }

    /// Adds what is kept of an input.
    fn add(&mut self, file: FileNames<'data>) -> Result<u32, AllocError>
        requires { length self.old + 1 < 2 ^ 32 }
        ensures added { OnOk result (self.new ≡ self.old ++ file.entry ∷ []) }
        ensures number { IfOk result (λ n. n ≡ length self.old) }
        ensures kept { OnErr result (self.new ≡ self.old) }
    {
        let number = self.files.len() as u32;
        self.files.push(file)?;
        Ok(number)
    }

    /// Adds an object, and gives its number. Its names stay in its bytes.
    ///
    /// # Errors
    ///
    /// There is not enough memory. Nothing was added.
    pub fn add_object(&mut self, file: &File<'data>) -> Result<u32, AllocError>
        requires object { file.now.is_dynamic ≡ false }
        requires few { length self.old < 2 ^ 32 - 1 }
        ensures added { (inputs : List Input) → Keeps inputs self.old
            → OnOk result (Keeps (inputs ++ Object file.now.bytes ∷ []) self.new) }
        ensures number { IfOk result (λ n. n ≡ length self.old) }
        ensures kept { OnErr result (self.new ≡ self.old) }
    {
        let names = FileNames::of_object(self.alloc, file)?;
        self.add(names)
    }

    /// Adds a dynamic library, and gives its number. The names that it offers stay in its bytes.
    ///
    /// # Errors
    ///
    /// There is not enough memory. Nothing was added.
    pub fn add_dylib(&mut self, file: &File<'data>) -> Result<u32, AllocError>
        requires dylib { file.now.is_dynamic ≡ true }
        requires few { length self.old < 2 ^ 32 - 1 }
        ensures added { (inputs : List Input) → Keeps inputs self.old → OnOk result (Keeps (inputs ++ Dylib file.now.bytes ∷ []) self.new) }
        ensures number { IfOk result (λ n. n ≡ length self.old) }
        ensures kept { OnErr result (self.new ≡ self.old) }
    {
        let names = FileNames::of_dylib(self.alloc, file)?;
        self.add(names)
    }

    /// Adds the library that a stub text tells of, and gives its number. The names that it offers are copied.
    ///
    /// # Errors
    ///
    /// There is not enough memory. Nothing was added.
    pub fn add_stub(&mut self, stub: &DefinedStubLibrary<'data>) -> Result<u32, AllocError>
        requires few { length self.old < 2 ^ 32 - 1 }
        ensures added { (inputs : List Input) (text : List ℕ) → Keeps inputs self.old
            → OnOk result (Keeps (inputs ++ Stub text (reading_of stub.now) ∷ []) self.new) }
        ensures number { IfOk result (λ n. n ≡ length self.old) }
        ensures kept { OnErr result (self.new ≡ self.old) }
    {
        let names = FileNames::of_stub(self.alloc, stub)?;
        self.add(names)
    }
}

impl<'data> Resolver<'data> {
    /// Resolves the symbols of all inputs.
    ///
    /// # Errors
    ///
    /// A name has two strong definitions, or there is not enough memory. The resolver is consumed.
    pub fn resolve(self) -> Result<Resolved<'data>, SymbolFault>
        ensures done { (l : Link) → Keeps l.inputs self.entry → IfOk result (λ r. IsResolved l [] r) }
        ensures single { (l : Link) → Keeps l.inputs self.entry → OnOk result ((name : List ℕ) → length (strong_of l name) ≤ 1) }
        ensures why { (l : Link) → Keeps l.inputs self.entry → IfErr result (IsDuplicateOf l) }
    {
        let alloc = self.alloc;
        let seed = self.seed;
        let files = self.files;
        let mut table = Table::new(alloc, &files, seed)?;
        let found = table.take_files(&files)?;
        let commons = chosen_commons(alloc, &files, &table, &found)?;
        let numbers = vec![in alloc; UNNUMBERED; table.entries.len()]?;
        Ok(Resolved {
            solved: Solved {
                files,
                table,
                found,
                commons,
                imports: Vec::new(alloc),
                numbers,
            },
        })
    }
}
