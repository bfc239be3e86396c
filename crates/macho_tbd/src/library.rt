//! What a stub has to say of a dynamic library.
//!
//! The symbol table is read once. Of each offered name the first symbol counts: names are known by a hash that begins with a seed
//! made of the whole file. So whoever makes a library can't choose names that share a bucket: another name makes another seed.
ghost use Rattle.std.specs.Prelude.{◌≡◌, ◌+◌, ◌<◌, ◌&&◌, ◌||◌, not, true, List, ℕ, IfOk, IfErr, IfSome, OnOk, is_some};
ghost use Rattle.std.specs.Str.{bytes_eq};
ghost use Rattle.macho_records.specs.Symbols.{has_type};
ghost use Rattle.macho_records.specs.declared.constants.TheConstants.{N_ABS, N_SECT};
ghost use Rattle.macho_object.specs.Objects.{num_symbols, symbol_name};
ghost use Rattle.macho_symbol_names.specs.Kept.{is_offered};
ghost use Rattle.macho_tbd.specs.Offered.{is_weak_at};
ghost use Rattle.macho_tbd.specs.steps.Gathered.{Gathers, reading, with_name, is_none_of, is_among, IsStopped, IsRead, IsUnread};

use crate::fault::TbdFault;
use crate::seeded::{Seeded, seed_of};
use crate::writable::written;
use indexmap::IndexSet;
use macho_object::File;
use macho_records::{N_SECT, N_STAB, N_TYPE, SymtabEntry};
use macho_symbol_names::{is_absolute, is_global};
use std::alloc::{AllocError, Global};

/// How many bytes the names of all offered symbols may have together, each symbol's counted, beside as many as the file has. A larger sum
/// is want of memory, told at once: names may share their ends in the string table, so that a small library spells a text without
/// bound. Names that share no bytes have fewer than the file.
const MOST_BYTES: usize = 1 << 28;

/// What a stub has to say of a library.
#[derive(Drop)]
pub(crate) struct Library<'data> {
    /// The install name.
    pub(crate) install_name: &'data str,
    /// The offered names whose first symbols are not weak.
    pub(crate) names: Vec<&'data str>,
    /// The others.
    pub(crate) weak_names: Vec<&'data str>,
}

/// An offered symbol.
#[derive(Clone, Copy)]
struct Offered<'data> {
    name: &'data [u8],
    weak: bool,
}

/// What is known so far of a library.
#[derive(Drop)]
struct Gathered<'data> {
    library: Library<'data>,
    /// All names in its lists.
    seen: IndexSet<&'data [u8], Seeded>,
    /// The bytes of all offered names.
    length: usize,
    /// The most that they may be.
    most: usize,
}

/// Whether a symbol is defined: in a section, or as a value of its own.
fn is_defined(symbol: SymtabEntry) -> bool
    ensures { result ≡ has_type N_SECT symbol || has_type N_ABS symbol }
{
    symbol.n_type & N_STAB == 0 && symbol.n_type & N_TYPE == N_SECT || is_absolute(symbol)
}

/// A symbol of a library, if it is offered.
fn offered_at<'data>(file: &File<'data>, index: u32) -> Option<Offered<'data>>
    requires among { index < num_symbols file.now.bytes }
    ensures offered { is_some result ≡ is_offered file.now.bytes index }
    ensures name { IfSome result (λ o. o.name.now ≡ symbol_name file.now.bytes index) }
    ensures weak { IfSome result (λ o. o.weak ≡ is_weak_at file.now.bytes index) }
{
    let symbol = file.symbol(index)?;
    if !is_global(symbol) || symbol.is_hidden() || !is_defined(symbol) {
        return None;
    }
    let Some(name) = file.symbol_name(index) else {
        unreachable!()
    };
    Some(Offered {
        name,
        weak: symbol.is_weak(),
    })
}

/// Puts a name into a set, and answers whether it is new.
fn put_name<'data>(
    seen: &mut IndexSet<&'data [u8], Seeded>,
    name: &'data [u8],
) -> Result<bool, AllocError>
    ensures new { IfOk result (λ new. new ≡ not (is_among name.now seen.old.keys)) }
    ensures put { OnOk result ((other : List ℕ) → is_among other seen.new.keys
        ≡ (is_among other seen.old.keys || bytes_eq name.now other)) }
{
    Ok(seen.insert(name)?)
}

impl<'data> Library<'data> {
    /// Whether no name is offered.
    pub(crate) fn offers_nothing(&self) -> bool
        ensures { result ≡ (is_none_of self.now.names.items && is_none_of self.now.weak_names.items) }
    {
        self.names.is_empty() && self.weak_names.is_empty()
    }

    /// Adds a name.
    fn add(&mut self, name: &'data str, weak: bool) -> Result<(), AllocError>
        ensures added { OnOk result (reading self.new ≡ with_name (reading self.old) weak name.now) }
    {
        if weak {
            self.weak_names.push(name)?;
        } else {
            self.names.push(name)?;
        }
        Ok(())
    }
}

impl<'data> Gathered<'data> {
    /// Notes a symbol.
    fn note(&mut self, file: &File<'data>, index: u32) -> Result<(), TbdFault>
        requires among { index < num_symbols file.now.bytes }
        ensures found { Gathers file.now.bytes index self.old → OnOk result (Gathers file.now.bytes (index + 1) self.new) }
        ensures install_name { OnOk result (self.new.library.install_name.now ≡ self.old.library.install_name.now) }
        ensures why { IfErr result (IsStopped file.now.bytes index) }
    {
        let Some(symbol) = offered_at(file, index) else {
            return Ok(());
        };
        let Some(name) = written(symbol.name) else {
            return Err(TbdFault::Unwritable {
                symbol: Some(index),
            });
        };
        self.length = self.length.saturating_add(symbol.name.len());
        if self.length > self.most {
            return Err(TbdFault::OutOfMemory);
        }
        if put_name(&mut self.seen, symbol.name)? {
            self.library.add(name, symbol.weak)?;
        }
        Ok(())
    }
}

/// What a stub has to say of a library, which is made of these bytes.
///
/// # Errors
///
/// A name can't be written, or there is not enough memory.
pub(crate) fn library_of<'data>(
    alloc: Global,
    file: &File<'data>,
    bytes: &[u8],
) -> Result<Library<'data>, TbdFault>
    requires dylib { file.now.is_dynamic ≡ true }
    ensures found { IfOk result (IsRead file.now.bytes) }
    ensures why { IfErr result (IsUnread file.now.bytes) }
{
    let Some(install_name) = file.install_name() else {
        unreachable!()
    };
    let Some(install_name) = written(install_name) else {
        return Err(TbdFault::Unwritable { symbol: None });
    };
    let mut gathered = Gathered {
        library: Library {
            install_name,
            names: Vec::new(alloc),
            weak_names: Vec::new(alloc),
        },
        seen: IndexSet::with_hasher(alloc, Seeded::new(seed_of(bytes))),
        length: 0,
        most: MOST_BYTES.saturating_add(bytes.len()),
    };
    for index in 0..file.num_symbols() {
        gathered.note(file, index)?;
    }
    Ok(gathered.library)
}
