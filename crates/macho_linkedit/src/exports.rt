//! The exports trie: its room before addresses are known, and its bytes.
//!
//! Of `_a` and `_b` at addresses of at most 8 bytes each the room is that of two terminal parts of 11 bytes; with offsets
//! 0x4000 and 0x4008 from the base each has 4.
ghost use Rattle.std.specs.Prelude.{◌≡◌, ℕ, ◌+◌, ◌≤◌, List, map, length, All, IfOk, OnOk, false, if◌then◌else◌};
ghost use Rattle.macho_trie.specs.Sorting.{AreDistinct, HaveNoNul};
ghost use Rattle.macho_trie.specs.Symbols.{symbols_of};
ghost use Rattle.macho_promise.specs.TrieSays.{IsTrieText};
ghost use Rattle.macho_linkedit.specs.Tries.{kept, said, names_in, IsReserved, IsTriePut, HasFlags, value_said};
ghost use Rattle.macho_model.specs.Values.{is_absolute_target};
ghost use Rattle.macho_linkedit.specs.steps.Values.{AreSmall};

use macho_model::Target;
use macho_trie::{Symbols, Trie};
use std::alloc::{AllocError, Global};

/// `EXPORT_SYMBOL_FLAGS_KIND_ABSOLUTE`.
const FLAG_ABSOLUTE: u64 = 2;

/// `EXPORT_SYMBOL_FLAGS_WEAK_DEFINITION`.
const FLAG_WEAK: u64 = 4;

/// What is exported under a name.
#[derive(Clone, Copy)]
pub enum ExportSays {
    /// An address less the image's base, or an absolute value.
    Value {
        /// `EXPORT_SYMBOL_FLAGS_..`: 1 thread-local, 2 absolute, 4 weak.
        flags: u64,
        /// The value.
        value: u64,
    },
    /// The same name of a library.
    Reexport {
        /// The library's number, from 1.
        library: u32,
    },
}

/// A name that an image exports.
#[derive(Clone, Copy)]
pub struct NamedExport<'a> {
    /// The name.
    pub name: &'a [u8],
    /// What it is exported as.
    pub says: ExportSays,
}

/// A trie of some names, and the bytes that it has at most.
#[derive(Drop)]
pub struct ReservedTrie {
    /// The nodes and labels.
    pub trie: Trie,
    /// The bytes.
    pub size: usize,
}

/// Keeps room for the trie of some names, whose values aren't known yet: each counts as the greatest.
///
/// # Errors
///
/// There is not enough memory.
pub fn reserve_trie(alloc: Global, exports: &[NamedExport<'_>]) -> Result<ReservedTrie, AllocError>
    requires distinct { AreDistinct (names_in exports.now) }
    requires plain { HaveNoNul (names_in exports.now) }
    ensures reserved { IfOk result (λ t. IsReserved t exports.now) }
    ensures exact { IfOk result (λ t. (bytes : List ℕ) × IsTrieText (map kept exports.now) bytes × (length bytes ≡ t.size)) }
{
    let symbols = kept_symbols(alloc, exports)?;
    let trie = Trie::new(alloc, &symbols)?;
    let size = trie.compute_byte_size(alloc, &symbols)?;
    Ok(ReservedTrie { trie, size })
}

/// The register of names, with what keeps the place of each.
fn kept_symbols<'a>(alloc: Global, exports: &[NamedExport<'a>]) -> Result<Symbols<'a>, AllocError>
    ensures { IfOk result (λ s. symbols_of s ≡ map kept exports.now) }
{
    let mut symbols = Symbols::with_capacity(alloc, exports.len())?;
    for export in exports {
        match export.says {
            ExportSays::Value { .. } => symbols.push(export.name, u64::MAX, 0)?,
            ExportSays::Reexport { library } => {
                symbols.push_reexport(export.name, u64::from(library), b"")?
            }
        }
    }
    Ok(symbols)
}

/// The register of names, with what each is exported as.
fn said_symbols<'a>(alloc: Global, exports: &[NamedExport<'a>]) -> Result<Symbols<'a>, AllocError>
    requires { All (λ e. HasFlags e.says) exports.now }
    ensures are { IfOk result (λ s. symbols_of s ≡ map said exports.now) }
    ensures small { OnOk result (AreSmall exports.now (length exports.now)) }
{
    let mut symbols = Symbols::with_capacity(alloc, exports.len())?;
    for export in exports {
        match export.says {
            ExportSays::Value { flags, value } => symbols.push(export.name, value, flags)?,
            ExportSays::Reexport { library } => {
                symbols.push_reexport(export.name, u64::from(library), b"")?
            }
        }
    }
    Ok(symbols)
}

impl ReservedTrie {
    /// Writes the trie from a place of a file on, now that the values are known, and returns how many bytes it has. The other bytes
    /// stay. Names are those that room was kept for, in the same order.
    ///
    /// # Errors
    ///
    /// There is not enough memory.
    pub fn write(
        &self,
        alloc: Global,
        exports: &[NamedExport<'_>],
        out: &mut [u8],
        at: usize,
    ) -> Result<usize, AllocError>
        requires flags { All (λ e. HasFlags e.says) exports.now }
        requires reserved { (reserved : List NamedExport) × IsReserved self.now reserved × (map kept reserved ≡ map kept exports.now) }
        requires room { at + self.now.size ≤ length out.old }
        ensures length { length out.new ≡ length out.old }
        ensures done { IfOk result (λ n. IsTriePut self.now exports.now at n out.old out.new) }
    {
        let symbols = said_symbols(alloc, exports)?;
        self.trie.write(alloc, &symbols, out, at)
    }
}

/// What a name that an object defines is exported as, at its address in the image: its distance from the base, or an absolute
/// value.
pub fn value_says(
    target: Target,
    is_weak: bool,
    is_thread_local: bool,
    address: u64,
    base: u64,
) -> ExportSays
    requires { is_absolute_target target ≡ false → base ≤ address }
    ensures { result ≡ value_said target is_weak is_thread_local address base }
{
    let weak = if is_weak { FLAG_WEAK } else { 0 };
    match target {
        Target::Section { .. } => ExportSays::Value {
            flags: thread_local_flag(is_thread_local) + weak,
            value: address - base,
        },
        Target::Absolute { value } => ExportSays::Value {
            flags: FLAG_ABSOLUTE + weak,
            value,
        },
        _ => ExportSays::Value {
            flags: weak,
            value: address - base,
        },
    }
}

/// `EXPORT_SYMBOL_FLAGS_KIND_THREAD_LOCAL`, where a name is that of a thread-local variable.
fn thread_local_flag(is_thread_local: bool) -> u64
    ensures { result ≡ (if is_thread_local then 1 else 0) }
{
    if is_thread_local { 1 } else { 0 }
}
