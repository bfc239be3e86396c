//! The import table, before it stands in a file.
//!
//! Of `_exit` and `_write` of the first library, where a pointer needs `_exit` less 8:
//!
//!     names     5f 65 78 69 74 00 5f 77 72 69 74 65 00
//!     entries   library 1, name 0, addend 0;  library 1, name 6, addend 0;  library 1, name 0, addend -8
ghost use Rattle.std.specs.Prelude.{◌≡◌, ◌+◌, ◌<◌, ◌≤◌, ◌^◌, [], ◌∷◌, ◌++◌, length, All, IfOk, OnOk, true};
ghost use Rattle.std.specs.HashMap.{get};
ghost use Rattle.std.specs.Int.{w32, cast_unsigned};
ghost use Rattle.macho_bytes.specs.Numbers.{signed};
ghost use Rattle.macho_model.specs.Links.{Link};
ghost use Rattle.macho_model.specs.Values.{fits_signed};
ghost use Rattle.macho_fixups.specs.Calls.{AreEntries};
ghost use Rattle.macho_linkedit.specs.Imports.{FitTable, AreOfLink, IsImportTable, texts, name_bytes};
ghost use Rattle.macho_linkedit.specs.Libraries.{same_text, FindsPlaces};
ghost use Rattle.macho_linkedit.specs.steps.Entries.{name_text, plain_entry, HavePlain, HaveOwn};

use crate::libraries::{library_number, library_places};
use indexmap::IndexMap;
use macho_fixups::{IMPORT_ADDEND_FORMAT, ImportEntry};
use macho_symbols::{Import, OwnEntry};
use std::alloc::{AllocError, Global};

/// `DYLD_CHAINED_IMPORT`: an entry is a word.
const IMPORT_FORMAT: u32 = 1;

/// The import table of a link.
#[derive(Drop)]
pub struct ImportTable {
    /// 1 where no entry has an addend, else 2.
    pub format: u32,
    /// An entry for each import by its number, and then the others.
    pub entries: Vec<ImportEntry>,
    /// The names of the imports, each once, with its NUL.
    pub names: Vec<u8>,
}

/// Makes the import table of a link: from its imports, the entries that pointers need of their own, and the libraries that
/// the image needs, in order.
///
/// # Errors
///
/// There is not enough memory.
pub fn import_table(
    alloc: Global,
    imports: &[Import],
    own: &[OwnEntry],
    libraries: &[Vec<u8>],
) -> Result<ImportTable, AllocError>
    requires { FitTable imports.now own.now libraries.now }
    ensures fits { IfOk result (λ t. AreEntries t.format t.entries.items) }
    ensures done { (l : Link) → AreOfLink l imports.now own.now libraries.now
        → IfOk result (λ t. IsImportTable l t.format t.entries.items t.names.items) }
{
    let mut entries = Vec::with_capacity(alloc, imports.len() + own.len())?;
    let names = add_plain(alloc, imports, libraries, &mut entries)?;
    add_own(own, &mut entries)?;
    let format = if own.is_empty() {
        IMPORT_FORMAT
    } else {
        IMPORT_ADDEND_FORMAT
    };
    Ok(ImportTable {
        format,
        entries,
        names,
    })
}

/// Adds an entry for each import, and makes the names. The table of the libraries' places is held while this is done.
fn add_plain(
    alloc: Global,
    imports: &[Import],
    libraries: &[Vec<u8>],
    entries: &mut Vec<ImportEntry>,
) -> Result<Vec<u8>, AllocError>
    requires few { length libraries.now ≤ 240 }
    requires short { name_bytes imports.now ≤ 2 ^ 23 }
    requires none { entries.old.items ≡ [] }
    ensures { IfOk result (λ names. HavePlain (texts libraries.now) imports.now (length imports.now) entries.new.items names.items) }
{
    let places = library_places(alloc, libraries)?;
    add_imports(imports, libraries, &places, entries)
}

/// Adds an entry for each import, and makes the names.
fn add_imports(
    imports: &[Import],
    libraries: &[Vec<u8>],
    places: &IndexMap<&[u8], u32>,
    entries: &mut Vec<ImportEntry>,
) -> Result<Vec<u8>, AllocError>
    requires few { length libraries.now ≤ 240 }
    requires short { name_bytes imports.now ≤ 2 ^ 23 }
    requires known { FindsPlaces (texts libraries.now) (get same_text places.now) }
    requires none { entries.old.items ≡ [] }
    ensures { IfOk result (λ names. HavePlain (texts libraries.now) imports.now (length imports.now) entries.new.items names.items) }
{
    let mut names = Vec::new(*entries.allocator());
    for import in imports {
        entries.push(ImportEntry {
            library: library_number(libraries, places, &import.library) as u8,
            name_offset: names.len() as u32,
            addend: 0,
        })?;
        names.extend_from_slice(&import.name)?;
        names.push(0)?;
    }
    Ok(names)
}

/// Adds the entries that pointers need of their own: each is that of its import, with an addend.
fn add_own(own: &[OwnEntry], entries: &mut Vec<ImportEntry>) -> Result<(), AllocError>
    requires among { All (λ o. o.import < length entries.old.items) own.now }
    requires addends { All (λ o. fits_signed 32 o.addend ≡ true) own.now }
    ensures { OnOk result (HaveOwn entries.old.items own.now (length own.now) entries.new.items) }
{
    for entry in own {
        let plain = entries[entry.import as usize];
        entries.push(ImportEntry {
            addend: small_addend(entry.addend),
            ..plain
        })?;
    }
    Ok(())
}

/// An addend of 32 bits, read as signed.
fn small_addend(addend: u64) -> i32
    requires { fits_signed 32 addend ≡ true }
    ensures is { signed 32 (cast_unsigned w32 result) ≡ addend }
    ensures small { cast_unsigned w32 result < 2 ^ 32 }
{
    ((addend & 0xffff_ffff) as u32).cast_signed()
}
