//! The imports of an image: the entries of its fixup table (`struct dyld_chained_import` of mach-o/fixup-chains.h), and the
//! libraries that they are of.
//!
//!     bits   0 to 7   8     9 to 31             behind it, where the table's format has one
//!     entry  library  weak  offset of the name  an addend of 4 bytes, signed
ghost use Rattle.std.specs.Prelude.{◌≡◌, ◌+◌, ◌≤◌, length, map, IfOk};
ghost use Rattle.std.specs.Int.{w64, cast_unsigned};
ghost use Rattle.macho_bytes.specs.Layouts.{reading};
ghost use Rattle.macho_records.specs.CommandLayouts.{dylib_command};
ghost use Rattle.macho_model.specs.Commands.{command_at, path_of};
ghost use Rattle.macho_model.specs.Images.{entry_addend, libraries_of};
ghost use Rattle.macho_model.specs.Loader.{IsAccepted};
ghost use Rattle.macho_image_walks.specs.Readings.{table_there};
ghost use Rattle.macho_loader.specs.Lists.{import_at, import_of, imports_of_image};
ghost use Rattle.macho_loader.specs.steps.Listing.{imports_in};

use crate::cursor::{first, step_from};
use crate::fixups::name_at;
use macho_image_walks::{
    Listed, library_of, name_offset_of, nth, place_of_import, range_from, table_at, u32_from,
};
use macho_records::name_bytes;
use std::alloc::{AllocError, Global};

/// The most bytes that the names of a list may have together: a table has fewer, and a name that is shared by a million
/// entries can be terabytes.
const MOST_NAME_BYTES: u64 = 1 << 32;

/// An import of an image.
#[derive(Clone, Copy)]
pub struct LoadedImport<'a> {
    /// The number of its library among those that the image needs, from 1.
    pub library: u8,
    /// Its name.
    pub name: &'a [u8],
    /// The addend of its entry, 0 where the format has none.
    pub addend: i32,
}

/// The addend of an import entry as a signed number.
fn entry_addend(bytes: &[u8], table: u64, number: u32) -> i32
    ensures { cast_unsigned w64 result ≡ entry_addend bytes.now (table_there bytes.now table) number }
{
    if table_at(bytes, table).imports_format != 2 {
        return 0;
    }
    u32_from(bytes, place_of_import(bytes, table, number), 4).cast_signed()
}

/// An entry of the fixup table of a command, as an import.
fn import_in(bytes: &[u8], table: u64, number: u32) -> LoadedImport<'_>
    ensures { import_of result ≡ import_at bytes.now (table_there bytes.now table) number }
{
    let entry = u32_from(bytes, place_of_import(bytes, table, number), 0);
    LoadedImport {
        library: library_of(entry) as u8,
        name: name_at(bytes, table, name_offset_of(entry)),
        addend: entry_addend(bytes, table, number),
    }
}

/// The entries of the fixup table of a command. The answer is want of memory where all names together have more than four
/// gigabytes.
fn list_imports(
    alloc: Global,
    bytes: &[u8],
    table: u64,
) -> Result<Vec<LoadedImport<'_>>, AllocError>
    ensures { IfOk result (λ v. map import_of v.items ≡ imports_in bytes.now (table_there bytes.now table)) }
{
    let mut imports = Vec::new(alloc);
    let mut left = MOST_NAME_BYTES;
    for number in 0..table_at(bytes, table).imports_count {
        let import = import_in(bytes, table, number);
        let length = import.name.len() as u64;
        if length > left {
            return Err(AllocError);
        }
        left -= length;
        imports.push(import)?;
    }
    Ok(imports)
}

/// The imports of an image, in the order of its fixup table's entries.
pub(crate) fn imports_of(alloc: Global, bytes: &[u8]) -> Result<Vec<LoadedImport<'_>>, AllocError>
    requires { IsAccepted bytes.now }
    ensures { IfOk result (λ v. map import_of v.items ≡ imports_of_image bytes.now) }
{
    match nth(bytes, Listed::Tables, 0) {
        Some(table) => list_imports(alloc, bytes, table),
        None => Ok(Vec::new(alloc)),
    }
}

/// The path that a library's command has.
#[tactic(auto, unfolding(macho_bytes::specs::Layouts::reading))]
fn path_at(bytes: &[u8], place: u64) -> &[u8]
    requires { place ≤ length bytes.now }
    ensures { result.now
        ≡ path_of bytes.now (command_at bytes.now place) (reading dylib_command bytes.now place).name_offset }
{
    let offset = u32_from(bytes, place, 8) as u64;
    let size = u32_from(bytes, place, 4) as u64;
    name_bytes(range_from(bytes, place + offset, place + size))
}

/// The names of the libraries that an image needs, in the order of their commands.
pub(crate) fn libraries_of(alloc: Global, bytes: &[u8]) -> Result<Vec<&[u8]>, AllocError>
    requires { IsAccepted bytes.now }
    ensures { IfOk result (λ v. map (λ n. n.now) v.items ≡ libraries_of bytes.now) }
{
    let mut names = Vec::new(alloc);
    let mut at = first();
    while let Some(step) = step_from(bytes, Listed::Libraries, at) {
        names.push(path_at(bytes, step.place))?;
        at = step.next;
    }
    Ok(names)
}
