//! Exported names: what keeps the place of each in the exports trie, and what each is exported as.
ghost use Rattle.std.specs.Prelude.{◌≡◌, ℕ, ◌+◌, ◌<◌, ◌^◌, List, length, map, get_or, None, All, IfOk};
ghost use Rattle.std.specs.HashMap.{get};
ghost use Rattle.macho_model.specs.declared.placed.Counts.{Counts};
ghost use Rattle.macho_model.specs.Links.{Link};
ghost use Rattle.macho_model.specs.Placement.{Placed};
ghost use Rattle.macho_promise.specs.Views.{views_of};
ghost use Rattle.macho_linkedit.specs.Tries.{HasFlags, AreKept, AreSaid};
ghost use Rattle.macho_linkedit.specs.Libraries.{same_text, FindsPlaces};
ghost use Rattle.macho_symbol_tables.specs.steps.Says.{IsAmong, says_kept, value_in, says_said, header_in, is_local_in};
ghost use Rattle.macho_symbol_tables.specs.Placed.{IsToTable};
ghost use Rattle.macho_symbol_tables.specs.Exports.{AreExportsOf, ImportsArePlain, CanBeTrie, exports_told};

use indexmap::IndexMap;
use macho_fields::{Places, address_of};
use macho_linkedit::{ExportSays, NamedExport, library_number, library_places, value_says};
use macho_model::Target;
use macho_object::File;
use macho_records::{S_THREAD_LOCAL_VARIABLES, SectionFlags, SectionHeader};
use macho_symbols::{ExportName, Import};
use std::alloc::{AllocError, Global};

/// What keeps the place of a target in the exports trie.
fn kept_says(
    target: Target,
    imports: &[Import],
    libraries: &[Vec<u8>],
    places: &IndexMap<&[u8], u32>,
) -> ExportSays
    requires few { length libraries.now + 1 < 2 ^ 32 }
    requires known { FindsPlaces (map (λ n. n.items) libraries.now) (get same_text places.now) }
    requires among { IsAmong (length imports.now) target }
    ensures { result ≡ says_kept imports.now (map (λ n. n.items) libraries.now) target }
{
    match target {
        Target::Import { id } => ExportSays::Reexport {
            library: library_number(libraries, places, &imports[id as usize].library),
        },
        _ => ExportSays::Value { flags: 0, value: 0 },
    }
}

/// The header of the section of an object, by its view.
fn header_of(views: &[Option<File<'_>>], file: u32, section: u32) -> Option<SectionHeader>
    ensures { result ≡ header_in (get_or views.now file None) section }
{
    match views.get(file as usize) {
        Some(Some(file)) => file.section(section),
        _ => None,
    }
}

/// Whether the section of a target describes thread-local variables.
fn is_thread_local(views: &[Option<File<'_>>], target: Target) -> bool
    ensures { result ≡ is_local_in views.now target }
{
    match target {
        Target::Section {
            file,
            section,
            offset: _,
        } => match header_of(views, file, section) {
            Some(header) => SectionFlags(header.flags).typ() == S_THREAD_LOCAL_VARIABLES,
            None => false,
        },
        _ => false,
    }
}

/// What a target is exported as. No part of an image stands below its base.
fn said_says<P: Places>(
    places: &P,
    views: &[Option<File<'_>>],
    target: Target,
    is_weak: bool,
) -> ExportSays
    ensures is { result ≡ value_in (P.look places.now) views.now is_weak target }
    ensures flags { HasFlags result }
{
    let base = places.base();
    let address = address_of(places, target).max(base);
    let is_local = is_thread_local(views, target);
    value_says(target, is_weak, is_local, address, base)
}

/// What an exported name is exported as: what its target is, or the number of a library.
fn says_of<P: Places>(
    places: &P,
    views: &[Option<File<'_>>],
    export: &ExportName,
    imports: &[Import],
    libraries: &[Vec<u8>],
    numbers: &IndexMap<&[u8], u32>,
) -> ExportSays
    requires few { length libraries.now + 1 < 2 ^ 32 }
    requires known { FindsPlaces (map (λ n. n.items) libraries.now) (get same_text numbers.now) }
    requires among { IsAmong (length imports.now) export.now.target }
    ensures is { result ≡ says_said (P.look places.now) views.now imports.now
        (map (λ n. n.items) libraries.now) export.now.weak export.now.target }
    ensures flags { HasFlags result }
{
    match export.target {
        Target::Import { id: _ } => kept_says(export.target, imports, libraries, numbers),
        target => said_says(places, views, target, export.weak),
    }
}

/// The exported names of a link, each with what keeps its place in the exports trie: the number of its library, or a value that
/// isn't known yet.
///
/// # Errors
///
/// There is not enough memory.
pub fn kept_exports<'a>(
    alloc: Global,
    exports: &'a [ExportName],
    imports: &[Import],
    libraries: &[Vec<u8>],
) -> Result<Vec<NamedExport<'a>>, AllocError>
    requires few { length libraries.now + 1 < 2 ^ 32 }
    requires link { (l : Link) × AreExportsOf l exports.now imports.now (map (λ n. n.items) libraries.now) }
    ensures kept { (l : Link) → AreExportsOf l exports.now imports.now (map (λ n. n.items) libraries.now)
        → IfOk result (λ v. AreKept l (exports_told exports.now) v.items) }
    ensures names { (l : Link) → AreExportsOf l exports.now imports.now (map (λ n. n.items) libraries.now) → ImportsArePlain l
        → IfOk result (λ v. CanBeTrie v.items) }
{
    let numbers = library_places(alloc, libraries)?;
    let mut kept = Vec::with_capacity(alloc, exports.len())?;
    for export in exports {
        kept.push(NamedExport {
            name: export.name.as_slice(),
            says: kept_says(export.target, imports, libraries, &numbers),
        })?;
    }
    Ok(kept)
}

/// The exported names of a link, each with what it is exported as by a placement. `views` are those of its objects by the numbers
/// of their files.
///
/// # Errors
///
/// There is not enough memory.
pub fn said_exports<'a, P: Places>(
    alloc: Global,
    places: &P,
    views: &[Option<File<'_>>],
    exports: &'a [ExportName],
    imports: &[Import],
    libraries: &[Vec<u8>],
) -> Result<Vec<NamedExport<'a>>, AllocError>
    requires few { length libraries.now + 1 < 2 ^ 32 }
    requires link { (l : Link) × AreExportsOf l exports.now imports.now (map (λ n. n.items) libraries.now) }
    ensures said { (l : Link) (counts : Counts) (p : Placed) → AreExportsOf l exports.now imports.now (map (λ n. n.items) libraries.now)
        → IsToTable l counts p (P.look places.now) → views.now ≡ views_of l
        → IfOk result (λ v. AreSaid l p (exports_told exports.now) v.items) }
    ensures kept { (l : Link) → AreExportsOf l exports.now imports.now (map (λ n. n.items) libraries.now)
        → IfOk result (λ v. AreKept l (exports_told exports.now) v.items) }
    ensures flags { IfOk result (λ v. All (λ e. HasFlags e.says) v.items) }
{
    let numbers = library_places(alloc, libraries)?;
    let mut said = Vec::with_capacity(alloc, exports.len())?;
    for export in exports {
        said.push(NamedExport {
            name: export.name.as_slice(),
            says: says_of(places, views, export, imports, libraries, &numbers),
        })?;
    }
    Ok(said)
}
