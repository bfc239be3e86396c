//! Imports as they are told beside an image.
ghost use Rattle.std.specs.Prelude.{◌≡◌, ◌+◌, ◌<◌, ◌^◌, length, map, IfOk};
ghost use Rattle.macho_model.specs.Links.{Link};
ghost use Rattle.macho_model.specs.Needs.{imports_of, libraries_needed};
ghost use Rattle.macho_model.specs.Told.{imports_told};
ghost use Rattle.macho_symbols.specs.Told.{ImportsAre};
ghost use Rattle.macho_answer.specs.Linked.{import_of};

use macho_answer::ImportName;
use macho_linkedit::{library_number, library_places};
use macho_symbols::Import;
use std::alloc::{AllocError, Global};

/// The imports of a link by their numbers, each with its name and the number of its library among `libraries`, from 1.
///
/// # Errors
///
/// There is not enough memory.
pub fn told_imports(
    alloc: Global,
    imports: &[Import],
    libraries: &[Vec<u8>],
) -> Result<Vec<ImportName>, AllocError>
    requires few { length libraries.now + 1 < 2 ^ 32 }
    ensures { (l : Link) → ImportsAre l (imports_of l) imports.now → map (λ n. n.items) libraries.now ≡ libraries_needed l
        → IfOk result (λ v. map import_of v.items ≡ imports_told l) }
{
    let numbers = library_places(alloc, libraries)?;
    let mut told = Vec::with_capacity(alloc, imports.len())?;
    for import in imports {
        told.push(ImportName {
            library: library_number(libraries, &numbers, &import.library),
            name: Vec::from_slice(alloc, &import.name)?,
        })?;
    }
    Ok(told)
}
