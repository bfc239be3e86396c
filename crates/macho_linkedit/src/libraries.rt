//! The numbers of libraries, by which imports and reexported names tell theirs.
ghost use Rattle.std.specs.Prelude.{◌≡◌, ◌+◌, ◌<◌, ◌≤◌, ◌^◌, length, IfOk};
ghost use Rattle.std.specs.Str.{bytes_eq};
ghost use Rattle.std.specs.HashMap.{get};
ghost use Rattle.std.specs.List.{position_or_len};
ghost use Rattle.macho_linkedit.specs.Imports.{texts};
ghost use Rattle.macho_linkedit.specs.Libraries.{same_text, FindsPlaces};

use indexmap::IndexMap;
use std::alloc::{AllocError, Global};

/// The first place of each library, by its install name.
///
/// # Errors
///
/// There is not enough memory.
pub fn library_places<'a>(
    alloc: Global,
    libraries: &'a [Vec<u8>],
) -> Result<IndexMap<&'a [u8], u32>, AllocError>
    requires { length libraries.now < 2 ^ 32 }
    ensures { IfOk result (λ m. FindsPlaces (texts libraries.now) (get same_text m)) }
{
    let mut places: IndexMap<&[u8], u32> = IndexMap::new(alloc);
    for (place, library) in libraries.iter().enumerate() {
        let name = library.as_slice();
        if !places.contains_key(&name) {
            places.insert(name, place as u32)?;
        }
    }
    Ok(places)
}

/// The number of a library from 1; one that isn't among them gets the number behind theirs.
pub fn library_number(libraries: &[Vec<u8>], places: &IndexMap<&[u8], u32>, library: &[u8]) -> u32
    requires few { length libraries.now + 1 < 2 ^ 32 }
    requires known { FindsPlaces (texts libraries.now) (get same_text places.now) }
    ensures is { result ≡ position_or_len (bytes_eq library.now) (texts libraries.now) + 1 }
    ensures within { result ≤ length libraries.now + 1 }
{
    match places.get(library) {
        Some(place) => *place + 1,
        None => libraries.len() as u32 + 1,
    }
}
