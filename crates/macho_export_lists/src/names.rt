//! The places at which names stand first among entries.
ghost use Rattle.std.specs.Prelude.{◌≡◌, [], ◌∷◌, ◌++◌, OnOk};
ghost use Rattle.std.specs.List.{list_any};
ghost use Rattle.std.specs.Str.{bytes_eq};
ghost use Rattle.macho_export_lists.specs.Entries.{texts_of};
ghost use Rattle.macho_export_lists.specs.steps.Lists.{ArePlaces};

use std::alloc::{AllocError, Global};
use std::collections::HashMap;

/// Whether a name is among entries whose places are known.
pub(crate) fn is_among(entries: &[Vec<u8>], places: &HashMap<Vec<u8>, usize>, name: &[u8]) -> bool
    requires { ArePlaces (texts_of entries.now) places.now }
    ensures { result ≡ list_any (bytes_eq name.now) (texts_of entries.now) }
{
    match places.get(name) {
        Some(place) => *place < entries.len() && entries[*place].as_slice() == name,
        None => false,
    }
}

/// Notes the place that a name gets behind entries, unless it stands among them.
pub(crate) fn note_place(
    alloc: Global,
    entries: &[Vec<u8>],
    places: &mut HashMap<Vec<u8>, usize>,
    name: &[u8],
) -> Result<(), AllocError>
    requires { ArePlaces (texts_of entries.now) places.old }
    ensures noted { OnOk result (ArePlaces (texts_of entries.now ++ name.now ∷ []) places.new) }
    ensures kept { ArePlaces (texts_of entries.now) places.new }
{
    if is_among(entries, places, name) {
        return Ok(());
    }
    let key = Vec::from_slice(alloc, name)?;
    places.insert(key, entries.len())?;
    Ok(())
}
