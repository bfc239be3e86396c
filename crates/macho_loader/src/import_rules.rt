//! The rule of the import entries: each is of a library of the image, and its name ends in the table.
ghost use Rattle.std.specs.Prelude.{◌≡◌, ◌<◌, ℕ, nat_lt, length, drop, Some, None};
ghost use Rattle.macho_model.specs.ObjectRules.{has_nul};
ghost use Rattle.macho_model.specs.Images.{table_names, libraries_of};
ghost use Rattle.macho_model.specs.LoadRules.{import_fits};
ghost use Rattle.macho_model.specs.Loader.{ImportFails};
ghost use Rattle.macho_image_walks.specs.Readings.{table_there};
ghost use Rattle.macho_image_walks.specs.steps.Asked.{BadImport, ImportsFit, EachImportFits};
ghost use Rattle.macho_loader.specs.steps.Names.{EndsBelow};

use crate::cursor::{count_listed, first, step_from};
use macho_image_walks::{
    Listed, library_of, name_offset_of, place_of_import, range_from, table_at, u32_from,
};
use memchr::memrchr;

/// Names end that begin below this offset: it is behind the last NUL.
fn end_of_names(names: &[u8]) -> u64
    ensures { EndsBelow names.now result }
{
    match memrchr(0, names) {
        Some(last) => last as u64 + 1,
        None => 0,
    }
}

/// The names of a fixup table, up to its end.
pub(crate) fn names_of(bytes: &[u8], place: u64) -> &[u8]
    ensures { result.now ≡ table_names bytes.now (table_there bytes.now place) }
{
    let table = table_at(bytes, place);
    range_from(
        bytes,
        table.at + table.symbols as u64,
        table.at + table.size,
    )
}

/// How many libraries the image needs.
#[tactic(auto, using(macho_image_walks::proofs::ListedLaws::count_of_libraries))]
fn count_of_libraries(bytes: &[u8]) -> u32
    ensures { result ≡ length (libraries_of bytes.now) }
{
    count_listed(bytes, Listed::Libraries)
}

/// Whether an import is of a library of the image, and its name ends in the table.
fn import_is_right(bytes: &[u8], place: u64, number: u32, libraries: u32, end: u64) -> bool
    requires many { libraries ≡ length (libraries_of bytes.now) }
    requires names { EndsBelow (table_names bytes.now (table_there bytes.now place)) end }
    ensures { result ≡ import_fits bytes.now (table_there bytes.now place) number }
{
    let word = u32_from(bytes, place_of_import(bytes, place, number), 0);
    let library = library_of(word);
    library >= 1 && library <= libraries && (name_offset_of(word) as u64) < end
}

/// The place of the first import entry of a table that is not right.
fn bad_import_in(bytes: &[u8], table: u64, libraries: u32) -> Option<u64>
    requires { libraries ≡ length (libraries_of bytes.now) }
    ensures found { (place : ℕ) → result ≡ Some place → BadImport bytes.now (table_there bytes.now table) place }
    ensures only { result ≡ None → ImportsFit bytes.now (table_there bytes.now table) }
{
    let end = end_of_names(names_of(bytes, table));
    for number in 0..table_at(bytes, table).imports_count {
        if !import_is_right(bytes, table, number, libraries, end) {
            return Some(place_of_import(bytes, table, number));
        }
    }
    None
}

/// The place of the first import entry that is not right.
pub(crate) fn first_bad_import(bytes: &[u8]) -> Option<u64>
    ensures found { (place : ℕ) → result ≡ Some place → ImportFails bytes.now place }
    ensures only { result ≡ None → EachImportFits bytes.now }
{
    let libraries = count_of_libraries(bytes);
    let mut at = first();
    while let Some(step) = step_from(bytes, Listed::Tables, at) {
        if let Some(place) = bad_import_in(bytes, step.place, libraries) {
            return Some(place);
        }
        at = step.next;
    }
    None
}
