//! The numbers that the format limits, as far as they are known before a plan is laid out.
ghost use Rattle.std.specs.Prelude.{◌≡◌, ◌+◌, ◌<◌, ◌≤◌, ◌^◌, length, sum_by, All, IfOk, IfErr, OnOk};
ghost use Rattle.std.specs.Option.{option_copied};
ghost use Rattle.macho_model.specs.Links.{Link};
ghost use Rattle.macho_model.specs.Objects.{num_symbols};
ghost use Rattle.macho_symbols.specs.Exported.{AreLists};
ghost use Rattle.macho_symbols.specs.Told.{ImportsAre};
ghost use Rattle.macho_model.specs.Needs.{imports_of};
ghost use Rattle.macho_layout.specs.Sums.{fitting};
ghost use Rattle.macho_linkedit.specs.Imports.{name_bytes};
ghost use Rattle.macho_consumed.specs.Symbols.{HasPersonality};
ghost use Rattle.macho_sizing.specs.Asked.{AreOf};
ghost use Rattle.macho_sizing.specs.steps.Passing.{plain_of, AreNumbers, AreSymbols, AreCounted, AreWithin, IsPassed};

use crate::asked::SizesOf;
use crate::personalities::count_personalities;
use macho_linkedit::LinkedObject;
use macho_model::Limit;
use macho_symbols::{ExportList, Import};
use macho_unwind_pages::MOST_PERSONALITIES;
use std::alloc::{AllocError, Global};

/// The most libraries that the image may need.
const MOST_LIBRARIES: u64 = 240;
/// The most entries of the import table.
const MOST_IMPORTS: u64 = 1 << 24;
/// The most bytes of import names with their NULs.
const MOST_NAME_BYTES: u64 = 1 << 23;
/// The most symbols of all objects and plain export entries together.
const MOST_SYMBOLS: u64 = 0xffff_fffe;

/// How many of each thing there are.
#[derive(Clone, Copy)]
pub(crate) struct Numbers {
    /// Libraries that the image needs.
    pub(crate) libraries: u64,
    /// Personality functions.
    pub(crate) personalities: u64,
    /// Entries of the import table.
    pub(crate) imports: u64,
    /// Bytes of the imports' names with their NULs.
    pub(crate) name_bytes: u64,
    /// Symbols of the objects and plain export entries.
    pub(crate) symbols: u64,
}

/// A number that passes a limit.
#[derive(Clone, Copy)]
pub(crate) struct Passed {
    /// Which limit it passes.
    pub(crate) what: Limit,
    /// How many there are.
    pub(crate) number: u64,
}

/// The bytes of the imports' names with their NULs, None from 2^64 on.
fn names_size(imports: &[Import]) -> Option<u64>
    ensures { result ≡ fitting (name_bytes imports.now) }
{
    let mut size = 0u64;
    for import in imports {
        size = size.checked_add(import.name.len() as u64)?.checked_add(1)?;
    }
    Some(size)
}

/// How many symbols some objects have together, None from 2^64 on.
fn object_symbols(objects: &[LinkedObject<'_>]) -> Option<u64>
    ensures { result ≡ fitting (sum_by (λ o. num_symbols o.file.bytes) objects.now) }
{
    let mut symbols = 0u64;
    for object in objects {
        symbols = symbols.checked_add(u64::from(object.file.num_symbols()))?;
    }
    Some(symbols)
}

/// How many entries of the export lists are plain names, without a star; 0 where there are no lists.
fn plain_entries(list: Option<&ExportList>) -> usize
    ensures { result ≡ plain_of (option_copied list.entry) }
{
    match list {
        Some(list) => list.required_symbols().len(),
        None => 0,
    }
}

/// The numbers of a link. A sum of 2^64 or more is refused as want of memory.
pub(crate) fn count_numbers(
    alloc: Global,
    asked: &SizesOf<'_>,
    imports: &[Import],
    list: Option<&ExportList>,
) -> Result<Numbers, AllocError>
    requires { All (HasPersonality asked.now.needs.now.resolved) asked.now.entries.now }
    ensures counted { IfOk result (AreCounted asked.now imports.now) }
    ensures done { (l : Link) → AreOf l asked.now → ImportsAre l (imports_of l) imports.now → IfOk result (AreNumbers l) }
    ensures symbols { (l : Link) → AreOf l asked.now → AreLists l (option_copied list.entry) → IfOk result (AreSymbols l) }
{
    let personalities = count_personalities(alloc, asked.needs, asked.entries)?;
    let own = asked.needs.tables.num_own() as u64;
    let (Some(entries), Some(name_bytes), Some(of_objects)) = (
        own.checked_add(imports.len() as u64),
        names_size(imports),
        object_symbols(asked.objects),
    ) else {
        return Err(AllocError);
    };
    let Some(symbols) = of_objects.checked_add(plain_entries(list) as u64) else {
        return Err(AllocError);
    };
    Ok(Numbers {
        libraries: asked.libraries.len() as u64,
        personalities: personalities as u64,
        imports: entries,
        name_bytes,
        symbols,
    })
}

/// Refuses a number that is more than its limit.
fn check_one(what: Limit, number: u64, most: u64) -> Result<(), Passed>
    ensures within { OnOk result (number ≤ most) }
    ensures passed { IfErr result (λ p. (p ≡ record { what = what; number = number }) × (most < number)) }
{
    if number > most {
        Err(Passed { what, number })
    } else {
        Ok(())
    }
}

/// Refuses the numbers of a link where one passes its limit. Of several that of symbols is told, else the first by the order of
/// limits.
pub(crate) fn check_numbers(numbers: &Numbers) -> Result<(), Passed>
    ensures within { OnOk result (AreWithin numbers.now) }
    ensures passed { IfErr result (IsPassed numbers.now) }
{
    check_one(Limit::Symbols, numbers.symbols, MOST_SYMBOLS)?;
    check_one(Limit::Libraries, numbers.libraries, MOST_LIBRARIES)?;
    check_one(
        Limit::Personalities,
        numbers.personalities,
        MOST_PERSONALITIES as u64,
    )?;
    check_one(Limit::Imports, numbers.imports, MOST_IMPORTS)?;
    check_one(Limit::NameBytes, numbers.name_bytes, MOST_NAME_BYTES)
}
