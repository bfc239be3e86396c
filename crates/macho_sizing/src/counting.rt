//! The counts of a link, from what was counted, listed and reserved of it.
ghost use Rattle.std.specs.Prelude.{◌≡◌, ◌<◌, ◌^◌, true, length, All, IfOk, OnOk};
ghost use Rattle.macho_model.specs.Links.{Link};
ghost use Rattle.macho_model.specs.Needs.{imports_of};
ghost use Rattle.macho_promise.specs.Sizes.{counts_with, unwind_size};
ghost use Rattle.macho_symbols.specs.Told.{ImportsAre};
ghost use Rattle.macho_linkedit.specs.Counting.{IsPath};
ghost use Rattle.macho_linkedit.specs.Listing.{AreListed};
ghost use Rattle.macho_sizing.specs.Asked.{AreOf};
ghost use Rattle.macho_sizing.specs.steps.Passing.{AreCounted, AreWithin};

use crate::asked::SizesOf;
use crate::numbers::Numbers;
use macho_linkedit::{SizesAsked, TableSymbol, TableSymbols, count};
use macho_model::Counts;
use macho_symbols::Import;
use std::alloc::AllocError;

/// Paths are shorter than this in bytes: the size of a load command has 32 bits.
const PATH_LIMIT: usize = 1 << 32;
/// There are fewer paths of a kind than this, so that the bytes of their commands don't pass 64 bits.
const PATHS_LIMIT: usize = 1 << 28;
/// The name of the output file is shorter than this in bytes.
const NAME_LIMIT: usize = 1 << 63;

/// Refuses paths that load commands can't tell, as want of memory: there is no room for commands of 4 GiB.
fn check_paths(paths: &[Vec<u8>]) -> Result<(), AllocError>
    ensures short { OnOk result (All IsPath paths.now) }
    ensures few { OnOk result (length paths.now < 2 ^ 28) }
{
    if paths.len() >= PATHS_LIMIT {
        return Err(AllocError);
    }
    for path in paths {
        if path.len() >= PATH_LIMIT {
            return Err(AllocError);
        }
    }
    Ok(())
}

/// Refuses an install name of 4 GiB or more, or an output name of 2^63 bytes or more, as want of memory.
fn check_names(install_name: &[u8], name: &[u8]) -> Result<(), AllocError>
    ensures path { OnOk result (length install_name.now < 2 ^ 32) }
    ensures name { OnOk result (length name.now < 2 ^ 63) }
{
    if install_name.len() >= PATH_LIMIT || name.len() >= NAME_LIMIT {
        return Err(AllocError);
    }
    Ok(())
}

/// The counts of a link. `unwind` and `trie` are the most bytes of unwind information and of the exports trie.
pub(crate) fn count_sizes(
    asked: &SizesOf<'_>,
    imports: &[Import],
    numbers: &Numbers,
    unwind: u64,
    trie: u64,
    symbols: &TableSymbols,
) -> Result<Counts, AllocError>
    requires counted { AreCounted asked.now imports.now numbers.now }
    requires within { AreWithin numbers.now }
    ensures { (l : Link) → AreOf l asked.now → ImportsAre l (imports_of l) imports.now → unwind ≡ unwind_size l → AreListed l symbols.now
        → IfOk result (λ c. c ≡ counts_with l trie) }
{
    check_paths(asked.libraries)?;
    check_paths(asked.arguments.rpaths)?;
    check_names(asked.arguments.install_name, asked.arguments.name)?;
    let listed: &[TableSymbol] = &symbols.symbols;
    Ok(count(&SizesAsked {
        arguments: asked.arguments,
        libraries: asked.libraries,
        imports,
        own_entries: asked.needs.tables.num_own() as u64,
        initializers: asked.initializers.len() as u64,
        unwind,
        trie,
        symbols: listed.len() as u64,
        strings: symbols.strings,
    }))
}
