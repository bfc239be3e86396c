//! The libraries that the image of a link needs.
ghost use Rattle.std.specs.Prelude.{◌≡◌, true, map, filter, IfOk};
ghost use Rattle.macho_model.specs.Links.{Link};
ghost use Rattle.macho_model.specs.Needs.{distinct, imports_of, libraries_needed};
ghost use Rattle.std.specs.Str.{bytes_eq};
ghost use Rattle.macho_symbols.specs.Kept.{IsResolved};
ghost use Rattle.macho_stub_lines.specs.Lists.{texts};
ghost use Rattle.macho_inputs.specs.steps.Libraries.{asked_of, is_kept};

use indexmap::IndexSet;
use macho_symbols::{Import, Resolved};
use std::alloc::{AllocError, Global};

/// The names in order, each once, where it stands first.
fn distinct_names<'a>(alloc: Global, names: &[&'a [u8]]) -> Result<IndexSet<&'a [u8]>, AllocError>
    ensures { IfOk result (λ set. texts set.keys ≡ distinct bytes_eq (texts names.now)) }
{
    let mut set = IndexSet::new(alloc);
    for name in names {
        set.insert(*name)?;
    }
    Ok(set)
}

/// The install names that imports ask for, each once. They are looked at only where unused libraries are left out.
fn asked_names(
    alloc: Global,
    imports: &[Import],
    dead_strip_dylibs: bool,
) -> Result<IndexSet<&[u8]>, AllocError>
    ensures { IfOk result (λ set. dead_strip_dylibs ≡ true → texts set.keys ≡ distinct bytes_eq (asked_of imports.now)) }
{
    if !dead_strip_dylibs {
        return Ok(IndexSet::new(alloc));
    }
    let mut names: Vec<&[u8]> = Vec::new(alloc);
    for import in imports {
        names.push(&import.library)?;
    }
    distinct_names(alloc, &names)
}

/// Whether a library is kept: where unused ones are left out only one that an import asks for, else each.
fn is_kept(name: &[u8], asked: &IndexSet<&[u8]>, dead_strip_dylibs: bool) -> bool
    ensures { result ≡ is_kept dead_strip_dylibs (texts asked.now.keys) name.now }
{
    !dead_strip_dylibs || asked.contains(name)
}

/// The names that are kept, copied.
fn kept_names(
    alloc: Global,
    names: &[&[u8]],
    asked: &IndexSet<&[u8]>,
    dead_strip_dylibs: bool,
) -> Result<Vec<Vec<u8>>, AllocError>
    ensures { IfOk result (λ kept. map (λ name. name.items) kept.items
        ≡ filter (is_kept dead_strip_dylibs (texts asked.now.keys)) (texts names.now)) }
{
    let mut kept = Vec::new(alloc);
    for name in names {
        if is_kept(name, asked, dead_strip_dylibs) {
            kept.push(name.to_vec(alloc)?)?;
        }
    }
    Ok(kept)
}

/// The libraries that the image needs, by install name in input order, each once: all of them, or with `dead_strip_dylibs` only those
/// that an import asks for.
///
/// # Errors
///
/// There is not enough memory.
pub fn needed_libraries(
    alloc: Global,
    symbols: &Resolved<'_>,
    dead_strip_dylibs: bool,
) -> Result<Vec<Vec<u8>>, AllocError>
    ensures { (l : Link) → l.dead_strip_dylibs ≡ dead_strip_dylibs → IsResolved l (imports_of l) symbols.now
        → IfOk result (λ libraries. map (λ library. library.items) libraries.items ≡ libraries_needed l) }
{
    let names = symbols.libraries(alloc)?;
    let names = distinct_names(alloc, &names)?;
    let asked = asked_names(alloc, symbols.imports(), dead_strip_dylibs)?;
    kept_names(alloc, names.as_slice(), &asked, dead_strip_dylibs)
}
