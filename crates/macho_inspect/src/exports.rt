//! The exports of an image: the names of the trie of its one command.
ghost use Rattle.std.specs.Prelude.{◌≡◌, map, IfOk};
ghost use Rattle.macho_trie.specs.Exports.{Exported};
ghost use Rattle.macho_trie.specs.Lists.{line_of};
ghost use Rattle.macho_model.specs.Loader.{IsAccepted};
ghost use Rattle.macho_inspect.specs.Reports.{exported_by, AreExportsOf};
ghost use Rattle.macho_inspect.specs.steps.Ranges.{IsOneTrie};

use crate::report::{ExportLine, Exports};
use macho_image_walks::range_from;
use macho_loader::{LinkeditRange, Loaded};
use macho_records::LC_DYLD_EXPORTS_TRIE;
use macho_trie::{Export, NamedExport, TrieNames, list_exports};
use std::alloc::{AllocError, Global};

/// The most bytes that the names of reexports may have together: their ends may be shared, so that a trie of some hundred
/// kilobytes can have names of gigabytes.
const MOST_BYTES: u64 = 1 << 32;

/// How many bytes the names of reexports have together.
fn bytes_there(names: &[NamedExport<'_>]) -> u64 {
    let mut size = 0u64;
    for named in names {
        if let Export::Reexport { name, .. } = named.export {
            size = size.saturating_add(name.len() as u64);
        }
    }
    size
}

/// The line of an exported name.
fn export_line(alloc: Global, named: NamedExport<'_>) -> Result<ExportLine, AllocError>
    ensures { IfOk result (λ x. exported_by x ≡ line_of named.entry) }
{
    let NamedExport { name, export } = named;
    match export {
        Export::Value { flags, address } => Ok(ExportLine {
            name,
            flags,
            value: address,
            reexport: None,
        }),
        Export::Reexport {
            flags,
            ordinal,
            name: there,
        } => Ok(ExportLine {
            name,
            flags,
            value: ordinal,
            reexport: Some(there.to_vec(alloc)?),
        }),
    }
}

/// The lines of exported names. Where the names of reexports have more than four gigabytes together, no memory is taken for
/// them, and the answer is want of memory.
fn export_lines(alloc: Global, names: Vec<NamedExport<'_>>) -> Result<Vec<ExportLine>, AllocError>
    ensures { IfOk result (λ v. map exported_by v.items ≡ map line_of names.entry.items) }
{
    if bytes_there(&names) > MOST_BYTES {
        return Err(AllocError);
    }
    let mut lines = Vec::with_capacity(alloc, names.len())?;
    let mut rest = names.into_iter();
    while let Some(named) = rest.next() {
        lines.push(export_line(alloc, named)?)?;
    }
    Ok(lines)
}

/// The exports of the trie of a range, of the one command that gives one.
fn exports_in(alloc: Global, bytes: &[u8], range: LinkeditRange) -> Result<Exports, AllocError>
    requires { IsOneTrie bytes.now range }
    ensures { IfOk result (AreExportsOf bytes.now) }
{
    let end = range.at as u64 + range.size as u64;
    if range.size > 0 && end > bytes.len() as u64 {
        return Ok(Exports::Malformed {
            place: range.command,
        });
    }
    match list_exports(alloc, range_from(bytes, range.at as u64, end))? {
        TrieNames::Listed(names) => Ok(Exports::Listed(export_lines(alloc, names)?)),
        TrieNames::Malformed { place } => Ok(Exports::Malformed {
            place: (range.at as u64).saturating_add(place),
        }),
    }
}

/// The exports of an image that has no command of a trie, one, or more.
pub(crate) fn exports_of(
    alloc: Global,
    bytes: &[u8],
    loaded: &Loaded<'_>,
) -> Result<Exports, AllocError>
    requires { loaded.now ≡ bytes.now }
    ensures { IfOk result (AreExportsOf bytes.now) }
{
    let tries = loaded.ranges(alloc, LC_DYLD_EXPORTS_TRIE)?;
    match tries.as_slice() {
        [] => Ok(Exports::Listed(Vec::new(alloc))),
        [range] => exports_in(alloc, bytes, *range),
        [_, second, ..] => Ok(Exports::Malformed {
            place: second.command,
        }),
    }
}
