//! The report of an image: each of its parts is a walk of the loader's view, or the list of its trie.
ghost use Rattle.std.specs.Prelude.{◌≡◌, map, IfOk, IfErr};
ghost use Rattle.macho_model.specs.Images.{segments_of, libraries_of};
ghost use Rattle.macho_model.specs.Loader.{IsAccepted};
ghost use Rattle.macho_loader.specs.Lists.{import_of, imports_of_image};
ghost use Rattle.macho_inspect.specs.Reports.{segment_line, import_in, IsReport, IsRefused, IsRejected};

use crate::exports::exports_of;
use crate::report::{ImportLine, InspectFault, Report, SegmentLine};
use macho_loader::{Loaded, LoadedImport};
use macho_records::{SegmentCommand, SegmentName};
use std::alloc::{AllocError, Global};

/// The line of a segment.
fn segment_line(segment: &SegmentCommand) -> SegmentLine
    ensures { result ≡ segment_line segment.now }
{
    SegmentLine {
        name: SegmentName::from_bytes(&segment.segname),
        address: segment.vmaddr,
        size: segment.vmsize,
        file_offset: segment.fileoff,
        file_size: segment.filesize,
        protection: segment.initprot,
    }
}

/// The lines of an image's segments.
fn segment_lines(alloc: Global, loaded: &Loaded<'_>) -> Result<Vec<SegmentLine>, AllocError>
    ensures { IfOk result (λ v. v.items ≡ map segment_line (segments_of loaded.now)) }
{
    let segments = loaded.segments(alloc)?;
    let mut lines = Vec::with_capacity(alloc, segments.len())?;
    for segment in &segments {
        lines.push(segment_line(segment))?;
    }
    Ok(lines)
}

/// The names of an image's libraries, copied.
fn library_names(alloc: Global, loaded: &Loaded<'_>) -> Result<Vec<Vec<u8>>, AllocError>
    ensures { IfOk result (λ v. map (λ name. name.items) v.items ≡ libraries_of loaded.now) }
{
    let libraries = loaded.libraries(alloc)?;
    let mut names = Vec::with_capacity(alloc, libraries.len())?;
    for library in &libraries {
        names.push(library.to_vec(alloc)?)?;
    }
    Ok(names)
}

/// The line of an import.
fn import_line(alloc: Global, import: LoadedImport<'_>) -> Result<ImportLine, AllocError>
    ensures { IfOk result (λ x. import_in x ≡ import_of import.entry) }
{
    Ok(ImportLine {
        library: import.library,
        name: import.name.to_vec(alloc)?,
        addend: import.addend,
    })
}

/// The lines of an image's imports.
fn import_lines(alloc: Global, loaded: &Loaded<'_>) -> Result<Vec<ImportLine>, AllocError>
    ensures { IfOk result (λ v. map import_in v.items ≡ imports_of_image loaded.now) }
{
    let imports = loaded.imports(alloc)?;
    let mut lines = Vec::with_capacity(alloc, imports.len())?;
    for import in &imports {
        lines.push(import_line(alloc, *import)?)?;
    }
    Ok(lines)
}

/// The report of an image that is accepted.
fn report(alloc: Global, bytes: &[u8], loaded: &Loaded<'_>) -> Result<Report, AllocError>
    requires { loaded.now ≡ bytes.now }
    ensures { IfOk result (IsReport bytes.now) }
{
    Ok(Report {
        base: loaded.base(),
        segments: segment_lines(alloc, loaded)?,
        libraries: library_names(alloc, loaded)?,
        imports: import_lines(alloc, loaded)?,
        exports: exports_of(alloc, bytes, loaded)?,
        fixups: loaded.fixups(alloc)?,
    })
}

/// What an image says.
///
/// # Errors
///
/// The loader does not accept the file: it breaks the rule that is told, at the file offset that is told. Or there is not
/// enough memory. Some small files would have reports of any size; of them the answer is want of memory, too, and none is
/// taken for what is too much:
///
/// - The names of all imports have more than four gigabytes together, or those of all exports, or those of all reexports. A
///   table of names has fewer bytes, but names may share them.
/// - There are more fixups than a quarter of the bytes of the file. Words begin at least 4 bytes apart, so this is possible
///   only where segments share bytes of the file.
/// - More nodes of a trie are pending than it has bytes, as is possible only in a malformed trie.
pub fn inspect(alloc: Global, bytes: &[u8]) -> Result<Report, InspectFault>
    ensures found { IfOk result (IsReport bytes.now) }
    ensures only { (IsAccepted bytes.now → ⊥) → IsRejected result }
    ensures why { IfErr result (IsRefused bytes.now) }
{
    let loaded = match Loaded::accept(bytes) {
        Ok(loaded) => loaded,
        Err(fault) => return Err(InspectFault::Rejected { fault }),
    };
    match report(alloc, bytes, &loaded) {
        Ok(report) => Ok(report),
        Err(AllocError) => Err(InspectFault::OutOfMemory),
    }
}
