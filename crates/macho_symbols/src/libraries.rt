//! The libraries among the files that were added. What is kept of each has its install name, so no input is read for it again.
ghost use Rattle.std.specs.Prelude.{◌≡◌, map, IfOk};
ghost use Rattle.std.specs.List.{filter_map};
ghost use Rattle.macho_symbols.specs.steps.Solved.{install_name_in};

use macho_symbol_names::FileNames;
use std::alloc::{AllocError, Global};

/// The install names of the files that are libraries, in order.
pub(crate) fn library_names<'data>(
    alloc: Global,
    files: &[FileNames<'data>],
) -> Result<Vec<&'data [u8]>, AllocError>
    ensures { IfOk result (λ names. map (λ n. n.now) names.items ≡ filter_map install_name_in files.now) }
{
    let mut names = Vec::new(alloc);
    for file in files {
        if !file.is_object() {
            names.push(file.library())?;
        }
    }
    Ok(names)
}
