//! The text of a stub, read again: it was found to be a stub when it was taken, and its reading isn't kept.
ghost use Rattle.std.specs.Prelude.{◌≡◌, IfOk};
ghost use Rattle.macho_symbol_names.specs.Kept.{reading_of};
ghost use Rattle.macho_linker.specs.Owned.{says_of};

use macho_linker::StubText;
use macho_stub::{DefinedStubLibrary, StubFault, parse_defined_library};
use std::alloc::{AllocError, Global};

/// The library that the text of a stub tells of.
pub(crate) fn library_of(
    alloc: Global,
    stub: &StubText,
) -> Result<DefinedStubLibrary<'_>, AllocError>
    ensures { IfOk result (λ library. reading_of library ≡ says_of stub.now) }
{
    match parse_defined_library(alloc, stub.text.as_str()) {
        Ok(library) => Ok(library),
        Err(StubFault::OutOfMemory) => Err(AllocError),
        Err(StubFault::Rule { .. }) => unreachable!(),
    }
}
