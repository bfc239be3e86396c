//! Writes a dynamic library as a text stub: a `.tbd` file, version 4, that stands for the library in a link. [`run`] reads the library that
//! a word names, and writes its stub.
//!
//! Of a library `/usr/lib/libq.dylib` that offers `_a` and a weak `_b` the text is
//!
//! ```text
//! --- !tapi-tbd
//! tbd-version: 4
//! targets: [ arm64e-macos ]
//! install-name: '/usr/lib/libq.dylib'
//! current-version: 1
//! exports:
//!   - targets: [ arm64e-macos ]
//!     symbols: [ '_a' ]
//!     weak-symbols: [ '_b' ]
//! ...
//! ```
#![tactic(auto)]

ghost use Rattle.std.specs.Prelude.{◌≡◌, ℕ, Option, None, Some, IfOk, IfErr};
ghost use Rattle.std.specs.String.{string_bytes};
ghost use Rattle.macho_model.specs.Grammar.{IsDylib};
ghost use Rattle.macho_tbd.specs.declared.fault.TbdFault.TheVariants.{OutOfMemory};
ghost use Rattle.macho_tbd.specs.Writable.{unwritable_of};
ghost use Rattle.macho_tbd.specs.Answer.{IsStubOf, IsRefused, TellsUnwritable};

mod fault;
mod library;
mod running;
mod seeded;
mod text;
mod writable;

pub use fault::TbdFault;
pub use macho_devices::{
    FileFault, Files, MemoryFiles, MemorySink, RealFiles, RealSink, Sink, SinkFault, SteadyFiles,
    SteadySink,
};
use macho_object::File;
pub use macho_object::{ObjectFault, ObjectRule};
pub use running::{ToolFault, ToolRan, run};
use std::alloc::Global;

/// Writes the text stub of a dynamic library.
///
/// # Errors
///
/// The bytes are no dynamic library, a name can't be written, or there is not enough memory. Of several names that can't be written the
/// install name is told, or else that of the first symbol. Where the names of all offered symbols, each symbol's counted, have over 2^28
/// bytes more together than the file has, no memory is taken for them, and the answer is want of memory.
pub fn stub_text(alloc: Global, bytes: &[u8]) -> Result<String, TbdFault>
    // The text is the library's stub: a link takes it for a library that is like this one.
    ensures found { IfOk result (λ text. IsStubOf bytes.now (string_bytes text)) }
    // A library whose names can be written has a stub, unless memory runs out.
    ensures only { IsDylib bytes.now → unwritable_of bytes.now ≡ None → IfErr result (λ fault. fault ≡ OutOfMemory) }
    // A library of which a name can't be written is refused for the first such name, unless memory runs out.
    ensures told { (symbol : Option ℕ) → IsDylib bytes.now → unwritable_of bytes.now ≡ Some symbol → TellsUnwritable symbol result }
    // The fault that is told stands.
    ensures why { IfErr result (IsRefused bytes.now) }
{
    let file = match File::parse_bytes(bytes, true) {
        Ok(file) => file,
        Err(fault) => return Err(TbdFault::BadDylib { fault }),
    };
    let library = library::library_of(alloc, &file, bytes)?;
    let text = text::text_of(alloc, &library)?;
    Ok(text)
}
