//! Reads text stubs: the `.tbd` files, version 4, that stand for libraries on arm64 macOS.
//!
//! ```text
//! --- !tapi-tbd                              head of a document; the first is the main library
//! tbd-version:     4
//! targets:         [ x86_64-macos,           flow list, over any number of lines
//!                    arm64e-macos ]
//! install-name:    '/usr/lib/libSystem.B.dylib'
//! current-version: 1351                      scalar: plain, in single or in double quotes
//! exports:                                   list of items, their dashes in one column
//!   - targets:         [ arm64e-macos ]
//!     symbols:         [ _exit, _write ]     gathered, since the targets hold arm64e-macos
//!     objc-classes:    [ Skipped ]           a key that isn't read is skipped with its value
//! ...                                        end of a document
//! ```
//!
//! Its library is `/usr/lib/libSystem.B.dylib`, version `1351`, with the symbols `_exit` and `_write`.
//! The text is read once, line by line, and each text of the answer is a slice of it.
#![tactic(auto)]

ghost use Rattle.std.specs.Prelude.{◌≡◌, ℕ, IfErr, IfOk, Ok};
ghost use Rattle.macho_stub_lines.specs.Faults.{Gives, broken};
ghost use Rattle.macho_stub.specs.Library.{LibraryFields, library_fields};
ghost use Rattle.macho_stub.specs.Answer.{IsStub, SaysSlices, HasNoNul, IsToldOfText};
ghost use Rattle.macho_stub.specs.steps.Answer.{answer_of};

mod document;
mod library;
mod reader;
mod state;

pub use library::DefinedStubLibrary;
pub use macho_stub_lines::fault::{StubFault, StubRule};
use std::alloc::Global;

/// The library that the documents of the text make.
#[tactic(auto, unfolding(crate::specs::steps::Answer::answer_of))]
fn answer<'data>(alloc: Global, input: &'data str) -> Result<DefinedStubLibrary<'data>, StubFault>
    ensures { Gives library_fields result (answer_of input.now) }
{
    match reader::documents_of(alloc, input) {
        Err(fault) => Err(fault),
        Ok(documents) => library::library_of(alloc, documents.as_slice()),
    }
}

/// Reads the stub text of a library.
///
/// Each text of the answer is a slice of the input. A refusal tells the first rule that is broken, and
/// its line: of the rules on the text in the order of the text, and then of those on what it says.
pub fn parse_defined_library<'data>(
    alloc: Global,
    input: &'data str,
) -> Result<DefinedStubLibrary<'data>, StubFault>
    // What is read is in the grammar and keeps the rules, and the four fields are what it says.
    ensures found { IfOk result (λ library. IsStub input.now (library_fields library)) }
    // What it says are slices of the input, each at the place where `Places` has it.
    ensures slices { SaysSlices input.now }
    // No text of the answer holds a NUL.
    ensures plain { IfOk result (λ library. HasNoNul (library_fields library)) }
    // What is in the grammar and keeps the rules is read, unless memory runs out.
    ensures only { (says : LibraryFields) → IsStub input.now says → Gives library_fields result (Ok says) }
    // A rule that is told is broken at its line, and is the first: in the text, and then in what it says.
    ensures fault { IfErr result (IsToldOfText input.now) }
    // A rule that is told of the text is told by the call, unless memory runs out: no other is, at no other line.
    ensures told { (line : ℕ) (rule : StubRule) → IsToldOfText input.now (StubFault.Rule line rule)
        → Gives library_fields result (broken line rule) }
{
    answer(alloc, input)
}
