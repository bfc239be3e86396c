//! What a stub's text says where no image shows it, and texts that a run doesn't take for stubs. The rest is shown by whole runs, as
//! cases.

use StubRule::{S1, S2};
use macho_stub::{DefinedStubLibrary, StubFault, StubRule, parse_defined_library};
use std::alloc::Global;
use std::test::Fail;

/// A library whose documents are those of three.
const MAIN: &str = "--- !tapi-tbd
tbd-version:     4
targets:         [ x86_64-macos, arm64e-macos ]
install-name:    '/usr/lib/libMain.dylib'
current-version: 1.2.3
reexported-libraries:
  - targets:         [ x86_64-macos, arm64e-macos ]
    libraries:       [ '/usr/lib/libA.dylib', '/usr/lib/libB.dylib' ]
exports:
  - targets:         [ arm64e-macos ]
    symbols:         [ _main_arm64 ]
    weak-symbols:    [ _main_weak_arm64 ]
  - targets:         [ x86_64-macos ]
    symbols:         [ _main_x86_64 ]
--- !tapi-tbd
tbd-version:     4
targets:         [ x86_64-macos, arm64e-macos ]
install-name:    '/usr/lib/libA.dylib'
current-version: 10
parent-umbrella:
  - targets:         [ x86_64-macos, arm64e-macos ]
    umbrella:        Main
exports:
  - targets:         [ arm64e-macos ]
    symbols:         [ _a_arm64 ]
    weak-symbols:    [ _a_weak_arm64 ]
--- !tapi-tbd
tbd-version:     4
targets:         [ x86_64-macos, arm64e-macos ]
install-name:    '/usr/lib/libB.dylib'
current-version: 11
exports:
  - targets:         [ arm64e-macos ]
    symbols:         [ _b_arm64 ]
reexports:
  - targets:         [ arm64e-macos ]
    symbols:         [ _b_exported_arm64 ]
    weak-symbols:    [ _b_weak_exported_arm64 ]
";

/// Whether the names, each with a space behind it, are this text.
fn are_joined(names: &[&str], text: &str) -> bool {
    let mut rest = text;
    for index in 0..names.len() {
        let Some(behind) = rest.strip_prefix(names[index]) else {
            return false;
        };
        let Some(behind) = behind.strip_prefix(" ") else {
            return false;
        };
        rest = behind;
    }
    rest.is_empty()
}

/// Whether a library has the name and the version of the first document and the symbols of all, in order.
fn is_main(library: &DefinedStubLibrary<'_>) -> bool {
    library.install_name == "/usr/lib/libMain.dylib"
        && library.current_version == "1.2.3"
        && library.total_symbols() == 7
        && are_joined(
            library.symbols.as_slice(),
            "_main_arm64 _a_arm64 _b_arm64 _b_exported_arm64 ",
        )
        && are_joined(
            library.weak_symbols.as_slice(),
            "_main_weak_arm64 _a_weak_arm64 _b_weak_exported_arm64 ",
        )
}

/// Whether a text is that library, or is refused at a line by a rule.
fn is_stub(alloc: Global, text: &str, wanted: Option<(u64, StubRule)>) -> bool {
    match parse_defined_library(alloc, text) {
        Ok(library) => wanted.is_none() && is_main(&library),
        Err(StubFault::Rule { line, rule }) => match wanted {
            Some((wanted_line, wanted_rule)) => line == wanted_line && rule == wanted_rule,
            None => false,
        },
        Err(StubFault::OutOfMemory) => false,
    }
}

/// Texts, and how they are refused.
static STUBS: [(&str, Option<(u64, StubRule)>); 5] = [
    (MAIN, None),
    ("a: b\n", Some((1, S1))),
    ("\n--- !tapi-tbd x\n", Some((2, S1))),
    ("", Some((1, S2))),
    ("\n--- !tapi-tbd\ntbd-version: 4\n", Some((2, S2))),
];

fn stubs() -> &'static [(&'static str, Option<(u64, StubRule)>)] {
    &STUBS
}

#[test]
fn texts_with_what_they_are(rt: HostRuntime) -> Result<(), Fail> {
    let stubs = stubs();
    for number in 0..stubs.len() {
        let (text, wanted) = stubs[number];
        assert!(rt; is_stub(rt.alloc(), text, wanted), "{text}");
    }
    Ok(())
}
