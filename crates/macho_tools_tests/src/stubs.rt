//! The stub generator over devices in memory: the text that it writes, and how its run ends.
//!
//! The texts are written out by the rules of stubs (`docs/FORMATS.md`), line by line.

use macho_samples::{Library, dylib_bytes};
use macho_tbd::{Files, MemoryFiles, MemorySink, ToolFault, run};
use std::alloc::{AllocError, Global};
use std::test::Fail;

/// A library, and the text of its stub.
struct Written {
    /// The library.
    library: Library<'static>,
    /// The text.
    text: &'static str,
}

/// What goes wrong in a run.
#[derive(Clone, Copy)]
enum Wrong {
    /// Nothing: the words, or the library, are refused.
    Nothing,
    /// The library can't be read.
    Read,
    /// The stub can't be written behind so many bytes.
    Write(u64),
    /// The library is cut to so many bytes.
    Cut(usize),
}

/// A run that ends with a fault.
struct Ended {
    /// The words.
    words: &'static [&'static str],
    /// The name that the library offers.
    name: &'static str,
    /// What goes wrong.
    wrong: Wrong,
    /// The name of the fault.
    fault: &'static str,
    /// The status, as its line tells it.
    line: &'static str,
    /// What stands under the path of the stub behind the run; None where nothing does.
    left: Option<&'static str>,
}

static WRITTEN: [Written; 5] = [
    // a name, and a weak one
    Written {
        library: Library {
            install_name: "/usr/lib/libq.dylib",
            names: &["_a"],
            weak: &["_b"],
        },
        text: "\
--- !tapi-tbd\n\
tbd-version: 4\n\
targets: [ arm64e-macos ]\n\
install-name: '/usr/lib/libq.dylib'\n\
current-version: 1\n\
exports:\n  - targets: [ arm64e-macos ]\n    symbols: [ '_a' ]\n    weak-symbols: [ '_b' ]\n\
...\n",
    },
    // nothing is offered
    Written {
        library: Library {
            install_name: "q",
            names: &[],
            weak: &[],
        },
        text: "\
--- !tapi-tbd\n\
tbd-version: 4\n\
targets: [ arm64e-macos ]\n\
install-name: 'q'\n\
current-version: 1\n\
...\n",
    },
    // a single quote asks for double ones
    Written {
        library: Library {
            install_name: "it's",
            names: &["_a'b", "_c\"d", "_e\\f"],
            weak: &[],
        },
        text: "\
--- !tapi-tbd\n\
tbd-version: 4\n\
targets: [ arm64e-macos ]\n\
install-name: \"it's\"\n\
current-version: 1\n\
exports:\n  - targets: [ arm64e-macos ]\n    symbols: [ \"_a'b\", '_c\"d', '_e\\f' ]\n\
...\n",
    },
    // a name that two symbols have stands once, as the first of them is
    Written {
        library: Library {
            install_name: "q",
            names: &["_a", "_a"],
            weak: &["_a", "_b", "_b"],
        },
        text: "\
--- !tapi-tbd\n\
tbd-version: 4\n\
targets: [ arm64e-macos ]\n\
install-name: 'q'\n\
current-version: 1\n\
exports:\n  - targets: [ arm64e-macos ]\n    symbols: [ '_a' ]\n    weak-symbols: [ '_b' ]\n\
...\n",
    },
    // weak names alone, one of them beyond ASCII
    Written {
        library: Library {
            install_name: "q",
            names: &[],
            weak: &["_é", "_ b"],
        },
        text: "\
--- !tapi-tbd\n\
tbd-version: 4\n\
targets: [ arm64e-macos ]\n\
install-name: 'q'\n\
current-version: 1\n\
exports:\n  - targets: [ arm64e-macos ]\n    weak-symbols: [ '_é', '_ b' ]\n\
...\n",
    },
];

static ENDED: [Ended; 9] = [
    Ended {
        words: &[],
        name: "_a",
        wrong: Wrong::Nothing,
        fault: "words",
        line: "macho_tbd: status 2\n",
        left: None,
    },
    Ended {
        words: &["library"],
        name: "_a",
        wrong: Wrong::Nothing,
        fault: "words",
        line: "macho_tbd: status 2\n",
        left: None,
    },
    Ended {
        words: &["library", "stub", "stub"],
        name: "_a",
        wrong: Wrong::Nothing,
        fault: "words",
        line: "macho_tbd: status 2\n",
        left: None,
    },
    Ended {
        words: &["missing", "stub"],
        name: "_a",
        wrong: Wrong::Nothing,
        fault: "missing file 0",
        line: "macho_tbd: status 1\n",
        left: None,
    },
    Ended {
        words: &["library", "stub"],
        name: "_a",
        wrong: Wrong::Cut(31),
        fault: "refused",
        line: "macho_tbd: status 1\n",
        left: None,
    },
    // neither kind of quotes holds the name
    Ended {
        words: &["library", "stub"],
        name: "_a'\"",
        wrong: Wrong::Nothing,
        fault: "refused",
        line: "macho_tbd: status 1\n",
        left: None,
    },
    Ended {
        words: &["library", "stub"],
        name: "_a",
        wrong: Wrong::Read,
        fault: "read 0",
        line: "macho_tbd: status 3\n",
        left: None,
    },
    Ended {
        words: &["library", "stub"],
        name: "_a",
        wrong: Wrong::Write(0),
        fault: "write",
        line: "macho_tbd: status 4\n",
        left: Some(""),
    },
    Ended {
        words: &["library", "stub"],
        name: "_a",
        wrong: Wrong::Write(13),
        fault: "write",
        line: "macho_tbd: status 4\n",
        left: Some("--- !tapi-tbd"),
    },
];

fn all_written() -> &'static [Written] {
    &WRITTEN
}

fn all_ended() -> &'static [Ended] {
    &ENDED
}

// The name of a fault.
fn name_of(fault: &Option<ToolFault>) -> &'static str {
    match fault {
        None => "none",
        Some(ToolFault::MissingFile { word: 0 }) => "missing file 0",
        Some(ToolFault::Read { word: 0 }) => "read 0",
        Some(ToolFault::Refused { .. }) => "refused",
        Some(ToolFault::Words) => "words",
        Some(ToolFault::Write) => "write",
        Some(_) => "another",
    }
}

fn words_of(alloc: Global, texts: &[&str]) -> Result<Vec<String>, AllocError> {
    let mut words = Vec::new(alloc);
    for text in texts {
        words.push(String::from_str(alloc, text)?)?;
    }
    Ok(words)
}

// The files of a run: the library.
fn files_of(alloc: Global, library: Vec<u8>, wrong: Wrong) -> Result<MemoryFiles, AllocError> {
    let mut library = library;
    if let Wrong::Cut(length) = wrong {
        library.truncate(length);
    }
    let mut files = MemoryFiles::new(alloc);
    files.add_file("library", library)?;
    match wrong {
        Wrong::Read => files.fail_read(0)?,
        Wrong::Write(left) => files.fail_write(0, left)?,
        Wrong::Nothing | Wrong::Cut(_) => {}
    }
    Ok(files)
}

// Whether this stands under the path of the stub.
fn holds(alloc: Global, files: &mut MemoryFiles, text: Option<&str>) -> bool {
    match (files.read(alloc, "stub"), text) {
        (Ok(None), None) => true,
        (Ok(Some(bytes)), Some(text)) => bytes.as_slice() == text.as_bytes(),
        _ => false,
    }
}

// Whether a run writes this text, and prints nothing.
fn writes(alloc: Global, row: &Written) -> Result<bool, AllocError> {
    let mut files = files_of(alloc, dylib_bytes(alloc, &row.library)?, Wrong::Nothing)?;
    let mut out = MemorySink::new(alloc, 64)?;
    let mut err = MemorySink::new(alloc, 64)?;
    let words = words_of(alloc, &["library", "stub"])?;
    let ran = run(alloc, &words, &mut files, &mut out, &mut err);
    let silent = out.bytes().is_empty() && err.bytes().is_empty();
    Ok(silent && ran.status == 0 && ran.fault.is_none() && holds(alloc, &mut files, Some(row.text)))
}

// Whether a run ends with this fault, tells it, and leaves this.
fn ends(alloc: Global, row: &Ended) -> Result<bool, AllocError> {
    let library = Library {
        install_name: "q",
        names: &[row.name],
        weak: &[],
    };
    let mut files = files_of(alloc, dylib_bytes(alloc, &library)?, row.wrong)?;
    let mut out = MemorySink::new(alloc, 64)?;
    let mut err = MemorySink::new(alloc, 64)?;
    let words = words_of(alloc, row.words)?;
    let ran = run(alloc, &words, &mut files, &mut out, &mut err);
    let told = out.bytes().is_empty() && err.bytes() == row.line.as_bytes();
    Ok(told && name_of(&ran.fault) == row.fault && holds(alloc, &mut files, row.left))
}

// The number of the first library whose text is another one.
fn first_other(alloc: Global) -> Result<usize, AllocError> {
    let rows = all_written();
    for number in 0..rows.len() {
        if !writes(alloc, &rows[number])? {
            return Ok(number);
        }
    }
    Ok(rows.len())
}

// The number of the first run that ends otherwise.
fn first_other_end(alloc: Global) -> Result<usize, AllocError> {
    let rows = all_ended();
    for number in 0..rows.len() {
        if !ends(alloc, &rows[number])? {
            return Ok(number);
        }
    }
    Ok(rows.len())
}

#[test]
fn texts_of_libraries(rt: HostRuntime) -> Result<(), Fail> {
    assert_eq!(rt; first_other(rt.alloc())?, 5);
    Ok(())
}

#[test]
fn refused_runs(rt: HostRuntime) -> Result<(), Fail> {
    assert_eq!(rt; first_other_end(rt.alloc())?, 9);
    Ok(())
}
