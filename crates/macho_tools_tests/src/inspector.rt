//! The inspector over devices in memory: what it prints of images, and how its run ends.
//!
//! The lines are read off the bytes by the records of `mach-o/loader.h`, `mach-o/fixup-chains.h` and `mach-o/nlist.h`.

use crate::images::{Change, Start, changed_image};
use Start::{Chained, Cut, Generated, Long, Smallest};
use macho_inspect::{InspectFault, LoadRule, MemoryFiles, MemorySink, ToolFault, run};
use std::alloc::{AllocError, Global};
use std::test::Fail;

/// The words of a run.
#[derive(Clone, Copy)]
enum Words {
    /// None.
    Nothing,
    /// The path of the image.
    Image,
    /// A path that no file has.
    Missing,
    /// The path of the image, twice.
    Two,
}

/// The fault of a run.
#[derive(Clone, Copy)]
enum Wanted {
    /// None.
    Done,
    /// The file of word 0 is missing.
    MissingFile,
    /// The image breaks the rule at a place.
    Rejected(LoadRule, u64),
    /// The words are not one path.
    Words,
    /// The file of word 0 was not read.
    Read,
    /// A print failed.
    Print,
}

// Whether the fault is this one.
fn is_wanted(fault: &Option<ToolFault>, wanted: Wanted) -> bool {
    match (fault, wanted) {
        (None, Wanted::Done) => true,
        (Some(ToolFault::MissingFile { word: 0 }), Wanted::MissingFile) => true,
        (Some(ToolFault::Read { word: 0 }), Wanted::Read) => true,
        (Some(ToolFault::Words), Wanted::Words) => true,
        (Some(ToolFault::Print), Wanted::Print) => true,
        (
            Some(
                ToolFault::Refused {
                    fault: InspectFault::Rejected { fault },
                },
            ),
            Wanted::Rejected(rule, place),
        ) => fault.rule == rule && fault.place == place,
        _ => false,
    }
}

// The words of a run as texts.
fn texts_of(words: Words) -> &'static [&'static str] {
    match words {
        Words::Nothing => &[],
        Words::Image => &["image"],
        Words::Missing => &["missing"],
        Words::Two => &["image", "image"],
    }
}

fn words_of(alloc: Global, words: Words) -> Result<Vec<String>, AllocError> {
    let mut all = Vec::new(alloc);
    for text in texts_of(words) {
        all.push(String::from_str(alloc, text)?)?;
    }
    Ok(all)
}

/// What is printed of an image, where nothing fails.
struct Printed {
    /// What the image begins with.
    start: Start,
    /// What is changed in it.
    changes: &'static [Change],
    /// The lines, each with its line feed.
    text: &'static str,
}

/// A run that ends with a fault.
struct Ended {
    /// The words.
    words: Words,
    /// The image.
    start: Start,
    /// Whether the read fails.
    read_fails: bool,
    /// The number of the print that fails.
    failing_print: u64,
    /// The fault.
    wanted: Wanted,
    /// The line of the fault.
    line: &'static str,
    /// The status.
    status: u8,
}

/// A number that no print has.
const NEVER: u64 = 9;

/// How many bytes may be printed.
const ROOM: usize = 16_384;

static PRINTED: [Printed; 10] = [
    // the image of `-generate 1`
    Printed {
        start: Generated,
        changes: &[],
        text: "\
segment __PAGEZERO 0x0000000000000000 0x0000000100000000 0\n\
segment __TEXT 0x0000000100000000 0x0000000000004000 5\n\
segment __DATA 0x0000000100004000 0x0000000000004000 3\n\
segment __LINKEDIT 0x0000000100008000 0x0000000000004000 1\n\
export 0 0x0000000000000278 _main\n\
export 0 0x0000000000004000 _p0\n\
fixup 0x0000000100004000 rebase 0x0000000100000278\n",
    },
    // its trie leads back to its first node, by the name `a`
    Printed {
        start: Generated,
        changes: &[(32968, &[0, 1, 0x61, 0, 0])],
        text: "\
segment __PAGEZERO 0x0000000000000000 0x0000000100000000 0\n\
segment __TEXT 0x0000000100000000 0x0000000000004000 5\n\
segment __DATA 0x0000000100004000 0x0000000000004000 3\n\
segment __LINKEDIT 0x0000000100008000 0x0000000000004000 1\n\
exports malformed 32968\n\
fixup 0x0000000100004000 rebase 0x0000000100000278\n",
    },
    // one page, without a trie; and as a library
    Printed {
        start: Smallest,
        changes: &[],
        text: "\
segment __PAGEZERO 0x0000000000000000 0x0000000100000000 0\n\
segment __TEXT 0x0000000100000000 0x0000000000004000 5\n",
    },
    Printed {
        start: Smallest,
        changes: &[(12, &[6])],
        text: "\
segment __PAGEZERO 0x0000000000000000 0x0000000100000000 0\n\
segment __TEXT 0x0000000100000000 0x0000000000004000 5\n",
    },
    // two pages with fixups; the import has no addend of its own (format 1)
    Printed {
        start: Chained,
        changes: &[],
        text: "\
segment __PAGEZERO 0x0000000000000000 0x0000000100000000 0\n\
segment __TEXT 0x0000000100000000 0x0000000000004000 5\n\
segment __DATA 0x0000000100004000 0x0000000000008000 3\n\
library 1 /usr/lib/libSystem.B.dylib\n\
import 1 _exit 0\n\
fixup 0x0000000100004010 rebase 0x0000000100000138\n\
fixup 0x0000000100004018 bind 0 5\n\
fixup 0x0000000100008008 rebase 0x7f00000100004000\n",
    },
    // the import has the addend -8 (format 2), and the word adds 5
    Printed {
        start: Chained,
        changes: &[
            (316, &[0x57, 0, 0, 0]),
            (332, &[0x50, 0, 0, 0]),
            (340, &[2, 0, 0, 0]),
            (
                396,
                &[0xf8, 0xff, 0xff, 0xff, 0, 0x5f, 0x65, 0x78, 0x69, 0x74, 0],
            ),
        ],
        text: "\
segment __PAGEZERO 0x0000000000000000 0x0000000100000000 0\n\
segment __TEXT 0x0000000100000000 0x0000000000004000 5\n\
segment __DATA 0x0000000100004000 0x0000000000008000 3\n\
library 1 /usr/lib/libSystem.B.dylib\n\
import 1 _exit -8\n\
fixup 0x0000000100004010 rebase 0x0000000100000138\n\
fixup 0x0000000100004018 bind 0 -3\n\
fixup 0x0000000100008008 rebase 0x7f00000100004000\n",
    },
    // a trie of `_a`, of `_ab`, which is weak, and of `_r`, which is `_q` of library 2
    Printed {
        start: Smallest,
        changes: &[
            (16, &[5, 0, 0, 0, 0x28, 1, 0, 0]),
            (
                312,
                &[
                    0x33, 0, 0, 0x80, 0x10, 0, 0, 0, 0, 0x10, 0, 0, 0x21, 0, 0, 0,
                ],
            ),
            (
                4096,
                &[
                    0, 1, 0x5f, 0, 5, 0, 2, 0x61, 0, 0x0d, 0x72, 0, 0x1a, 3, 0, 0xb8, 2, 1, 0x62,
                    0, 0x15, 3, 4, 0xc0, 2, 0, 5, 8, 2, 0x5f, 0x71, 0, 0,
                ],
            ),
        ],
        text: "\
segment __PAGEZERO 0x0000000000000000 0x0000000100000000 0\n\
segment __TEXT 0x0000000100000000 0x0000000000004000 5\n\
export 0 0x0000000000000138 _a\n\
export 4 0x0000000000000140 _ab\n\
export 8 0x0000000000000002 _r\n",
    },
    // a trie without bytes
    Printed {
        start: Smallest,
        changes: &[
            (16, &[5, 0, 0, 0, 0x28, 1, 0, 0]),
            (
                312,
                &[0x33, 0, 0, 0x80, 0x10, 0, 0, 0, 0, 0x10, 0, 0, 0, 0, 0, 0],
            ),
        ],
        text: "\
segment __PAGEZERO 0x0000000000000000 0x0000000100000000 0\n\
segment __TEXT 0x0000000100000000 0x0000000000004000 5\n",
    },
    // a trie that passes the file, and two of them
    Printed {
        start: Smallest,
        changes: &[
            (16, &[5, 0, 0, 0, 0x28, 1, 0, 0]),
            (
                312,
                &[
                    0x33, 0, 0, 0x80, 0x10, 0, 0, 0, 0xf0, 0x3f, 0, 0, 0x11, 0, 0, 0,
                ],
            ),
        ],
        text: "\
segment __PAGEZERO 0x0000000000000000 0x0000000100000000 0\n\
segment __TEXT 0x0000000100000000 0x0000000000004000 5\n\
exports malformed 312\n",
    },
    Printed {
        start: Smallest,
        changes: &[
            (16, &[6, 0, 0, 0, 0x38, 1, 0, 0]),
            (
                312,
                &[0x33, 0, 0, 0x80, 0x10, 0, 0, 0, 0, 0x10, 0, 0, 0, 0, 0, 0],
            ),
            (
                328,
                &[0x33, 0, 0, 0x80, 0x10, 0, 0, 0, 0, 0x10, 0, 0, 0, 0, 0, 0],
            ),
        ],
        text: "\
segment __PAGEZERO 0x0000000000000000 0x0000000100000000 0\n\
segment __TEXT 0x0000000100000000 0x0000000000004000 5\n\
exports malformed 328\n",
    },
];

static ENDED: [Ended; 6] = [
    Ended {
        words: Words::Missing,
        start: Smallest,
        read_fails: false,
        failing_print: NEVER,
        wanted: Wanted::MissingFile,
        line: "macho_inspect: status 1\n",
        status: 1,
    },
    Ended {
        words: Words::Image,
        start: Cut,
        read_fails: false,
        failing_print: NEVER,
        wanted: Wanted::Rejected(LoadRule::L1, 0),
        line: "macho_inspect: status 1\n",
        status: 1,
    },
    Ended {
        words: Words::Nothing,
        start: Smallest,
        read_fails: false,
        failing_print: NEVER,
        wanted: Wanted::Words,
        line: "macho_inspect: status 2\n",
        status: 2,
    },
    Ended {
        words: Words::Two,
        start: Smallest,
        read_fails: false,
        failing_print: NEVER,
        wanted: Wanted::Words,
        line: "macho_inspect: status 2\n",
        status: 2,
    },
    Ended {
        words: Words::Image,
        start: Smallest,
        read_fails: true,
        failing_print: NEVER,
        wanted: Wanted::Read,
        line: "macho_inspect: status 3\n",
        status: 3,
    },
    Ended {
        words: Words::Image,
        start: Generated,
        read_fails: false,
        failing_print: 0,
        wanted: Wanted::Print,
        line: "macho_inspect: status 4\n",
        status: 4,
    },
];

fn all_printed() -> &'static [Printed] {
    &PRINTED
}

fn all_ended() -> &'static [Ended] {
    &ENDED
}

// The files of a run: the image.
fn files_of(alloc: Global, image: Vec<u8>, read_fails: bool) -> Result<MemoryFiles, AllocError> {
    let mut files = MemoryFiles::new(alloc);
    files.add_file("image", image)?;
    if read_fails {
        files.fail_read(0)?;
    }
    Ok(files)
}

// A sink with room for all lines, one of whose prints fails.
fn sink_of(alloc: Global, failing_print: u64) -> Result<MemorySink, AllocError> {
    let mut sink = MemorySink::new(alloc, ROOM)?;
    sink.fail_write(failing_print)?;
    Ok(sink)
}

// Whether a run prints these lines, and no other.
fn prints(alloc: Global, row: &Printed) -> Result<bool, AllocError> {
    let image = changed_image(alloc, row.start, row.changes)?;
    let mut files = files_of(alloc, image, false)?;
    let mut out = sink_of(alloc, NEVER)?;
    let mut err = sink_of(alloc, 0)?;
    let words = words_of(alloc, Words::Image)?;
    let ran = run(alloc, &words, &mut files, &mut out, &mut err);
    Ok(ran.status == 0 && ran.fault.is_none() && out.bytes() == row.text.as_bytes())
}

// Whether a run ends with this fault, tells it, and prints nothing.
fn ends(alloc: Global, row: &Ended, err_fails: u64, line: &str) -> Result<bool, AllocError> {
    let image = changed_image(alloc, row.start, &[])?;
    let mut files = files_of(alloc, image, row.read_fails)?;
    let mut out = sink_of(alloc, row.failing_print)?;
    let mut err = sink_of(alloc, err_fails)?;
    let words = words_of(alloc, row.words)?;
    let ran = run(alloc, &words, &mut files, &mut out, &mut err);
    let told = out.bytes().is_empty() && err.bytes() == line.as_bytes();
    Ok(told && ran.status == row.status && is_wanted(&ran.fault, row.wanted))
}

// The number of the first image whose lines are others.
fn first_other(alloc: Global) -> Result<usize, AllocError> {
    let rows = all_printed();
    for number in 0..rows.len() {
        if !prints(alloc, &rows[number])? {
            return Ok(number);
        }
    }
    Ok(rows.len())
}

// The number of the first run that ends otherwise, where its fault is told or can't be.
fn first_other_end(alloc: Global) -> Result<usize, AllocError> {
    let rows = all_ended();
    for number in 0..rows.len() {
        let row = &rows[number];
        if !ends(alloc, row, NEVER, row.line)? || !ends(alloc, row, 0, "")? {
            return Ok(number);
        }
    }
    Ok(rows.len())
}

// The lines of the image with a long name.
fn long_text(alloc: Global) -> Result<Vec<u8>, AllocError> {
    let mut text = LONG_FRONT.as_bytes().to_vec(alloc)?;
    for _ in 0..10_000u16 {
        text.push(b'a')?;
    }
    text.push(b'\n')?;
    Ok(text)
}

/// What stands before the long name.
const LONG_FRONT: &str = "segment __PAGEZERO 0x0000000000000000 0x0000000100000000 0\n\
segment __TEXT 0x0000000100000000 0x0000000000004000 5\n\
export 0 0x0000000000000138 ";

// Whether the lines of the image with a long name stop before their end where this print fails, and else are whole.
fn stops(alloc: Global, failing_print: u64, whole: bool) -> Result<bool, AllocError> {
    let mut files = files_of(alloc, changed_image(alloc, Long, &[])?, false)?;
    let mut out = sink_of(alloc, failing_print)?;
    let mut err = sink_of(alloc, NEVER)?;
    let words = words_of(alloc, Words::Image)?;
    let ran = run(alloc, &words, &mut files, &mut out, &mut err);
    let text = long_text(alloc)?;
    let (printed, text) = (out.bytes(), text.as_slice());
    if whole {
        return Ok(is_wanted(&ran.fault, Wanted::Done) && printed == text);
    }
    let front = text.get(..printed.len()).unwrap_or(b"");
    Ok(is_wanted(&ran.fault, Wanted::Print) && printed == front && printed.len() < text.len())
}

#[test]
fn lines_of_images(rt: HostRuntime) -> Result<(), Fail> {
    assert_eq!(rt; first_other(rt.alloc())?, 10);
    Ok(())
}

#[test]
fn refused_runs(rt: HostRuntime) -> Result<(), Fail> {
    assert_eq!(rt; first_other_end(rt.alloc())?, 6);
    Ok(())
}

#[test]
fn failed_prints(rt: HostRuntime) -> Result<(), Fail> {
    for number in 0..3 {
        assert!(rt; stops(rt.alloc(), number, false)?);
    }
    assert!(rt; stops(rt.alloc(), NEVER, true)?);
    Ok(())
}
