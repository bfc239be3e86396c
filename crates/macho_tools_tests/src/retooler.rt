//! The tool that changes names in an image's head, over devices in memory: what it writes, and how its run ends.
//!
//! Its image is the executable of `-generate 1` with a run path in the place of its identifier, signed by a linker's signature. Its
//! load commands end at 632, where its first section begins, so a path of more than 11 bytes has no room.

use crate::images::{Start, changed_image};
use macho_retool::{Files, MemoryFiles, MemorySink, RetoolFault, ToolFault, run};
use macho_signature::{Signer, sign_file};
use std::alloc::{AllocError, Global};
use std::test::Fail;

/// Where the signature begins.
const SIGNATURE: usize = 33072;

/// Where it ends.
const SIGNED: usize = 33484;

/// A run path at 504: `LC_RPATH`, 24 bytes, whose path begins at 12.
static OLD_PATH: [u8; 24] = *b"\x1c\0\0\x80\x18\0\0\0\x0c\0\0\0libs\0\0\0\0\0\0\0\0";

/// The same with another path.
static NEW_PATH: [u8; 24] = *b"\x1c\0\0\x80\x18\0\0\0\x0c\0\0\0@rpath/more\0";

/// What goes wrong in a run.
#[derive(Clone, Copy)]
enum Wrong {
    /// Nothing: the words, or the image, are refused.
    Nothing,
    /// The image can't be read.
    Read,
    /// The answer can't be written behind so many bytes.
    Write(u64),
    /// The image is cut to so many bytes.
    Cut(usize),
    /// The image isn't signed.
    Unsigned,
}

/// A run that ends with a fault: its words, what goes wrong, the name of the fault, the status that its line tells, and how many bytes
/// stand under the path of the output behind it (None where nothing does).
type Ended = (
    &'static [&'static str],
    Wrong,
    &'static str,
    u8,
    Option<usize>,
);

static ENDED: [Ended; 19] = [
    (&[], Wrong::Nothing, "words", 2, None),
    (&["-id", "x", "image"], Wrong::Nothing, "words", 2, None),
    (
        &["-name", "x", "image", "output"],
        Wrong::Nothing,
        "words",
        2,
        None,
    ),
    (
        &["-id", "1", "x", "image", "output"],
        Wrong::Nothing,
        "words",
        2,
        None,
    ),
    (
        &["-rpath", "0", "x", "image", "output"],
        Wrong::Nothing,
        "words",
        2,
        None,
    ),
    (
        &["-rpath", "+1", "x", "image", "output"],
        Wrong::Nothing,
        "words",
        2,
        None,
    ),
    (
        &["-rpath", "", "x", "image", "output"],
        Wrong::Nothing,
        "words",
        2,
        None,
    ),
    (
        &["-rpath", "4294967296", "x", "image", "output"],
        Wrong::Nothing,
        "words",
        2,
        None,
    ),
    (
        &["-rpath", "1", "x", "missing", "output"],
        Wrong::Nothing,
        "missing file 3",
        1,
        None,
    ),
    (
        &["-id", "x", "missing", "output"],
        Wrong::Nothing,
        "missing file 2",
        1,
        None,
    ),
    (
        &["-rpath", "1", "x", "image", "output"],
        Wrong::Cut(16),
        "rejected",
        1,
        None,
    ),
    (
        &["-rpath", "1", "x\0y", "image", "output"],
        Wrong::Nothing,
        "bad name",
        1,
        None,
    ),
    (
        &["-id", "x", "image", "output"],
        Wrong::Nothing,
        "not there",
        1,
        None,
    ),
    (
        &["-library", "1", "x", "image", "output"],
        Wrong::Nothing,
        "not there",
        1,
        None,
    ),
    (
        &["-rpath", "2", "x", "image", "output"],
        Wrong::Nothing,
        "not there",
        1,
        None,
    ),
    (
        &["-rpath", "1", "x", "image", "output"],
        Wrong::Unsigned,
        "unsigned",
        1,
        None,
    ),
    (
        &["-rpath", "1", "abcdefghijkl", "image", "output"],
        Wrong::Nothing,
        "no room",
        1,
        None,
    ),
    (
        &["-rpath", "1", "x", "image", "output"],
        Wrong::Read,
        "read 3",
        3,
        None,
    ),
    (
        &["-rpath", "1", "x", "image", "output"],
        Wrong::Write(100),
        "write",
        4,
        Some(100),
    ),
];

fn all_ended() -> &'static [Ended] {
    &ENDED
}

// The name of what refuses an image.
fn name_of_refusal(fault: &RetoolFault) -> &'static str {
    match fault {
        RetoolFault::Rejected { .. } => "rejected",
        RetoolFault::BadName => "bad name",
        RetoolFault::NotThere => "not there",
        RetoolFault::Unsigned => "unsigned",
        RetoolFault::NoRoom {
            needed: 640,
            room: 632,
        } => "no room",
        _ => "another",
    }
}

// The name of a fault.
fn name_of(fault: &Option<ToolFault>) -> &'static str {
    match fault {
        None => "none",
        Some(ToolFault::MissingFile { word: 2 }) => "missing file 2",
        Some(ToolFault::MissingFile { word: 3 }) => "missing file 3",
        Some(ToolFault::Read { word: 3 }) => "read 3",
        Some(ToolFault::Refused { fault }) => name_of_refusal(fault),
        Some(ToolFault::Words) => "words",
        Some(ToolFault::Write) => "write",
        Some(_) => "another",
    }
}

fn words_of(alloc: Global, texts: &[&str]) -> Result<Vec<String>, AllocError> {
    let mut words = Vec::new(alloc);
    for text in texts {
        words.push(String::from_str(alloc, text)?)?;
    }
    Ok(words)
}

// The image with a run path, which is not signed.
fn unsigned_image(alloc: Global, path: &[u8; 24]) -> Result<Vec<u8>, AllocError> {
    let mut image = changed_image(alloc, Start::Generated, &[])?;
    if image.len() >= 528 {
        image[504..528].copy_from_slice(path);
    }
    Ok(image)
}

// The image with a run path.
fn signed_image(alloc: Global, path: &[u8; 24]) -> Result<Vec<u8>, AllocError> {
    let mut image = unsigned_image(alloc, path)?;
    let signer = Signer {
        identifier: b"out",
        text_offset: 0,
        text_size: 0x4000,
        executable: true,
    };
    if image.len() >= SIGNED {
        sign_file(&mut image, SIGNATURE, &signer);
    }
    Ok(image)
}

// The files of a run: the image.
fn files_of(alloc: Global, wrong: Wrong) -> Result<MemoryFiles, AllocError> {
    let mut image = match wrong {
        Wrong::Unsigned => unsigned_image(alloc, &OLD_PATH)?,
        _ => signed_image(alloc, &OLD_PATH)?,
    };
    if let Wrong::Cut(length) = wrong {
        image.truncate(length);
    }
    let mut files = MemoryFiles::new(alloc);
    files.add_file("image", image)?;
    match wrong {
        Wrong::Read => files.fail_read(0)?,
        Wrong::Write(left) => files.fail_write(0, left)?,
        Wrong::Nothing | Wrong::Cut(_) | Wrong::Unsigned => {}
    }
    Ok(files)
}

// Whether so many bytes stand under the path of the output.
fn holds(alloc: Global, files: &mut MemoryFiles, left: Option<usize>) -> bool {
    match (files.read(alloc, "output"), left) {
        (Ok(None), None) => true,
        (Ok(Some(bytes)), Some(left)) => bytes.len() == left,
        _ => false,
    }
}

// The line of a status.
fn line_of(status: u8) -> &'static str {
    match status {
        1 => "macho_retool: status 1\n",
        2 => "macho_retool: status 2\n",
        3 => "macho_retool: status 3\n",
        _ => "macho_retool: status 4\n",
    }
}

// Whether a run ends with this fault, tells it, and leaves this.
fn ends(alloc: Global, row: &Ended) -> Result<bool, AllocError> {
    let (texts, wrong, fault, status, left) = *row;
    let mut files = files_of(alloc, wrong)?;
    let mut out = MemorySink::new(alloc, 64)?;
    let mut err = MemorySink::new(alloc, 64)?;
    let words = words_of(alloc, texts)?;
    let ran = run(alloc, &words, &mut files, &mut out, &mut err);
    let told = out.bytes().is_empty() && err.bytes() == line_of(status).as_bytes();
    Ok(
        told && ran.status == status
            && name_of(&ran.fault) == fault
            && holds(alloc, &mut files, left),
    )
}

// Whether the image with the new path, signed anew, is written to this path, which may be its own.
fn writes(alloc: Global, path: &str) -> Result<bool, AllocError> {
    let mut files = files_of(alloc, Wrong::Nothing)?;
    let mut out = MemorySink::new(alloc, 64)?;
    let mut err = MemorySink::new(alloc, 64)?;
    let words = words_of(alloc, &["-rpath", "1", "@rpath/more", "image", path])?;
    let ran = run(alloc, &words, &mut files, &mut out, &mut err);
    let wanted = signed_image(alloc, &NEW_PATH)?;
    let silent = ran.status == 0 && out.bytes().is_empty() && err.bytes().is_empty();
    match files.read(alloc, path) {
        Ok(Some(bytes)) => Ok(silent && bytes.as_slice() == wanted.as_slice()),
        _ => Ok(false),
    }
}

// The number of the first run that ends otherwise.
fn first_other_end(alloc: Global) -> Result<usize, AllocError> {
    let rows = all_ended();
    for number in 0..rows.len() {
        if !ends(alloc, &rows[number])? {
            return Ok(number);
        }
    }
    Ok(rows.len())
}

#[test]
fn another_path_is_written(rt: HostRuntime) -> Result<(), Fail> {
    assert!(rt; writes(rt.alloc(), "output")?);
    assert!(rt; writes(rt.alloc(), "image")?);
    Ok(())
}

#[test]
fn refused_runs(rt: HostRuntime) -> Result<(), Fail> {
    assert_eq!(rt; first_other_end(rt.alloc())?, 19);
    Ok(())
}
