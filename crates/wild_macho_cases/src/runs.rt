//! The run of a case over files in memory.

use crate::again::check_linker;
use crate::answers::{kept_of, told_of};
use crate::loads::{check_loads, check_read};
use macho_case_files::{
    Came, GivenFile, Line, Unread, bytes_under, check_answer, check_held, check_image, check_line,
    check_same, files_of, number_of, rest_of, words_of_case,
};
use std::alloc::{AllocError, Global};
use wild_macho::{
    Files, LinkedImage, MemoryFiles, MemorySink, Ran, Sink, SteadyFiles, SteadySink, run,
};

/// A run takes no more of a case's words.
const MOST_WORDS: usize = 100;

/// Room for all that a case prints.
const ROOM: usize = 2000;

// Adds the files of a case.
fn add_files(
    alloc: Global,
    held: &mut MemoryFiles,
    files: &[GivenFile<'_>],
) -> Result<(), AllocError> {
    for file in files {
        held.add_file(file.path, Vec::from_slice(alloc, &file.bytes)?)?;
    }
    Ok(())
}

// Adds what a line says of paths.
fn add_path(held: &mut MemoryFiles, line: Line<'_>) -> Result<(), AllocError> {
    match line.key {
        "folder" => held.add_dir(line.rest),
        "leads" => {
            let (path, canonical) = line.rest.split_once(' ').unwrap_or((line.rest, ""));
            held.add_canonical(path, canonical)
        }
        _ => Ok(()),
    }
}

// Adds the folders and canonical paths of a case.
fn add_paths(held: &mut MemoryFiles, case: &[Line<'_>]) -> Result<(), AllocError> {
    for line in case {
        add_path(held, *line)?;
    }
    Ok(())
}

// Makes a read or the first write fail, where the case says so.
fn add_failures(held: &mut MemoryFiles, case: &[Line<'_>]) -> Result<(), Unread> {
    if let Some(number) = number_of(case, "fails_read")? {
        held.fail_read(number)?;
    }
    if let Some(left) = number_of(case, "fails_write")? {
        held.fail_write(0, left)?;
    }
    Ok(())
}

// Files in memory, which fail where the case says so.
fn held_files(
    alloc: Global,
    case: &[Line<'_>],
    files: &[GivenFile<'_>],
) -> Result<MemoryFiles, Unread> {
    let mut held = MemoryFiles::new(alloc);
    add_files(alloc, &mut held, files)?;
    add_paths(&mut held, case)?;
    add_failures(&mut held, case)?;
    Ok(held)
}

// Files in memory that never fail.
fn steady_files(alloc: Global, files: &[GivenFile<'_>]) -> Result<SteadyFiles, AllocError> {
    let mut held = SteadyFiles::new(alloc);
    for file in files {
        held.add_file(file.path, Vec::from_slice(alloc, &file.bytes)?)?;
    }
    Ok(held)
}

// A sink, whose write of the number that a line tells fails.
fn sink_of(alloc: Global, case: &[Line<'_>], key: &str) -> Result<MemorySink, Unread> {
    let failing = number_of(case, key)?;
    let mut sink = MemorySink::new(alloc, ROOM)?;
    if let Some(number) = failing {
        sink.fail_write(number)?;
    }
    Ok(sink)
}

// The one call of the linker.
fn ran<F: Files, E: Sink>(
    alloc: Global,
    mut words: Vec<String>,
    files: &mut F,
    out: &mut MemorySink,
    err: &mut E,
) -> Ran {
    words.truncate(MOST_WORDS);
    run(alloc, &words, files, out, err)
}

// What a path holds.
fn read<F: Files>(alloc: Global, files: &mut F, path: &str) -> Result<Option<Vec<u8>>, AllocError> {
    match files.read(alloc, path) {
        Ok(bytes) => Ok(bytes),
        Err(_fault) => Err(AllocError),
    }
}

// Notes where a path does not hold what a line wants.
fn check_path<F: Files>(
    alloc: Global,
    found: &mut String,
    text: &str,
    files: &mut F,
    image: &[u8],
) -> Result<(), Unread> {
    let (path, _) = text.split_once(' ').unwrap_or((text, ""));
    match read(alloc, files, path)? {
        Some(bytes) => check_held(alloc, found, text, image, Some(&bytes)),
        None => check_held(alloc, found, text, image, None),
    }
}

// Notes each path that does not hold what is wanted.
fn check_paths<F: Files>(
    alloc: Global,
    found: &mut String,
    case: &[Line<'_>],
    files: &mut F,
    image: &[u8],
) -> Result<(), Unread> {
    for line in case {
        if line.key == "holds" {
            check_path(alloc, found, line.rest, files, image)?;
        }
    }
    Ok(())
}

// Notes how an image differs from what is wanted.
fn check_linked(
    alloc: Global,
    found: &mut String,
    case: &[Line<'_>],
    image: &LinkedImage,
) -> Result<(), Unread> {
    check_loads(alloc, found, case, &image.bytes)?;
    let told = told_of(alloc, image)?;
    check_image(alloc, found, case, &image.bytes, &told)
}

// Notes how an image, if there is one, and the files behind the run differ from what is wanted.
fn check_left<F: Files>(
    alloc: Global,
    found: &mut String,
    case: &[Line<'_>],
    ran: &Ran,
    files: &mut F,
) -> Result<(), Unread> {
    match &ran.image {
        Some(image) => {
            check_linked(alloc, found, case, image)?;
            check_paths(alloc, found, case, files, &image.bytes)
        }
        None => check_paths(alloc, found, case, files, b""),
    }
}

// Notes how what was answered and printed differs from what is wanted.
fn check_told(
    alloc: Global,
    found: &mut String,
    case: &[Line<'_>],
    ran: &Ran,
    printed: &[u8],
) -> Result<(), Unread> {
    let kept = kept_of(alloc, ran.fault.as_ref())?;
    let came = Came {
        status: ran.status,
        printed,
        kept: kept.as_str(),
        has_image: ran.image.is_some(),
    };
    check_answer(alloc, found, case, &came)
}

// Notes how a run differs from what is wanted.
fn check_ran<F: Files>(
    alloc: Global,
    found: &mut String,
    case: &[Line<'_>],
    ran: &Ran,
    printed: &[u8],
    files: &mut F,
) -> Result<(), Unread> {
    check_told(alloc, found, case, ran, printed)?;
    check_left(alloc, found, case, ran, files)
}

// Runs a case. An answer, files and sinks are each held by a function that has no more than one way out with them, since each way
// takes apart all that is held.
fn run_words<F: Files, E: Sink>(
    alloc: Global,
    found: &mut String,
    case: &[Line<'_>],
    files: &mut F,
    out: &mut MemorySink,
    err: &mut E,
) -> Result<(), Unread> {
    let words = words_of_case(alloc, case)?;
    let ran = ran(alloc, words, files, out, err);
    check_ran(alloc, found, case, &ran, out.bytes(), files)
}

// Runs a case over files and a standard error.
fn run_over<F: Files, E: Sink>(
    alloc: Global,
    found: &mut String,
    case: &[Line<'_>],
    files: &mut F,
    err: &mut E,
) -> Result<(), Unread> {
    let mut out = sink_of(alloc, case, "fails_print")?;
    run_words(alloc, found, case, files, &mut out, err)
}

// Runs a case over files, and notes what of its standard error isn't as wanted.
fn run_with_line(
    alloc: Global,
    found: &mut String,
    case: &[Line<'_>],
    files: &mut MemoryFiles,
) -> Result<(), Unread> {
    let mut err = sink_of(alloc, case, "fails_line")?;
    run_over(alloc, found, case, files, &mut err)?;
    Ok(check_line(alloc, found, case, err.bytes())?)
}

// Notes how a run over files that may fail differs from what is wanted.
fn check_run(
    alloc: Global,
    found: &mut String,
    case: &[Line<'_>],
    files: &[GivenFile<'_>],
) -> Result<(), Unread> {
    let mut held = held_files(alloc, case, files)?;
    run_with_line(alloc, found, case, &mut held)
}

// The same over files and a standard error that never fail.
fn check_steady_run(
    alloc: Global,
    found: &mut String,
    case: &[Line<'_>],
    files: &[GivenFile<'_>],
) -> Result<(), Unread> {
    let mut held = steady_files(alloc, files)?;
    run_over(alloc, found, case, &mut held, &mut SteadySink::new())
}

// Notes how a case with its files differs from what is wanted.
fn check_with(
    alloc: Global,
    found: &mut String,
    case: &[Line<'_>],
    files: &[GivenFile<'_>],
) -> Result<(), Unread> {
    check_same(alloc, found, case, files)?;
    if let Some(path) = rest_of(case, "loader_reads") {
        return check_read(alloc, found, case, bytes_under(files, path));
    }
    if rest_of(case, "steady").is_some() {
        check_steady_run(alloc, found, case, files)?;
    } else {
        check_run(alloc, found, case, files)?;
    }
    match rest_of(case, "linker_refuses") {
        Some(refused) => check_linker(alloc, found, case, files, refused),
        None => Ok(()),
    }
}

/// Notes how a case differs from what is wanted, a line for each difference.
pub(crate) fn check_case(
    alloc: Global,
    found: &mut String,
    case: &[Line<'_>],
) -> Result<(), Unread> {
    let files = files_of(alloc, case)?;
    check_with(alloc, found, case, &files)
}
