//! Cases of whole runs, read from files: each says which files and words a run has and what it must answer, print and leave.
//!
//! The arguments name files of cases, whose form the module `reader` of `macho_case_files` shows. Of each file one line tells how many
//! cases it has; a case that is not as wanted is told with what was wanted and what came. The program ends with 0 where all is as
//! wanted, with 1 where a case isn't, and with 2 where a file can't be read or has a line that isn't of the form.
//!
//! Behind the word `-again` the arguments are those of the linker, which then links as the module `linked_again` shows.
//!
//! The program ends with 5 where memory ran out.
#![tactic(auto)]

mod again;
mod answers;
mod linked_again;
mod loads;
mod runs;

use crate::linked_again::link_words;
use crate::runs::check_case;
use macho_case_files::{Line, Unread, case_at, lines_of, written_out};
use std::io::ErrorKind;
use std::process::ExitCode;
use std::{env, fs, io};

/// The status where a case is not as wanted.
const DIFFERENT: u8 = 1;

/// The status where a file can't be read.
const UNREADABLE: u8 = 2;

/// The status where memory ran out.
const OUT_OF_MEMORY: u8 = 5;

/// The word before the linker's own.
const AGAIN: &str = "-again";

// Prints why a case or a file can't be read; the status.
fn tell_unread(rt: &HostRuntime, path: &str, name: &str, unread: Unread) -> io::Result<u8> {
    let what = unread.what;
    println!(rt; "{path}: {name}: {what}")?;
    Ok(UNREADABLE)
}

// Prints how a case differs from what is wanted; the status.
fn tell(rt: &HostRuntime, path: &str, name: &str, found: &str) -> io::Result<u8> {
    if found.is_empty() {
        return Ok(0);
    }
    println!(rt; "{path}: {name}\n{found}")?;
    Ok(DIFFERENT)
}

// Checks a case; the status.
fn check(rt: &HostRuntime, path: &str, name: &str, case: &[Line<'_>]) -> io::Result<u8> {
    let mut found = String::new(rt.alloc());
    match check_case(rt.alloc(), &mut found, case) {
        Ok(()) => tell(rt, path, name, found.as_str()),
        Err(unread) => tell_unread(rt, path, name, unread),
    }
}

/// How many cases there are, how many are not as wanted, and the highest status.
#[derive(Clone, Copy)]
struct Count {
    cases: u64,
    wrong: u64,
    status: u8,
}

// Checks the cases of a file.
fn check_cases(rt: &HostRuntime, path: &str, lines: &[Line<'_>]) -> io::Result<Count> {
    let mut count = Count {
        cases: 0,
        wrong: 0,
        status: 0,
    };
    for (place, line) in lines.iter().enumerate() {
        if line.key == "case" {
            let status = check(rt, path, line.rest, case_at(lines, place))?;
            count.cases = count.cases.saturating_add(1);
            count.wrong = count.wrong.saturating_add(u64::from(status > 0));
            count.status = count.status.max(status);
        }
    }
    Ok(count)
}

// Checks the cases of a file, and tells how many there are and how many differ; the status.
fn check_all(rt: &HostRuntime, path: &str, lines: &[Line<'_>]) -> io::Result<u8> {
    let count = check_cases(rt, path, lines)?;
    let cases = count.cases;
    let wrong = count.wrong;
    if wrong == 0 {
        println!(rt; "{path}: {cases} cases")?;
    } else {
        println!(rt; "{path}: {cases} cases, {wrong} not as wanted")?;
    }
    Ok(count.status)
}

// Checks the cases of a text with tables written out; the status.
fn check_text(rt: &HostRuntime, path: &str, text: &str) -> io::Result<u8> {
    match lines_of(rt.alloc(), text) {
        Ok(lines) => check_all(rt, path, &lines),
        Err(unread) => tell_unread(rt, path, "its lines", unread),
    }
}

// Reads and checks a file; the status.
fn check_file(rt: &HostRuntime, path: &str) -> io::Result<u8> {
    let text = fs::read_to_string(rt, path)?;
    match written_out(rt.alloc(), text.as_str()) {
        Ok(text) => check_text(rt, path, text.as_str()),
        Err(unread) => tell_unread(rt, path, "its tables", unread),
    }
}

// Checks all files; the highest status.
fn check_files(rt: &HostRuntime, paths: &[String]) -> io::Result<u8> {
    let mut status = 0u8;
    for path in paths {
        status = status.max(check_file(rt, path.as_str())?);
    }
    if status == 0 {
        println!(rt; "all as wanted")?;
    }
    Ok(status)
}

// The words behind the program's name.
fn words_of(rt: &HostRuntime) -> io::Result<Vec<String>> {
    let mut words = Vec::new(rt.alloc());
    for (number, word) in env::args(rt)?.enumerate() {
        if number > 0 {
            words.push(word)?;
        }
    }
    Ok(words)
}

// Links, where the words ask for that, or checks the files that they name; the status.
fn run_words(rt: &HostRuntime, words: &[String]) -> io::Result<u8> {
    match words.split_first() {
        Some((first, rest)) if first.as_str() == AGAIN => Ok(link_words(rt, rest)),
        _ => check_files(rt, words),
    }
}

// Runs the program; the status.
fn run(rt: &HostRuntime) -> io::Result<u8> {
    let words = words_of(rt)?;
    run_words(rt, &words)
}

fn main(rt: HostRuntime) -> ExitCode {
    match run(&rt) {
        Ok(status) => ExitCode::from(status),
        Err(error) if error.kind() == ErrorKind::OutOfMemory => ExitCode::from(OUT_OF_MEMORY),
        Err(_error) => {
            let _ = eprintln!(rt; "a file can't be read");
            ExitCode::from(UNREADABLE)
        }
    }
}
