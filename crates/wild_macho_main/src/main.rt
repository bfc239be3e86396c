//! The linker as a program: its words are those behind its name, its files those of the system.
//!
//! It ends with the status of the run: 0 where the image was written and all was printed, 1 where an input or the link is
//! refused, 2 where a word is, 3 where a read failed, 4 where a write or a print did, 5 where memory ran out. It ends with 6
//! where a word is not UTF-8, which a line on standard error tells by its number, or where there are 2^32 - 1 words or more.
#![tactic(auto)]

use macho_tools::{status_of_words, words_of};
use std::process::ExitCode;
use wild_macho::{RealFiles, RealSink, run};

fn main(rt: HostRuntime) -> ExitCode {
    let words = match words_of(&rt) {
        Ok(words) => words,
        Err(bad) => return ExitCode::from(status_of_words(&rt, "wild_macho", bad)),
    };
    let mut files = RealFiles::new(&rt, rt.alloc());
    let mut out = RealSink::new(rt.stdout());
    let mut err = RealSink::new(rt.stderr());
    let ran = run(rt.alloc(), &words, &mut files, &mut out, &mut err);
    let status = ran.status;
    // what the run tells, a text for each exported name, is freed by the end of the process
    std::mem::forget(ran);
    ExitCode::from(status)
}
