//! The inspector as a program: its word is the path of an image, its files those of the system.
//!
//! It prints what the image says, a line for each item, and ends with the status of the run. Behind the line of a fault another one says
//! the fault in words. It ends with 6 where a word is not UTF-8, which a line on standard error tells by its number, or where there are
//! 2^32 - 1 words or more.
#![tactic(auto)]

use macho_inspect::{InspectFault, RealFiles, RealSink, ToolFault, rule_text, run};
use macho_tools::{explain, status_of_words, words_of};
use std::process::ExitCode;

/// The program's name.
const NAME: &str = "macho_inspect";

// Says a fault in words, on standard error.
fn say<R: Eprint>(rt: &R, words: &[String], fault: &ToolFault) {
    match fault {
        ToolFault::Words => {
            let _ = eprintln!(rt; "{NAME}: the words are not one path: macho_inspect IMAGE");
        }
        ToolFault::Refused {
            fault: InspectFault::Rejected { fault },
        } => {
            let (place, rule) = (fault.place, rule_text(fault.rule));
            let _ = eprintln!(rt;
                "{NAME}: rejected: at offset {place} the file breaks rule {rule}"
            );
        }
        other => explain(rt, NAME, words, "", other),
    }
}

fn main(rt: HostRuntime) -> ExitCode {
    let words = match words_of(&rt) {
        Ok(words) => words,
        Err(bad) => return ExitCode::from(status_of_words(&rt, NAME, bad)),
    };
    let mut files = RealFiles::new(&rt, rt.alloc());
    let mut out = RealSink::new(rt.stdout());
    let mut err = RealSink::new(rt.stderr());
    let ran = run(rt.alloc(), &words, &mut files, &mut out, &mut err);
    if let Some(fault) = &ran.fault {
        say(&rt, &words, fault);
    }
    let status = ran.status;
    // what the run tells is freed by the end of the process
    std::mem::forget(ran);
    ExitCode::from(status)
}
