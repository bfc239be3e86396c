//! The tool that changes names in an image's head, as a program. Its words are `-id NAME`, `-library K NAME` or `-rpath K NAME`, and behind
//! them the path of the image and the path that the changed image is written to.
//!
//! It prints nothing, and ends with the status of the run. Behind the line of a fault another one says the fault in words. It ends with 6
//! where a word is not UTF-8, which a line on standard error tells by its number, or where there are 2^32 - 1 words or more.
#![tactic(auto)]

use macho_retool::{RealFiles, RealSink, RetoolFault, ToolFault, rule_text, run};
use macho_tools::{explain, status_of_words, words_of};
use std::process::ExitCode;

/// The program's name.
const NAME: &str = "macho_retool";

// Says why a change is refused, on standard error.
fn say_refusal<R: Eprint>(rt: &R, fault: &RetoolFault) {
    match fault {
        RetoolFault::Rejected { fault } => {
            let (place, rule) = (fault.place, rule_text(fault.rule));
            let _ = eprintln!(rt;
                "{NAME}: rejected: at offset {place} the file breaks rule {rule}"
            );
        }
        RetoolFault::BadName => {
            let _ = eprintln!(rt; "{NAME}: bad name: a name can't hold a NUL");
        }
        RetoolFault::NotThere => {
            let _ = eprintln!(rt; "{NAME}: not there: the image has no such name in its head");
        }
        RetoolFault::Unsigned => {
            let _ = eprintln!(rt;
                "{NAME}: unsigned: the image has no signature as this linker writes it, at its end"
            );
        }
        RetoolFault::Tangled { place } => {
            let _ = eprintln!(rt;
                "{NAME}: tangled: the part of the file at offset {place} is in the way"
            );
        }
        RetoolFault::NoRoom { needed, room } => {
            let _ = eprintln!(rt; "{NAME}: no room: {needed} bytes are needed, {room} are there");
        }
        RetoolFault::PaddingUsed { place } => {
            let _ = eprintln!(rt;
                "{NAME}: padding used: the byte at offset {place}, behind the load commands, isn't 0"
            );
        }
        RetoolFault::OutOfMemory => {}
    }
}

// Says a fault in words, on standard error.
fn say<R: Eprint>(rt: &R, words: &[String], fault: &ToolFault) {
    match fault {
        ToolFault::Words => {
            let _ = eprintln!(rt;
                "{NAME}: the words are not -id NAME, -library K NAME or -rpath K NAME, and two paths: IMAGE OUTPUT"
            );
        }
        ToolFault::Refused { fault } => say_refusal(rt, fault),
        other => {
            let output = match words.last() {
                Some(output) => output.as_str(),
                None => "",
            };
            explain(rt, NAME, words, output, other);
        }
    }
}

fn main(rt: HostRuntime) -> ExitCode {
    let words = match words_of(&rt) {
        Ok(words) => words,
        Err(bad) => return ExitCode::from(status_of_words(&rt, NAME, bad)),
    };
    let mut files = RealFiles::new(&rt, rt.alloc());
    let mut out = RealSink::new(rt.stdout());
    let mut err = RealSink::new(rt.stderr());
    let ran = run(rt.alloc(), &words, &mut files, &mut out, &mut err);
    if let Some(fault) = &ran.fault {
        say(&rt, &words, fault);
    }
    ExitCode::from(ran.status)
}
