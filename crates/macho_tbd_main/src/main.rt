//! The stub generator as a program: its words are the path of a dynamic library and the path that its text stub is written to.
//!
//! It prints nothing, and ends with the status of the run. Behind the line of a fault another one says the fault in words. It ends with 6
//! where a word is not UTF-8, which a line on standard error tells by its number, or where there are 2^32 - 1 words or more.
#![tactic(auto)]

mod texts;

use crate::texts::rule_text;
use macho_tbd::{RealFiles, RealSink, TbdFault, ToolFault, run};
use macho_tools::{explain, status_of_words, words_of};
use std::process::ExitCode;

/// The program's name.
const NAME: &str = "macho_tbd";

/// Which names a stub can't have.
const UNWRITABLE: &str =
    "it is not UTF-8, or has a control character, or a single quote together with a double quote or a backslash";

// Says why a library has no stub, on standard error.
fn say_refusal<R: Eprint>(rt: &R, fault: &TbdFault) {
    match fault {
        TbdFault::BadDylib { fault } => {
            let (place, rule) = (fault.place, rule_text(fault.rule));
            let _ = eprintln!(rt;
                "{NAME}: not a dynamic library for arm64: at offset {place} it breaks rule {rule}"
            );
        }
        TbdFault::Unwritable { symbol: None } => {
            let _ = eprintln!(rt;
                "{NAME}: the install name can't be written into a stub: {UNWRITABLE}"
            );
        }
        TbdFault::Unwritable {
            symbol: Some(symbol),
        } => {
            let _ = eprintln!(rt;
                "{NAME}: the name of symbol {symbol} can't be written into a stub: {UNWRITABLE}"
            );
        }
        TbdFault::OutOfMemory => {}
    }
}

// Says a fault in words, on standard error.
fn say<R: Eprint>(rt: &R, words: &[String], fault: &ToolFault) {
    match fault {
        ToolFault::Words => {
            let _ = eprintln!(rt; "{NAME}: the words are not two paths: macho_tbd LIBRARY OUTPUT");
        }
        ToolFault::Refused { fault } => say_refusal(rt, fault),
        other => {
            let output = match words.get(1) {
                Some(output) => output.as_str(),
                None => "",
            };
            explain(rt, NAME, words, output, other);
        }
    }
}

fn main(rt: HostRuntime) -> ExitCode {
    let words = match words_of(&rt) {
        Ok(words) => words,
        Err(bad) => return ExitCode::from(status_of_words(&rt, NAME, bad)),
    };
    let mut files = RealFiles::of_texts(&rt, rt.alloc());
    let mut out = RealSink::new(rt.stdout());
    let mut err = RealSink::new(rt.stderr());
    let ran = run(rt.alloc(), &words, &mut files, &mut out, &mut err);
    if let Some(fault) = &ran.fault {
        say(&rt, &words, fault);
    }
    ExitCode::from(ran.status)
}
