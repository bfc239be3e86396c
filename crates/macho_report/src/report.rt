//! The line of a fault.
//!
//! It is printed in pieces, without memory: that of a word that is unknown is `wild_macho: bad word 0: Unknown`.

ghost use Rattle.std.specs.Prelude.{◌≡◌, ◌==◌, [], ◌∷◌, map, codes, decimal, find};
ghost use Rattle.std.specs.Option.{option_copied};
ghost use Rattle.std.specs.String.{string_bytes};
ghost use Rattle.macho_args.specs.Settings.{input_of};
ghost use Rattle.macho_devices.specs.Faults.{CountsOn};
ghost use Rattle.macho_job.specs.Names.{names_of};
ghost use Rattle.macho_report.specs.Lines.{line_of, fault_text, broken_word, word_name};
ghost use Rattle.macho_printing.specs.Printing.{IsPrinted, IsLineTold};

use crate::refusals::print_error;
use crate::shapes::{print_named, print_numbered, print_text};
use macho_args::{ArgsFault, InputSpec};
use macho_devices::{Sink, SinkFault};
use macho_job::{Fault, FileNames};

/// Prints the fault's line, with the inputs and lists that were asked for, and the paths of the files. Where the sink fails, nothing
/// more is printed.
pub fn print_fault<E: Sink>(
    err: &mut E,
    inputs: &[InputSpec],
    lists: &[(u32, String)],
    names: &FileNames,
    fault: &Fault,
)
    ensures told { IsLineTold (E.state err.old) (E.state err.new)
        (line_of (fault_text (map input_of inputs.now) (map (λ list. (list.0, string_bytes list.1)) lists.now)
        (names_of names.now) fault.now)) }
    ensures counted { CountsOn (E.state err.old).failed (E.state err.new).failed }
{
    let _ = print_line(err, inputs, lists, names, fault);
}

fn print_line<E: Sink>(
    err: &mut E,
    inputs: &[InputSpec],
    lists: &[(u32, String)],
    names: &FileNames,
    fault: &Fault,
) -> Result<(), SinkFault>
    ensures { IsPrinted (E.state err.old) (E.state err.new)
        (line_of (fault_text (map input_of inputs.now) (map (λ list. (list.0, string_bytes list.1)) lists.now)
        (names_of names.now) fault.now)) result }
{
    match fault {
        Fault::Words { fault } => print_bad_word(err, *fault),
        Fault::MissingFile { word } => {
            let name = word_name(inputs, lists, *word);
            print_named(err, b"cannot find ", name, b"")
        }
        Fault::Read { word } => {
            let name = word_name(inputs, lists, *word);
            print_named(err, b"cannot read ", name, b"")
        }
        Fault::UnknownKind { word, .. } => {
            let name = word_name(inputs, lists, *word);
            print_named(
                err,
                b"",
                name,
                b": not an arm64 object, dynamic library or stub",
            )
        }
        Fault::Input { error, .. } => print_error(err, names, error),
        Fault::Link { error } => print_error(err, names, error),
        Fault::Write => print_text(err, b"cannot write the output"),
        Fault::Print => print_text(err, b"cannot print"),
        Fault::OutOfMemory => print_text(err, b"out of memory"),
    }
}

// The name of an input's word.
fn name_of_input(spec: &InputSpec) -> &[u8]
    ensures { result.now ≡ (input_of spec.now).name }
{
    match spec {
        InputSpec::File { path, .. } => path.as_bytes(),
        InputSpec::Lib { name, .. } => name.as_bytes(),
        InputSpec::Framework { name, .. } => name.as_bytes(),
    }
}

fn input_of_word(inputs: &[InputSpec], word: u32) -> Option<&InputSpec>
    ensures { option_copied result ≡ find (λ spec. (input_of spec).word == word) inputs.now }
{
    inputs.iter().find(|spec| spec.word() == word)
}

fn list_of_word(lists: &[(u32, String)], word: u32) -> Option<&(u32, String)>
    ensures { option_copied result ≡ find (λ list. list.0 == word) lists.now }
{
    lists.iter().find(|list| list.0 == word)
}

// What is told of a word.
fn word_name<'a>(inputs: &'a [InputSpec], lists: &'a [(u32, String)], word: u32) -> &'a [u8]
    ensures { result.now ≡ word_name (map input_of inputs.now) (map (λ list. (list.0, string_bytes list.1)) lists.now) word }
{
    match input_of_word(inputs, word) {
        Some(spec) => name_of_input(spec),
        None => match list_of_word(lists, word) {
            Some(list) => list.1.as_bytes(),
            None => b"",
        },
    }
}

// The word of a word's fault, and the name of the fault.
fn kind_of_word(fault: ArgsFault) -> (u32, &'static [u8])
    ensures word { result.0 ≡ (broken_word fault).0 }
    ensures kind { result.1.now ≡ (broken_word fault).1 }
{
    match fault {
        ArgsFault::MissingValue { word } => (word, b"MissingValue"),
        ArgsFault::Unknown { word } => (word, b"Unknown"),
        ArgsFault::Unsupported { word } => (word, b"Unsupported"),
        ArgsFault::BadVersion { word } => (word, b"BadVersion"),
        ArgsFault::BadPlatform { word } => (word, b"BadPlatform"),
        ArgsFault::BadArch { word } => (word, b"BadArch"),
        ArgsFault::BadUuid { word } => (word, b"BadUuid"),
        ArgsFault::BadNumber { word } => (word, b"BadNumber"),
        ArgsFault::OutOfMemory => (0, b"OutOfMemory"),
    }
}

fn print_bad_word<E: Sink>(err: &mut E, fault: ArgsFault) -> Result<(), SinkFault>
    ensures { IsPrinted (E.state err.old) (E.state err.new)
        (line_of (codes "bad word " ∷ decimal (broken_word fault).0 ∷ codes ": " ∷ (broken_word fault).1 ∷ [])) result }
{
    let (word, kind) = kind_of_word(fault);
    print_numbered(err, b"bad word ", u64::from(word), b": ", kind)
}
