//! One run of the tool: an image is read, changed, and written to another path, or to its own.

ghost use Rattle.std.specs.Prelude.{◌≡◌, ◌≢◌, ◌⊎◌, true, false, ℕ, List, [], ◌∷◌, map, Some, None, IfOk, IfSome};
ghost use Rattle.std.specs.Result.{result_err};
ghost use Rattle.std.specs.String.{string_bytes};
ghost use Rattle.macho_args.specs.Store.{Store};
ghost use Rattle.macho_devices.specs.Devices.{Printed};
ghost use Rattle.macho_tools.specs.Runs.{devices, IsEnded, IsToolRun, IsClear, NoneFailed};
ghost use Rattle.macho_retool.specs.declared.change.RetoolFault.TheVariants.{OutOfMemory};
ghost use Rattle.macho_retool.specs.Runs.{retooler, asked_by, image_word, AskFor};
ghost use Rattle.macho_retool.specs.steps.Asked.{IsNumbered, job_of, AsksFor};

use crate::change::{Change, RetoolFault};
use crate::retooling::retool;
use macho_args::number_up_to;
use macho_devices::{Files, Sink};
use macho_tools::{ended, read_word, write_answer};
use std::alloc::{AllocError, Global};

/// Why the status of a run is not 0.
pub type ToolFault = macho_tools::ToolFault<RetoolFault>;

/// What a run answers.
pub type ToolRan = macho_tools::ToolRan<RetoolFault>;

/// Which name is to be changed.
#[derive(Clone, Copy)]
pub(crate) enum Kind {
    /// The image's own.
    Id,
    /// That of a library, by its number.
    Library(u32),
    /// That of a run path, by its number.
    Rpath(u32),
}

/// What words ask for.
#[derive(Clone, Copy)]
pub(crate) struct Asked<'a> {
    /// Which name.
    pub(crate) kind: Kind,
    /// The new name.
    pub(crate) name: &'a str,
    /// The path of the image.
    pub(crate) image: &'a str,
    /// The path that the changed image is written to.
    pub(crate) output: &'a str,
}

/// Changes a name in the image that the words name, and writes the answer to the last path. Nothing is printed to `out`. Of a fault a line
/// is printed to `err`; where that fails, the answer stays the same.
pub fn run<F: Files, O: Sink, E: Sink>(
    alloc: Global,
    words: &[String],
    files: &mut F,
    out: &mut O,
    err: &mut E,
) -> ToolRan
    ensures promise { IsToolRun retooler (map string_bytes words.now) (devices (F.state files.old) (O.state out.old))
        (devices (F.state files.new) (O.state out.new)) (E.state err.old) (E.state err.new) result }

    // Where the file is there, nothing refuses the change, and no device fails, the changed image is written; or memory ran out.
    ensures complete { (m : Store) → (F.state files.old).files ≡ Some m → IsClear retooler (map string_bytes words.now) m
        → NoneFailed (devices (F.state files.old) (O.state out.old)) (devices (F.state files.new) (O.state out.new))
        → (result.status ≡ 0) ⊎ (result.status ≡ 5) }
{
    let answer = retool_words(alloc, words, files);
    ended(err, "macho_retool", answer)
}

// Makes the change that the words ask for.
fn retool_words<F: Files>(alloc: Global, words: &[String], files: &mut F) -> Result<(), ToolFault>
    ensures { (out : Printed) → IsEnded retooler (map string_bytes words.now) (devices (F.state files.old) out)
        (devices (F.state files.new) out) (result_err result) }
{
    match asked_of(words) {
        Some(asked) => retool_file(alloc, &asked, files),
        None => Err(ToolFault::Words),
    }
}

// The option of a library or of a run path, with its number.
fn numbered(option: &str, number: &str) -> Option<Kind>
    ensures found { IfSome result (IsNumbered option.now number.now) }
    ensures only { (kind : Kind) → IsNumbered option.now number.now kind → result ≡ Some kind }
{
    let Some(count) = number_up_to(u32::MAX, number) else {
        return None;
    };
    if count == 0 {
        None
    } else if option == "-library" {
        Some(Kind::Library(count))
    } else if option == "-rpath" {
        Some(Kind::Rpath(count))
    } else {
        None
    }
}

// What the words ask for; None where they are of no form.
fn asked_of(words: &[String]) -> Option<Asked<'_>>
    ensures { AsksFor (map string_bytes words.now) result }
{
    match words {
        [option, name, image, output] if option.as_str() == "-id" => Some(Asked {
            kind: Kind::Id,
            name,
            image,
            output,
        }),
        [option, number, name, image, output] => match numbered(option, number) {
            Some(kind) => Some(Asked {
                kind,
                name,
                image,
                output,
            }),
            None => None,
        },
        _ => None,
    }
}

// The change that is asked for.
fn change_of(alloc: Global, asked: &Asked<'_>) -> Result<Change, AllocError>
    ensures { IfOk result (λ change. asked_by change ≡ (job_of asked.now).asked) }
{
    let name = asked.name.as_bytes().to_vec(alloc)?;
    Ok(match asked.kind {
        Kind::Id => Change::Id { name },
        Kind::Library(number) => Change::Library { number, name },
        Kind::Rpath(number) => Change::Rpath { number, name },
    })
}

// The word that is the image's path.
fn image_word(asked: &Asked<'_>) -> u32
    ensures { result ≡ image_word (job_of asked.now).asked }
{
    match asked.kind {
        Kind::Id => 2,
        Kind::Library(_) | Kind::Rpath(_) => 3,
    }
}

// Whether memory ran out.
fn is_want_of_memory(fault: &RetoolFault) -> bool
    ensures yes { result ≡ true → fault.now ≡ OutOfMemory }
    ensures no { result ≡ false → fault.now ≢ OutOfMemory }
{
    match fault {
        RetoolFault::OutOfMemory => true,
        _ => false,
    }
}

// Reads the image, changes the name and writes the answer.
fn retool_file<F: Files>(alloc: Global, asked: &Asked<'_>, files: &mut F) -> Result<(), ToolFault>
    ensures { (words : List (List ℕ)) (out : Printed) → AskFor words (job_of asked.now).asked asked.now.image.now asked.now.output.now
        → IsEnded retooler words (devices (F.state files.old) out) (devices (F.state files.new) out) (result_err result) }
{
    let bytes = match read_word(alloc, files, image_word(asked), asked.image) {
        Ok(bytes) => bytes,
        Err(fault) => return Err(fault),
    };
    let Ok(change) = change_of(alloc, asked) else {
        return Err(ToolFault::OutOfMemory);
    };
    let image = match retool(alloc, &bytes, &change) {
        Ok(image) => image,
        Err(fault) if is_want_of_memory(&fault) => return Err(ToolFault::OutOfMemory),
        Err(fault) => return Err(ToolFault::Refused { fault }),
    };
    write_answer(files, asked.output, &image)
}
