//! One run of the stub generator: a dynamic library is read, and its text stub is written.

ghost use Rattle.std.specs.Prelude.{◌≡◌, ◌⊎◌, map, [], ◌∷◌, Some};
ghost use Rattle.std.specs.Result.{result_err};
ghost use Rattle.std.specs.String.{string_bytes};
ghost use Rattle.macho_args.specs.Store.{Store};
ghost use Rattle.macho_devices.specs.Devices.{Printed};
ghost use Rattle.macho_tools.specs.Runs.{devices, IsEnded, IsToolRun, IsClear, NoneFailed};
ghost use Rattle.macho_tbd.specs.Runs.{stub_generator};

use crate::fault::TbdFault;
use crate::stub_text;
use macho_devices::{Files, Sink};
use macho_tools::{ended, read_word, write_answer};
use std::alloc::Global;

/// Why the status of a run is not 0.
pub type ToolFault = macho_tools::ToolFault<TbdFault>;

/// What a run answers.
pub type ToolRan = macho_tools::ToolRan<TbdFault>;

/// Writes the text stub of the dynamic library that the first word names to the path in the second one. Nothing is printed to `out`. Of a
/// fault a line is printed to `err`; where that fails, the answer stays the same.
pub fn run<F: Files, O: Sink, E: Sink>(
    alloc: Global,
    words: &[String],
    files: &mut F,
    out: &mut O,
    err: &mut E,
) -> ToolRan
    ensures promise { IsToolRun stub_generator (map string_bytes words.now) (devices (F.state files.old) (O.state out.old))
        (devices (F.state files.new) (O.state out.new)) (E.state err.old) (E.state err.new) result }

    // Where the file is a library whose names can be written, and no device fails, its stub is written; or memory ran out.
    ensures complete { (m : Store) → (F.state files.old).files ≡ Some m → IsClear stub_generator (map string_bytes words.now) m
        → NoneFailed (devices (F.state files.old) (O.state out.old)) (devices (F.state files.new) (O.state out.new))
        → (result.status ≡ 0) ⊎ (result.status ≡ 5) }
{
    let answer = stub_words(alloc, words, files);
    ended(err, "macho_tbd", answer)
}

// Writes the stub that the words ask for.
fn stub_words<F: Files>(alloc: Global, words: &[String], files: &mut F) -> Result<(), ToolFault>
    ensures { (out : Printed) → IsEnded stub_generator (map string_bytes words.now) (devices (F.state files.old) out)
        (devices (F.state files.new) out) (result_err result) }
{
    match words {
        [path, output] => stub_file(alloc, path, output, files),
        _ => Err(ToolFault::Words),
    }
}

// Writes the stub of the file under a path to an output path.
fn stub_file<F: Files>(
    alloc: Global,
    path: &str,
    output: &str,
    files: &mut F,
) -> Result<(), ToolFault>
    ensures { (out : Printed) → IsEnded stub_generator (path.now ∷ output.now ∷ []) (devices (F.state files.old) out)
        (devices (F.state files.new) out) (result_err result) }
{
    let bytes = match read_word(alloc, files, 0, path) {
        Ok(bytes) => bytes,
        Err(fault) => return Err(fault),
    };
    let text = match stub_text(alloc, &bytes) {
        Ok(text) => text,
        Err(TbdFault::BadDylib { fault }) => {
            return Err(ToolFault::Refused {
                fault: TbdFault::BadDylib { fault },
            });
        }
        Err(TbdFault::Unwritable { symbol }) => {
            return Err(ToolFault::Refused {
                fault: TbdFault::Unwritable { symbol },
            });
        }
        Err(TbdFault::OutOfMemory) => return Err(ToolFault::OutOfMemory),
    };
    write_answer(files, output, text.as_bytes())
}
