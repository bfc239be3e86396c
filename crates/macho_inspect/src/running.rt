//! One run of the inspector: a file is read, and the lines of its report are printed.

ghost use Rattle.std.specs.Prelude.{◌≡◌, ◌⊎◌, map, [], ◌∷◌, Some};
ghost use Rattle.std.specs.Result.{result_err};
ghost use Rattle.std.specs.String.{string_bytes};
ghost use Rattle.macho_args.specs.Store.{Store};
ghost use Rattle.macho_tools.specs.Runs.{devices, IsEnded, IsToolRun, IsClear, NoneFailed};
ghost use Rattle.macho_inspect.specs.Runs.{inspector};

use crate::inspecting::inspect;
use crate::lines::print_report;
use crate::report::InspectFault;
use macho_devices::{Files, Sink};
use macho_tools::{ended, read_word};
use std::alloc::Global;

/// Why the status of a run is not 0.
pub type ToolFault = macho_tools::ToolFault<InspectFault>;

/// What a run answers.
pub type ToolRan = macho_tools::ToolRan<InspectFault>;

/// Prints the lines of the report of the file that the one word names. Of a fault a line is printed to `err`; where that fails, the
/// answer stays the same.
pub fn run<F: Files, O: Sink, E: Sink>(
    alloc: Global,
    words: &[String],
    files: &mut F,
    out: &mut O,
    err: &mut E,
) -> ToolRan
    ensures promise { IsToolRun inspector (map string_bytes words.now) (devices (F.state files.old) (O.state out.old))
        (devices (F.state files.new) (O.state out.new)) (E.state err.old) (E.state err.new) result }

    // Where the file is there, the loader accepts it and no device fails, its lines are printed; or memory ran out.
    ensures complete { (m : Store) → (F.state files.old).files ≡ Some m → IsClear inspector (map string_bytes words.now) m
        → NoneFailed (devices (F.state files.old) (O.state out.old)) (devices (F.state files.new) (O.state out.new))
        → (result.status ≡ 0) ⊎ (result.status ≡ 5) }
{
    let answer = inspect_words(alloc, words, files, out);
    ended(err, "macho_inspect", answer)
}

// Prints the report of the file that the words name.
fn inspect_words<F: Files, O: Sink>(
    alloc: Global,
    words: &[String],
    files: &mut F,
    out: &mut O,
) -> Result<(), ToolFault>
    ensures { IsEnded inspector (map string_bytes words.now) (devices (F.state files.old) (O.state out.old))
        (devices (F.state files.new) (O.state out.new)) (result_err result) }
{
    match words {
        [path] => inspect_file(alloc, path, files, out),
        _ => Err(ToolFault::Words),
    }
}

// Prints the report of the file under a path.
fn inspect_file<F: Files, O: Sink>(
    alloc: Global,
    path: &str,
    files: &mut F,
    out: &mut O,
) -> Result<(), ToolFault>
    ensures { IsEnded inspector (path.now ∷ []) (devices (F.state files.old) (O.state out.old))
        (devices (F.state files.new) (O.state out.new)) (result_err result) }
{
    let bytes = match read_word(alloc, files, 0, path) {
        Ok(bytes) => bytes,
        Err(fault) => return Err(fault),
    };
    let report = match inspect(alloc, &bytes) {
        Ok(report) => report,
        Err(InspectFault::Rejected { fault }) => {
            return Err(ToolFault::Refused {
                fault: InspectFault::Rejected { fault },
            });
        }
        Err(InspectFault::OutOfMemory) => return Err(ToolFault::OutOfMemory),
    };
    match print_report(out, &report) {
        Ok(()) => Ok(()),
        Err(_) => Err(ToolFault::Print),
    }
}
