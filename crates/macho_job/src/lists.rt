//! The export lists of a run.

ghost use Rattle.std.specs.Prelude.{◌≡◌, ℕ, List, [], Some, IfOk, IfErr, OnOk};
ghost use Rattle.macho_args.specs.Settings.{settings_of};
ghost use Rattle.macho_devices.specs.Devices.{OnlyReads};
ghost use Rattle.macho_linker.specs.Linkers.{with_export_list};
ghost use Rattle.macho_job.specs.declared.fault.Fault.TheVariants.{OutOfMemory};
ghost use Rattle.macho_job.specs.Search.{FileIs};
ghost use Rattle.macho_job.specs.Causes.{JobFails};
ghost use Rattle.macho_job.specs.steps.Gathering.{HaveLists, ListFails};

use crate::fault::Fault;
use macho_args::MachOArgs;
use macho_devices::{FileFault, Files};
use macho_linker::Linker;
use std::alloc::Global;

/// Reads the export lists of the arguments, and adds them to the linker in the order of their words.
pub(crate) fn add_lists<F: Files>(
    alloc: Global,
    args: &MachOArgs,
    files: &mut F,
    linker: &mut Linker,
) -> Result<(), Fault>
    ensures added { (paths : List (List ℕ)) → HaveLists (F.state files.old).files (settings_of args.now) [] paths linker.old
        → OnOk result (HaveLists (F.state files.old).files (settings_of args.now)
        (settings_of args.now).export_list_paths paths linker.new) }
    ensures why { IfErr result (λ fault. (paths : List (List ℕ))
        → HaveLists (F.state files.old).files (settings_of args.now) [] paths linker.old
        → JobFails (F.state files.old).files (settings_of args.now) paths
        (F.state files.old).failed_reads (F.state files.new).failed_reads fault) }
    ensures kept { OnlyReads (F.state files.old) (F.state files.new) }
{
    for list in &args.export_list_paths {
        let text = read_list(alloc, files, list.0, list.1.as_str())?;
        add_list(linker, &text)?;
    }
    Ok(())
}

// The text of a list.
fn read_list<F: Files>(
    alloc: Global,
    files: &mut F,
    word: u32,
    path: &str,
) -> Result<Vec<u8>, Fault>
    ensures held { IfOk result (λ text. FileIs (F.state files.old).files (Some text.items) path.now) }
    ensures why { IfErr result (ListFails (F.state files.old).files word path.now
        (F.state files.old).failed_reads (F.state files.new).failed_reads) }
    ensures kept { OnlyReads (F.state files.old) (F.state files.new) }
{
    match files.read(alloc, path) {
        Ok(Some(text)) => Ok(text),
        Ok(None) => Err(Fault::MissingFile { word }),
        Err(FileFault::Failed) => Err(Fault::Read { word }),
        Err(FileFault::OutOfMemory) => Err(Fault::OutOfMemory),
    }
}

// Adds a list to the linker.
fn add_list(linker: &mut Linker, text: &[u8]) -> Result<(), Fault>
    ensures added { OnOk result (linker.new ≡ with_export_list linker.old text.now) }
    ensures why { IfErr result (λ fault. fault ≡ OutOfMemory) }
{
    match linker.add_export_list(text) {
        Ok(()) => Ok(()),
        Err(_) => Err(Fault::OutOfMemory),
    }
}
