//! All that a link is made of: its inputs, or the objects that are made, and its export lists.

ghost use Rattle.std.specs.Prelude.{◌≡◌, ℕ, List, [], Some, None, IfErr, OnOk};
ghost use Rattle.macho_args.specs.Settings.{settings_of};
ghost use Rattle.macho_devices.specs.Devices.{OnlyReads};
ghost use Rattle.macho_linker.specs.Linkers.{link_of};
ghost use Rattle.macho_job.specs.Causes.{JobFails};
ghost use Rattle.macho_job.specs.Job.{Links};
ghost use Rattle.macho_job.specs.Names.{names_of};
ghost use Rattle.macho_job.specs.steps.Gathering.{HaveLists};

use crate::fault::Fault;
use crate::inputs::add_inputs;
use crate::lists::add_lists;
use crate::made::add_made;
use crate::names::FileNames;
use macho_args::MachOArgs;
use macho_devices::Files;
use macho_linker::Linker;
use std::alloc::Global;

/// Reads the inputs of the arguments, or makes the objects of `-generate`, then reads the export lists, and adds all to the
/// linker. The paths of the files go to `names`.
///
/// # Errors
///
/// The fault of the first input or list that isn't found, can't be read, or is no input; or `OutOfMemory`.
pub fn gather<F: Files>(
    alloc: Global,
    args: &MachOArgs,
    files: &mut F,
    linker: &mut Linker,
    names: &mut FileNames,
) -> Result<(), Fault>
    requires empty { linker.old ≡ link_of (settings_of args.now) }
    requires unnamed { names_of names.old ≡ [] }

    // The linker has what the arguments link, whose files have these paths.
    ensures gathered { OnOk result (Links (F.state files.old).files (settings_of args.now) (names_of names.new) linker.new) }

    // A fault has its cause.
    ensures why { IfErr result (JobFails (F.state files.old).files (settings_of args.now) (names_of names.new)
        (F.state files.old).failed_reads (F.state files.new).failed_reads) }
    ensures kept { OnlyReads (F.state files.old) (F.state files.new) }
{
    add_files(alloc, args, files, linker, names)?;
    add_lists(alloc, args, files, linker)
}

// Adds the inputs, or the objects that are made.
fn add_files<F: Files>(
    alloc: Global,
    args: &MachOArgs,
    files: &mut F,
    linker: &mut Linker,
    names: &mut FileNames,
) -> Result<(), Fault>
    requires empty { linker.old ≡ link_of (settings_of args.now) }
    requires unnamed { names_of names.old ≡ [] }
    ensures added { OnOk result (HaveLists (F.state files.old).files (settings_of args.now) [] (names_of names.new) linker.new) }
    ensures why { IfErr result (JobFails (F.state files.old).files (settings_of args.now) (names_of names.new)
        (F.state files.old).failed_reads (F.state files.new).failed_reads) }
    ensures kept { OnlyReads (F.state files.old) (F.state files.new) }
{
    match args.generate {
        Some(count) => add_made(alloc, linker, names, count),
        None => add_inputs(alloc, args, files, linker, names),
    }
}
