//! One run of the linker, from the words of a command line to the written image.
//!
//! Its passes are: the words are read, the linker is made, the inputs and the export lists are read and added, the link
//! makes an image, the image is written, lines are printed; a fault is told.

ghost use Rattle.std.specs.Prelude.{◌≡◌, ℕ, ◌<◌, ◌-◌, ◌^◌, List, [], length, map, true, false, Some, None, Option, IfOk, IfErr, OnOk};
ghost use Rattle.std.specs.String.{string_bytes};
ghost use Rattle.macho_args.specs.SearchPaths.{IsParsed};
ghost use Rattle.macho_args.specs.Settings.{settings_of};
ghost use Rattle.macho_args.specs.Store.{Store};
ghost use Rattle.macho_model.specs.Links.{carried_of};
ghost use Rattle.macho_model.specs.Faults.{bad_name};
ghost use Rattle.macho_model.specs.Placement.{id_of};
ghost use Rattle.macho_report.specs.Linkers.{link_of};
ghost use Rattle.macho_answer.specs.Linked.{IsImageOf};
ghost use Rattle.macho_report.specs.Job.{uuid_of};
ghost use Rattle.macho_devices.specs.Devices.{OnlyReads, OnlyWrites};
ghost use Rattle.macho_devices.specs.Faults.{CountsOn};
ghost use Rattle.macho_report.specs.Causes.{status_of, IsClear, JobFails, WordsFail};
ghost use Rattle.macho_report.specs.Names.{names_of};
ghost use Rattle.wild_macho.specs.Runs.{devices, AskForNoLines, DoesJobs, GoesOn, IsOwed, IsRun, RunsBy};
ghost use Rattle.wild_macho.specs.steps.Made.{IsBadName, IsMade, IsLinkFault, IsSilent, Prints, Finishes, Answers};

use crate::preparing::{gather_linker, read_words};
use macho_args::MachOArgs;
use macho_devices::{FileFault, Files, Sink};
use macho_report::{Fault, FileNames, LinkedImage, Linker, print_fault, print_lines, uuid_of};
use std::alloc::Global;

/// What a run answers.
#[derive(Drop)]
pub struct Ran {
    /// The status that the program ends with: 0 where the image was written and all was printed; 1 where an input or the
    /// link is refused; 2 where a word is; 3 where a read failed; 4 where a write or a print did; 5 where memory ran out.
    pub status: u8,
    /// The image, where one was made and its write was begun.
    pub image: Option<LinkedImage>,
    /// Why the status is not 0.
    pub fault: Option<Fault>,
}

/// Links what the words say, with the files that `files` holds, and writes the image to the output path.
///
/// A plain link prints nothing to `out`; `-map` and `-generate` print lines. A fault is printed to `err` as one line; where
/// that fails, the answer stays the same.
pub fn run<F: Files, O: Sink, E: Sink>(
    alloc: Global,
    words: &[String],
    files: &mut F,
    out: &mut O,
    err: &mut E,
) -> Ran
    requires { length words.now < 2 ^ 32 - 1 }

    // The words are refused, or the run is that of the settings that they say.
    ensures promise { IsRun (map string_bytes words.now) (devices (F.state files.old) (O.state out.old))
        (devices (F.state files.new) (O.state out.new)) (E.state err.old) (E.state err.new) result }

    // Directories and canonical paths stay, no count falls. Nothing is printed without an image, where no lines are asked for, and
    // to `err` without a fault.
    ensures kept { GoesOn (devices (F.state files.old) (O.state out.old)) (devices (F.state files.new) (O.state out.new))
        × CountsOn (E.state err.old).failed (E.state err.new).failed }
    ensures unprinted { result.image ≡ None → out.new ≡ out.old }
    ensures silent { AskForNoLines (map string_bytes words.now) (F.state files.old) → out.new ≡ out.old }
    ensures quiet { result.fault ≡ None → err.new ≡ err.old }

    // Where a job has nothing against it and no device fails, it is done; or memory ran out. The same holds of a job whose link is owed
    // an image.
    ensures complete { DoesJobs IsClear (map string_bytes words.now) (devices (F.state files.old) (O.state out.old))
        (devices (F.state files.new) (O.state out.new)) result }
    ensures answered { DoesJobs IsOwed (map string_bytes words.now) (devices (F.state files.old) (O.state out.old))
        (devices (F.state files.new) (O.state out.new)) result }
{
    match read_words(alloc, words, files) {
        Ok(args) => run_args(alloc, &args, files, out, err),
        Err(fault) => {
            print_fault(err, &[], &[], &FileNames::new(alloc), &fault);
            refused(fault)
        }
    }
}

// Runs what the arguments say, and tells the fault, if there is one, in a line to `err`.
fn run_args<F: Files, O: Sink, E: Sink>(
    alloc: Global,
    args: &MachOArgs,
    files: &mut F,
    out: &mut O,
    err: &mut E,
) -> Ran
    ensures done { RunsBy (settings_of args.now) (devices (F.state files.old) (O.state out.old))
        (devices (F.state files.new) (O.state out.new)) (E.state err.old) (E.state err.new) result }
    ensures status { result.status ≡ status_of result.fault }
    ensures kept { GoesOn (devices (F.state files.old) (O.state out.old)) (devices (F.state files.new) (O.state out.new))
        × CountsOn (E.state err.old).failed (E.state err.new).failed }
    ensures unprinted { result.image ≡ None → out.new ≡ out.old }
    ensures silent { IsSilent (settings_of args.now) out.old out.new }
    ensures quiet { result.fault ≡ None → err.new ≡ err.old }
{
    let mut names = FileNames::new(alloc);
    let ran = link_args(alloc, args, files, out, &mut names);
    if let Some(fault) = &ran.fault {
        print_fault(err, &args.inputs, &args.export_list_paths, &names, fault);
    }
    ran
}

// Links, writes and prints.
fn link_args<F: Files, O: Sink>(
    alloc: Global,
    args: &MachOArgs,
    files: &mut F,
    out: &mut O,
    names: &mut FileNames,
) -> Ran
    requires unnamed { names_of names.old ≡ [] }
    ensures done { Answers (settings_of args.now) (names_of names.new) (devices (F.state files.old) (O.state out.old))
        (devices (F.state files.new) (O.state out.new)) result }
    ensures kept { GoesOn (devices (F.state files.old) (O.state out.old)) (devices (F.state files.new) (O.state out.new)) }
    ensures unprinted { result.image ≡ None → out.new ≡ out.old }
    ensures silent { IsSilent (settings_of args.now) out.old out.new }
{
    match make_image(alloc, args, files, names) {
        Ok(made) => write_image(args, files, out, names, made),
        Err(fault) => refused(fault),
    }
}

/// A linker with all its inputs, and its image.
#[derive(Drop)]
pub(crate) struct Made {
    pub(crate) linker: Linker,
    pub(crate) image: LinkedImage,
}

// Makes the linker, adds the inputs and the lists, and links.
fn make_image<F: Files>(
    alloc: Global,
    args: &MachOArgs,
    files: &mut F,
    names: &mut FileNames,
) -> Result<Made, Fault>
    requires unnamed { names_of names.old ≡ [] }
    ensures made { IfOk result (IsMade (F.state files.old).files (settings_of args.now) (names_of names.new)) }
    ensures fine { OnOk result (bad_name (link_of (settings_of args.now)) ≡ false) }
    ensures named { IfErr result (λ fault. bad_name (link_of (settings_of args.now)) ≡ true → IsBadName (Some fault)) }
    ensures why { IfErr result (JobFails (F.state files.old).files (settings_of args.now) (names_of names.new)
        (F.state files.old).failed_reads (F.state files.new).failed_reads) }
    ensures kept { OnlyReads (F.state files.old) (F.state files.new) }
{
    let linker = gather_linker(alloc, args, files, names)?;
    let image = link(alloc, args, &linker)?;
    Ok(Made { linker, image })
}

// The image of what the linker holds.
fn link(alloc: Global, args: &MachOArgs, linker: &Linker) -> Result<LinkedImage, Fault>
    ensures done { IfOk result (IsImageOf linker.now (uuid_of (settings_of args.now) linker.now.inputs)) }
    ensures why { IfErr result (IsLinkFault linker.now) }
{
    let uuid = uuid_of(args, linker);
    match macho_linking::link(alloc, linker, uuid) {
        Ok(image) => Ok(image),
        Err(error) => Err(Fault::of_link(error)),
    }
}

// Writes the image to the output path, and prints its lines.
fn write_image<F: Files, O: Sink>(
    args: &MachOArgs,
    files: &mut F,
    out: &mut O,
    names: &FileNames,
    made: Made,
) -> Ran
    requires { map id_of made.image.placement.sections.items ≡ carried_of made.linker }
    ensures done { Finishes (settings_of args.now) (names_of names.now) made (devices (F.state files.old) (O.state out.old))
        (devices (F.state files.new) (O.state out.new)) result }
    ensures prints { CountsOn (O.state out.old).failed (O.state out.new).failed }
    ensures kept { OnlyWrites (F.state files.old) (F.state files.new) }
    ensures unprinted { result.image ≡ None → out.new ≡ out.old }
    ensures silent { IsSilent (settings_of args.now) out.old out.new }
{
    match files.write(args.output.as_str(), made.image.bytes.as_slice()) {
        Ok(()) => print_image(args, out, names, made),
        Err(FileFault::Failed) => Ran {
            status: 4,
            image: Some(made.image),
            fault: Some(Fault::Write),
        },
        Err(FileFault::OutOfMemory) => refused(Fault::OutOfMemory),
    }
}

// Prints the lines of an image that is written.
fn print_image<O: Sink>(args: &MachOArgs, out: &mut O, names: &FileNames, made: Made) -> Ran
    requires { map id_of made.image.placement.sections.items ≡ carried_of made.linker }
    ensures done { Prints (settings_of args.now) (names_of names.now) made (O.state out.old) (O.state out.new) result }
    ensures silent { IsSilent (settings_of args.now) out.old out.new }
{
    match print_lines(out, args, &made.linker, names, &made.image) {
        Ok(()) => Ran {
            status: 0,
            image: Some(made.image),
            fault: None,
        },
        Err(_) => Ran {
            status: 4,
            image: Some(made.image),
            fault: Some(Fault::Print),
        },
    }
}

// The answer of a run that failed before it had an image to write, or whose write ran out of memory.
fn refused(fault: Fault) -> Ran
    ensures status { result.status ≡ status_of result.fault }
    ensures image { result.image ≡ None }
    ensures fault { result.fault ≡ Some fault }
{
    let status = match &fault {
        Fault::MissingFile { .. } | Fault::UnknownKind { .. } => 1,
        Fault::Input { .. } | Fault::Link { .. } => 1,
        Fault::Words { .. } => 2,
        Fault::Read { .. } => 3,
        Fault::Write | Fault::Print => 4,
        Fault::OutOfMemory => 5,
    };
    Ran {
        status,
        image: None,
        fault: Some(fault),
    }
}
