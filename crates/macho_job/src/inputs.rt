//! The inputs of a run: each is sought, read, and taken by the linker as its head says.

ghost use Rattle.std.specs.Prelude.{◌≡◌, ℕ, ◌+◌, ◌-◌, ◌^◌, ◌<◌, [], List, Option, map, length, IfOk, IfErr, OnOk, Some};
ghost use Rattle.macho_args.specs.Settings.{settings_of, input_of};
ghost use Rattle.macho_args.specs.Store.{Store};
ghost use Rattle.macho_linker.specs.Linkers.{link_of, TakesStub};
ghost use Rattle.macho_devices.specs.Devices.{OnlyReads};
ghost use Rattle.macho_job.specs.Search.{candidates_of};
ghost use Rattle.macho_job.specs.steps.Found.{IsSearched, FailedSince};
ghost use Rattle.macho_job.specs.Names.{names_of};
ghost use Rattle.macho_job.specs.Causes.{JobFails};
ghost use Rattle.macho_job.specs.steps.Gathering.{TakesFile, TakesBytesOf, TextRefused, BytesFail, InputFails, HaveInputs};

use crate::fault::Fault;
use crate::heads::{Head, head_of};
use crate::names::FileNames;
use crate::search::{FoundFile, candidates_of, first_held};
use macho_args::{InputSpec, MachOArgs};
use macho_devices::{FileFault, Files};
use macho_linker::{InputFault, LinkError, Linker};
use macho_stub::StubRule;
use std::alloc::Global;

/// Files have numbers below this.
pub(crate) const MAX_FILES: u32 = 0xffff_ffff - 1;

/// Reads the inputs of the arguments, and adds them to the linker in the order of their words.
pub(crate) fn add_inputs<F: Files>(
    alloc: Global,
    args: &MachOArgs,
    files: &mut F,
    linker: &mut Linker,
    names: &mut FileNames,
) -> Result<(), Fault>
    requires empty { linker.old ≡ link_of (settings_of args.now) }
    requires unnamed { names_of names.old ≡ [] }
    requires alone { (settings_of args.now).generate ≡ None }
    ensures added { OnOk result (HaveInputs (F.state files.old).files (settings_of args.now) (settings_of args.now).inputs
        (names_of names.new) linker.new) }
    ensures why { IfErr result (JobFails (F.state files.old).files (settings_of args.now) (names_of names.new)
        (F.state files.old).failed_reads (F.state files.new).failed_reads) }
    ensures kept { OnlyReads (F.state files.old) (F.state files.new) }
{
    for spec in &args.inputs {
        add_input(alloc, args, spec, files, linker, names)?;
    }
    Ok(())
}

// Reads an input, and adds it to the linker.
fn add_input<F: Files>(
    alloc: Global,
    args: &MachOArgs,
    spec: &InputSpec,
    files: &mut F,
    linker: &mut Linker,
    names: &mut FileNames,
) -> Result<(), Fault>
    ensures added { OnOk result (TakesFile (F.state files.old).files (settings_of args.now) (input_of spec.now)
        (names_of names.old) (names_of names.new) linker.old linker.new) }
    ensures why { IfErr result (InputFails (F.state files.old).files (settings_of args.now) (names_of names.new) (input_of spec.now)
        (F.state files.old).failed_reads (F.state files.new).failed_reads) }
    ensures kept { OnlyReads (F.state files.old) (F.state files.new) }
{
    let FoundFile { path, bytes } = find_input(alloc, args, spec, files)?;
    names.push(path)?;
    take_input(linker, spec.word(), bytes)
}

// The file of an input.
fn find_input<F: Files>(
    alloc: Global,
    args: &MachOArgs,
    spec: &InputSpec,
    files: &mut F,
) -> Result<FoundFile, Fault>
    ensures found { IfOk result (λ found. IsSearched (F.state files.old).files
        (candidates_of (settings_of args.now) (input_of spec.now).kind (input_of spec.now).name) (Some found)) }
    ensures why { IfErr result (λ fault. (paths : List (List ℕ))
        → InputFails (F.state files.old).files (settings_of args.now) paths (input_of spec.now)
        (F.state files.old).failed_reads (F.state files.new).failed_reads fault) }
    ensures kept { OnlyReads (F.state files.old) (F.state files.new) }
{
    let paths = candidates_of(alloc, args, spec)?;
    match first_held(alloc, files, &paths) {
        Ok(Some(found)) => Ok(found),
        Ok(None) => Err(Fault::MissingFile { word: spec.word() }),
        Err(FileFault::Failed) => Err(Fault::Read { word: spec.word() }),
        Err(FileFault::OutOfMemory) => Err(Fault::OutOfMemory),
    }
}

// Adds the bytes of an input, by their head. Memory ends before the numbers of files do.
fn take_input(linker: &mut Linker, word: u32, bytes: Vec<u8>) -> Result<(), Fault>
    ensures added { OnOk result (TakesBytesOf bytes.items linker.old linker.new) }
    ensures why { IfErr result (BytesFail word bytes.items) }
{
    if linker.num_inputs() >= MAX_FILES {
        return Err(Fault::OutOfMemory);
    }
    let added = match head_of(&bytes) {
        Head::Object => linker.add_object(bytes),
        Head::Dylib => linker.add_dylib(bytes),
        Head::Stub => add_text(linker, bytes),
        Head::Unknown(kind) => return Err(Fault::UnknownKind { word, kind }),
    };
    match added {
        Ok(_) => Ok(()),
        Err(error) => Err(Fault::of_input(word, error)),
    }
}

// Adds the bytes of a stub: they are text, or break the first rule of stubs in line 1.
fn add_text(linker: &mut Linker, bytes: Vec<u8>) -> Result<u32, LinkError>
    requires few { length linker.old.inputs < 2 ^ 32 - 1 }
    ensures added { OnOk result (TakesStub linker.old linker.new bytes.items) }
    ensures why { IfErr result (TextRefused bytes.items) }
{
    match String::from_utf8(bytes) {
        Ok(text) => linker.add_stub(text),
        Err(_) => Err(LinkError::BadInput {
            fault: InputFault::Stub {
                line: 1,
                rule: StubRule::S1,
            },
        }),
    }
}
