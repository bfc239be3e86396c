//! What a run does before it links: its words are read, a linker is made, the inputs and the export lists are read and added.

ghost use Rattle.std.specs.Prelude.{◌≡◌, ℕ, ◌<◌, ◌-◌, ◌^◌, List, [], length, map, true, false, Some, Option, IfOk, IfErr, OnOk};
ghost use Rattle.std.specs.String.{string_bytes};
ghost use Rattle.macho_args.specs.SearchPaths.{IsParsed};
ghost use Rattle.macho_args.specs.Settings.{settings_of};
ghost use Rattle.macho_args.specs.Store.{Store};
ghost use Rattle.macho_model.specs.Faults.{bad_name};
ghost use Rattle.macho_report.specs.Linkers.{link_of};
ghost use Rattle.macho_report.specs.Job.{Links};
ghost use Rattle.macho_devices.specs.Devices.{OnlyReads};
ghost use Rattle.macho_report.specs.Causes.{JobFails, WordsFail};
ghost use Rattle.macho_report.specs.Names.{names_of};
ghost use Rattle.wild_macho.specs.Prepared.{IsPrepared, PrepareFails};
ghost use Rattle.wild_macho.specs.steps.Made.{IsBadName};

use macho_args::MachOArgs;
use macho_devices::Files;
use macho_report::{Fault, FileNames, Linker, gather, uuid_of};
use std::alloc::Global;

/// What words ask to be linked.
#[derive(Drop)]
pub struct Job {
    /// The linker, with all inputs and export lists.
    pub linker: Linker,
    /// The identifier of the image.
    pub uuid: [u8; 16],
    /// The path of the image.
    pub output: String,
}

/// What the words of a command line ask to be linked, by the files that `files` holds. It is what [`run`](crate::run) links.
///
/// # Errors
///
/// Those of `run` that come before the link: of the words, of paths that can't be written, of an input or an export list; or
/// `OutOfMemory`.
pub fn prepare<F: Files>(alloc: Global, words: &[String], files: &mut F) -> Result<Job, Fault>
    requires { length words.now < 2 ^ 32 - 1 }
    ensures done { IfOk result (IsPrepared (map string_bytes words.now) (F.state files.old)) }
    ensures why { IfErr result (PrepareFails (map string_bytes words.now) (F.state files.old) (F.state files.new)) }
    ensures kept { OnlyReads (F.state files.old) (F.state files.new) }
{
    let args = read_words(alloc, words, files)?;
    prepare_args(alloc, &args, files)
}

// What the arguments ask to be linked.
fn prepare_args<F: Files>(alloc: Global, args: &MachOArgs, files: &mut F) -> Result<Job, Fault>
    ensures done { IfOk result (λ job. (words : List (List ℕ)) → IsParsed (F.state files.old) words (settings_of args.now)
        → IsPrepared words (F.state files.old) job) }
    ensures why { IfErr result (λ fault. (words : List (List ℕ)) → IsParsed (F.state files.old) words (settings_of args.now)
        → PrepareFails words (F.state files.old) (F.state files.new) fault) }
    ensures kept { OnlyReads (F.state files.old) (F.state files.new) }
{
    let mut names = FileNames::new(alloc);
    let linker = gather_linker(alloc, args, files, &mut names)?;
    let output = String::from_str(alloc, args.output.as_str())?;
    let uuid = uuid_of(args, &linker);
    Ok(Job {
        linker,
        uuid,
        output,
    })
}

// The arguments that the words say.
pub(crate) fn read_words<F: Files>(
    alloc: Global,
    words: &[String],
    files: &mut F,
) -> Result<MachOArgs, Fault>
    requires { length words.now < 2 ^ 32 - 1 }
    ensures said { IfOk result (λ args. IsParsed (F.state files.old) (map string_bytes words.now) (settings_of args)) }
    ensures why { IfErr result (WordsFail (map string_bytes words.now)) }
    ensures kept { F.state files.new ≡ F.state files.old }
{
    let mut args = MachOArgs::new(alloc)?;
    match args.parse(words, files) {
        Ok(()) => Ok(args),
        Err(fault) => Err(Fault::of_words(fault)),
    }
}

// Makes the linker, and adds the inputs and the lists. The paths of the inputs go to `names`.
pub(crate) fn gather_linker<F: Files>(
    alloc: Global,
    args: &MachOArgs,
    files: &mut F,
    names: &mut FileNames,
) -> Result<Linker, Fault>
    requires unnamed { names_of names.old ≡ [] }
    ensures gathered { IfOk result (Links (F.state files.old).files (settings_of args.now) (names_of names.new)) }
    ensures fine { OnOk result (bad_name (link_of (settings_of args.now)) ≡ false) }
    ensures named { IfErr result (λ fault. bad_name (link_of (settings_of args.now)) ≡ true → IsBadName (Some fault)) }
    ensures why { IfErr result (JobFails (F.state files.old).files (settings_of args.now) (names_of names.new)
        (F.state files.old).failed_reads (F.state files.new).failed_reads) }
    ensures kept { OnlyReads (F.state files.old) (F.state files.new) }
{
    let mut linker = make_linker(alloc, args)?;
    gather(alloc, args, files, &mut linker, names)?;
    Ok(linker)
}

// A linker of these arguments, without inputs.
fn make_linker(alloc: Global, args: &MachOArgs) -> Result<Linker, Fault>
    ensures made { IfOk result (λ linker. linker ≡ link_of (settings_of args.now)) }
    ensures why { IfErr result (λ fault. (told : Option Store) (paths : List (List ℕ)) (old new : ℕ)
        → JobFails told (settings_of args.now) paths old new fault) }
    ensures fine { OnOk result (bad_name (link_of (settings_of args.now)) ≡ false) }
    ensures named { IfErr result (λ fault. IsBadName (Some fault)) }
{
    match Linker::new(alloc, args) {
        Ok(linker) => Ok(linker),
        Err(error) => Err(Fault::of_link(error)),
    }
}
