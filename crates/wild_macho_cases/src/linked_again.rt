//! A linker that links again: where memory runs out in the link, the same linker links once more.
//!
//! Words, files, lines and status are those of the linker's program. A second link is told by a line on standard error. So where a
//! request for memory is refused in the link, all else has to be as it is with ample memory: `checks/refused_memory.sh` refuses each
//! request in turn.

ghost use Rattle.std.specs.Prelude.{◌≡◌, ◌<◌, ◌-◌, ◌^◌, [], length, map, false, Some, IfOk, IfErr};
ghost use Rattle.macho_args.specs.Settings.{settings_of};
ghost use Rattle.macho_model.specs.Links.{carried_of};
ghost use Rattle.macho_model.specs.Placement.{id_of};
ghost use Rattle.macho_answer.specs.declared.fault.LinkError.TheVariants as refusal;
ghost use Rattle.macho_answer.specs.Linked.{IsImageOf};
ghost use Rattle.wild_macho.specs.Causes.{status_of};
ghost use Rattle.wild_macho.specs.Linkers.{link_of};
ghost use Rattle.wild_macho.specs.Names.{names_of};
ghost use Rattle.macho_answer.specs.Linked.{RefusalStands};

use macho_args::MachOArgs;
use std::alloc::Global;
use wild_macho::{
    Fault, FileFault, FileNames, Files, LinkError, LinkedImage, Linker, RealFiles, RealSink, Sink,
    gather, link, print_fault, print_lines, uuid_of,
};

/// The linker is given no more words.
const MOST_WORDS: usize = 1000;

/// The status where there are more.
const TOO_MANY_WORDS: u8 = 6;

/// The line that tells a second link.
const AGAIN: &[u8] = b"wild_macho_cases: linked again\n";

/// What a linker answers.
#[derive(Drop)]
struct Answered {
    /// The answer of its last link.
    answer: Result<LinkedImage, LinkError>,
    /// Whether it linked again.
    again: bool,
}

/// Links what the words say, over the files of the system; the status.
pub(crate) fn link_words(rt: &HostRuntime, words: &[String]) -> u8 {
    if words.len() > MOST_WORDS {
        return TOO_MANY_WORDS;
    }
    let mut files = RealFiles::new(rt, rt.alloc());
    let mut out = RealSink::new(rt.stdout());
    let mut err = RealSink::new(rt.stderr());
    run_words(rt.alloc(), words, &mut files, &mut out, &mut err)
}

// Links what the words say, writes the image and prints its lines; a second link and a fault are told in lines to `err`.
fn run_words<F: Files, O: Sink, E: Sink>(
    alloc: Global,
    words: &[String],
    files: &mut F,
    out: &mut O,
    err: &mut E,
) -> u8
    requires { length words.now < 2 ^ 32 - 1 }
{
    match read_words(alloc, words, files) {
        Ok(args) => run_args(alloc, &args, files, out, err),
        Err(fault) => {
            print_fault(err, &[], &[], &FileNames::new(alloc), &fault);
            status_of(&fault)
        }
    }
}

// The status of a fault.
fn status_of(fault: &Fault) -> u8
    ensures { result ≡ status_of (Some fault.now) }
{
    match fault {
        Fault::MissingFile { .. } | Fault::UnknownKind { .. } => 1,
        Fault::Input { .. } | Fault::Link { .. } => 1,
        Fault::Words { .. } => 2,
        Fault::Read { .. } => 3,
        Fault::Write | Fault::Print => 4,
        Fault::OutOfMemory => 5,
    }
}

// The arguments that the words say.
fn read_words<F: Files>(alloc: Global, words: &[String], files: &mut F) -> Result<MachOArgs, Fault>
    requires { length words.now < 2 ^ 32 - 1 }
{
    let mut args = MachOArgs::new(alloc)?;
    match args.parse(words, files) {
        Ok(()) => Ok(args),
        Err(fault) => Err(Fault::of_words(fault)),
    }
}

// Runs what the arguments say; the status.
fn run_args<F: Files, O: Sink, E: Sink>(
    alloc: Global,
    args: &MachOArgs,
    files: &mut F,
    out: &mut O,
    err: &mut E,
) -> u8 {
    let mut names = FileNames::new(alloc);
    match link_args(alloc, args, files, out, err, &mut names) {
        Ok(()) => 0,
        Err(fault) => {
            print_fault(err, &args.inputs, &args.export_list_paths, &names, &fault);
            status_of(&fault)
        }
    }
}

// Makes the linker, adds the inputs and the lists, links and writes.
fn link_args<F: Files, O: Sink, E: Sink>(
    alloc: Global,
    args: &MachOArgs,
    files: &mut F,
    out: &mut O,
    err: &mut E,
    names: &mut FileNames,
) -> Result<(), Fault>
    requires unnamed { names_of names.old ≡ [] }
{
    let mut linker = make_linker(alloc, args)?;
    gather(alloc, args, files, &mut linker, names)?;
    let answered = link_again(alloc, &linker, uuid_of(args, &linker));
    tell_again(err, answered.again);
    match answered.answer {
        Ok(image) => write_image(args, files, out, &linker, names, &image),
        Err(error) => Err(Fault::of_link(error)),
    }
}

// A linker of these arguments, without inputs.
fn make_linker(alloc: Global, args: &MachOArgs) -> Result<Linker, Fault>
    ensures made { IfOk result (λ linker. linker ≡ link_of (settings_of args.now)) }
{
    match Linker::new(alloc, args) {
        Ok(linker) => Ok(linker),
        Err(error) => Err(Fault::of_link(error)),
    }
}

// Links, and where memory runs out links once more.
fn link_again(alloc: Global, linker: &Linker, uuid: [u8; 16]) -> Answered
    // The answer is right, whichever link gave it.
    ensures done { IfOk result.answer (IsImageOf linker.now uuid) }
    ensures why { IfErr result.answer (RefusalStands linker.now) }

    // No link but a second one is refused for want of memory.
    ensures once { result.again ≡ false → IfErr result.answer (λ error. error ≡ refusal.OutOfMemory → ⊥) }
{
    match link(alloc, linker, uuid) {
        Err(LinkError::OutOfMemory) => Answered {
            answer: link(alloc, linker, uuid),
            again: true,
        },
        answer => Answered {
            answer,
            again: false,
        },
    }
}

// Tells a second link; where the print fails, the answer stays the same.
fn tell_again<E: Sink>(err: &mut E, again: bool) {
    if again {
        let _ = err.write(AGAIN);
    }
}

// Writes the image to the output path, and prints its lines.
fn write_image<F: Files, O: Sink>(
    args: &MachOArgs,
    files: &mut F,
    out: &mut O,
    linker: &Linker,
    names: &FileNames,
    image: &LinkedImage,
) -> Result<(), Fault>
    requires { map id_of image.now.placement.sections.items ≡ carried_of linker.now }
{
    match files.write(args.output.as_str(), image.bytes.as_slice()) {
        Ok(()) => print_image(args, out, linker, names, image),
        Err(FileFault::Failed) => Err(Fault::Write),
        Err(FileFault::OutOfMemory) => Err(Fault::OutOfMemory),
    }
}

// Prints the lines of an image that is written.
fn print_image<O: Sink>(
    args: &MachOArgs,
    out: &mut O,
    linker: &Linker,
    names: &FileNames,
    image: &LinkedImage,
) -> Result<(), Fault>
    requires { map id_of image.now.placement.sections.items ≡ carried_of linker.now }
{
    match print_lines(out, args, linker, names, image) {
        Ok(()) => Ok(()),
        Err(_) => Err(Fault::Print),
    }
}
