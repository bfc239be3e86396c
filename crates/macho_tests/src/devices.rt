//! The devices: files and streams of the system, and in memory what no run shows: several calls that fail one after the other, and
//! devices that never fail.

use Step::{Fails, Folder, Leads, NoFolder, Shows, Takes};
use macho_args::Paths;
use macho_devices::{
    FileFault, Files, MemoryFiles, MemorySink, RealFiles, RealSink, Sink, SinkFault, SteadyFiles,
    SteadySink,
};
use std::alloc::{AllocError, Global};
use std::io::Write;
use std::test::Fail;
use std::{env, fs, io, process};

/// What is done with a path, and what has to come of it.
#[derive(Clone, Copy)]
enum Step {
    /// A read gives this text, with `-` for no such file and `!` for a failed read.
    Shows,
    /// The canonical path is this one, with `-` for none.
    Leads,
    /// The bytes are written.
    Takes,
    /// The write of the bytes fails.
    Fails,
    /// The path is that of a directory.
    Folder,
    /// It isn't.
    NoFolder,
}

// Whether a read of the path gives the text.
fn shows<F: Files>(files: &mut F, alloc: Global, path: &str, text: &str) -> bool {
    match files.read(alloc, path) {
        Ok(Some(bytes)) => bytes.as_slice() == text.as_bytes(),
        Ok(None) => text == "-",
        Err(FileFault::Failed) => text == "!",
        Err(_) => false,
    }
}

// Whether the canonical path is this one.
fn leads_to<F: Files>(files: &mut F, alloc: Global, path: &str, text: &str) -> bool {
    match files.canonical(alloc, path) {
        Ok(Some(canonical)) => canonical.as_str() == text,
        Ok(None) => text == "-",
        Err(_) => false,
    }
}

// Whether the write of the bytes goes well, or fails.
fn writes<F: Files>(files: &mut F, path: &str, bytes: &[u8], well: bool) -> bool {
    match files.write(path, bytes) {
        Ok(()) => well,
        Err(FileFault::Failed) => !well,
        Err(_) => false,
    }
}

// Whether a step goes as it should.
fn goes<F: Files>(files: &mut F, alloc: Global, step: Step, path: &str, text: &str) -> bool {
    match step {
        Shows => shows(files, alloc, path, text),
        Leads => leads_to(files, alloc, path, text),
        Takes => writes(files, path, text.as_bytes(), true),
        Fails => writes(files, path, text.as_bytes(), false),
        Folder => files.is_dir(path),
        NoFolder => !files.is_dir(path),
    }
}

// How many steps go as they should before one doesn't; each path begins with the same text.
fn passed<F: Files>(
    files: &mut F,
    alloc: Global,
    front: &str,
    steps: &[(Step, &str, &str)],
) -> Result<usize, AllocError> {
    for number in 0..steps.len() {
        let (step, back, text) = steps[number];
        let mut path = String::from_str(alloc, front)?;
        path.push_str(back)?;
        if !goes(files, alloc, step, path.as_str(), text) {
            return Ok(number);
        }
    }
    Ok(steps.len())
}

// Adds a file, and lets the second read fail, and the first four writes.
fn fill_failing(files: &mut MemoryFiles, alloc: Global) -> Result<(), AllocError> {
    files.add_file("a", b"one".to_vec(alloc)?)?;
    files.fail_read(1)?;
    files.fail_write(0, 0)?;
    files.fail_write(1, 2)?;
    files.fail_write(2, 3)?;
    files.fail_write(3, 9)
}

// How many steps pass over files that fail.
fn passed_failing(alloc: Global) -> Result<usize, AllocError> {
    let mut files = MemoryFiles::new(alloc);
    fill_failing(&mut files, alloc)?;
    passed(&mut files, alloc, "", failing())
}

fn failing() -> &'static [(Step, &'static str, &'static str)] {
    &FAILING
}

/// A failing write leaves the first bytes.
const FAILING: [(Step, &str, &str); 13] = [
    (Shows, "a", "one"),
    (Shows, "a", "!"),
    (Shows, "a", "one"),
    (Fails, "out", "imag"),
    (Shows, "out", ""),
    (Fails, "out", "imag"),
    (Shows, "out", "im"),
    (Fails, "out", "imag"),
    (Shows, "out", "ima"),
    (Fails, "out", "imag"),
    (Shows, "out", "imag"),
    (Takes, "out", "image"),
    (Shows, "out", "image"),
];

#[test]
fn files_in_memory_fail_as_they_are_told(rt: HostRuntime) -> Result<(), Fail> {
    assert_eq!(rt; passed_failing(rt.alloc())?, 13);
    Ok(())
}

// Adds a directory, a link and a file.
fn fill_steady(files: &mut SteadyFiles, alloc: Global) -> Result<(), AllocError> {
    files.add_dir("lib")?;
    files.add_canonical("b", "/work/b")?;
    files.add_file("a", b"one".to_vec(alloc)?)
}

// How many steps pass over files that never fail.
fn passed_steady(alloc: Global) -> Result<usize, AllocError> {
    let mut files = SteadyFiles::new(alloc);
    fill_steady(&mut files, alloc)?;
    passed(&mut files, alloc, "", steady())
}

fn steady() -> &'static [(Step, &'static str, &'static str)] {
    &STEADY
}

const STEADY: [(Step, &str, &str); 6] = [
    (Folder, "lib", ""),
    (Leads, "b", "/work/b"),
    (Shows, "a", "one"),
    (Takes, "a", "two"),
    (Shows, "a", "two"),
    (Shows, "b", "-"),
];

#[test]
fn steady_files_hold_what_is_added(rt: HostRuntime) -> Result<(), Fail> {
    assert_eq!(rt; passed_steady(rt.alloc())?, 6);
    Ok(())
}

/// A file that is written, and written once more; one that isn't there; one below a file, which can't be written.
const OWN: [(Step, &str, &str); 9] = [
    (Takes, "", "image"),
    (Shows, "", "image"),
    (Takes, "", "new"),
    (Shows, "", "new"),
    (Shows, ".missing", "-"),
    (Leads, ".missing", "-"),
    (Shows, "/below", "!"),
    (Fails, "/below", "image"),
    (NoFolder, "", ""),
];

/// A directory, a device that is full and one that takes all.
const SYSTEM: [(Step, &str, &str); 6] = [
    (Shows, "/", "!"),
    (Fails, "/", "image"),
    (Fails, "/dev/full", "image"),
    (Takes, "/dev/null", "image"),
    (Folder, "/", ""),
    (Leads, "/.", "/"),
];

fn own() -> &'static [(Step, &'static str, &'static str)] {
    &OWN
}

fn system() -> &'static [(Step, &'static str, &'static str)] {
    &SYSTEM
}

// A path for a file of this process.
fn own_path(alloc: Global, folder: &str, id: u32) -> Result<String, AllocError> {
    format!(in alloc; "{folder}/wild_macho_devices_{id}")
}

#[test]
fn real_files_are_written_and_read(rt: HostRuntime) -> Result<(), Fail> {
    let folder = env::temp_dir(&rt)?;
    let path = own_path(rt.alloc(), folder.as_str(), process::id(rt.process()))?;
    let mut files = RealFiles::new(&rt, rt.alloc());
    assert_eq!(rt; passed(&mut files, rt.alloc(), path.as_str(), own())?, 9);
    assert_eq!(rt; passed(&mut files, rt.alloc(), "", system())?, 6);
    fs::remove_file(&rt, path)?;
    Ok(())
}

// How many prints go as they should, well or not, before one doesn't.
fn printed<S: Sink>(sink: &mut S, steps: &[(&[u8], bool)]) -> usize {
    for number in 0..steps.len() {
        let (bytes, well) = steps[number];
        let went = match sink.write(bytes) {
            Ok(()) => well,
            Err(SinkFault::Failed) => !well,
        };
        if !went {
            return number;
        }
    }
    steps.len()
}

/// Prints to a sink with room for four bytes, whose third print fails.
const ROOM: [(&[u8], bool); 4] = [(b"abc", true), (b"de", false), (b"f", false), (b"g", true)];

// The bytes that a sink has, where its prints go as they should.
fn is_room_kept(alloc: Global) -> Result<bool, AllocError> {
    let mut sink = MemorySink::new(alloc, 4)?;
    sink.fail_write(2)?;
    Ok(printed(&mut sink, &ROOM) == 4 && sink.bytes() == b"abcg".as_slice())
}

fn does_steady_sink_print() -> bool {
    printed(&mut SteadySink::new(), &[(b"abc", true)]) == 1
}

// A stream that takes two bytes a call, then nothing, then two once more, and then fails.
#[derive(Drop)]
struct Slow {
    turns: u8,
}

impl Write for Slow {
    fn write(&mut self, buf: &[u8]) -> io::Result<usize> {
        let turns = self.turns;
        self.turns = turns.saturating_add(1);
        match turns {
            0 | 1 | 3 => Ok(buf.len().min(2)),
            2 => Ok(0),
            _ => Err(io::Error::from(io::ErrorKind::BrokenPipe)),
        }
    }

    fn flush(&mut self) -> io::Result<()> {
        Ok(())
    }
}

/// Prints to the slow stream.
const PIECES: [(&[u8], bool); 4] = [(b"abcd", true), (b"e", false), (b"fgh", false), (b"", true)];

// A real sink goes on until all is taken.
fn does_real_sink_go_on() -> bool {
    printed(&mut RealSink::new(Slow { turns: 0 }), &PIECES) == 4
}

#[test]
fn sinks_take_and_fail_as_they_are_told(rt: HostRuntime) -> Result<(), Fail> {
    assert!(rt; does_steady_sink_print());
    assert!(rt; is_room_kept(rt.alloc())?);
    assert!(rt; does_real_sink_go_on());
    Ok(())
}
