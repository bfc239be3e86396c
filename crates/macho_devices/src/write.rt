//! The system's files and streams as they are written.
ghost use Rattle.std.specs.Prelude.{◌≡◌, IfOk};
ghost use Rattle.std.specs.Bool.{OnTrue};
ghost use Rattle.std.specs.String.{string_bytes};
ghost use Rattle.std.specs.Io.{WritesAtMost};
ghost use Rattle.std.specs.Io.KnownBytes.{Appends, WriteAppends};
ghost use Rattle.macho_devices.specs.steps.Beside.{name_beside};

use std::alloc::{AllocError, Global};
use std::fs::OpenOptions;
use std::io::{self, ErrorKind, Write};
use std::os::unix::fs::OpenOptionsExt;
use std::{fs, rt};

/// How many names are tried for the file beside an output.
const NAMES: u32 = 1000;

/// The permissions of a new program, before the process takes its own away.
pub(crate) const PROGRAM_MODE: u32 = 0o777;

/// Those of a new text.
pub(crate) const TEXT_MODE: u32 = 0o666;

/// A path below this folder is a device, or leads to a stream that is open already.
const DEVICES: &str = "/dev/";

// One write. If a signal interrupts it, it is made again.
fn write_once<W: Write>(stream: &mut W, bytes: &[u8]) -> io::Result<usize>
    ensures bound { WritesAtMost result bytes.now }
    ensures bytes { WriteAppends (W.contents stream.old) (W.contents stream.new) result bytes.now }
{
    for _ in 0..u64::MAX {
        match stream.write(bytes) {
            Err(error) if error.kind() == ErrorKind::Interrupted => {}
            answer => return answer,
        }
    }
    Err(io::Error::from(ErrorKind::Interrupted))
}

/// Whether the stream took all the bytes. Each turn writes a byte at least.
pub(crate) fn write_all<W: Write>(stream: &mut W, bytes: &[u8]) -> bool
    ensures { OnTrue result (Appends (W.contents stream.old) (W.contents stream.new) bytes.now) }
{
    let mut rest = bytes;
    for _ in bytes {
        if rest.is_empty() {
            return true;
        }
        match write_once(stream, rest) {
            Ok(0) | Err(_) => return false,
            Ok(count) => rest = &rest[count..],
        }
    }
    rest.is_empty()
}

// Writes in place, where the path is no plain file.
fn write_in_place<R: rt::Files>(rt: &R, path: &str, bytes: &[u8], mode: u32) -> bool {
    let mut options = OpenOptions::new();
    options.write(true).create(true).truncate(true).mode(mode);
    match options.open(rt, path) {
        Ok(mut file) => write_all(&mut file, bytes),
        Err(_error) => false,
    }
}

// Writes a file under a name that isn't taken, and answers whether it is whole.
fn write_new<R: rt::Files>(rt: &R, name: &str, bytes: &[u8], mode: u32) -> io::Result<bool> {
    let mut options = OpenOptions::new();
    options.write(true).create_new(true).mode(mode);
    match options.open(rt, name) {
        Ok(mut file) => Ok(write_all(&mut file, bytes)),
        Err(error) => Err(error),
    }
}

// A name in the folder of the path.
fn name_beside(alloc: Global, path: &str, number: u32) -> Result<String, AllocError>
    ensures { IfOk result (λ name. string_bytes name ≡ name_beside path.now number) }
{
    match path.rsplit_once('/') {
        Some((folder, _name)) => format!(in alloc; "{folder}/.wild_macho.{number}"),
        None => format!(in alloc; ".wild_macho.{number}"),
    }
}

// Puts a new file in the place of the path where it is whole, and else removes it.
fn put_in_place<R: rt::Files>(rt: &R, name: &str, path: &str, whole: bool) -> bool {
    if whole && fs::rename(rt, name, path).is_ok() {
        return true;
    }
    let _removed = fs::remove_file(rt, name);
    false
}

// Writes a new file beside the path, and puts it in the path's place.
fn write_beside<R: rt::Files>(
    rt: &R,
    alloc: Global,
    path: &str,
    bytes: &[u8],
    mode: u32,
) -> Result<bool, AllocError> {
    for number in 0..NAMES {
        let name = name_beside(alloc, path, number)?;
        match write_new(rt, name.as_str(), bytes, mode) {
            Ok(whole) => return Ok(put_in_place(rt, name.as_str(), path, whole)),
            Err(error) if error.kind() == ErrorKind::AlreadyExists => {}
            Err(_error) => return Ok(false),
        }
    }
    Ok(false)
}

// Whether the path is a plain file or nothing, or a symbolic link to one or to nothing. `/dev/stdout` is none of them, even if it leads
// to a file.
fn is_plain<R: rt::Files>(rt: &R, path: &str) -> bool {
    if path.starts_with(DEVICES) {
        return false;
    }
    match fs::metadata(rt, path) {
        Ok(metadata) => metadata.is_file(),
        Err(error) => error.kind() == ErrorKind::NotFound,
    }
}

/// Makes the path hold the bytes, and answers whether it does. A new file has these permissions.
pub(crate) fn write_file<R: rt::Files>(
    rt: &R,
    alloc: Global,
    path: &str,
    bytes: &[u8],
    mode: u32,
) -> Result<bool, AllocError> {
    if is_plain(rt, path) {
        write_beside(rt, alloc, path, bytes, mode)
    } else {
        Ok(write_in_place(rt, path, bytes, mode))
    }
}
