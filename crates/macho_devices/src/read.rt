//! The system's files as they are read.
ghost use Rattle.std.specs.Prelude.{◌≡◌, ◌<◌, IfOk, IfSome, length, vec_len};
ghost use Rattle.std.specs.Io.{ReadsAtMost};
ghost use Rattle.std.specs.Io.KnownBytes.{ReadConsumes};

use crate::file_system::FileFault;
use std::alloc::{AllocError, Global};
use std::fs::OpenFile;
use std::io::{self, ErrorKind, Read};
use std::{fs, rt};

/// A file of this many bytes is not read.
const FILE_LIMIT: u64 = 0x1_0000_0000;

/// How many bytes one call of the system is asked for at most.
const PIECE: usize = 0x10_0000;

/// How many bytes more than a file is expected to have one call is asked for.
const BEYOND: usize = 0x1000;

// Room for a piece.
fn piece_of(alloc: Global, size: usize) -> Result<Vec<u8>, AllocError>
    ensures { IfOk result (λ piece. vec_len piece ≡ size) }
{
    vec![in alloc; 0u8; size]
}

// One read. If a signal interrupts it, it is made again.
fn read_once<F: Read>(file: &mut F, piece: &mut [u8]) -> io::Result<usize>
    ensures bound { ReadsAtMost result piece.new }
    ensures bytes { ReadConsumes (F.remaining file.old) (F.remaining file.new) result piece.new }
{
    for _ in 0..u64::MAX {
        match file.read(piece) {
            Err(error) if error.kind() == ErrorKind::Interrupted => {}
            answer => return answer,
        }
    }
    Err(io::Error::from(ErrorKind::Interrupted))
}

// Reads to the end of the file, piece by piece. Each turn reads a byte at least, so the turns are enough for a file below the
// limit.
fn read_pieces<F: Read>(
    file: &mut F,
    alloc: Global,
    expected: usize,
    piece: &mut [u8],
) -> Result<Vec<u8>, FileFault>
    requires { 0 < length piece.old }
    ensures whole { IfOk result (λ bytes. IfSome (F.remaining file.old) (λ rest. bytes.items ≡ rest)) }
    ensures below { IfOk result (λ bytes. vec_len bytes < FILE_LIMIT) }
{
    let mut bytes = Vec::with_capacity(alloc, expected)?;
    for _ in 0..FILE_LIMIT {
        match read_once(file, piece) {
            Ok(0) => return Ok(bytes),
            Ok(count) => bytes.extend_from_slice(&piece[..count])?,
            Err(_error) => return Err(FileFault::Failed),
        }
        if bytes.len() as u64 >= FILE_LIMIT {
            return Err(FileFault::Failed);
        }
    }
    Err(FileFault::Failed)
}

// Reads to the end of the file, whose length is expected.
fn read_all<F: Read>(alloc: Global, file: &mut F, expected: usize) -> Result<Vec<u8>, FileFault>
    ensures whole { IfOk result (λ bytes. IfSome (F.remaining file.old) (λ rest. bytes.items ≡ rest)) }
    ensures below { IfOk result (λ bytes. vec_len bytes < FILE_LIMIT) }
{
    let size = if expected < PIECE - BEYOND {
        expected + BEYOND
    } else {
        PIECE
    };
    let mut piece = piece_of(alloc, size)?;
    read_pieces(file, alloc, expected, &mut piece)
}

// The length of an open file, 0 where the system doesn't tell it.
fn length_of<F: OpenFile>(file: &F) -> u64 {
    match file.metadata() {
        Ok(metadata) => metadata.len(),
        Err(_error) => 0,
    }
}

// The bytes of an open file.
fn read_open<F: Read + OpenFile>(alloc: Global, file: &mut F) -> Result<Vec<u8>, FileFault> {
    let length = length_of(file);
    if length >= FILE_LIMIT {
        return Err(FileFault::Failed);
    }
    read_all(alloc, file, length as usize)
}

/// The bytes of the file, or `None` where there is no such file.
pub(crate) fn read_file<R: rt::Files>(
    rt: &R,
    alloc: Global,
    path: &str,
) -> Result<Option<Vec<u8>>, FileFault> {
    match fs::open(rt, path) {
        Ok(mut file) => Ok(Some(read_open(alloc, &mut file)?)),
        Err(error) if error.kind() == ErrorKind::NotFound => Ok(None),
        Err(_error) => Err(FileFault::Failed),
    }
}
