//! A linker without files that is used again: after an object that it refuses, and for a second image.

use macho_args::MachOArgs;
use macho_case_files::{GivenFile, Line, Unread, check_bytes, note};
use std::alloc::{AllocError, Global};
use wild_macho::{Linker, link};

/// A linker is given no more objects.
const MOST_INPUTS: u32 = 100;

// A linker without inputs.
fn fresh(alloc: Global) -> Result<Linker, AllocError> {
    let args = MachOArgs::new(alloc)?;
    match Linker::new(alloc, &args) {
        Ok(linker) => Ok(linker),
        Err(_no_memory) => Err(AllocError),
    }
}

// Gives the linker an object; whether it takes it.
fn takes(linker: &mut Linker, bytes: Vec<u8>) -> bool {
    linker.num_inputs() < MOST_INPUTS && linker.add_object(bytes).is_ok()
}

// Whether the linker takes all files but one, which leaves it as it was.
fn takes_all_but(
    alloc: Global,
    linker: &mut Linker,
    files: &[GivenFile<'_>],
    refused: &str,
) -> Result<bool, AllocError> {
    let mut count = 0u32;
    for file in files {
        let taken = takes(linker, Vec::from_slice(alloc, &file.bytes)?);
        count = count.saturating_add(u32::from(taken));
        if taken == (file.path == refused) || linker.num_inputs() != count {
            return Ok(false);
        }
    }
    Ok(true)
}

// The bytes of the linker's image, none where it gives none.
fn image_of(alloc: Global, linker: &Linker) -> Vec<u8> {
    match link(alloc, linker, [0; 16]) {
        Ok(image) => image.bytes,
        Err(_refusal) => Vec::new(alloc),
    }
}

// Notes where a linker doesn't make one image twice, with the length and the bytes that are wanted of the run's.
fn check_images(
    alloc: Global,
    found: &mut String,
    case: &[Line<'_>],
    linker: &Linker,
) -> Result<(), Unread> {
    let first = image_of(alloc, linker);
    let second = image_of(alloc, linker);
    note(alloc, found, "the linker's second image", &first, &second)?;
    check_bytes(alloc, found, case, &first)
}

// Gives a linker the files, and notes where it takes others or makes other images.
fn check_given(
    alloc: Global,
    found: &mut String,
    case: &[Line<'_>],
    linker: &mut Linker,
    (files, refused): (&[GivenFile<'_>], &str),
) -> Result<(), Unread> {
    if !takes_all_but(alloc, linker, files, refused)? {
        found.push_str("the linker takes other objects\n")?;
    }
    check_images(alloc, found, case, linker)
}

/// Notes where a linker without files doesn't refuse the one object and take the others, or doesn't make one image of them twice, with
/// the length and the bytes that are wanted of the run's.
pub(crate) fn check_linker(
    alloc: Global,
    found: &mut String,
    case: &[Line<'_>],
    files: &[GivenFile<'_>],
    refused: &str,
) -> Result<(), Unread> {
    let mut linker = fresh(alloc)?;
    check_given(alloc, found, case, &mut linker, (files, refused))
}
