//! The images that the tools are run on: written out by hand, or changed from these.

use macho_samples::{chained_image, smallest_image};
use std::alloc::{AllocError, Global};

/// An image that changes begin with.
#[derive(Clone, Copy)]
pub(crate) enum Start {
    /// The executable of `-generate 1`, but for its symbols and its signature.
    Generated,
    /// The executable of one page; its commands end at 312.
    Smallest,
    /// The executable with three words on its chain, over two pages.
    Chained,
    /// The executable of one page with a trie of one name, of 10,000 times `a`.
    Long,
    /// The first 16 bytes of the first one.
    Cut,
}

/// Bytes that are written into an image, from a place on.
pub(crate) type Change = (usize, &'static [u8]);

/// The head of the first image: header, segments, entry, identifier, the dynamic linker, fixup table, exports trie, symbol table and
/// signature (`mach-o/loader.h`).
const HEAD: [u8; 632] = [
    0xcf, 0xfa, 0xed, 0xfe, 0x0c, 0, 0, 1, 0, 0, 0, 0, 2, 0, 0, 0, //
    0x0b, 0, 0, 0, 0x58, 2, 0, 0, 0x85, 0, 0x20, 0, 0, 0, 0, 0, //
    0x19, 0, 0, 0, 0x48, 0, 0, 0, 0x5f, 0x5f, 0x50, 0x41, 0x47, 0x45, 0x5a, 0x45, //
    0x52, 0x4f, 0, 0, 0, 0, 0, 0, 0, 0, 0, 0, 0, 0, 0, 0, //
    0, 0, 0, 0, 1, 0, 0, 0, 0, 0, 0, 0, 0, 0, 0, 0, //
    0, 0, 0, 0, 0, 0, 0, 0, 0, 0, 0, 0, 0, 0, 0, 0, //
    0, 0, 0, 0, 0, 0, 0, 0, 0x19, 0, 0, 0, 0x98, 0, 0, 0, //
    0x5f, 0x5f, 0x54, 0x45, 0x58, 0x54, 0, 0, 0, 0, 0, 0, 0, 0, 0, 0, //
    0, 0, 0, 0, 1, 0, 0, 0, 0, 0x40, 0, 0, 0, 0, 0, 0, //
    0, 0, 0, 0, 0, 0, 0, 0, 0, 0x40, 0, 0, 0, 0, 0, 0, //
    5, 0, 0, 0, 5, 0, 0, 0, 1, 0, 0, 0, 0, 0, 0, 0, //
    0x5f, 0x5f, 0x74, 0x65, 0x78, 0x74, 0, 0, 0, 0, 0, 0, 0, 0, 0, 0, //
    0x5f, 0x5f, 0x54, 0x45, 0x58, 0x54, 0, 0, 0, 0, 0, 0, 0, 0, 0, 0, //
    0x78, 2, 0, 0, 1, 0, 0, 0, 8, 0, 0, 0, 0, 0, 0, 0, //
    0x78, 2, 0, 0, 2, 0, 0, 0, 0, 0, 0, 0, 0, 0, 0, 0, //
    0, 4, 0, 0x80, 0, 0, 0, 0, 0, 0, 0, 0, 0, 0, 0, 0, //
    0x19, 0, 0, 0, 0x98, 0, 0, 0, 0x5f, 0x5f, 0x44, 0x41, 0x54, 0x41, 0, 0, //
    0, 0, 0, 0, 0, 0, 0, 0, 0, 0x40, 0, 0, 1, 0, 0, 0, //
    0, 0x40, 0, 0, 0, 0, 0, 0, 0, 0x40, 0, 0, 0, 0, 0, 0, //
    0, 0x40, 0, 0, 0, 0, 0, 0, 3, 0, 0, 0, 3, 0, 0, 0, //
    1, 0, 0, 0, 0, 0, 0, 0, 0x5f, 0x5f, 0x64, 0x61, 0x74, 0x61, 0, 0, //
    0, 0, 0, 0, 0, 0, 0, 0, 0x5f, 0x5f, 0x44, 0x41, 0x54, 0x41, 0, 0, //
    0, 0, 0, 0, 0, 0, 0, 0, 0, 0x40, 0, 0, 1, 0, 0, 0, //
    8, 0, 0, 0, 0, 0, 0, 0, 0, 0x40, 0, 0, 3, 0, 0, 0, //
    0, 0, 0, 0, 0, 0, 0, 0, 0, 0, 0, 0, 0, 0, 0, 0, //
    0, 0, 0, 0, 0, 0, 0, 0, 0x19, 0, 0, 0, 0x48, 0, 0, 0, //
    0x5f, 0x5f, 0x4c, 0x49, 0x4e, 0x4b, 0x45, 0x44, 0x49, 0x54, 0, 0, 0, 0, 0, 0, //
    0, 0x80, 0, 0, 1, 0, 0, 0, 0, 0x40, 0, 0, 0, 0, 0, 0, //
    0, 0x80, 0, 0, 0, 0, 0, 0, 0xcc, 2, 0, 0, 0, 0, 0, 0, //
    1, 0, 0, 0, 1, 0, 0, 0, 0, 0, 0, 0, 0, 0, 0, 0, //
    0x28, 0, 0, 0x80, 0x18, 0, 0, 0, 0x78, 2, 0, 0, 0, 0, 0, 0, //
    0, 0, 0, 0, 0, 0, 0, 0, 0x1b, 0, 0, 0, 0x18, 0, 0, 0, //
    0x3d, 0x31, 0xf5, 0x36, 0, 0xad, 0x36, 0xad, 0xa2, 0x2c, 0xd2, 0x1c, 0x4e, 0x8c, 0xa6, 0xf7, //
    0x0e, 0, 0, 0, 0x20, 0, 0, 0, 0x0c, 0, 0, 0, 0x2f, 0x75, 0x73, 0x72, //
    0x2f, 0x6c, 0x69, 0x62, 0x2f, 0x64, 0x79, 0x6c, 0x64, 0, 0, 0, 0, 0, 0, 0, //
    0x34, 0, 0, 0x80, 0x10, 0, 0, 0, 0, 0x80, 0, 0, 0xc8, 0, 0, 0, //
    0x33, 0, 0, 0x80, 0x10, 0, 0, 0, 0xc8, 0x80, 0, 0, 0x1c, 0, 0, 0, //
    2, 0, 0, 0, 0x18, 0, 0, 0, 0xf8, 0x80, 0, 0, 2, 0, 0, 0, //
    0x18, 0x81, 0, 0, 0x0b, 0, 0, 0, 0x1d, 0, 0, 0, 0x10, 0, 0, 0, //
    0x30, 0x81, 0, 0, 0x9c, 1, 0, 0, //
];

/// Its fixup table: one chain in the third of four segments, pages of 16 KiB, pointers of format 6, first word at 0.
const TABLE: [u8; 80] = [
    0, 0, 0, 0, 0x1c, 0, 0, 0, 0x48, 0, 0, 0, 0x48, 0, 0, 0, //
    0, 0, 0, 0, 1, 0, 0, 0, 0, 0, 0, 0, 4, 0, 0, 0, //
    0, 0, 0, 0, 0, 0, 0, 0, 0x14, 0, 0, 0, 0, 0, 0, 0, //
    0x18, 0, 0, 0, 0, 0x40, 6, 0, 0, 0x40, 0, 0, 0, 0, 0, 0, //
    0, 0, 0, 0, 1, 0, 0, 0, 0, 0, 0, 0, 0, 0, 0, 0,
];

/// Its trie: `_` leads to `main` at 0x278 and to `p0` at 0x4000.
const TRIE: [u8; 28] = [
    0, 1, 0x5f, 0, 5, 0, 2, 0x6d, 0x61, 0x69, 0x6e, 0, 0x11, 0x70, 0x30, 0, 0x16, //
    3, 0, 0xf8, 4, 0, 4, 0, 0x80, 0x80, 1, 0,
];

/// What stands in it, with the pointer at 0x4000 to 0x278 from the base.
static GENERATED: [Change; 4] = [
    (0, &HEAD),
    (0x4000, &[0x78, 2]),
    (0x8000, &TABLE),
    (0x80c8, &TRIE),
];

fn generated() -> &'static [Change] {
    &GENERATED
}

// The executable of `-generate 1`.
fn generated_image(alloc: Global) -> Result<Vec<u8>, AllocError> {
    let mut image = vec![in alloc; 0u8; 0x82cc]?;
    change(&mut image, generated());
    Ok(image)
}

/// One command more than the smallest image has, of a trie at 0x1000 whose one edge is behind the name: it leads to a node for 0x138.
static LONG: [Change; 4] = [
    (16, &[5, 0, 0, 0, 0x28, 1, 0, 0]),
    (
        312,
        &[0x33, 0, 0, 0x80, 16, 0, 0, 0, 0, 16, 0, 0, 0x1a, 0x27, 0, 0],
    ),
    (0x1000, &[0, 1]),
    (0x1000 + 10_002, &[0, 0x95, 0x4e, 3, 0, 0xb8, 2, 0]),
];

fn long() -> &'static [Change] {
    &LONG
}

// The executable of one page with a long name.
fn long_image(alloc: Global) -> Result<Vec<u8>, AllocError> {
    let mut image = smallest_image().to_vec(alloc)?;
    for place in image.iter_mut().skip(0x1002).take(10_000) {
        *place = b'a';
    }
    change(&mut image, long());
    Ok(image)
}

fn start_of(alloc: Global, start: Start) -> Result<Vec<u8>, AllocError> {
    match start {
        Start::Generated => generated_image(alloc),
        Start::Smallest => smallest_image().to_vec(alloc),
        Start::Chained => chained_image().to_vec(alloc),
        Start::Long => long_image(alloc),
        Start::Cut => HEAD[..16].to_vec(alloc),
    }
}

fn write_at(image: &mut Vec<u8>, from: usize, bytes: &[u8]) {
    for (place, byte) in image.iter_mut().skip(from).zip(bytes.iter()) {
        *place = *byte;
    }
}

fn change(image: &mut Vec<u8>, changes: &[Change]) {
    for (from, bytes) in changes {
        write_at(image, *from, bytes);
    }
}

/// The image that begins so, with these changes.
pub(crate) fn changed_image(
    alloc: Global,
    start: Start,
    changes: &[Change],
) -> Result<Vec<u8>, AllocError> {
    let mut image = start_of(alloc, start)?;
    change(&mut image, changes);
    Ok(image)
}
