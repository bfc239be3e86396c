//! Two images written out by hand, by `mach-o/loader.h` and `mach-o/fixup-chains.h`, which tests of several crates read.

/// The head of the smallest image: header, `__PAGEZERO`, `__TEXT` with one section, the entry point, the dynamic linker and the section's
/// two instructions.
const SMALLEST: [u8; 320] = [
    // 0: header: executable, 4 commands of 280 bytes
    0xcf, 0xfa, 0xed, 0xfe, 0x0c, 0, 0, 1, 0, 0, 0, 0, 2, 0, 0, 0, //
    4, 0, 0, 0, 24, 1, 0, 0, 0x85, 0, 0x20, 0, 0, 0, 0, 0, //
    // 32: `__PAGEZERO`
    0x19, 0, 0, 0, 72, 0, 0, 0, 0x5f, 0x5f, 0x50, 0x41, 0x47, 0x45, 0x5a, 0x45, //
    0x52, 0x4f, 0, 0, 0, 0, 0, 0, 0, 0, 0, 0, 0, 0, 0, 0, //
    0, 0, 0, 0, 1, 0, 0, 0, 0, 0, 0, 0, 0, 0, 0, 0, //
    0, 0, 0, 0, 0, 0, 0, 0, 0, 0, 0, 0, 0, 0, 0, 0, //
    0, 0, 0, 0, 0, 0, 0, 0, //
    // 104: `__TEXT`: a page at 0x100000000, to be read and executed, one section
    0x19, 0, 0, 0, 152, 0, 0, 0, 0x5f, 0x5f, 0x54, 0x45, 0x58, 0x54, 0, 0, //
    0, 0, 0, 0, 0, 0, 0, 0, 0, 0, 0, 0, 1, 0, 0, 0, //
    0, 0x40, 0, 0, 0, 0, 0, 0, 0, 0, 0, 0, 0, 0, 0, 0, //
    0, 0x40, 0, 0, 0, 0, 0, 0, 5, 0, 0, 0, 5, 0, 0, 0, //
    1, 0, 0, 0, 0, 0, 0, 0, //
    // 176: `__text`: 8 bytes at 0x138
    0x5f, 0x5f, 0x74, 0x65, 0x78, 0x74, 0, 0, 0, 0, 0, 0, 0, 0, 0, 0, //
    0x5f, 0x5f, 0x54, 0x45, 0x58, 0x54, 0, 0, 0, 0, 0, 0, 0, 0, 0, 0, //
    0x38, 1, 0, 0, 1, 0, 0, 0, 8, 0, 0, 0, 0, 0, 0, 0, //
    0x38, 1, 0, 0, 2, 0, 0, 0, 0, 0, 0, 0, 0, 0, 0, 0, //
    0, 4, 0, 0x80, 0, 0, 0, 0, 0, 0, 0, 0, 0, 0, 0, 0, //
    // 256: the entry point at 0x138; 280: the dynamic linker
    0x28, 0, 0, 0x80, 24, 0, 0, 0, 0x38, 1, 0, 0, 0, 0, 0, 0, 0, 0, 0, 0, 0, 0, 0, 0, //
    0x0e, 0, 0, 0, 32, 0, 0, 0, 12, 0, 0, 0, 0x2f, 0x75, 0x73, 0x72, //
    0x2f, 0x6c, 0x69, 0x62, 0x2f, 0x64, 0x79, 0x6c, 0x64, 0, 0, 0, 0, 0, 0, 0, //
    // 312: mov w0, #0; ret
    0, 0, 0x80, 0x52, 0xc0, 3, 0x5f, 0xd6,
];

/// An executable of one page whose `_main` answers 0. Zeros fill the page behind its head.
pub fn smallest_image() -> [u8; 0x4000] {
    let mut image = [0; 0x4000];
    image[..320].copy_from_slice(&SMALLEST);
    image
}

/// The head of an image with fixups: header, `__PAGEZERO`, `__TEXT`, `__DATA`, one library, and a fixup table with starts
/// in two pages of `__DATA` and one import.
const CHAINED: [u8; 403] = [
    // 0: header: executable, 5 commands of 288 bytes
    0xcf, 0xfa, 0xed, 0xfe, 0x0c, 0, 0, 1, 0, 0, 0, 0, 2, 0, 0, 0, //
    5, 0, 0, 0, 32, 1, 0, 0, 0x85, 0, 0x20, 0, 0, 0, 0, 0, //
    // 32: `__PAGEZERO`
    0x19, 0, 0, 0, 72, 0, 0, 0, 0x5f, 0x5f, 0x50, 0x41, 0x47, 0x45, 0x5a, 0x45, //
    0x52, 0x4f, 0, 0, 0, 0, 0, 0, 0, 0, 0, 0, 0, 0, 0, 0, //
    0, 0, 0, 0, 1, 0, 0, 0, 0, 0, 0, 0, 0, 0, 0, 0, //
    0, 0, 0, 0, 0, 0, 0, 0, 0, 0, 0, 0, 0, 0, 0, 0, //
    0, 0, 0, 0, 0, 0, 0, 0, //
    // 104: `__TEXT`: a page at 0x100000000
    0x19, 0, 0, 0, 72, 0, 0, 0, 0x5f, 0x5f, 0x54, 0x45, 0x58, 0x54, 0, 0, //
    0, 0, 0, 0, 0, 0, 0, 0, 0, 0, 0, 0, 1, 0, 0, 0, //
    0, 0x40, 0, 0, 0, 0, 0, 0, 0, 0, 0, 0, 0, 0, 0, 0, //
    0, 0x40, 0, 0, 0, 0, 0, 0, 5, 0, 0, 0, 5, 0, 0, 0, //
    0, 0, 0, 0, 0, 0, 0, 0, //
    // 176: `__DATA`: two pages at 0x100004000, of the file 0x4010 bytes from 0x4000 on
    0x19, 0, 0, 0, 72, 0, 0, 0, 0x5f, 0x5f, 0x44, 0x41, 0x54, 0x41, 0, 0, //
    0, 0, 0, 0, 0, 0, 0, 0, 0, 0x40, 0, 0, 1, 0, 0, 0, //
    0, 0x80, 0, 0, 0, 0, 0, 0, 0, 0x40, 0, 0, 0, 0, 0, 0, //
    0x10, 0x40, 0, 0, 0, 0, 0, 0, 3, 0, 0, 0, 3, 0, 0, 0, //
    0, 0, 0, 0, 0, 0, 0, 0, //
    // 248: the library /usr/lib/libSystem.B.dylib
    0x0c, 0, 0, 0, 56, 0, 0, 0, 24, 0, 0, 0, 2, 0, 0, 0, //
    0, 0, 0x4c, 5, 0, 0, 1, 0, 0x2f, 0x75, 0x73, 0x72, 0x2f, 0x6c, 0x69, 0x62, //
    0x2f, 0x6c, 0x69, 0x62, 0x53, 0x79, 0x73, 0x74, 0x65, 0x6d, 0x2e, 0x42, //
    0x2e, 0x64, 0x79, 0x6c, 0x69, 0x62, 0, 0, 0, 0, 0, 0, //
    // 304: the fixup table: 83 bytes at 320
    0x34, 0, 0, 0x80, 16, 0, 0, 0, 0x40, 1, 0, 0, 83, 0, 0, 0, //
    // 320: its header: starts at 28, imports at 72, names at 76, one import of format 1
    0, 0, 0, 0, 28, 0, 0, 0, 72, 0, 0, 0, 76, 0, 0, 0, //
    1, 0, 0, 0, 1, 0, 0, 0, 0, 0, 0, 0, //
    // 348: three segments, of which the third has starts, 16 bytes from here
    3, 0, 0, 0, 0, 0, 0, 0, 0, 0, 0, 0, 16, 0, 0, 0, //
    // 364: its starts: pages of 0x4000, pointers of format 6, at 0x4000 from the base; 0x10 and 8
    26, 0, 0, 0, 0, 0x40, 6, 0, 0, 0x40, 0, 0, 0, 0, 0, 0, //
    0, 0, 0, 0, 2, 0, 0x10, 0, 8, 0, 0, 0, //
    // 392: the import: library 1, its name at 1; the names
    1, 2, 0, 0, 0, 0x5f, 0x65, 0x78, 0x69, 0x74, 0,
];

/// What stands at 0x4000: two numbers, a pointer to 0x138 from the base with two steps to the next word, and a pointer to
/// import 0 plus 5.
const FIRST_PAGE: [u8; 32] = [
    0x22, 0x11, 0, 0, 0, 0, 0, 0, 0x44, 0x33, 0, 0, 0, 0, 0, 0, //
    0x38, 1, 0, 0, 0, 0, 0x10, 0, 0, 0, 0, 5, 0, 0, 0, 0x80,
];

/// What stands at 0x8000: a number, and a pointer to 0x4000 from the base with the highest byte 0x7f.
const SECOND_PAGE: [u8; 16] = [0x66, 0x55, 0, 0, 0, 0, 0, 0, 0, 0x40, 0, 0, 0xf0, 7, 0, 0];

/// An executable whose chain has three words over two pages of `__DATA`: two pointers to places of its own, and one to an import.
pub fn chained_image() -> [u8; 0x8010] {
    let mut image = [0; 0x8010];
    image[..403].copy_from_slice(&CHAINED);
    image[0x4000..0x4020].copy_from_slice(&FIRST_PAGE);
    image[0x8000..0x8010].copy_from_slice(&SECOND_PAGE);
    image
}
