//! Look-up in unwind sections laid out apart from this project, whole and broken.

use macho_unwind::{Found, unwind_lookup};

/// The section of one function at 0x1000 of 0x20 bytes with encoding 0x02000000.
const ONE: [u8; 72] = [
    1, 0, 0, 0, 28, 0, 0, 0, 1, 0, 0, 0, 32, 0, 0, 0, 0, 0, 0, 0, 32, 0, 0, 0, 2, 0, 0, 0, 0, 0, 0,
    2, 0, 0x10, 0, 0, 56, 0, 0, 0, 56, 0, 0, 0, 0x20, 0x10, 0, 0, 0, 0, 0, 0, 56, 0, 0, 0, 3, 0, 0,
    0, 12, 0, 1, 0, 16, 0, 0, 0, 0, 0, 0, 0,
];

/// That of two instructions behind a head of 0x230 bytes, as a linked image has it.
const LINKED: [u8; 72] = [
    1, 0, 0, 0, 28, 0, 0, 0, 1, 0, 0, 0, 32, 0, 0, 0, 0, 0, 0, 0, 32, 0, 0, 0, 2, 0, 0, 0, 0, 0, 0,
    2, 0x30, 2, 0, 0, 56, 0, 0, 0, 56, 0, 0, 0, 0x38, 2, 0, 0, 0, 0, 0, 0, 56, 0, 0, 0, 3, 0, 0, 0,
    12, 0, 1, 0, 16, 0, 0, 0, 0, 0, 0, 0,
];

/// The bytes of the first.
pub(crate) fn one_function() -> &'static [u8] {
    &ONE
}

/// The first without its last byte.
const SHORT: [u8; 71] = [
    1, 0, 0, 0, 28, 0, 0, 0, 1, 0, 0, 0, 32, 0, 0, 0, 0, 0, 0, 0, 32, 0, 0, 0, 2, 0, 0, 0, 0, 0, 0,
    2, 0, 0x10, 0, 0, 56, 0, 0, 0, 56, 0, 0, 0, 0x20, 0x10, 0, 0, 0, 0, 0, 0, 56, 0, 0, 0, 3, 0, 0,
    0, 12, 0, 1, 0, 16, 0, 0, 0, 0, 0, 0,
];

/// What a row says, a section, an offset, and the start and encoding of the function there; zeros where there is none.
type Row = (&'static str, &'static [u8], u32, [u32; 2]);

static ROWS: [Row; 12] = [
    ("in front of the function", &ONE, 0x0fff, [0; 2]),
    ("its first byte", &ONE, 0x1000, [0x1000, 0x0200_0000]),
    ("its last byte", &ONE, 0x101f, [0x1000, 0x0200_0000]),
    ("behind it", &ONE, 0x1020, [0; 2]),
    ("in front of two instructions", &LINKED, 0x22f, [0; 2]),
    ("the first of them", &LINKED, 0x230, [0x230, 0x0200_0000]),
    ("their last byte", &LINKED, 0x237, [0x230, 0x0200_0000]),
    ("behind them", &LINKED, 0x238, [0; 2]),
    ("a section that is cut", &SHORT, 0x1000, [0; 2]),
    ("fewer bytes than a header", &[0; 27], 0, [0; 2]),
    ("tables behind the end", &[0xff; 72], 0, [0; 2]),
    ("no bytes", &[], 0, [0; 2]),
];

/// The start and the encoding of the function at an offset, which has neither personality nor language data.
fn found(section: &[u8], offset: u32) -> [u32; 2] {
    match unwind_lookup(section, offset) {
        Some(
            Found {
                start,
                encoding,
                personality: None,
                lsda: None,
            },
        ) => [start, encoding],
        Some(_) => [u32::MAX; 2],
        None => [0; 2],
    }
}

/// What the first row says that finds something else.
fn first_wrong(rows: &[Row]) -> &'static str {
    for (says, section, offset, wanted) in rows {
        if found(section, *offset) != *wanted {
            return says;
        }
    }
    ""
}

#[test]
fn each_offset_leads_to_its_function(rt: HostRuntime) {
    assert_eq!(rt; first_wrong(&ROWS), "");
}
