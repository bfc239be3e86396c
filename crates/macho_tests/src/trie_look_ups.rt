//! Look-up in tries from bytes written out.
use macho_trie::{Export, trie_lookup};

/// `_foobar` is 1, `_foo` 2, `_fop` 3.
pub(crate) const THREE: [u8; 32] = [
    0, 1, 0x5f, 0x66, 0x6f, 0, 7, // 0: one edge, `_fo` to 7
    0, 2, 0x6f, 0, 15, 0x70, 0, 28, // 7: two edges, `o` to 15 and `p` to 28
    2, 0, 2, 1, 0x62, 0x61, 0x72, 0, 24, // 15: value 2, one edge, `bar` to 24
    2, 0, 1, 0, // 24: value 1
    2, 0, 3, 0, // 28: value 3
];

/// `_exit` is a name of library 1, `_main` is at 0x218.
pub(crate) const REEXPORT: [u8; 29] = [
    0, 1, 0x5f, 0, 5, // 0: one edge, `_` to 5
    0, 2, 0x65, 0x78, 0x69, 0x74, 0, 19, 0x6d, 0x61, 0x69, 0x6e, 0, 24, // 5: `exit` to 19, `main` to 24
    3, 8, 1, 0, 0, // 19: flags 8, ordinal 1, the empty name
    3, 0, 0x98, 4, 0, // 24: address 0x218
];

/// What a look-up finds, in numbers: 1, flags and address; or 2, flags and ordinal of a name that the library has too, and 3 for
/// one that it has under another name; or zeros for nothing.
pub(crate) fn found(bytes: &[u8], name: &[u8]) -> [u64; 3] {
    match trie_lookup(bytes, name) {
        None => [0; 3],
        Some(Export::Value { flags, address }) => [1, flags, address],
        Some(
            Export::Reexport {
                flags,
                ordinal,
                name: [],
            },
        ) => [2, flags, ordinal],
        Some(Export::Reexport { flags, ordinal, .. }) => [3, flags, ordinal],
    }
}

/// What a row says, a trie, a name, and what is found.
type Row = (&'static str, &'static [u8], &'static [u8], [u64; 3]);

static ROWS: [Row; 21] = [
    ("a name", &THREE, b"_foobar", [1, 0, 1]),
    ("a beginning of another name", &THREE, b"_foo", [1, 0, 2]),
    ("a name beside it", &THREE, b"_fop", [1, 0, 3]),
    ("a name of an address", &REEXPORT, b"_main", [1, 0, 0x218]),
    ("a name of a library", &REEXPORT, b"_exit", [2, 8, 1]),
    ("the empty name", &THREE, b"", [0; 3]),
    ("a beginning of names alone", &THREE, b"_fo", [0; 3]),
    ("more than the longest name", &THREE, b"_foobarx", [0; 3]),
    ("more than another name", &THREE, b"_foox", [0; 3]),
    ("a name without its first byte", &THREE, b"foo", [0; 3]),
    ("no bytes", &[], b"", [0; 3]),
    ("a node without the number of its edges", &[0], b"", [0; 3]),
    (
        "a terminal part that passes the end",
        &[3, 0, 1],
        b"",
        [0; 3],
    ),
    (
        "an address that isn't in the terminal part",
        &[1, 0, 0, 0],
        b"",
        [0; 3],
    ),
    (
        "a NUL that isn't in the terminal part",
        &[2, 8, 1, 0],
        b"",
        [0; 3],
    ),
    ("an edge without its number", &[0, 1, 0x61, 0], b"a", [0; 3]),
    (
        "a label without a NUL in front of its end",
        &[0, 2, 0x61, 0, 6, 0x62, 2, 0, 1, 0],
        b"b",
        [0; 3],
    ),
    ("a circle", &[0, 1, 0x61, 0, 0], b"aaa", [0; 3]),
    ("an empty label", &[0, 1, 0, 0], b"a", [0; 3]),
    (
        "an empty label in front of another",
        &[0, 2, 0, 0, 0x61, 0, 7, 2, 0, 5, 0],
        b"a",
        [1, 0, 5],
    ),
    (
        "a terminal part longer than its numbers",
        &[3, 0, 1, 0xff, 0],
        b"",
        [1, 0, 1],
    ),
];

/// What the first row says that finds something else.
fn first_wrong(rows: &[Row]) -> &'static str {
    for (says, bytes, name, wanted) in rows {
        if found(bytes, name) != *wanted {
            return says;
        }
    }
    ""
}

#[test]
fn each_name_leads_to_what_stands_for_it(rt: HostRuntime) {
    assert_eq!(rt; first_wrong(&ROWS), "");
}
