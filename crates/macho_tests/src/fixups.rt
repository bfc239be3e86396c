//! Words of the loader, from bytes written out by hand, and the bytes that a table of fixups takes.
use macho_fixups::{table_size, write_bind_encoding, write_rebase_encoding};

#[test]
fn words_of_both_kinds(rt: HostRuntime) {
    assert!(rt; write_rebase_encoding(0x4000, 2).ok() == Some(*b"\x00\x40\0\0\0\0\x10\0"));
    assert!(rt;
        write_rebase_encoding(0xff00_0000_0000_0000, 0).ok() == Some(*b"\0\0\0\0\xf0\x0f\0\0")
    );
    assert!(rt; write_rebase_encoding(1 << 36, 0).is_err());
    assert!(rt; write_bind_encoding(3, 5, 0).ok() == Some(*b"\x03\0\0\x05\0\0\0\x80"));
    assert!(rt; write_bind_encoding(3, 256, 0).is_err());
}

/// A header of 28 bytes, a count and six offsets of 4, six records of 22, two entries of 8 and 7 bytes of names, to a multiple of 8: 216.
/// Then three pages of 2, to a multiple of 8.
#[test]
fn a_table_of_two_entries_and_three_pages(rt: HostRuntime) {
    assert_eq!(rt; table_size(2, 8, 7, 3), 224);
}
