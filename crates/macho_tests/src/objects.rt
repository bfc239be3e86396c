//! What a caller may ask of an object that the linker never asks: a section by its name, the alignment of one; and whether it is a library.
use macho_object::{File, ObjectFault, ObjectRule};

/// `__text` with two instructions, and no symbols.
const OBJECT: [u8; 216] = [
    // 0: header: object, 2 commands of 176 bytes
    0xcf, 0xfa, 0xed, 0xfe, 0x0c, 0, 0, 1, 0, 0, 0, 0, 1, 0, 0, 0, //
    2, 0, 0, 0, 176, 0, 0, 0, 0, 0x20, 0, 0, 0, 0, 0, 0, //
    // 32: LC_SEGMENT_64 of 152 bytes, 8 bytes at 208, one section
    0x19, 0, 0, 0, 152, 0, 0, 0, 0, 0, 0, 0, 0, 0, 0, 0, //
    0, 0, 0, 0, 0, 0, 0, 0, 0, 0, 0, 0, 0, 0, 0, 0, //
    8, 0, 0, 0, 0, 0, 0, 0, 208, 0, 0, 0, 0, 0, 0, 0, //
    8, 0, 0, 0, 0, 0, 0, 0, 7, 0, 0, 0, 7, 0, 0, 0, //
    1, 0, 0, 0, 0, 0, 0, 0, //
    // 104: `__text` of `__TEXT`: 8 bytes at 208, exponent 2, no relocations, flags 0x80000400
    0x5f, 0x5f, 0x74, 0x65, 0x78, 0x74, 0, 0, 0, 0, 0, 0, 0, 0, 0, 0, //
    0x5f, 0x5f, 0x54, 0x45, 0x58, 0x54, 0, 0, 0, 0, 0, 0, 0, 0, 0, 0, //
    0, 0, 0, 0, 0, 0, 0, 0, 8, 0, 0, 0, 0, 0, 0, 0, //
    208, 0, 0, 0, 2, 0, 0, 0, 0, 0, 0, 0, 0, 0, 0, 0, //
    0, 4, 0, 0x80, 0, 0, 0, 0, 0, 0, 0, 0, 0, 0, 0, 0, //
    // 184: LC_SYMTAB: nothing
    2, 0, 0, 0, 24, 0, 0, 0, 216, 0, 0, 0, 0, 0, 0, 0, 216, 0, 0, 0, 0, 0, 0, 0, //
    // 208: mov w0, #0; ret
    0, 0, 0x80, 0x52, 0xc0, 3, 0x5f, 0xd6,
];

fn object() -> [u8; 216] {
    OBJECT
}

/// Whether the object's one section is found by its name, and what its alignment is.
fn has_text(file: &File<'_>) -> bool {
    file.section_by_name(b"__text") == Some(0)
        && file.section_by_name(b"__tex").is_none()
        && file.section_alignment(0) == Some(4)
        && file.section_alignment(1).is_none()
        && file.install_name().is_none()
}

fn is_object_read() -> bool {
    match File::parse_bytes(&object(), false) {
        Ok(file) => has_text(&file),
        Err(_) => false,
    }
}

fn is_no_library() -> bool {
    File::parse_bytes(&object(), true).err()
        == Some(ObjectFault {
            place: 0,
            rule: ObjectRule::O1,
        })
}

#[test]
fn an_object_is_asked(rt: HostRuntime) {
    assert!(rt; is_object_read());
    assert!(rt; is_no_library());
}
