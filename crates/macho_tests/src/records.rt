//! What a caller may ask of sections, segments, symbols and names that the linker never asks; the numbers are those of the public headers.

use macho_records::{
    BuiltInSectionDetails, DynamicTagValues, NonAddressableIndexes, ProgramSegmentDef,
    RawSymbolName, SectionAttributes, SectionFlags, SegmentName, SegmentType, SymtabEntry,
    VerneedTable, Visibility,
};
use std::alloc::{AllocError, Global};
use std::fmt::Display;
use std::test::Fail;

/// Whether a type is zerofill, and of first values of thread-local variables, exactly where it should be.
fn is_type_row(typ: u32) -> bool {
    if typ > 255 {
        return false;
    }
    let attributes = SectionAttributes::new(typ + 0x400, None);
    attributes.is_no_bits() == (typ == 1 || typ == 0xc || typ == 0x12)
        && attributes.is_tls() == (typ == 0x11 || typ == 0x12)
        && attributes.ty() == typ
}

/// The attributes of two sections of one type, joined.
fn are_attributes_joined() -> bool {
    let mut joined = SectionAttributes::new(0x8000_0016, Some(SegmentName::TEXT));
    joined.merge(SectionAttributes::new(0x416, Some(SegmentName::DATA)));
    joined.set_to_default_type();
    joined.flags() == 0x8000_0416
        && joined.is_writable()
        && joined.is_executable()
        && SectionAttributes::default().flags() == 0
        && SectionFlags(0x416).typ() == 0x16
}

/// A segment, whether its sections are writable, its place, protection and flags, and whether it is kept without sections.
type Segment = (SegmentName, bool, u32, u32, u32, bool);

static SEGMENTS: [Segment; 6] = [
    (SegmentName::PAGEZERO, false, 3, 3, 0, false),
    (SegmentName::TEXT, false, 0, 5, 0, true),
    (SegmentName::DATA_CONST, true, 1, 3, 0x10, false),
    (SegmentName::DATA, true, 2, 3, 0, false),
    (SegmentName::LINKEDIT, false, 4, 1, 0, true),
    (SegmentName::LLVM, true, 3, 3, 0, false),
];

fn is_segment_row(row: &Segment) -> bool {
    let (name, writable, key, prot, flags, kept) = *row;
    let segment = ProgramSegmentDef::new(name);
    name.is_writable() == writable
        && segment.order_key() == key
        && segment.prot == prot
        && segment.flags == flags
        && segment.is_writable() == (prot == 3)
        && segment.is_executable() == (prot == 5)
        && segment.always_keep() == kept
}

/// The number of the first segment that is another, from 1; 0 where there is none.
fn first_other(rows: &[Segment]) -> usize {
    let mut number = 0usize;
    for row in rows {
        number = number.wrapping_add(1);
        if !is_segment_row(row) {
            return number;
        }
    }
    0
}

/// The types that Mach-O leaves plain can be made.
fn are_placeholders_made() -> bool {
    let _indexes = NonAddressableIndexes {};
    let _versions = VerneedTable {};
    let _tags = DynamicTagValues {};
    let _segment: SegmentType = ();
    let details = BuiltInSectionDetails {
        segment: Some(SegmentName::LINKEDIT),
        section_flags: SectionFlags(0),
        min_alignment: 3,
    };
    details.min_alignment == 3
}

#[test]
fn sections_and_segments(rt: HostRuntime) {
    for typ in 0..256u32 {
        assert!(rt; is_type_row(typ), "type {typ}");
    }
    assert_eq!(rt; first_other(&SEGMENTS), 0);
    assert!(rt; are_attributes_joined());
    assert!(rt; are_placeholders_made());
}

/// A global symbol in a section.
const FUNCTION: SymtabEntry = SymtabEntry {
    n_strx: 1,
    n_type: 0x0f,
    n_sect: 1,
    n_desc: 0,
    n_value: 0x20,
};

/// A common of 9 bytes, aligned to 8.
const COMMON: SymtabEntry = SymtabEntry {
    n_strx: 1,
    n_type: 0x01,
    n_sect: 0,
    n_desc: 0x0300,
    n_value: 9,
};

/// A function seen by other files, hidden, and seen again.
fn is_function_hidden() -> bool {
    let hidden = FUNCTION.with_hidden(true);
    FUNCTION.visibility() == Visibility::Default
        && hidden.n_type == 0x1f
        && hidden.visibility() == Visibility::Hidden
        && !hidden.is_interposable()
        && hidden.with_hidden(false).n_type == 0x0f
}

/// Commons have sizes, which are rounded up, and other symbols have none.
fn are_symbols_sized() -> bool {
    COMMON.size() == 16 && FUNCTION.size() == 0 && FUNCTION.value() == 0x20
}

/// Whether a value is printed as this text.
fn is_printed<T: Display>(alloc: Global, value: &T, text: &str) -> Result<bool, AllocError> {
    Ok(value.to_string(alloc)?.as_str() == text)
}

/// Names are printed up to their first NUL, with a mark for a byte that is no text.
fn are_names_printed(alloc: Global) -> Result<bool, AllocError> {
    let segment = ProgramSegmentDef::new(SegmentName::from_bytes(b"__DATA\0junk"));
    let symbol = RawSymbolName::parse(b"a\xffb");
    Ok(is_printed(alloc, &segment, "__DATA")? && is_printed(alloc, &symbol, "a\u{FFFD}b")?)
}

#[test]
fn symbols_and_names(rt: HostRuntime) -> Result<(), Fail> {
    assert!(rt; is_function_hidden());
    assert!(rt; are_symbols_sized());
    assert!(rt; are_names_printed(rt.alloc())?);
    Ok(())
}
