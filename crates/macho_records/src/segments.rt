//! Segments by their names.
//!
//! A name fills 16 bytes with zeros (`mach-o/loader.h`):
//!
//!     5f 5f 4c 49 4e 4b 45 44 49 54 00 00 00 00 00 00   `__LINKEDIT`
ghost use Rattle.std.specs.Prelude.{◌≡◌, ◌≤◌, true, false, length, bytes_eq};
ghost use Rattle.macho_records.specs.Flags.{has_any};
ghost use Rattle.macho_records.specs.Texts.{ascii_output};
ghost use Rattle.macho_records.specs.Segments.{text_of, name_field, is_writable_segment, is_always_kept, order_key_of, segment_def_of};

use crate::constants::{SG_READ_ONLY, VM_PROT_EXECUTE, VM_PROT_READ, VM_PROT_WRITE};
use crate::names::{is_named, name_bytes, write_bytes};
use std::fmt;

/// The name of a segment, filled with zeros to 16 bytes.
#[derive(Clone, Copy, PartialEq, Eq, Hash)]
pub struct SegmentName([u8; 16]);

impl SegmentName {
    /// `SEG_PAGEZERO`: no access, so that a null pointer faults.
    pub const PAGEZERO: SegmentName = SegmentName(*b"__PAGEZERO\0\0\0\0\0\0");
    /// `SEG_TEXT`: code, and data that nothing writes.
    pub const TEXT: SegmentName = SegmentName(*b"__TEXT\0\0\0\0\0\0\0\0\0\0");
    /// `SEG_DATA`: data that the program writes.
    pub const DATA: SegmentName = SegmentName(*b"__DATA\0\0\0\0\0\0\0\0\0\0");
    /// `__DATA_CONST`: data that only the dynamic linker writes.
    pub const DATA_CONST: SegmentName = SegmentName(*b"__DATA_CONST\0\0\0\0");
    /// `SEG_LINKEDIT`: the linker's tables.
    pub const LINKEDIT: SegmentName = SegmentName(*b"__LINKEDIT\0\0\0\0\0\0");
    /// `__LLVM`: bitcode.
    pub const LLVM: SegmentName = SegmentName(*b"__LLVM\0\0\0\0\0\0\0\0\0\0");

    /// The name of at most 16 bytes; bytes from the first NUL on become zero.
    pub fn from_bytes(name: &[u8]) -> SegmentName
        requires { length name.now ≤ 16 }
        ensures { result.0 ≡ name_field name.now }
    {
        let text = name_bytes(name);
        let mut bytes = [0; 16];
        bytes[..text.len()].copy_from_slice(text);
        SegmentName(bytes)
    }

    /// The 16 bytes.
    pub fn into_bytes(self) -> [u8; 16]
        ensures { result ≡ self.0 }
    {
        self.0
    }

    /// Whether a program may write to sections of this segment.
    pub fn is_writable(self) -> bool
        ensures { result ≡ is_writable_segment (text_of self) }
    {
        !(self.is(b"__PAGEZERO") || self.is(b"__TEXT") || self.is(b"__LINKEDIT"))
    }

    fn is(self, name: &[u8]) -> bool
        ensures { result ≡ bytes_eq (text_of self) name.now }
    {
        is_named(&self.0, name)
    }
}

/// Prints the name, without the zeros behind it.
impl fmt::Display for SegmentName {
    ghost output = { λ n. ascii_output (text_of n) };

    fn fmt<W: fmt::Write>(&self, f: &mut fmt::Formatter<W>) -> fmt::Result {
        write_bytes(f, name_bytes(&self.0))
    }
}

/// A segment of the output: its name, what a program may do in it, and its flags.
#[derive(Clone, Copy)]
pub struct ProgramSegmentDef {
    /// The name.
    pub name: SegmentName,
    /// The `VM_PROT_` bits.
    pub prot: u32,
    /// The `SG_` flags.
    pub flags: u32,
}

impl ProgramSegmentDef {
    /// The segment of a name, with the protection and flags that this name has.
    pub fn new(name: SegmentName) -> ProgramSegmentDef
        ensures { result ≡ segment_def_of name }
    {
        let prot = if name.is(b"__TEXT") {
            VM_PROT_READ + VM_PROT_EXECUTE
        } else if name.is(b"__LINKEDIT") {
            VM_PROT_READ
        } else {
            VM_PROT_READ + VM_PROT_WRITE
        };
        let flags = if name.is(b"__DATA_CONST") {
            SG_READ_ONLY
        } else {
            0
        };
        ProgramSegmentDef { name, prot, flags }
    }

    /// Whether a program may write to it.
    pub fn is_writable(&self) -> bool
        ensures { result ≡ has_any VM_PROT_WRITE self.now.prot }
    {
        self.prot & VM_PROT_WRITE != 0
    }

    /// Whether its bytes may be run.
    pub fn is_executable(&self) -> bool
        ensures { result ≡ has_any VM_PROT_EXECUTE self.now.prot }
    {
        self.prot & VM_PROT_EXECUTE != 0
    }

    /// Whether it stands in the output also where nothing is in it.
    pub fn always_keep(&self) -> bool
        ensures { result ≡ is_always_kept (text_of self.now.name) }
    {
        self.name.is(b"__TEXT") || self.name.is(b"__LINKEDIT")
    }

    /// Every segment is loaded.
    pub fn is_loadable(&self) -> bool
        ensures { result ≡ true }
    {
        true
    }

    /// No segment is a stack.
    pub fn is_stack(&self) -> bool
        ensures { result ≡ false }
    {
        false
    }

    /// No segment is thread-local.
    pub fn is_tls(&self) -> bool
        ensures { result ≡ false }
    {
        false
    }

    /// Where it stands among the segments, the least first.
    pub fn order_key(&self) -> u32
        ensures { result ≡ order_key_of (text_of self.now.name) }
    {
        if self.name.is(b"__TEXT") {
            0
        } else if self.name.is(b"__DATA_CONST") {
            1
        } else if self.name.is(b"__DATA") {
            2
        } else if self.name.is(b"__LINKEDIT") {
            4
        } else {
            3
        }
    }
}

/// Prints the name.
impl fmt::Display for ProgramSegmentDef {
    ghost output = { λ d. ascii_output (text_of d.name) };

    fn fmt<W: fmt::Write>(&self, f: &mut fmt::Formatter<W>) -> fmt::Result {
        self.name.fmt(f)
    }
}
