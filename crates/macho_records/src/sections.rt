//! What the flags and names of sections say.
//!
//! The flags of a section are its type in the low byte and attributes above (`mach-o/loader.h`): `0x80000400` is
//! regular and has only instructions.
ghost use Rattle.std.specs.Prelude.{◌≡◌, ◌==◌, ◌%◌, ◌&&◌, not, true, false, Bool, List, [], ◌∷◌, codes, bytes_eq};
ghost use Rattle.std.specs.List.{list_any};
ghost use Rattle.macho_records.specs.Flags.{has_any};
ghost use Rattle.macho_records.specs.declared.constants.TheConstants.{S_NON_LAZY_SYMBOL_POINTERS, S_LAZY_SYMBOL_POINTERS, S_SYMBOL_STUBS, S_LAZY_DYLIB_SYMBOL_POINTERS, S_THREAD_LOCAL_VARIABLE_POINTERS, S_ATTR_DEBUG};
ghost use Rattle.macho_bytes.specs.Texts.{name_of};
ghost use Rattle.macho_records.specs.Sections.{is_zerofill, is_zerofill_type, is_template_type, has_instructions, section_name_of, is_writable_of, should_exclude_of, attributes_of, merged, flags_of};

use crate::constants::{
    S_ATTR_DEBUG, S_ATTR_PURE_INSTRUCTIONS, S_ATTR_SOME_INSTRUCTIONS, S_GB_ZEROFILL,
    S_LAZY_DYLIB_SYMBOL_POINTERS, S_LAZY_SYMBOL_POINTERS, S_NON_LAZY_SYMBOL_POINTERS,
    S_SYMBOL_STUBS, S_THREAD_LOCAL_REGULAR, S_THREAD_LOCAL_VARIABLE_POINTERS,
    S_THREAD_LOCAL_ZEROFILL, S_ZEROFILL, SECTION_TYPE,
};
use crate::header::SectionHeader;
use crate::names::{is_named, name_bytes};
use crate::segments::SegmentName;

impl SectionHeader {
    /// Every section takes part in a link.
    pub fn is_alloc(&self) -> bool
        ensures { result ≡ true }
    {
        true
    }

    /// No section is merged by its contents.
    pub fn is_merge_section(&self) -> bool
        ensures { result ≡ false }
    {
        false
    }

    /// No section asks to be retained.
    pub fn should_retain(&self) -> bool
        ensures { result ≡ false }
    {
        false
    }

    /// No section is a group.
    pub fn is_group(&self) -> bool
        ensures { result ≡ false }
    {
        false
    }

    /// No section is a note.
    pub fn is_note(&self) -> bool
        ensures { result ≡ false }
    {
        false
    }

    /// No section is a null entry.
    pub fn is_null(&self) -> bool
        ensures { result ≡ false }
    {
        false
    }

    /// Whether a program may write to it: its segment isn't `__PAGEZERO`, `__TEXT` or `__LINKEDIT`.
    pub fn is_writable(&self) -> bool
        ensures { result ≡ is_writable_of self.now }
    {
        let name = name_bytes(&self.segname);
        !(name == b"__PAGEZERO".as_slice()
            || name == b"__TEXT".as_slice()
            || name == b"__LINKEDIT".as_slice())
    }

    /// Whether it has instructions.
    pub fn is_executable(&self) -> bool
        ensures { result ≡ has_instructions self.now.flags }
    {
        has_instructions(self.flags)
    }

    /// Whether it has no bytes in the file: it is zerofill.
    pub fn is_no_bits(&self) -> bool
        ensures { result ≡ is_zerofill self.now }
    {
        is_zerofill_type(SectionFlags(self.flags).typ())
    }

    /// Whether the output does not carry it: debug information that isn't `__compact_unwind`, a segment of the
    /// linker's own, or pointers and stubs that the linker makes itself.
    pub fn should_exclude(&self) -> bool
        ensures { result ≡ should_exclude_of self.now }
    {
        self.is_debug()
            || is_excluded_segment(&self.segname)
            || is_indirect_type(SectionFlags(self.flags).typ())
    }

    fn is_debug(&self) -> bool
        ensures { result ≡ (has_any S_ATTR_DEBUG self.now.flags && not (bytes_eq (section_name_of self.now) (codes "__compact_unwind"))) }
    {
        self.flags & S_ATTR_DEBUG != 0 && !is_named(&self.sectname, b"__compact_unwind")
    }
}

fn is_excluded_segment(field: &[u8]) -> bool
    ensures { result ≡ list_any (bytes_eq (name_of field.now)) (codes "__PAGEZERO" ∷ codes "__LINKEDIT" ∷ codes "__LLVM" ∷ []) }
{
    let name = name_bytes(field);
    name == b"__PAGEZERO".as_slice()
        || name == b"__LINKEDIT".as_slice()
        || name == b"__LLVM".as_slice()
}

/// Whether sections of a type have no bytes in the file.
pub fn is_zerofill_type(typ: u32) -> bool
    ensures { result ≡ is_zerofill_type typ }
{
    typ == S_ZEROFILL || typ == S_GB_ZEROFILL || typ == S_THREAD_LOCAL_ZEROFILL
}

fn is_indirect_type(typ: u32) -> bool
    ensures { result
        ≡ list_any (λ t. typ == t)
        (S_NON_LAZY_SYMBOL_POINTERS ∷ S_LAZY_SYMBOL_POINTERS ∷ S_SYMBOL_STUBS ∷ S_LAZY_DYLIB_SYMBOL_POINTERS
        ∷ S_THREAD_LOCAL_VARIABLE_POINTERS ∷ []) }
{
    typ == S_NON_LAZY_SYMBOL_POINTERS
        || typ == S_LAZY_SYMBOL_POINTERS
        || typ == S_SYMBOL_STUBS
        || typ == S_LAZY_DYLIB_SYMBOL_POINTERS
        || typ == S_THREAD_LOCAL_VARIABLE_POINTERS
}

/// Whether flags are those of a section with instructions.
pub fn has_instructions(flags: u32) -> bool
    ensures { result ≡ has_instructions flags }
{
    flags & (S_ATTR_PURE_INSTRUCTIONS + S_ATTR_SOME_INSTRUCTIONS) != 0
}

/// The flags of a section: its type in the low byte, attributes above.
#[derive(Clone, Copy)]
pub struct SectionFlags(pub u32);

impl SectionFlags {
    /// Every section takes part in a link.
    pub fn is_alloc(&self) -> bool
        ensures { result ≡ true }
    {
        true
    }

    /// The type, the low byte.
    pub fn typ(&self) -> u32
        ensures { result ≡ self.now.0 % 256 }
    {
        self.0 & SECTION_TYPE
    }
}

/// What sections that are joined have in common: one type, all their attributes, and whether one is writable.
#[derive(Clone, Copy, Default)]
pub struct SectionAttributes {
    /// The type.
    pub ty: u32,
    /// The attributes, without the type.
    pub attributes: u32,
    /// Whether a program may write to it.
    pub writable: bool,
}

impl SectionAttributes {
    /// The attributes of a section with these flags in a segment; in none it isn't writable.
    #[tactic(auto, using(crate::proofs::Bits::flags_whole))]
    pub fn new(flags: u32, segment: Option<SegmentName>) -> SectionAttributes
        ensures done { result ≡ attributes_of flags segment }
        ensures whole { flags_of result ≡ flags }
    {
        let ty = SectionFlags(flags).typ();
        SectionAttributes {
            ty,
            attributes: flags - ty,
            writable: match segment {
                Some(name) => name.is_writable(),
                None => false,
            },
        }
    }

    /// Joins the attributes of another section of the same type.
    pub fn merge(&mut self, rhs: SectionAttributes)
        requires { self.old.ty ≡ rhs.ty }
        ensures { self.new ≡ merged self.old rhs }
    {
        self.attributes |= rhs.attributes;
        self.writable |= rhs.writable;
    }

    /// No section is a null entry.
    pub fn is_null(&self) -> bool
        ensures { result ≡ false }
    {
        false
    }

    /// Every section takes part in a link.
    pub fn is_alloc(&self) -> bool
        ensures { result ≡ true }
    {
        true
    }

    /// Whether it has instructions.
    pub fn is_executable(&self) -> bool
        ensures { result ≡ has_instructions self.now.attributes }
    {
        has_instructions(self.attributes)
    }

    /// Whether it holds the first values of thread-local variables.
    pub fn is_tls(&self) -> bool
        ensures { result ≡ is_template_type self.now.ty }
    {
        self.ty == S_THREAD_LOCAL_REGULAR || self.ty == S_THREAD_LOCAL_ZEROFILL
    }

    /// Every section has addresses of its own.
    pub fn occupies_only_tls_address_space(&self) -> bool
        ensures { result ≡ false }
    {
        false
    }

    /// Whether a program may write to it.
    pub fn is_writable(&self) -> bool
        ensures { result ≡ self.now.writable }
    {
        self.writable
    }

    /// Whether it has no bytes in the file: it is zerofill.
    pub fn is_no_bits(&self) -> bool
        ensures { result ≡ is_zerofill_type self.now.ty }
    {
        is_zerofill_type(self.ty)
    }

    /// The flags: the attributes, with the type in the low byte.
    pub fn flags(&self) -> u32
        ensures { result ≡ flags_of self.now }
    {
        self.attributes | self.ty
    }

    /// The type.
    pub fn ty(&self) -> u32
        ensures { result ≡ self.now.ty }
    {
        self.ty
    }

    /// No effect: a type stays as it is.
    pub fn set_to_default_type(&mut self)
        ensures { self.new ≡ self.old }
    {}
}
