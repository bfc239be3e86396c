//! Numbers of the Mach-O format, with the names and values of Apple's public headers.

/// `MH_MAGIC_64` of mach-o/loader.h: a 64-bit file begins with `cf fa ed fe`.
pub const MH_MAGIC_64: u32 = 0xfeed_facf;
/// `CPU_TYPE_ARM64` of mach/machine.h.
pub const CPU_TYPE_ARM64: u32 = 0x0100_000c;
/// `CPU_SUBTYPE_ARM64_ALL` of mach/machine.h.
pub const CPU_SUBTYPE_ARM64_ALL: u32 = 0;

/// `MH_OBJECT` of mach-o/loader.h: a file that a compiler made, to be linked.
pub const MH_OBJECT: u32 = 1;
/// `MH_EXECUTE` of mach-o/loader.h: an executable.
pub const MH_EXECUTE: u32 = 2;
/// `MH_DYLIB` of mach-o/loader.h: a dynamic library.
pub const MH_DYLIB: u32 = 6;

/// `MH_NOUNDEFS` of mach-o/loader.h: no undefined symbol is left.
pub const MH_NOUNDEFS: u32 = 0x1;
/// `MH_DYLDLINK` of mach-o/loader.h: input of the dynamic linker.
pub const MH_DYLDLINK: u32 = 0x4;
/// `MH_TWOLEVEL` of mach-o/loader.h: an import names its library.
pub const MH_TWOLEVEL: u32 = 0x80;
/// `MH_SUBSECTIONS_VIA_SYMBOLS` of mach-o/loader.h: sections may be cut at symbols.
pub const MH_SUBSECTIONS_VIA_SYMBOLS: u32 = 0x2000;
/// `MH_PIE` of mach-o/loader.h: the executable may be slid.
pub const MH_PIE: u32 = 0x20_0000;
/// `MH_HAS_TLV_DESCRIPTORS` of mach-o/loader.h: a section of thread-local descriptors is there.
pub const MH_HAS_TLV_DESCRIPTORS: u32 = 0x80_0000;

/// `LC_SYMTAB` of mach-o/loader.h: a [`SymtabCommand`](crate::SymtabCommand).
pub const LC_SYMTAB: u32 = 0x2;
/// `LC_LOAD_DYLIB` of mach-o/loader.h: a [`DylibCommand`](crate::DylibCommand), a library that is needed.
pub const LC_LOAD_DYLIB: u32 = 0xc;
/// `LC_ID_DYLIB` of mach-o/loader.h: a [`DylibCommand`](crate::DylibCommand), the name of this library.
pub const LC_ID_DYLIB: u32 = 0xd;
/// `LC_LOAD_DYLINKER` of mach-o/loader.h: a [`DylinkerCommand`](crate::DylinkerCommand).
pub const LC_LOAD_DYLINKER: u32 = 0xe;
/// `LC_SEGMENT_64` of mach-o/loader.h: a [`SegmentCommand`](crate::SegmentCommand).
pub const LC_SEGMENT_64: u32 = 0x19;
/// `LC_UUID` of mach-o/loader.h: a [`UuidCommand`](crate::UuidCommand).
pub const LC_UUID: u32 = 0x1b;
/// `LC_CODE_SIGNATURE` of mach-o/loader.h: a [`LinkeditDataCommand`](crate::LinkeditDataCommand).
pub const LC_CODE_SIGNATURE: u32 = 0x1d;
/// `LC_BUILD_VERSION` of mach-o/loader.h: a [`BuildVersionCommand`](crate::BuildVersionCommand).
pub const LC_BUILD_VERSION: u32 = 0x32;
/// `LC_RPATH` of mach-o/loader.h: an [`RpathCommand`](crate::RpathCommand).
pub const LC_RPATH: u32 = 0x8000_001c;
/// `LC_MAIN` of mach-o/loader.h: an [`EntryPointCommand`](crate::EntryPointCommand).
pub const LC_MAIN: u32 = 0x8000_0028;
/// `LC_DYLD_EXPORTS_TRIE` of mach-o/loader.h: a [`LinkeditDataCommand`](crate::LinkeditDataCommand).
pub const LC_DYLD_EXPORTS_TRIE: u32 = 0x8000_0033;
/// `LC_DYLD_CHAINED_FIXUPS` of mach-o/loader.h: a [`LinkeditDataCommand`](crate::LinkeditDataCommand).
pub const LC_DYLD_CHAINED_FIXUPS: u32 = 0x8000_0034;

/// `VM_PROT_READ` of mach/vm_prot.h.
pub const VM_PROT_READ: u32 = 1;
/// `VM_PROT_WRITE` of mach/vm_prot.h.
pub const VM_PROT_WRITE: u32 = 2;
/// `VM_PROT_EXECUTE` of mach/vm_prot.h.
pub const VM_PROT_EXECUTE: u32 = 4;

/// `SG_READ_ONLY` of mach-o/loader.h: read-only once the fixups are done.
pub const SG_READ_ONLY: u32 = 0x10;

/// `SECTION_TYPE` of mach-o/loader.h: the byte of a section's flags that is its type.
pub const SECTION_TYPE: u32 = 0x0000_00ff;
/// `SECTION_ATTRIBUTES` of mach-o/loader.h: the bits of a section's flags that are attributes.
pub const SECTION_ATTRIBUTES: u32 = 0xffff_ff00;

/// `S_REGULAR` of mach-o/loader.h: bytes without a rule of their own.
pub const S_REGULAR: u32 = 0x0;
/// `S_ZEROFILL` of mach-o/loader.h: zeros, with no bytes in the file.
pub const S_ZEROFILL: u32 = 0x1;
/// `S_NON_LAZY_SYMBOL_POINTERS` of mach-o/loader.h: pointers that the dynamic linker fills in.
pub const S_NON_LAZY_SYMBOL_POINTERS: u32 = 0x6;
/// `S_LAZY_SYMBOL_POINTERS` of mach-o/loader.h: pointers that are filled in when first used.
pub const S_LAZY_SYMBOL_POINTERS: u32 = 0x7;
/// `S_SYMBOL_STUBS` of mach-o/loader.h: stubs, of `reserved2` bytes each.
pub const S_SYMBOL_STUBS: u32 = 0x8;
/// `S_MOD_INIT_FUNC_POINTERS` of mach-o/loader.h: pointers to initializers.
pub const S_MOD_INIT_FUNC_POINTERS: u32 = 0x9;
/// `S_GB_ZEROFILL` of mach-o/loader.h: zeros, possibly more than 4 GiB.
pub const S_GB_ZEROFILL: u32 = 0xc;
/// `S_LAZY_DYLIB_SYMBOL_POINTERS` of mach-o/loader.h: lazy pointers into libraries that are loaded late.
pub const S_LAZY_DYLIB_SYMBOL_POINTERS: u32 = 0x10;
/// `S_THREAD_LOCAL_REGULAR` of mach-o/loader.h: first values of thread-local variables.
pub const S_THREAD_LOCAL_REGULAR: u32 = 0x11;
/// `S_THREAD_LOCAL_ZEROFILL` of mach-o/loader.h: thread-local variables that begin as zeros.
pub const S_THREAD_LOCAL_ZEROFILL: u32 = 0x12;
/// `S_THREAD_LOCAL_VARIABLES` of mach-o/loader.h: descriptors of thread-local variables.
pub const S_THREAD_LOCAL_VARIABLES: u32 = 0x13;
/// `S_THREAD_LOCAL_VARIABLE_POINTERS` of mach-o/loader.h: pointers to such descriptors.
pub const S_THREAD_LOCAL_VARIABLE_POINTERS: u32 = 0x14;
/// `S_INIT_FUNC_OFFSETS` of mach-o/loader.h: 32-bit offsets of initializers.
pub const S_INIT_FUNC_OFFSETS: u32 = 0x16;

/// `S_ATTR_PURE_INSTRUCTIONS` of mach-o/loader.h: only instructions.
pub const S_ATTR_PURE_INSTRUCTIONS: u32 = 0x8000_0000;
/// `S_ATTR_DEBUG` of mach-o/loader.h: debug information.
pub const S_ATTR_DEBUG: u32 = 0x0200_0000;
/// `S_ATTR_SOME_INSTRUCTIONS` of mach-o/loader.h: some instructions.
pub const S_ATTR_SOME_INSTRUCTIONS: u32 = 0x400;
/// `S_ATTR_EXT_RELOC` of mach-o/loader.h: has extern relocations.
pub const S_ATTR_EXT_RELOC: u32 = 0x200;
/// `S_ATTR_LOC_RELOC` of mach-o/loader.h: has relocations that are not extern.
pub const S_ATTR_LOC_RELOC: u32 = 0x100;

/// `N_STAB` of mach-o/nlist.h: a symbol with one of these bits of `n_type` is a debugging entry.
pub const N_STAB: u8 = 0xe0;
/// `N_PEXT` of mach-o/nlist.h: private external, seen by this link alone.
pub const N_PEXT: u8 = 0x10;
/// `N_TYPE` of mach-o/nlist.h: the bits of `n_type` that are the type.
pub const N_TYPE: u8 = 0x0e;
/// `N_EXT` of mach-o/nlist.h: external.
pub const N_EXT: u8 = 0x01;
/// `N_UNDF` of mach-o/nlist.h, a type: not defined here.
pub const N_UNDF: u8 = 0x0;
/// `N_ABS` of mach-o/nlist.h, a type: an absolute value.
pub const N_ABS: u8 = 0x2;
/// `N_SECT` of mach-o/nlist.h, a type: defined in the section of number `n_sect`.
pub const N_SECT: u8 = 0xe;
/// `N_WEAK_REF` of mach-o/nlist.h, a bit of `n_desc`: an undefined symbol that may be missing.
pub const N_WEAK_REF: u16 = 0x40;
/// `N_WEAK_DEF` of mach-o/nlist.h, a bit of `n_desc`: a definition that gives way.
pub const N_WEAK_DEF: u16 = 0x80;

/// `ARM64_RELOC_UNSIGNED` of mach-o/arm64/reloc.h: an address.
pub const ARM64_RELOC_UNSIGNED: u8 = 0;
/// `ARM64_RELOC_SUBTRACTOR` of mach-o/arm64/reloc.h: what the next address is less.
pub const ARM64_RELOC_SUBTRACTOR: u8 = 1;
/// `ARM64_RELOC_BRANCH26` of mach-o/arm64/reloc.h: the immediate of B or BL.
pub const ARM64_RELOC_BRANCH26: u8 = 2;
/// `ARM64_RELOC_PAGE21` of mach-o/arm64/reloc.h: the immediate of ADRP.
pub const ARM64_RELOC_PAGE21: u8 = 3;
/// `ARM64_RELOC_PAGEOFF12` of mach-o/arm64/reloc.h: the offset in a page.
pub const ARM64_RELOC_PAGEOFF12: u8 = 4;
/// `ARM64_RELOC_GOT_LOAD_PAGE21` of mach-o/arm64/reloc.h: the page of a slot.
pub const ARM64_RELOC_GOT_LOAD_PAGE21: u8 = 5;
/// `ARM64_RELOC_GOT_LOAD_PAGEOFF12` of mach-o/arm64/reloc.h: the offset of a slot in its page.
pub const ARM64_RELOC_GOT_LOAD_PAGEOFF12: u8 = 6;
/// `ARM64_RELOC_POINTER_TO_GOT` of mach-o/arm64/reloc.h: how far a slot is.
pub const ARM64_RELOC_POINTER_TO_GOT: u8 = 7;
/// `ARM64_RELOC_TLVP_LOAD_PAGE21` of mach-o/arm64/reloc.h: the page of a descriptor or of its slot.
pub const ARM64_RELOC_TLVP_LOAD_PAGE21: u8 = 8;
/// `ARM64_RELOC_TLVP_LOAD_PAGEOFF12` of mach-o/arm64/reloc.h: the offset of a descriptor or of its slot in its page.
pub const ARM64_RELOC_TLVP_LOAD_PAGEOFF12: u8 = 9;
/// `ARM64_RELOC_ADDEND` of mach-o/arm64/reloc.h: the addend of the next relocation.
pub const ARM64_RELOC_ADDEND: u8 = 10;
/// `ARM64_RELOC_AUTHENTICATED_POINTER` of mach-o/arm64/reloc.h: a signed pointer of arm64e.
pub const ARM64_RELOC_AUTHENTICATED_POINTER: u8 = 11;
