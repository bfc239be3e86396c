//! Numbers that several crates of code share. The definitions that say what they are have their names.

/// The bytes of a page of a segment.
pub const SEGMENT_PAGE: u64 = 0x4000;
/// A page without a chain: `DYLD_CHAINED_PTR_START_NONE` of mach-o/fixup-chains.h.
pub const NO_START: u16 = 0xffff;
/// How the pointers on chains are spelled: `DYLD_CHAINED_PTR_64_OFFSET` of mach-o/fixup-chains.h.
pub const POINTER_FORMAT: u16 = 6;
/// The bytes of a fixup table beside imports and pages: header, count, and six segments with their offsets and records.
pub const FIXUP_RECORDS: u64 = 188;
/// The bytes of a signature beside its identifier and its digests.
pub const SIGNATURE_FIXED: u64 = 108;
/// The bytes of a page that has a digest of its own in the signature.
pub const SIGNED_PAGE: u64 = 4096;
/// File offsets and sizes are below this: they are told in 32 bits.
pub const LIMIT_32: u64 = 0x1_0000_0000;
