//! What a file is, by its first bytes.
//!
//! An object begins `cf fa ed fe` and has `01 00 00 00` at 12, a dynamic library `06 00 00 00`. A text stub begins
//! `--- !tapi-tbd`. An archive begins `!<arch>` and a line feed, a universal file `ca fe ba be` or `ca fe ba bf`.

ghost use Rattle.std.specs.Prelude.{◌≡◌, ◌∷◌, [], drop, nat_eq};
ghost use Rattle.std.specs.List.{starts_with};
ghost use Rattle.macho_job.specs.Heads.{has_type, head_of, kind_of};

use crate::fault::InputKind;

/// `MH_MAGIC_64` of mach-o/loader.h, its lowest byte first.
const MAGIC: [u8; 4] = [0xcf, 0xfa, 0xed, 0xfe];

/// `MH_OBJECT` and `MH_DYLIB` of mach-o/loader.h, their lowest byte first.
const OBJECT_TYPE: [u8; 4] = [1, 0, 0, 0];

const DYLIB_TYPE: [u8; 4] = [6, 0, 0, 0];

/// Where a header has its file type.
const TYPE_PLACE: usize = 12;

/// The beginning of a text stub.
const STUB: [u8; 13] = *b"--- !tapi-tbd";

/// The beginning of an archive.
const ARCHIVE: [u8; 8] = *b"!<arch>\n";

/// `FAT_MAGIC` and `FAT_MAGIC_64` of mach-o/fat.h, their highest byte first.
const UNIVERSAL: [u8; 4] = [0xca, 0xfe, 0xba, 0xbe];

const UNIVERSAL_64: [u8; 4] = [0xca, 0xfe, 0xba, 0xbf];

/// What bytes begin as.
#[derive(Clone, Copy)]
pub enum Head {
    /// A relocatable object.
    Object,
    /// A dynamic library.
    Dylib,
    /// A text stub.
    Stub,
    /// No input.
    Unknown(InputKind),
}

/// What the bytes begin as.
#[tactic(auto, unfolding(crate::specs::Heads::head_of))]
pub(crate) fn head_of(bytes: &[u8]) -> Head
    ensures { result ≡ head_of bytes.now }
{
    if has_type(bytes, &OBJECT_TYPE) {
        Head::Object
    } else if has_type(bytes, &DYLIB_TYPE) {
        Head::Dylib
    } else if bytes.starts_with(&STUB) {
        Head::Stub
    } else {
        Head::Unknown(kind_of(bytes))
    }
}

fn has_type(bytes: &[u8], file_type: &[u8; 4]) -> bool
    ensures { result ≡ has_type file_type.now bytes.now }
{
    bytes.starts_with(&MAGIC) && stands_at_type(bytes, file_type)
}

fn stands_at_type(bytes: &[u8], file_type: &[u8; 4]) -> bool
    ensures { result ≡ starts_with nat_eq (drop 12 bytes.now) file_type.now }
{
    match bytes.get(TYPE_PLACE..) {
        Some(rest) => rest.starts_with(file_type),
        None => false,
    }
}

/// What a file is that begins as no input.
fn kind_of(bytes: &[u8]) -> InputKind
    ensures { result ≡ kind_of bytes.now }
{
    if bytes.starts_with(&ARCHIVE) {
        InputKind::Archive
    } else if bytes.starts_with(&UNIVERSAL) || bytes.starts_with(&UNIVERSAL_64) {
        InputKind::Universal
    } else {
        InputKind::Other
    }
}
