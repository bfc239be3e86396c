//! Instructions as words: which one a word is, and its immediate set to a number.
//!
//! From the highest bit (Arm Architecture Reference Manual for A-profile, chapter C6):
//!
//!     ADRP             1 immlo:2 10000 immhi:19 Rd:5
//!     B, BL            op 00101 imm26:26
//!     ADD              1001000100 imm12:12 Rn:5 Rd:5
//!     LDR, 64 bits     1111100101 imm12:12 Rn:5 Rt:5
//!     load, store      size:2 111 V:1 01 opc:2 imm12:12 Rn:5 Rt:5
ghost use Rattle.std.specs.Prelude.{◌≡◌, ◌<◌, ◌≤◌, ◌^◌};
ghost use Rattle.macho_model.specs.Words.{is_adrp, is_branch, is_add, is_ldr, is_load_store, scale_of, imm21, imm26, imm12, without_imm21, without_imm26, without_imm12, written_register};

/// The bytes of a page that an ADRP goes by.
pub const PAGE_SIZE: u64 = 4096;

pub(crate) fn is_adrp(word: u32) -> bool
    ensures { result ≡ is_adrp word }
{
    (word >> 31) & 1 == 1 && (word >> 24) & 0x1f == 0b10000
}

pub(crate) fn is_branch(word: u32) -> bool
    ensures { result ≡ is_branch word }
{
    (word >> 26) & 0x1f == 0b00101
}

/// Whether a word is an ADD, in 64 bits, of an immediate that is not shifted.
pub fn is_add(word: u32) -> bool
    ensures { result ≡ is_add word }
{
    (word >> 22) & 0x3ff == 0b1001000100
}

/// Whether a word is the load of a 64-bit register with an unsigned offset, as a slot is read by.
pub fn is_ldr(word: u32) -> bool
    ensures { result ≡ is_ldr word }
{
    (word >> 22) & 0x3ff == 0b1111100101
}

/// Whether a word is a load or store with an unsigned offset.
pub fn is_load_store(word: u32) -> bool
    ensures { result ≡ is_load_store word }
{
    (word >> 27) & 7 == 0b111 && (word >> 24) & 3 == 0b01
}

/// The bytes that one step of an immediate of 12 bits stands for.
pub(crate) fn scale_of(word: u32) -> u64
    ensures value { result ≡ scale_of word }
    ensures some { 1 ≤ result }
{
    let size = (word >> 30) & 3;
    if is_add(word) {
        1
    } else if size == 0 && (word >> 26) & 1 == 1 && (word >> 23) & 1 == 1 {
        16
    } else {
        1 << size
    }
}

pub(crate) fn with_imm21(word: u32, imm: u32) -> u32
    requires { imm < 2 ^ 21 }
    ensures set { imm21 result ≡ imm }
    ensures kept { without_imm21 result ≡ without_imm21 word }
{
    let immhi = imm >> 2;
    let immlo = imm & 3;
    (word & 0x1f)
        + (immhi << 5)
        + (((word >> 24) & 0x1f) << 24)
        + (immlo << 29)
        + ((word >> 31) << 31)
}

pub(crate) fn with_imm26(word: u32, imm: u32) -> u32
    requires { imm < 2 ^ 26 }
    ensures set { imm26 result ≡ imm }
    ensures kept { without_imm26 result ≡ without_imm26 word }
{
    ((word >> 26) << 26) + imm
}

pub(crate) fn with_imm12(word: u32, imm: u32) -> u32
    requires { imm < 2 ^ 12 }
    ensures set { imm12 result ≡ imm }
    ensures kept { without_imm12 result ≡ without_imm12 word }
{
    (word & 0x3ff) + (imm << 10) + ((word >> 22) << 22)
}
