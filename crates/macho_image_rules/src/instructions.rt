//! Whether the words of instructions lead to an address.
//!
//!     adrp x16, 4 pages on     30 00 00 90     at 0x100004000 it gives the page of 0x100008010
//!     ldr  x16, [x16, 0x10]    10 0a 40 f9     it reads from the low bits of 0x100008010
ghost use Rattle.std.specs.Prelude.{◌≡◌, true};
ghost use Rattle.std.specs.Bool.{OnTrue};
ghost use Rattle.macho_bytes.specs.Numbers.{signed, page};
ghost use Rattle.macho_model.specs.Meaning.{PagesTo, LoadsFrom};
ghost use Rattle.macho_model.specs.Words.{imm21, imm12, without_imm21, without_imm12};

use macho_arm64::{PAGE_SIZE, is_ldr};

/// The pages that an ADRP goes by, modulo 2^64.
fn pages_of(word: u32) -> u64
    ensures { result ≡ signed 21 (imm21 word) }
{
    let immediate = (((word >> 5) & 0x7_ffff) * 4 + ((word >> 29) & 3)) as u64;
    if immediate < 1 << 20 {
        immediate
    } else {
        immediate.wrapping_sub(1 << 21)
    }
}

/// The immediate of 12 bits.
fn imm12_of(word: u32) -> u32
    ensures { result ≡ imm12 word }
{
    (word >> 10) & 0xfff
}

/// An ADRP without its immediate.
fn without_imm21(word: u32) -> u32
    ensures { result ≡ without_imm21 word }
{
    (word & 0x1f) + (((word >> 24) & 0x1f) << 24) + (((word >> 31) & 1) << 31)
}

/// An ADD, a load or a store without its immediate.
fn without_imm12(word: u32) -> u32
    ensures { result ≡ without_imm12 word }
{
    (word & 0x3ff) + (((word >> 22) & 0x3ff) << 22)
}

/// The address of the first byte of a page of 4 KiB.
fn page_of(address: u64) -> u64
    ensures { result ≡ page address }
{
    address - address % PAGE_SIZE
}

/// Whether an ADRP at a place gives the page of an address, and is that of the input but for its immediate.
pub fn pages_to(place: u64, word: u32, input: u32, x: u64) -> bool
    ensures found { OnTrue result (PagesTo place word input x) }
    ensures only { PagesTo place word input x → result ≡ true }
{
    let reached = page_of(place).wrapping_add(pages_of(word).wrapping_mul(PAGE_SIZE));
    reached == page_of(x) && without_imm21(word) == without_imm21(input)
}

/// Whether a word loads from the low bits of a slot's address, and is that of the input but for its immediate.
pub fn loads_from(word: u32, input: u32, slot: u64) -> bool
    ensures found { OnTrue result (LoadsFrom word input slot) }
    ensures only { LoadsFrom word input slot → result ≡ true }
{
    let offset = imm12_of(word) as u64 * 8;
    is_ldr(word) && offset == slot % PAGE_SIZE && without_imm12(word) == without_imm12(input)
}
