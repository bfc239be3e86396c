//! What the bytes of a field say: whether they hold a value, beside what the input has there.
//!
//! A BL `04 00 00 94` holds a way of 16 bytes where the input has `00 00 00 94`; `04 00 00 14` does not, since it is a B.
ghost use Rattle.std.specs.Prelude.{◌≡◌, ◌+◌, ◌*◌, ◌^◌, ◌≤◌, true, length};
ghost use Rattle.macho_bytes.specs.Numbers.{signed, PAGE};
ghost use Rattle.macho_model.specs.Meaning.{address};
ghost use Rattle.macho_model.specs.Words.{imm12, imm21, imm26, scale_of, without_imm12, without_imm21, without_imm26};
ghost use Rattle.macho_arm64.specs.Fields.{width_of, is_field, field_at};
ghost use Rattle.macho_fields.specs.steps.Reads.{is_straight_add, says_value, tells};

use crate::write::{FieldWrite, has_room};
use macho_arm64::{FieldSize, PAGE_SIZE, is_add};
use macho_wire::Number;

/// A number of 4 bytes read as signed, modulo 2^64.
fn signed_word(word: u32) -> u64
    ensures { result ≡ address (signed 32 word) }
{
    let number = u64::from(word);
    if number < 1 << 31 {
        number
    } else {
        number + 0xffff_ffff_0000_0000
    }
}

/// How far an ADRP goes, modulo 2^64.
fn page_way(word: u32) -> u64
    ensures { result ≡ address (PAGE * signed 21 (imm21 word)) }
{
    let pages = u64::from(((word >> 5) & 0x7_ffff) * 4 + ((word >> 29) & 3));
    if pages < 1 << 20 {
        pages * PAGE_SIZE
    } else {
        pages * PAGE_SIZE + 0xffff_fffe_0000_0000
    }
}

/// How far a B or BL goes, modulo 2^64.
fn branch_way(word: u32) -> u64
    ensures { result ≡ address (4 * signed 26 (imm26 word)) }
{
    let words = u64::from(word & 0x3ff_ffff);
    if words < 1 << 25 {
        words * 4
    } else {
        words * 4 + 0xffff_ffff_f000_0000
    }
}

/// The immediate of an ADD, a load or a store.
fn offset(word: u32) -> u64
    ensures { result ≡ imm12 word }
{
    u64::from((word >> 10) & 0xfff)
}

/// The bytes that one step of that immediate stands for, as a power of two.
fn scale(word: u32) -> u32
    ensures value { 2 ^ result ≡ scale_of word }
    ensures small { result ≤ 4 }
{
    let size = (word >> 30) & 3;
    if is_add(word) {
        0
    } else if size == 0 && (word >> 26) & 1 == 1 && (word >> 23) & 1 == 1 {
        4
    } else {
        size
    }
}

/// The offset in bytes that an ADD, a load or a store adds.
fn offset_in_bytes(word: u32) -> u64
    ensures { result ≡ imm12 word * scale_of word }
{
    offset(word) << scale(word)
}

/// What is left of an ADRP without its immediate.
fn without_pages(word: u32) -> u32
    ensures { result ≡ without_imm21 word }
{
    (word & 0x1f) + (((word >> 24) & 0x1f) << 24) + ((word >> 31) << 31)
}

/// What is left of a B or BL without its immediate.
fn without_words(word: u32) -> u32
    ensures { result ≡ without_imm26 word }
{
    (word >> 26) << 26
}

/// What is left of an ADD, a load or a store without its immediate.
fn without_offset(word: u32) -> u32
    ensures { result ≡ without_imm12 word }
{
    (word & 0x3ff) + ((word >> 22) << 22)
}

/// Whether a word is the ADD of an offset that a load was made: to the load's base, into its register.
fn is_straight_add(word: u32, input: u32, value: u64) -> bool
    ensures { result ≡ is_straight_add value input word }
{
    is_add(word)
        && (word >> 5) & 0x1f == (input >> 5) & 0x1f
        && word & 0x1f == input & 0x1f
        && offset(word) == value
}

/// Whether a word of four bytes holds a value, where the input has another word.
fn word_holds(write: &FieldWrite, input: u32, word: u32) -> bool
    requires { width_of write.now.size ≡ 4 }
    ensures { result ≡ tells write.now input word }
{
    match write.size {
        FieldSize::Bytes(_) => signed_word(word) == write.value,
        FieldSize::Adr => {
            page_way(word) == write.value && without_pages(word) == without_pages(input)
        }
        FieldSize::JumpCall => {
            branch_way(word) == write.value && without_words(word) == without_words(input)
        }
        FieldSize::Low12 if write.relax => is_straight_add(word, input, write.value),
        FieldSize::Low12 => {
            offset_in_bytes(word) == write.value && without_offset(word) == without_offset(input)
        }
    }
}

/// Whether the bytes of a field hold what is to be written to it, beside the bytes of the input.
pub(crate) fn holds(write: &FieldWrite, input: &[u8], bytes: &[u8]) -> bool
    requires long { length bytes.now ≡ length input.now }
    ensures { is_field write.now.size ≡ true → write.now.at + width_of write.now.size ≤ length bytes.now
        → result ≡ tells write.now (field_at write.now.size input.now write.now.at) (field_at write.now.size bytes.now write.now.at) }
{
    if !has_room(write, bytes.len()) {
        return false;
    }
    let at = write.at as usize;
    if write.size == FieldSize::Bytes(8) {
        return u64::read_little(bytes, at) == write.value;
    }
    word_holds(
        write,
        u32::read_little(input, at),
        u32::read_little(bytes, at),
    )
}
