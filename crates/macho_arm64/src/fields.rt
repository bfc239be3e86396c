//! Fields: bytes, or the immediate of an instruction, written with a value modulo 2^64.
//!
//! A BL whose immediate is 4 words, which are 16 bytes, is `04 00 00 94`.
ghost use Rattle.std.specs.Prelude.{◌≡◌, ◌↔◌, ◌+◌, ◌<◌, ◌≤◌, ◌^◌, ◌*◌, ◌%◌, ◌==◌, ◌&&◌, nat_lt, true, false, length, IsTrue, IsSome, OnOk, OnErr, IfErr, IfSome, IfNone};
ghost use Rattle.macho_bytes.specs.Numbers.{le_at, le_bytes, signed, PAGE};
ghost use Rattle.macho_bytes.specs.Texts.{put};
ghost use Rattle.macho_model.specs.Meaning.{address};
ghost use Rattle.macho_arm64.specs.Fields.{width_of, field_at, is_field, fits_word, can_hold, fits_signed, Holds};

use crate::kinds::FieldSize;
use crate::words::{
    PAGE_SIZE, is_add, is_adrp, is_branch, is_ldr, is_load_store, scale_of, with_imm12, with_imm21,
    with_imm26,
};
use macho_wire::{Number, put_little};

/// The value does not fit the field.
#[derive(Clone, Copy)]
pub struct RangeFault {
    /// The value, modulo 2^64.
    pub value: u64,
}

/// Whether a word is an instruction with a field of the size: an ADRP, a B or BL, an ADD or a load or store with an
/// unsigned offset. Bytes are part of any word.
pub fn fits_instruction(size: FieldSize, word: u32) -> bool
    ensures { result ≡ fits_word size word }
{
    match size {
        FieldSize::Bytes(_) => true,
        FieldSize::Adr => is_adrp(word),
        FieldSize::JumpCall => is_branch(word),
        FieldSize::Low12 => is_add(word) || is_ldr(word) || is_load_store(word),
    }
}

/// Writes a value to a field of 4 or 8 bytes, or to the immediate of the instruction at a place.
///
/// The value is the number that the field then holds, modulo 2^64: a distance in bytes for a branch, a distance of
/// pages in bytes for an ADRP, an offset in a page for an ADD, a load or a store.
///
/// # Errors
///
/// The value does not fit the field, or is no multiple of what the field counts in. Nothing is written then.
pub fn write_field(
    size: FieldSize,
    bytes: &mut [u8],
    at: usize,
    value: u64,
) -> Result<(), RangeFault>
    requires size { IsTrue (is_field size) }
    requires room { at + width_of size ≤ length bytes.old }
    requires word { IsTrue (fits_word size (le_at 4 bytes.old at)) }

    // It is done exactly where the field can hold the value.
    ensures found { OnOk result (IsTrue (can_hold size (le_at 4 bytes.old at) value)) }
    ensures why { OnErr result (can_hold size (le_at 4 bytes.old at) value ≡ false) }
    ensures told { IfErr result (λ fault. fault.value ≡ value) }
    ensures kept { OnErr result (bytes.new ≡ bytes.old) }

    // The field then holds it, and no other byte changes.
    ensures done { OnOk result (Holds size (field_at size bytes.old at) (field_at size bytes.new at) value) }
    ensures outside { OnOk result
        (bytes.new ≡ put at (le_bytes (width_of size) (field_at size bytes.new at)) bytes.old) }
{
    if size == FieldSize::Bytes(8) {
        put_little(bytes, at, value);
        return Ok(());
    }
    let word = u32::read_little(bytes, at);
    match word_with(size, word, value) {
        Some(new) => put_little(bytes, at, new),
        None => return Err(RangeFault { value }),
    }
    Ok(())
}

/// The word with a value in its field of 4 bytes, None where it does not fit.
fn word_with(size: FieldSize, word: u32, value: u64) -> Option<u32>
    requires size { width_of size ≡ 4 }
    requires word { IsTrue (fits_word size word) }
    ensures done { IfSome result (λ new. IsTrue (can_hold size word value) × Holds size word new value) }
    ensures why { IfNone result (can_hold size word value ≡ false) }
{
    match size {
        FieldSize::Bytes(_) => signed_word(value),
        FieldSize::Adr => Some(with_imm21(word, page_immediate(value)?)),
        FieldSize::JumpCall => Some(with_imm26(word, branch_immediate(value)?)),
        FieldSize::Low12 => Some(with_imm12(word, offset_immediate(value, scale_of(word))?)),
    }
}

/// Whether a number is that of a signed one of so many bits.
fn fits_signed(bits: u32, value: u64) -> bool
    requires { 1 ≤ bits × bits ≤ 64 }
    ensures { result ≡ fits_signed bits value }
{
    let half = 1u64 << (bits - 1);
    value < half || value > u64::MAX - half
}

/// The 4 bytes of a signed number.
fn signed_word(value: u64) -> Option<u32>
    ensures done { IfSome result (λ word. address (signed 32 word) ≡ value) }
    ensures some { IsSome result ↔ (fits_signed 32 value ≡ true) }
{
    if fits_signed(32, value) {
        Some((value & 0xffff_ffff) as u32)
    } else {
        None
    }
}

/// The immediate of an ADRP that goes a distance of whole pages.
fn page_immediate(value: u64) -> Option<u32>
    ensures done { IfSome result (λ imm. address (PAGE * signed 21 imm) ≡ value) }
    ensures small { IfSome result (λ imm. imm < 2 ^ 21) }
    ensures some { IsSome result ↔ ((fits_signed 33 value && (value % PAGE == 0)) ≡ true) }
{
    if fits_signed(33, value) && value % PAGE_SIZE == 0 {
        Some(((value >> 12) & 0x1f_ffff) as u32)
    } else {
        None
    }
}

/// The immediate of a branch that goes a distance of whole words.
fn branch_immediate(value: u64) -> Option<u32>
    ensures done { IfSome result (λ imm. address (4 * signed 26 imm) ≡ value) }
    ensures small { IfSome result (λ imm. imm < 2 ^ 26) }
    ensures some { IsSome result ↔ ((fits_signed 28 value && (value % 4 == 0)) ≡ true) }
{
    if fits_signed(28, value) && value % 4 == 0 {
        Some(((value >> 2) & 0x3ff_ffff) as u32)
    } else {
        None
    }
}

/// The immediate of an offset in a page, in units of a scale.
fn offset_immediate(value: u64, scale: u64) -> Option<u32>
    requires { 1 ≤ scale }
    ensures done { IfSome result (λ imm. imm * scale ≡ value) }
    ensures small { IfSome result (λ imm. imm < 2 ^ 12) }
    ensures some { IsSome result ↔ ((nat_lt value PAGE && (value % scale == 0)) ≡ true) }
{
    if value < PAGE_SIZE && value % scale == 0 {
        Some((value / scale) as u32)
    } else {
        None
    }
}
