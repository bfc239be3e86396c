//! The memory of a loaded image, read byte by byte: plain and slow.
//!
//! Each segment but `__PAGEZERO` is mapped at its address plus the slide: its file bytes, then zeros. In place of the
//! eight bytes of each word on the chain stands what the loader makes of it; where two such words share bytes, those of
//! the word at the greater address.
ghost use Rattle.std.specs.Prelude.{◌≡◌, ◌<◌, ℕ, Some, None, slice_index};
ghost use Rattle.macho_bytes.specs.Numbers.{le_bytes};
ghost use Rattle.macho_model.specs.Needs.{POINTER_SIZE};
ghost use Rattle.macho_model.specs.Memory.{IsSegmentByte};
ghost use Rattle.macho_image_walks.specs.Readings.{segment_there};
ghost use Rattle.macho_image_walks.specs.steps.Walks.{SegmentHas, NthLacksByte};
ghost use Rattle.macho_image_walks.specs.steps.Made.{CoversLast, IsUncovered, IsByteFor, HasNoByte};
ghost use Rattle.macho_image_walks.specs.Loaded.{HoldsFor, HoldsNothing};

use crate::chain_words::is_on_chain;
use crate::fixed::fixed_value;
use crate::reads::file_byte;
use crate::segments::segment_at;
use crate::walk::{Listed, count_of, nth};

/// The byte that the segment of a command has at an address, None where it has none.
fn byte_of_segment(bytes: &[u8], place: u64, address: u64) -> Option<u8>
    ensures found { (v : ℕ) → result ≡ Some v → SegmentHas bytes.now (segment_there bytes.now place) address v }
    ensures only { result ≡ None → (v : ℕ) → SegmentHas bytes.now (segment_there bytes.now place) address v → ⊥ }
{
    let segment = segment_at(bytes, place);
    if address < segment.address {
        return None;
    }
    let offset = address - segment.address;
    if offset >= segment.size {
        return None;
    }
    if offset >= segment.file_size {
        return Some(0);
    }
    Some(file_byte(bytes, segment.file_offset, offset))
}

/// The byte that the mapped segment with a number has at an address.
fn byte_of_nth(bytes: &[u8], number: u32, address: u64) -> Option<u8>
    ensures found { (v : ℕ) → result ≡ Some v → IsSegmentByte bytes.now address v }
    ensures only { result ≡ None → NthLacksByte bytes.now number address }
{
    match nth(bytes, Listed::Mapped, number) {
        Some(place) => byte_of_segment(bytes, place, address),
        None => None,
    }
}

/// The byte that a mapped segment has at an address of the file's own, None where none has one.
pub fn segment_byte(bytes: &[u8], address: u64) -> Option<u8>
    ensures found { (v : ℕ) → result ≡ Some v → IsSegmentByte bytes.now address v }
    ensures only { result ≡ None → (v : ℕ) → IsSegmentByte bytes.now address v → ⊥ }
{
    for number in 0..count_of(bytes) {
        if let Some(byte) = byte_of_nth(bytes, number, address) {
            return Some(byte);
        }
    }
    None
}

/// The address of the chain word that covers an address: of several, the greatest.
fn covering(bytes: &[u8], address: u64) -> Option<u64>
    ensures found { (x : ℕ) → result ≡ Some x → CoversLast bytes.now x address }
    ensures only { result ≡ None → IsUncovered bytes.now address }
{
    for back in 0..8u64 {
        if back > address {
            return None;
        }
        if is_on_chain(bytes, address - back) {
            return Some(address - back);
        }
    }
    None
}

/// The byte of a number by its place, the lowest first.
#[tactic(auto, unfolding(macho_bytes::specs::Numbers::le_bytes))]
fn byte_of(value: u64, at: u64) -> u8
    requires { at < 8 }
    ensures { result ≡ slice_index (le_bytes POINTER_SIZE value) at }
{
    value.to_le_bytes()[at as usize]
}

/// The byte of the chain word at an address, None where the loader makes nothing of it.
fn byte_of_word(bytes: &[u8], slide: u64, addresses: &[u64], word_at: u64, at: u64) -> Option<u8>
    requires { at < 8 }
    ensures found { (v : ℕ) → result ≡ Some v → IsByteFor bytes.now slide addresses.now word_at at v }
    ensures only { result ≡ None → HasNoByte bytes.now slide addresses.now word_at at }
{
    match fixed_value(bytes, slide, addresses, word_at) {
        Some(value) => Some(byte_of(value, at)),
        None => None,
    }
}

/// The byte that memory has at an address, where the image is loaded at a slide and its imports, by their numbers, are at
/// these addresses; None where nothing is mapped, or where a chain word covers that the loader makes nothing of.
pub fn memory_byte(bytes: &[u8], slide: u64, addresses: &[u64], address: u64) -> Option<u8>
    ensures found { (v : ℕ) → result ≡ Some v → HoldsFor bytes.now slide addresses.now address v }
    ensures only { result ≡ None → HoldsNothing bytes.now slide addresses.now address }
{
    if address < slide {
        return None;
    }
    let own = address - slide;
    match covering(bytes, own) {
        Some(word_at) => byte_of_word(bytes, slide, addresses, word_at, own - word_at),
        None => segment_byte(bytes, own),
    }
}
