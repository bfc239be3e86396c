//! The bytes of a part of an image in memory, before the loader writes anything.
ghost use Rattle.std.specs.Prelude.{◌≡◌, ℕ, ◌+◌, ◌<◌, ◌≤◌, nat_lt, if◌then◌else◌, length, None, IfSome, slice_index};
ghost use Rattle.macho_model.specs.Loader.{IsAccepted};
ghost use Rattle.macho_model.specs.Memory.{IsSegmentByte};
ghost use Rattle.macho_image_rules.specs.Bytes.{IsMapped};
ghost use Rattle.macho_image_rules.specs.Laws.{PlacedIsMapped, CarriedLieElsewhere, MappedByteStands, MappedByteIsOne};

use macho_model::PlacedSegment;

/// A segment of a placement, other than `__PAGEZERO`, that has bytes in memory is one that the image has mapped.
pub fn placed_segments_are_mapped()
    ensures { PlacedIsMapped }
{}

/// A segment that a carried section lies in isn't `__PAGEZERO`.
pub fn carried_sections_lie_elsewhere()
    ensures { CarriedLieElsewhere }
{}

/// A mapped segment has the file's bytes, then zeros; and at no address has an accepted image another byte.
pub fn mapped_segments_give_their_bytes()
    ensures stands { MappedByteStands }
    ensures one { MappedByteIsOne }
{}

/// The bytes that the file has of a part of a segment, from so many bytes behind the segment's start on.
fn cut(image: &[u8], segment: PlacedSegment, before: u64, size: u64) -> &[u8]
    requires inside { 0 < size → segment.file_offset + segment.file_size ≤ length image.now }
    ensures short { length result.now ≤ size }
    ensures whole { before + size ≤ segment.file_size → length result.now ≡ size }
    ensures each { (i : ℕ) → i < size → slice_index result.now i
        ≡ (if nat_lt (before + i) segment.file_size then slice_index image.now (segment.file_offset + (before + i)) else 0) }
{
    if size == 0 || segment.file_size <= before {
        return &[];
    }
    let count = size.min(segment.file_size - before);
    let start = segment.file_offset + before;
    &image[start as usize..(start + count) as usize]
}

/// The bytes that the file has of a part of memory, which lies in a segment; behind them the part has zeros.
pub(crate) fn filed_bytes(image: &[u8], segment: PlacedSegment, address: u64, size: u64) -> &[u8]
    requires accepted { IsAccepted image.now }
    requires mapped { 0 < size → IsMapped image.now segment }
    requires from { segment.address ≤ address }
    requires to { address + size ≤ segment.address + segment.size }
    ensures short { length result.now ≤ size }
    ensures whole { address + size ≤ segment.address + segment.file_size → length result.now ≡ size }
    ensures each { (i : ℕ) → i < size → IsSegmentByte image.now (address + i) (slice_index result.now i) }
    ensures only { (i v : ℕ) → i < size → IsSegmentByte image.now (address + i) v → v ≡ slice_index result.now i }
{
    cut(image, segment, address - segment.address, size)
}

/// The first byte that isn't 0.
fn nonzero_in(bytes: &[u8]) -> Option<usize>
    ensures found { result ≡ None → (i : ℕ) → slice_index bytes.now i ≡ 0 }
    ensures why { IfSome result (λ i. (i < length bytes.now) × (slice_index bytes.now i ≡ 0 → ⊥)) }
{
    for i in 0..bytes.len() {
        if bytes[i] != 0 {
            return Some(i);
        }
    }
    None
}

/// The first byte of a part of memory, which lies in a segment, that isn't 0 there.
pub fn first_nonzero(image: &[u8], segment: PlacedSegment, address: u64, size: u64) -> Option<u64>
    requires accepted { IsAccepted image.now }
    requires mapped { 0 < size → IsMapped image.now segment }
    requires from { segment.address ≤ address }
    requires to { address + size ≤ segment.address + segment.size }
    ensures found { result ≡ None → (i : ℕ) → i < size → IsSegmentByte image.now (address + i) 0 }
    ensures why { IfSome result (λ i. (i < size) × (IsSegmentByte image.now (address + i) 0 → ⊥)) }
{
    match nonzero_in(filed_bytes(image, segment, address, size)) {
        Some(i) => Some(i as u64),
        None => None,
    }
}
