//! The rules of segments: whole pages, one behind the other, from the base on, no further than the written sum.
ghost use Rattle.std.specs.Prelude.{◌≡◌, ◌+◌, ◌≤◌, ◌<◌, ◌∷◌, true, map, length, All, ◌&&◌, ◌==◌};
ghost use Rattle.std.specs.Bool.{OnTrue};
ghost use Rattle.std.specs.List.{position_or_len};
ghost use Rattle.std.specs.Str.{bytes_eq};
ghost use Rattle.macho_records.specs.Segments.{text_of};
ghost use Rattle.macho_model.specs.Links.{Link};
ghost use Rattle.macho_model.specs.Lists.{EachNext};
ghost use Rattle.macho_model.specs.Segments.{TEXT, base_of_link, other_segments, segment_rank};
ghost use Rattle.macho_model.specs.declared.placed.Counts.{Counts};
ghost use Rattle.macho_model.specs.WrittenSum.{written_sum_of};
ghost use Rattle.macho_model.specs.Placement.{Placed, IsInNamed, IsPaged, Follows};
ghost use Rattle.macho_layout.specs.Placements.{placed_of};
ghost use Rattle.macho_placement_rules.specs.steps.Segments.{HasTextAt};

use macho_layout::Placement;
use macho_model::{PlacedSegment, SEGMENT_PAGE};
use macho_records::{SegmentName, name_bytes};

/// The address of the first byte of an image of a kind.
fn base_of(executable: bool) -> u64
    ensures { (l : Link) → l.executable ≡ executable → result ≡ base_of_link l }
{
    if executable { 0x1_0000_0000 } else { 0 }
}

/// Whether the base is that of a link's kind.
pub fn is_based(placement: &Placement, executable: bool) -> bool
    ensures found { (l : Link) → l.executable ≡ executable → OnTrue result (placement.now.base ≡ base_of_link l) }
    ensures only { (l : Link) → l.executable ≡ executable → placement.now.base ≡ base_of_link l → result ≡ true }
{
    placement.base == base_of(executable)
}

/// Whether a segment is made of whole pages.
fn is_paged(segment: &PlacedSegment) -> bool
    ensures found { OnTrue result (IsPaged segment.now) }
    ensures only { IsPaged segment.now → result ≡ true }
{
    segment.address % SEGMENT_PAGE == 0
        && segment.size % SEGMENT_PAGE == 0
        && segment.file_offset % SEGMENT_PAGE == 0
        && segment.file_size <= segment.size
}

/// Whether segments are made of whole pages, and have at most their memory's bytes in the file.
pub fn are_paged(segments: &[PlacedSegment]) -> bool
    ensures found { OnTrue result (All IsPaged segments.now) }
    ensures only { All IsPaged segments.now → result ≡ true }
{
    for segment in segments {
        if !is_paged(segment) {
            return false;
        }
    }
    true
}

/// The rank of a segment by its name.
#[tactic(auto, unfolding(macho_model::specs::Segments::segment_rank))]
fn rank_of(others: &[SegmentName], name: SegmentName) -> usize
    ensures { (l : Link) → map text_of others.now ≡ other_segments l → result ≡ segment_rank l (text_of name) }
{
    let bytes = name.into_bytes();
    let text = name_bytes(&bytes);
    if text == b"__PAGEZERO".as_slice() {
        0
    } else if text == b"__TEXT".as_slice() {
        1
    } else if text == b"__DATA_CONST".as_slice() {
        2
    } else if text == b"__DATA".as_slice() {
        3
    } else {
        4 + number_of(others, text)
    }
}

/// The number of the first segment with a name, or how many there are.
fn number_of(others: &[SegmentName], text: &[u8]) -> usize
    ensures value { result ≡ position_or_len (bytes_eq text.now) (map text_of others.now) }
    ensures within { result ≤ length others.now }
{
    for (number, other) in others.iter().enumerate() {
        let bytes = other.into_bytes();
        if text == name_bytes(&bytes) {
            return number;
        }
    }
    others.len()
}

/// Whether a number is the sum of two others.
fn is_sum(number: u64, first: u64, second: u64) -> bool
    ensures { result ≡ (number == first + second) }
{
    first <= number && number - first == second
}

/// Whether a segment stands behind another one.
fn follows(others: &[SegmentName], before: &PlacedSegment, segment: &PlacedSegment) -> bool
    ensures found { (l : Link) → map text_of others.now ≡ other_segments l → OnTrue result (Follows l before.now segment.now) }
    ensures only { (l : Link) → map text_of others.now ≡ other_segments l → Follows l before.now segment.now → result ≡ true }
{
    let rises = rank_of(others, before.name) < rank_of(others, segment.name);
    let next = is_sum(segment.address, before.address, before.size);
    rises && next && is_sum(segment.file_offset, before.file_offset, before.file_size)
}

/// Whether segments stand one behind the other, in memory, in the file and in the order of their names. The other names are
/// those of the link's segments that have no place of their own, in the order in which its sections name them.
pub fn follow(segments: &[PlacedSegment], others: &[SegmentName]) -> bool
    ensures found { (l : Link) → map text_of others.now ≡ other_segments l → OnTrue result (EachNext (Follows l) segments.now) }
    ensures only { (l : Link) → map text_of others.now ≡ other_segments l → EachNext (Follows l) segments.now → result ≡ true }
{
    for next in 1..segments.len() {
        if !follows(others, &segments[next - 1], &segments[next]) {
            return false;
        }
    }
    true
}

/// Whether a segment is `__TEXT`, and stands at an address.
fn is_text_at(segment: &PlacedSegment, base: u64) -> bool
    ensures { result ≡ (bytes_eq (text_of segment.now.name) TEXT && (segment.now.address == base)) }
{
    let bytes = segment.name.into_bytes();
    name_bytes(&bytes) == b"__TEXT".as_slice() && segment.address == base
}

/// Whether `__TEXT` begins at the base of a link's kind.
pub fn begins(placement: &Placement, executable: bool) -> bool
    ensures found { (l : Link) → l.executable ≡ executable
        → OnTrue result (IsInNamed (placed_of placement.now) TEXT (λ s. s.address ≡ base_of_link l)) }
    ensures only { (l : Link) → l.executable ≡ executable
        → IsInNamed (placed_of placement.now) TEXT (λ s. s.address ≡ base_of_link l) → result ≡ true }
{
    has_text_at(placement.segments.as_slice(), base_of(executable))
}

/// Whether `__TEXT` stands at an address.
fn has_text_at(segments: &[PlacedSegment], base: u64) -> bool
    ensures found { OnTrue result (HasTextAt segments.now base) }
    ensures only { HasTextAt segments.now base → result ≡ true }
{
    for segment in segments {
        if is_text_at(segment, base) {
            return true;
        }
    }
    false
}

/// Whether segments end no further behind an address than a sum.
pub fn are_within(segments: &[PlacedSegment], base: u64, sum: u64) -> bool
    ensures found { OnTrue result (All (λ s. s.address + s.size ≤ base + sum) segments.now) }
    ensures only { All (λ s. s.address + s.size ≤ base + sum) segments.now → result ≡ true }
{
    let end = base as u128 + sum as u128;
    for segment in segments {
        if end < segment.address as u128 + segment.size as u128 {
            return false;
        }
    }
    true
}
