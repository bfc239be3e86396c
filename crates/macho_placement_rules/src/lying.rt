//! Whether parts lie in their segments.
ghost use Rattle.std.specs.Prelude.{◌≡◌, ◌+◌, ◌≤◌, ◌<◌, ◌&&◌, nat_le, true, false, All, filter, length, if◌then◌else◌, IfOk};
ghost use Rattle.std.specs.Bool.{OnTrue};
ghost use Rattle.std.specs.Str.{bytes_eq};
ghost use Rattle.macho_records.specs.Segments.{text_of};
ghost use Rattle.macho_model.specs.Links.{Link};
ghost use Rattle.macho_model.specs.Segments.{TEXT, DATA, DATA_CONST};
ghost use Rattle.macho_model.specs.Placement.{Placed, IsInNamed, IsWholeList, LiesIn, is_segment_named, common_piece, slot_piece, stub_piece};
ghost use Rattle.macho_layout.specs.Placements.{placed_of};
ghost use Rattle.macho_layout.specs.Plans.{Planning, IsPlanOf};
ghost use Rattle.macho_placement_rules.specs.Lists.{RangeLies, TableLies};
ghost use Rattle.macho_placement_rules.specs.steps.Lying.{HasRoom, HasTableOf};
ghost use Rattle.macho_placement_rules.specs.steps.Pieces.{common_part};

use macho_layout::{CommonSpec, Placement};
use macho_model::{PlacedCommon, PlacedSegment, Range64, Slot, Stub};
use macho_records::name_bytes;
use std::alloc::{AllocError, Global};

/// Whether some addresses lie in a segment, or in its file part.
pub(crate) fn holds(segment: &PlacedSegment, start: u64, size: u64, in_file: bool) -> bool
    ensures { result ≡ (nat_le segment.now.address start
        && nat_le (start + size) (segment.now.address + (if in_file then segment.now.file_size else segment.now.size))) }
{
    let length = if in_file {
        segment.file_size
    } else {
        segment.size
    };
    segment.address <= start
        && start as u128 + size as u128 <= segment.address as u128 + length as u128
}

/// Whether a segment has a name.
pub(crate) fn is_named(segment: &PlacedSegment, name: &[u8]) -> bool
    ensures { result ≡ bytes_eq (text_of segment.now.name) name.now }
{
    let bytes = segment.name.into_bytes();
    name_bytes(&bytes) == name
}

/// The segments of a name. Segments that stand in the order of their names have one of each name at most, so whatever is looked
/// for among these is found at once.
fn segments_named(
    alloc: Global,
    segments: &[PlacedSegment],
    name: &[u8],
) -> Result<Vec<PlacedSegment>, AllocError>
    ensures { IfOk result (λ v. v.items ≡ filter (is_segment_named name.now) segments.now) }
{
    let mut named = Vec::new(alloc);
    for segment in segments {
        if is_named(segment, name) {
            named.push(*segment)?;
        }
    }
    Ok(named)
}

/// Whether some addresses lie in a segment of a name, or in the file part of one.
fn lies_in(segments: &[PlacedSegment], name: &[u8], start: u64, size: u64, in_file: bool) -> bool
    ensures found { OnTrue result (HasRoom in_file segments.now name.now start size) }
    ensures only { HasRoom in_file segments.now name.now start size → result ≡ true }
{
    for segment in segments {
        if is_named(segment, name) && holds(segment, start, size, in_file) {
            return true;
        }
    }
    false
}

/// Whether commons lie in a `__DATA` of these segments. They are among those of a plan.
fn commons_in(segments: &[PlacedSegment], commons: &[PlacedCommon], specs: &[CommonSpec]) -> bool
    requires { All (λ c. c.id < length specs.now) commons.now }
    ensures found { OnTrue result (All (λ c. HasRoom false segments.now DATA c.address (common_part specs.now c).size) commons.now) }
    ensures only { All (λ c. HasRoom false segments.now DATA c.address (common_part specs.now c).size) commons.now → result ≡ true }
{
    for common in commons {
        let size = specs[common.id as usize].size;
        if !lies_in(segments, b"__DATA", common.address, size, false) {
            return false;
        }
    }
    true
}

/// Whether slots lie in the file part of a `__DATA_CONST` of these segments.
fn slots_in(segments: &[PlacedSegment], slots: &[Slot]) -> bool
    ensures found { OnTrue result (All (λ s. HasRoom true segments.now DATA_CONST s.address 8) slots.now) }
    ensures only { All (λ s. HasRoom true segments.now DATA_CONST s.address 8) slots.now → result ≡ true }
{
    for slot in slots {
        if !lies_in(segments, b"__DATA_CONST", slot.address, 8, true) {
            return false;
        }
    }
    true
}

/// Whether stubs lie in the file part of a `__TEXT` of these segments.
fn stubs_in(segments: &[PlacedSegment], stubs: &[Stub]) -> bool
    ensures found { OnTrue result (All (λ s. HasRoom true segments.now TEXT s.address 12) stubs.now) }
    ensures only { All (λ s. HasRoom true segments.now TEXT s.address 12) stubs.now → result ≡ true }
{
    for stub in stubs {
        if !lies_in(segments, b"__TEXT", stub.address, 12, true) {
            return false;
        }
    }
    true
}

/// Whether the commons lie in `__DATA`. They are those of a plan, by number. Each is looked for in all segments of that name.
pub fn commons_lie(
    alloc: Global,
    placement: &Placement,
    specs: &[CommonSpec],
) -> Result<bool, AllocError>
    requires { All (λ c. c.id < length specs.now) placement.now.commons.items }
    ensures found { (l : Link) (p : Planning) → IsPlanOf l p → p.commons ≡ specs.now → IsWholeList l (placed_of placement.now)
        → IfOk result (λ b. OnTrue b (All (λ c. IsInNamed (placed_of placement.now) DATA (LiesIn false (common_piece l c)))
        placement.now.commons.items)) }
    ensures only { (l : Link) (p : Planning) → IsPlanOf l p → p.commons ≡ specs.now → IsWholeList l (placed_of placement.now)
        → All (λ c. IsInNamed (placed_of placement.now) DATA (LiesIn false (common_piece l c))) placement.now.commons.items
        → IfOk result (λ b. b ≡ true) }
{
    let named = segments_named(alloc, placement.segments.as_slice(), b"__DATA")?;
    let lie = commons_in(named.as_slice(), placement.commons.as_slice(), specs);
    Ok(lie)
}

/// Whether the slots lie in the file part of `__DATA_CONST`. Each is looked for in all segments of that name.
pub fn slots_lie(alloc: Global, placement: &Placement) -> Result<bool, AllocError>
    ensures found { IfOk result (λ b. OnTrue b (All (λ s. IsInNamed (placed_of placement.now) DATA_CONST (LiesIn true (slot_piece s)))
        placement.now.slots.items)) }
    ensures only { All (λ s. IsInNamed (placed_of placement.now) DATA_CONST (LiesIn true (slot_piece s))) placement.now.slots.items
        → IfOk result (λ b. b ≡ true) }
{
    let named = segments_named(alloc, placement.segments.as_slice(), b"__DATA_CONST")?;
    let lie = slots_in(named.as_slice(), placement.slots.as_slice());
    Ok(lie)
}

/// Whether the stubs lie in the file part of `__TEXT`. Each is looked for in all segments of that name.
pub fn stubs_lie(alloc: Global, placement: &Placement) -> Result<bool, AllocError>
    ensures found { IfOk result (λ b. OnTrue b (All (λ s. IsInNamed (placed_of placement.now) TEXT (LiesIn true (stub_piece s)))
        placement.now.stubs.items)) }
    ensures only { All (λ s. IsInNamed (placed_of placement.now) TEXT (LiesIn true (stub_piece s))) placement.now.stubs.items
        → IfOk result (λ b. b ≡ true) }
{
    let named = segments_named(alloc, placement.segments.as_slice(), b"__TEXT")?;
    let lie = stubs_in(named.as_slice(), placement.stubs.as_slice());
    Ok(lie)
}

/// Whether a range that the linker fills ends no earlier than it begins, and lies in the file part of `__TEXT` where it isn't empty.
pub fn range_lies(segments: &[PlacedSegment], range: Range64) -> bool
    ensures found { (p : Placed) → p.segments ≡ segments.now → OnTrue result (RangeLies p range) }
    ensures only { (p : Placed) → p.segments ≡ segments.now → RangeLies p range → result ≡ true }
{
    range.start <= range.end
        && (range.start == range.end
            || lies_in(
                segments,
                b"__TEXT",
                range.start,
                range.end - range.start,
                true,
            ))
}

/// Whether some file offsets lie in the file part of a `__LINKEDIT` of these segments.
fn table_in(segments: &[PlacedSegment], range: Range64) -> bool
    ensures found { OnTrue result (HasTableOf segments.now range) }
    ensures only { HasTableOf segments.now range → result ≡ true }
{
    for segment in segments {
        if is_named(segment, b"__LINKEDIT") && holds_range(segment, range) {
            return true;
        }
    }
    false
}

/// Whether some file offsets lie in the file part of a segment.
fn holds_range(segment: &PlacedSegment, range: Range64) -> bool
    ensures { result ≡ (nat_le segment.now.file_offset range.start && nat_le range.start range.end
        && nat_le range.end (segment.now.file_offset + segment.now.file_size)) }
{
    segment.file_offset <= range.start
        && range.start <= range.end
        && range.end as u128 <= segment.file_offset as u128 + segment.file_size as u128
}

/// Whether a table of `__LINKEDIT` lies in its file part where it isn't empty.
pub fn table_lies(segments: &[PlacedSegment], range: Range64) -> bool
    ensures found { (p : Placed) → p.segments ≡ segments.now → OnTrue result (TableLies p range) }
    ensures only { (p : Placed) → p.segments ≡ segments.now → TableLies p range → result ≡ true }
{
    range.start == range.end || table_in(segments, range)
}
