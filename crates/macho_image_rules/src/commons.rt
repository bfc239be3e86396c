//! The commons of an image: the first with a byte that isn't 0.
ghost use Rattle.std.specs.Prelude.{◌≡◌, true, false, None, All, Contains, IfSome};
ghost use Rattle.macho_model.specs.Loader.{IsAccepted};
ghost use Rattle.macho_model.specs.Links.{Link};
ghost use Rattle.macho_model.specs.Segments.{DATA};
ghost use Rattle.macho_model.specs.Placement.{is_segment_named};
ghost use Rattle.macho_layout.specs.Placements.{placed_of};
ghost use Rattle.macho_image_rules.specs.Commons.{CommonStands, CommonsStand, PlacedCommonsStand, CommonBytesAre, IsWrongOf, IsWrongCommon, commons_of};

use crate::bytes::first_nonzero;
use macho_layout::{CommonSpec, Placement};
use macho_model::{PlacedCommon, PlacedSegment};
use macho_records::name_bytes;

/// A byte of a common that isn't 0 in an image.
#[derive(Clone, Copy)]
pub struct WrongCommon {
    /// The number of the common among the chosen ones.
    pub id: u32,
    /// The byte's offset in it.
    pub offset: u64,
}

/// The commons of a placed link lie in a segment that the image has mapped, where its segments are the placement's.
pub fn placed_commons_stand()
    ensures { PlacedCommonsStand }
{}

/// The first segment of a name.
pub(crate) fn segment_named(segments: &[PlacedSegment], name: &[u8]) -> Option<PlacedSegment>
    ensures found { IfSome result (λ s. Contains segments.now s × (is_segment_named name.now s ≡ true)) }
    ensures none { result ≡ None → All (λ s. is_segment_named name.now s ≡ false) segments.now }
{
    for index in 0..segments.len() {
        let segment = segments[index];
        if name_bytes(&segment.name.into_bytes()) == name {
            return Some(segment);
        }
    }
    None
}

/// The first byte of a placed common that isn't 0.
fn nonzero_of(
    image: &[u8],
    placement: &Placement,
    segment: PlacedSegment,
    common: PlacedCommon,
    sizes: &[CommonSpec],
) -> Option<u64>
    requires accepted { IsAccepted image.now }
    requires stands { CommonStands image.now (placed_of placement.now) sizes.now common }
    requires one { Contains placement.now.segments.items segment }
    requires named { is_segment_named DATA segment ≡ true }
    ensures found { (l : Link) → sizes.now ≡ commons_of l → result ≡ None → CommonBytesAre l image.now common }
    ensures why { (l : Link) → sizes.now ≡ commons_of l → IfSome result (IsWrongOf l image.now common) }
{
    first_nonzero(
        image,
        segment,
        common.address,
        sizes[common.id as usize].size,
    )
}

/// The first placed common with a byte that isn't 0, and its first such byte. `sizes` are the chosen commons by their numbers.
pub fn first_wrong_common(
    image: &[u8],
    placement: &Placement,
    sizes: &[CommonSpec],
) -> Option<WrongCommon>
    requires accepted { IsAccepted image.now }
    requires stand { CommonsStand image.now (placed_of placement.now) sizes.now }
    ensures found { (l : Link) → sizes.now ≡ commons_of l → result ≡ None → All (CommonBytesAre l image.now) placement.now.commons.items }
    ensures why { (l : Link) → sizes.now ≡ commons_of l → IfSome result (IsWrongCommon l image.now (placed_of placement.now)) }
{
    let Some(segment) = segment_named(&placement.segments, b"__DATA") else {
        return None;
    };
    for index in 0..placement.commons.len() {
        let common = placement.commons[index];
        if let Some(offset) = nonzero_of(image, placement, segment, common, sizes) {
            let id = common.id;
            return Some(WrongCommon { id, offset });
        }
    }
    None
}
