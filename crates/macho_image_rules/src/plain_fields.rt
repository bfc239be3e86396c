//! The fields of an image that the loader doesn't write: the first that doesn't say its target and addend.
ghost use Rattle.std.specs.Prelude.{◌≡◌, ℕ, ◌<◌, None, Some, get_or, All, Contains, IfSome};
ghost use Rattle.macho_model.specs.Loader.{IsAccepted};
ghost use Rattle.macho_model.specs.Links.{Link};
ghost use Rattle.macho_model.specs.Objects.{num_symbols};
ghost use Rattle.macho_object.specs.Views.{FileBytes};
ghost use Rattle.macho_layout.specs.Placements.{placed_of};
ghost use Rattle.macho_image_rules.specs.Walks.{SectionStands, SectionsStand};
ghost use Rattle.macho_image_rules.specs.PlainFields.{IsLookedAt, PlainFieldsSay, IsWrongFieldOf, IsWrongField};

use crate::bytes::filed_bytes;
use macho_fields::{Places, first_wrong_field};
use macho_layout::Placement;
use macho_model::PlacedSection;
use macho_object::{File, view_of};

/// A field of a section of an object that an image has otherwise.
#[derive(Clone, Copy)]
pub struct WrongField {
    /// The number of the file.
    pub file: u32,
    /// The number of the section in it, from 0.
    pub section: u32,
    /// The number of the field's relocation in the section, from 0.
    pub relocation: u32,
}

/// The relocation of the first wrong field of a placed section.
fn wrong_field_in<P: Places>(
    places: &P,
    image: &[u8],
    placement: &Placement,
    views: &[Option<File<'_>>],
    place: PlacedSection,
) -> Option<u32>
    requires accepted { IsAccepted image.now }
    requires stands { SectionStands views.now image.now (placed_of placement.now) place }
    requires symbols { (k : ℕ) (f : FileBytes) → get_or views.now k None ≡ Some f
        → (s : ℕ) → s < num_symbols f.bytes → P.has_symbol places.now k s }
    ensures found { (l : Link) → IsLookedAt l (placed_of placement.now) views.now (P.look places.now)
        → Contains placement.now.sections.items place → result ≡ None → PlainFieldsSay l image.now (placed_of placement.now) place }
    ensures why { (l : Link) → IsLookedAt l (placed_of placement.now) views.now (P.look places.now)
        → Contains placement.now.sections.items place → IfSome result (IsWrongFieldOf l image.now (placed_of placement.now) place) }
{
    let Some(file) = view_of(views, place.file) else {
        unreachable!()
    };
    let _object = file.is_dynamic();
    let Some(header) = file.section(place.section) else {
        unreachable!()
    };
    if header.is_no_bits() {
        return None;
    }
    let segment = placement.segments[place.segment as usize];
    let bytes = filed_bytes(image, segment, place.address, header.size);
    first_wrong_field(places, file, place, bytes)
}

/// The first field of a placement's sections that the loader doesn't write and that doesn't say its target and addend. `views` are
/// views of the objects by the numbers of their files.
pub fn first_wrong_plain<P: Places>(
    places: &P,
    image: &[u8],
    placement: &Placement,
    views: &[Option<File<'_>>],
) -> Option<WrongField>
    requires accepted { IsAccepted image.now }
    requires stand { SectionsStand views.now image.now (placed_of placement.now) }
    requires symbols { (k : ℕ) (f : FileBytes) → get_or views.now k None ≡ Some f
        → (s : ℕ) → s < num_symbols f.bytes → P.has_symbol places.now k s }
    ensures found { (l : Link) → IsLookedAt l (placed_of placement.now) views.now (P.look places.now)
        → result ≡ None → All (PlainFieldsSay l image.now (placed_of placement.now)) placement.now.sections.items }
    ensures why { (l : Link) → IsLookedAt l (placed_of placement.now) views.now (P.look places.now)
        → IfSome result (IsWrongField l image.now (placed_of placement.now)) }
{
    for index in 0..placement.sections.len() {
        let place = placement.sections[index];
        if let Some(relocation) = wrong_field_in(places, image, placement, views, place) {
            let (file, section) = (place.file, place.section);
            return Some(WrongField {
                file,
                section,
                relocation,
            });
        }
    }
    None
}
