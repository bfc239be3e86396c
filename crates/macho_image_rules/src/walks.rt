//! Walks over all sections of an image: the first with a byte that isn't the input's.
ghost use Rattle.std.specs.Prelude.{◌≡◌, None, Some, All, Contains, IfOk, IfSome};
ghost use Rattle.macho_model.specs.Loader.{IsAccepted};
ghost use Rattle.macho_model.specs.Links.{Link};
ghost use Rattle.macho_layout.specs.Placements.{placed_of};
ghost use Rattle.macho_promise.specs.Views.{views_of};
ghost use Rattle.macho_image_rules.specs.Bytes.{SectionBytesAre, IsWrongByte};
ghost use Rattle.macho_image_rules.specs.Walks.{SectionStands, SectionsStand, PlacedSectionsStand, IsWrongIn};

use crate::marks::first_wrong_byte;
use macho_layout::Placement;
use macho_model::PlacedSection;
use macho_object::{File, view_of};
use std::alloc::{AllocError, Global};

/// A byte of a section of an object that an image has otherwise.
#[derive(Clone, Copy)]
pub struct WrongByte {
    /// The number of the file.
    pub file: u32,
    /// The number of the section in it, from 0.
    pub section: u32,
    /// The byte's offset in the section.
    pub offset: u64,
}

/// The sections of a placed link lie in segments that the image has mapped, where its segments are the placement's.
pub fn placed_sections_stand()
    ensures { PlacedSectionsStand }
{}

/// The first wrong byte of a placed section.
fn wrong_byte_in(
    alloc: Global,
    image: &[u8],
    placement: &Placement,
    views: &[Option<File<'_>>],
    place: PlacedSection,
) -> Result<Option<u64>, AllocError>
    requires accepted { IsAccepted image.now }
    requires stands { SectionStands views.now image.now (placed_of placement.now) place }
    ensures found { (l : Link) → views.now ≡ views_of l → IfOk result (λ r. r ≡ None → SectionBytesAre l image.now place) }
    ensures why { (l : Link) → views.now ≡ views_of l → IfOk result (λ r. IfSome r (IsWrongByte l image.now place)) }
{
    let Some(file) = view_of(views, place.file) else {
        unreachable!()
    };
    let segment = placement.segments[place.segment as usize];
    first_wrong_byte(alloc, image, segment, file, place)
}

/// The first placed section with a byte that stands in no field and isn't the input's, and its first such byte. `views` are views of
/// the objects by the numbers of their files.
///
/// # Errors
///
/// There is not enough memory.
pub fn first_wrong_section(
    alloc: Global,
    image: &[u8],
    placement: &Placement,
    views: &[Option<File<'_>>],
) -> Result<Option<WrongByte>, AllocError>
    requires accepted { IsAccepted image.now }
    requires stand { SectionsStand views.now image.now (placed_of placement.now) }
    ensures found { (l : Link) → views.now ≡ views_of l
        → IfOk result (λ r. r ≡ None → All (SectionBytesAre l image.now) placement.now.sections.items) }
    ensures why { (l : Link) → views.now ≡ views_of l
        → IfOk result (λ r. IfSome r (IsWrongIn l image.now (placed_of placement.now))) }
{
    for index in 0..placement.sections.len() {
        let place = placement.sections[index];
        if let Some(offset) = wrong_byte_in(alloc, image, placement, views, place)? {
            let (file, section) = (place.file, place.section);
            return Ok(Some(WrongByte {
                file,
                section,
                offset,
            }));
        }
    }
    Ok(None)
}
