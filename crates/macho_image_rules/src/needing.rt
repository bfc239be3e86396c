//! The words that the loader has to write for a link: its slots, and the pointers of its sections, by rising addresses.
//!
//!     slot 0 at 0x100004000 of `_puts`                                   0x100004000  slot 0          `_puts`
//!     relocation 2 of `__data`, at 0x10000c008 to `_main`       gives    0x10000c000  relocation 1    `_helper`
//!     relocation 1 of `__data`, at 0x10000c000 to `_helper`              0x10000c008  relocation 2    `_main`
ghost use Rattle.std.specs.Prelude.{◌≡◌, ℕ, ◌^◌, ◌<◌, ◌++◌, length, map, flat_map, All, Contains, OnOk, IfOk};
ghost use Rattle.std.specs.List.Sorted.{IsNonDecreasingBy};
ghost use Rattle.macho_model.specs.Links.{Link};
ghost use Rattle.macho_model.specs.Placement.{Placed};
ghost use Rattle.macho_layout.specs.Placements.{placed_of};
ghost use Rattle.macho_fields.specs.Pointers.{pointers_in};
ghost use Rattle.macho_image_rules.specs.Viewed.{IsSectionViewed, SymbolsAreKnown, IsViewed};
ghost use Rattle.macho_image_rules.specs.Needing.{slot_word, AreNeededBy};
ghost use Rattle.macho_image_rules.specs.steps.Gathered.{word_of, slot_words};

use crate::chain::{Needed, sort_by_address};
use macho_fields::{Places, Pointer, pointers_of};
use macho_layout::{PlacedSection, Placement, Slot};
use macho_model::Site;
use macho_object::{File, view_of};
use std::alloc::{AllocError, Global};

/// The word of a slot, by its number.
fn slot_word(slot: Slot, index: u32) -> Needed
    ensures { result ≡ slot_word index slot }
{
    Needed {
        address: slot.address,
        site: Site::Slot { index },
        target: slot.target,
        addend: 0,
    }
}

/// The word of a pointer.
fn word_of(pointer: &Pointer) -> Needed
    ensures { result ≡ word_of pointer.now }
{
    Needed {
        address: pointer.address,
        site: Site::Field {
            file: pointer.file,
            section: pointer.section,
            relocation: pointer.relocation,
        },
        target: pointer.target,
        addend: pointer.addend,
    }
}

/// Pushes the words of slots.
fn push_slots(slots: &[Slot], needed: &mut Vec<Needed>) -> Result<(), AllocError>
    requires few { length slots.now < 2 ^ 32 }
    ensures done { OnOk result (needed.new.items ≡ needed.old.items ++ slot_words slots.now (length slots.now)) }
{
    for index in 0..slots.len() {
        needed.push(slot_word(slots[index], index as u32))?;
    }
    Ok(())
}

/// Pushes the words of pointers.
fn push_pointers(pointers: &[Pointer], needed: &mut Vec<Needed>) -> Result<(), AllocError>
    ensures done { OnOk result (needed.new.items ≡ needed.old.items ++ map word_of pointers.now) }
{
    for pointer in pointers {
        needed.push(word_of(pointer))?;
    }
    Ok(())
}

/// Pushes the pointers of a placed section. One of zeros has none.
fn section_pointers<P: Places>(
    places: &P,
    views: &[Option<File<'_>>],
    place: PlacedSection,
    run: &mut Vec<Pointer>,
) -> Result<(), AllocError>
    requires viewed { IsSectionViewed views.now place }
    requires symbols { SymbolsAreKnown views.now (P.has_symbol places.now) }
    ensures done { (l : Link) (p : Placed) → IsViewed l p views.now (P.look places.now) → Contains p.sections place
        → OnOk result (run.new.items ≡ run.old.items ++ pointers_in l place) }
{
    let Some(file) = view_of(views, place.file) else {
        unreachable!()
    };
    let Some(header) = file.section(place.section) else {
        unreachable!()
    };
    if header.is_no_bits() {
        return Ok(());
    }
    pointers_of(places, file, place, run)
}

/// The pointers of all placed sections.
fn all_pointers<P: Places>(
    alloc: Global,
    places: &P,
    views: &[Option<File<'_>>],
    sections: &[PlacedSection],
) -> Result<Vec<Pointer>, AllocError>
    requires viewed { All (IsSectionViewed views.now) sections.now }
    requires symbols { SymbolsAreKnown views.now (P.has_symbol places.now) }
    ensures done { (l : Link) (p : Placed) → IsViewed l p views.now (P.look places.now) → sections.now ≡ p.sections
        → IfOk result (λ run. run.items ≡ flat_map (pointers_in l) sections.now) }
{
    let mut run = Vec::new(alloc);
    for index in 0..sections.len() {
        section_pointers(places, views, sections[index], &mut run)?;
    }
    Ok(run)
}

/// The words of slots, then those of pointers.
fn words_of(alloc: Global, slots: &[Slot], pointers: &[Pointer]) -> Result<Vec<Needed>, AllocError>
    requires few { length slots.now < 2 ^ 32 }
    ensures done { IfOk result (λ v. v.items ≡ slot_words slots.now (length slots.now) ++ map word_of pointers.now) }
{
    let mut needed = Vec::new(alloc);
    push_slots(slots, &mut needed)?;
    push_pointers(pointers, &mut needed)?;
    Ok(needed)
}

/// The words that the loader has to write for a link, by rising addresses: its slots, and the pointers of its sections.
/// `views` are views of the objects by the numbers of their files.
///
/// # Errors
///
/// There is not enough memory, or there are more slots than numbers of 32 bits tell.
pub fn needed_words<P: Places>(
    alloc: Global,
    places: &P,
    placement: &Placement,
    views: &[Option<File<'_>>],
) -> Result<Vec<Needed>, AllocError>
    requires viewed { All (IsSectionViewed views.now) placement.now.sections.items }
    requires symbols { SymbolsAreKnown views.now (P.has_symbol places.now) }
    ensures sorted { IfOk result (λ v. IsNonDecreasingBy (λ n. n.address) v.items) }
    ensures done { (l : Link) → IsViewed l (placed_of placement.now) views.now (P.look places.now)
        → IfOk result (λ v. AreNeededBy l (placed_of placement.now) v.items) }
{
    if placement.slots.len() > u32::MAX as usize {
        return Err(AllocError);
    }
    let pointers = all_pointers(alloc, places, views, &placement.sections)?;
    let mut needed = words_of(alloc, &placement.slots, &pointers)?;
    sort_by_address(&mut needed);
    Ok(needed)
}
