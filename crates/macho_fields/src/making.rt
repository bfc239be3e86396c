//! What is made of a field: a word of the loader, or a value in its bytes; or why neither is.
ghost use Rattle.std.specs.Prelude.{◌≡◌, ◌+◌, ◌^◌, ◌<◌, IfOk, IfErr};
ghost use Rattle.macho_fields.specs.steps.Fields.{seen, start_of};
ghost use Rattle.macho_fields.specs.steps.Filled.{site_in, IsWordOf, CannotAsk, written_in, fault_in};

use crate::asking::{fixup_of, is_in_template, may_stand};
use crate::fault::FillFault;
use crate::field::Field;
use crate::places::Places;
use crate::values::write_of;
use crate::write::{FieldWrite, WriteFault};
use macho_fixups::Fixup;
use macho_model::{PlacedSection, Site};

/// Where a field stands.
fn site_of(place: PlacedSection, field: &Field) -> Site
    ensures { result ≡ site_in place (seen field.now) }
{
    Site::Field {
        file: place.file,
        section: place.section,
        relocation: field.relocation,
    }
}

/// What the loader is asked to make of a pointer.
pub(crate) fn word_of<P: Places>(
    places: &P,
    place: PlacedSection,
    field: &Field,
) -> Result<Fixup, FillFault>
    requires low { place.address + field.now.offset < 2 ^ 64 }
    ensures done { IfOk result (IsWordOf (P.look places.now) place (seen field.now)) }
    ensures why { IfErr result (CannotAsk (P.look places.now) place (seen field.now)) }
{
    let address = place.address + u64::from(field.offset);
    if !may_stand(address) {
        return Err(FillFault::Place {
            file: place.file,
            section: place.section,
            relocation: field.relocation,
        });
    }
    match fixup_of(places, field.target, field.addend) {
        Some(kind) => Ok(Fixup { address, kind }),
        None => Err(FillFault::Rebase {
            at: site_of(place, field),
        }),
    }
}

/// What a pointer counts from: the start of the template, where it is an offset in it.
fn start_of<P: Places>(places: &P, in_template: bool) -> u64
    ensures { result ≡ start_of in_template (P.look places.now).template }
{
    if !in_template {
        return 0;
    }
    match places.template() {
        Some(range) => range.start,
        None => 0,
    }
}

/// What is written to a field.
#[inline(always)]
pub(crate) fn written_of<P: Places>(
    places: &P,
    place: PlacedSection,
    field: &Field,
    descriptors: bool,
) -> FieldWrite
    requires low { place.address + field.now.offset < 2 ^ 64 }
    ensures { result ≡ written_in (P.look places.now) descriptors place (seen field.now) }
{
    let in_template = descriptors && is_in_template(places, field.target);
    let start = start_of(places, in_template);
    write_of(
        places,
        field,
        place.address + u64::from(field.offset),
        start,
    )
}

/// Why a field isn't filled, by why its value isn't written.
pub(crate) fn fault_of(fault: WriteFault, place: PlacedSection, field: &Field) -> FillFault
    ensures { result ≡ fault_in place (seen field.now) fault }
{
    match fault {
        WriteFault::NoWord => FillFault::Unsupported,
        WriteFault::Range => FillFault::Range {
            at: site_of(place, field),
        },
    }
}
