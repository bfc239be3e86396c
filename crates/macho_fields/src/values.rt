//! The value of a field, by its kind.
ghost use Rattle.std.specs.Prelude.{◌≡◌, ◌+◌, ◌%◌, ◌^◌, ◌<◌};
ghost use Rattle.macho_bytes.specs.Numbers.{page, low};
ghost use Rattle.macho_model.specs.Placement.{Placed};
ghost use Rattle.macho_model.specs.Addresses.{address_of};
ghost use Rattle.macho_model.specs.Values.{less};
ghost use Rattle.macho_fields.specs.Looks.{TellsAddresses, address_in, wrapped_in};
ghost use Rattle.macho_fields.specs.steps.Fields.{call_in, load_in, minus_in, goes_straight, relaxes, value_in, write_in, meaning, seen, kind_in};

use crate::field::Field;
use crate::kinds::{FieldKind, kind_of, size_of};
use crate::places::Places;
use crate::write::FieldWrite;
use macho_arm64::PAGE_SIZE;
use macho_model::Target;

/// How far one address is behind another, modulo 2^64.
fn distance(to: u64, from: u64) -> u64
    ensures { result ≡ less to from }
{
    to.wrapping_sub(from)
}

/// The start of an address's page.
fn page(address: u64) -> u64
    ensures { result ≡ page address }
{
    address - address % PAGE_SIZE
}

/// The address of a target that is in the image, or its value, modulo 2^64; 0 for an import, which is elsewhere.
pub fn address_of<P: Places>(places: &P, target: Target) -> u64
    ensures wrapped { result ≡ wrapped_in (P.look places.now) target }
    ensures modulo { result ≡ address_in (P.look places.now) target % 2 ^ 64 }
    ensures is { (p : Placed) → TellsAddresses p (P.look places.now) → result ≡ address_of p target % 2 ^ 64 }
    ensures low { (p : Placed) → TellsAddresses p (P.look places.now) → address_of p target < 2 ^ 64 → result ≡ address_of p target }
{
    match target {
        Target::Section {
            file,
            section,
            offset,
        } => places.section(file, section).wrapping_add(offset),
        Target::Common { id } => places.common(id),
        Target::Base => places.base(),
        Target::Absolute { value } => value,
        Target::Import { id: _ } => 0,
        Target::None => 0,
    }
}

/// The address that a call of a target goes to: the stub of an import.
fn call_of<P: Places>(places: &P, target: Target) -> u64
    ensures { result ≡ call_in (P.look places.now) target % 2 ^ 64 }
{
    match target {
        Target::Import { id } => places.stub(id),
        _ => address_of(places, target),
    }
}

/// The address that a load of a target's address goes by: the slot of an import, else the target's own.
fn load_of<P: Places>(places: &P, target: Target) -> u64
    ensures { result ≡ load_in (P.look places.now) target % 2 ^ 64 }
{
    match target {
        Target::Import { id: _ } => places.slot(target),
        _ => address_of(places, target),
    }
}

/// The address that a difference subtracts.
fn minus_of<P: Places>(places: &P, target: Option<Target>) -> u64
    ensures { result ≡ minus_in (P.look places.now) target % 2 ^ 64 }
{
    match target {
        Some(target) => address_of(places, target),
        None => 0,
    }
}

/// The value of a field of a kind at a place. A pointer may count from a start.
fn value_of<P: Places>(places: &P, field: &Field, kind: FieldKind, place: u64, start: u64) -> u64
    ensures { result ≡ value_in (P.look places.now) place start (seen field.now) (meaning kind) }
{
    let target = field.target;
    let addend = field.addend;
    match kind {
        FieldKind::Pointer => distance(address_of(places, target).wrapping_add(addend), start),
        FieldKind::Difference => distance(
            address_of(places, target).wrapping_add(addend),
            minus_of(places, field.subtrahend),
        ),
        FieldKind::Branch => distance(call_of(places, target).wrapping_add(addend), place),
        FieldKind::Page => distance(
            page(address_of(places, target).wrapping_add(addend)),
            page(place),
        ),
        FieldKind::Offset => address_of(places, target).wrapping_add(addend) % PAGE_SIZE,
        FieldKind::SlotPage => distance(page(load_of(places, target)), page(place)),
        FieldKind::SlotOffset => load_of(places, target) % PAGE_SIZE,
        FieldKind::SlotDistance => distance(places.slot(target), place),
        FieldKind::Other => 0,
    }
}

/// Whether the load of a field becomes an ADD.
fn relaxes(kind: FieldKind, target: Target) -> bool
    ensures { result ≡ relaxes (meaning kind) target }
{
    match target {
        Target::Import { id: _ } => false,
        _ => kind == FieldKind::SlotOffset,
    }
}

/// What is written for a field at a place.
pub(crate) fn write_of<P: Places>(places: &P, field: &Field, place: u64, start: u64) -> FieldWrite
    ensures { result ≡ write_in (P.look places.now) place start (seen field.now) (kind_in (seen field.now)) }
{
    let kind = kind_of(field.r_type, field.subtrahend.is_some());
    FieldWrite {
        at: field.offset,
        size: size_of(kind, field.width),
        relax: relaxes(kind, field.target),
        value: value_of(places, field, kind, place, start),
    }
}
