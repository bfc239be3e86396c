//! Fixups: what the loader is asked to make of a pointer or of a slot.
ghost use Rattle.std.specs.Prelude.{◌≡◌, ◌-◌, ◌==◌, ◌&&◌, nat_le, if◌then◌else◌};
ghost use Rattle.macho_bytes.specs.Numbers.{bits};
ghost use Rattle.macho_model.specs.Fixups.{has_room};
ghost use Rattle.macho_fixups.specs.declared.words.FixupKind.TheVariants.{Bind};
ghost use Rattle.macho_fields.specs.steps.Fields.{seen, asks, in_template, fixup_asked, may_stand};

use crate::field::Field;
use crate::kinds::{FieldKind, kind_of};
use crate::places::Places;
use crate::values::address_of;
use macho_fixups::FixupKind;
use macho_model::{SEGMENT_PAGE, Target};

/// The bytes of a pointer, as of a word that the loader writes.
const POINTER_SIZE: u64 = 8;

/// The addends that a word has room for are below this.
const ADDEND_ROOM: u64 = 256;

/// Whether a target lies in the thread-local template.
pub(crate) fn is_in_template<P: Places>(places: &P, target: Target) -> bool
    ensures { result ≡ in_template (P.look places.now) target }
{
    match target {
        Target::Section {
            file,
            section,
            offset: _,
        } => places.is_in_template(file, section),
        _ => false,
    }
}

/// Whether the loader has to write a field.
pub(crate) fn asks<P: Places>(places: &P, field: &Field, descriptors: bool) -> bool
    ensures { result ≡ asks descriptors (P.look places.now) (seen field.now) }
{
    let kind = kind_of(field.r_type, field.subtrahend.is_some());
    field.width == 8
        && kind == FieldKind::Pointer
        && !field.target.is_absolute()
        && !(descriptors && is_in_template(places, field.target))
}

/// The distance of a value from the base, where a word has room for it: 36 bits, and the top 8 of the pointer.
fn rebase_of(value: u64, base: u64) -> Option<u64>
    ensures { result ≡ (if nat_le base value && (bits 36 20 (value - base) == 0) then Some (value - base) else None) }
{
    if value < base {
        return None;
    }
    let target = value - base;
    if (target >> 36) & 0xf_ffff != 0 {
        return None;
    }
    Some(target)
}

/// The word that binds an import with an addend.
fn bind_of<P: Places>(places: &P, id: u32, addend: u64) -> FixupKind
    ensures { result ≡ (if has_room addend then Bind id addend else Bind ((P.look places.now).own id addend) 0) }
{
    if addend < ADDEND_ROOM {
        FixupKind::Bind {
            ordinal: id,
            addend,
        }
    } else {
        FixupKind::Bind {
            ordinal: places.own_entry(id, addend),
            addend: 0,
        }
    }
}

/// What the loader is asked to make of a word, None where there is no such word.
pub(crate) fn fixup_of<P: Places>(places: &P, target: Target, addend: u64) -> Option<FixupKind>
    ensures { result ≡ fixup_asked (P.look places.now) target addend }
{
    match target {
        Target::Import { id } => Some(bind_of(places, id, addend)),
        _ => {
            let value = address_of(places, target).wrapping_add(addend);
            match rebase_of(value, places.base()) {
                Some(target) => Some(FixupKind::Rebase { target }),
                None => None,
            }
        }
    }
}

/// Whether a word of the loader may stand at an address.
pub(crate) fn may_stand(address: u64) -> bool
    ensures { result ≡ may_stand address }
{
    address % SEGMENT_PAGE + POINTER_SIZE <= SEGMENT_PAGE && address % 4 == 0
}
