//! Kinds of fields, by the type of their relocation (`mach-o/arm64/reloc.h`).
ghost use Rattle.std.specs.Prelude.{◌≡◌};
ghost use Rattle.macho_model.specs.Stands.{kind_of};
ghost use Rattle.macho_arm64.specs.Laws.{size_for};
ghost use Rattle.macho_model.specs.Fields.{is_prefix_type};
ghost use Rattle.macho_fields.specs.steps.Fields.{meaning};

use macho_arm64::FieldSize;
use macho_records::{
    ARM64_RELOC_ADDEND, ARM64_RELOC_BRANCH26, ARM64_RELOC_GOT_LOAD_PAGE21,
    ARM64_RELOC_GOT_LOAD_PAGEOFF12, ARM64_RELOC_PAGE21, ARM64_RELOC_PAGEOFF12,
    ARM64_RELOC_POINTER_TO_GOT, ARM64_RELOC_SUBTRACTOR, ARM64_RELOC_TLVP_LOAD_PAGE21,
    ARM64_RELOC_TLVP_LOAD_PAGEOFF12, ARM64_RELOC_UNSIGNED,
};

/// What a field says of its target.
#[derive(Clone, Copy)]
pub(crate) enum FieldKind {
    /// Its address.
    Pointer,
    /// How far it is behind another.
    Difference,
    /// The way of a B or BL to it, or to its stub.
    Branch,
    /// The way of an ADRP to its page.
    Page,
    /// Its offset in a page.
    Offset,
    /// The way of an ADRP to the page of its slot.
    SlotPage,
    /// The offset in a page of its slot.
    SlotOffset,
    /// How far its slot is away.
    SlotDistance,
    /// Nothing that is known.
    Other,
}

/// The kind of a relocation's field.
pub(crate) fn kind_of(r_type: u8, has_subtrahend: bool) -> FieldKind
    ensures { meaning result ≡ kind_of r_type has_subtrahend }
{
    match r_type {
        ARM64_RELOC_UNSIGNED if has_subtrahend => FieldKind::Difference,
        ARM64_RELOC_UNSIGNED => FieldKind::Pointer,
        ARM64_RELOC_BRANCH26 => FieldKind::Branch,
        ARM64_RELOC_PAGE21 => FieldKind::Page,
        ARM64_RELOC_PAGEOFF12 => FieldKind::Offset,
        ARM64_RELOC_GOT_LOAD_PAGE21 | ARM64_RELOC_TLVP_LOAD_PAGE21 => FieldKind::SlotPage,
        ARM64_RELOC_GOT_LOAD_PAGEOFF12 | ARM64_RELOC_TLVP_LOAD_PAGEOFF12 => FieldKind::SlotOffset,
        ARM64_RELOC_POINTER_TO_GOT => FieldKind::SlotDistance,
        _ => FieldKind::Other,
    }
}

/// Whether a relocation is part of the field of the one behind it.
pub(crate) fn is_prefix(r_type: u8) -> bool
    ensures { result ≡ is_prefix_type r_type }
{
    r_type == ARM64_RELOC_SUBTRACTOR || r_type == ARM64_RELOC_ADDEND
}

/// What the value of a field of so many bytes is written to.
pub(crate) fn size_of(kind: FieldKind, width: u8) -> FieldSize
    ensures { result ≡ size_for (meaning kind) width }
{
    match kind {
        FieldKind::Pointer | FieldKind::Difference | FieldKind::SlotDistance => {
            FieldSize::Bytes(width)
        }
        FieldKind::Branch => FieldSize::JumpCall,
        FieldKind::Page | FieldKind::SlotPage => FieldSize::Adr,
        FieldKind::Offset | FieldKind::SlotOffset => FieldSize::Low12,
        FieldKind::Other => FieldSize::Bytes(0),
    }
}
