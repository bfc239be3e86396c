//! Which field a relocation is of, by its type, length and pcrel (`mach-o/arm64/reloc.h`).
ghost use Rattle.std.specs.Prelude.{◌≡◌, None, Some, IfOk, OnErr};
ghost use Rattle.macho_arm64.specs.Kinds.{kind_among, info_of, is_row_of};

use macho_records::{
    ARM64_RELOC_ADDEND, ARM64_RELOC_BRANCH26, ARM64_RELOC_GOT_LOAD_PAGE21,
    ARM64_RELOC_GOT_LOAD_PAGEOFF12, ARM64_RELOC_PAGE21, ARM64_RELOC_PAGEOFF12,
    ARM64_RELOC_POINTER_TO_GOT, ARM64_RELOC_SUBTRACTOR, ARM64_RELOC_TLVP_LOAD_PAGE21,
    ARM64_RELOC_TLVP_LOAD_PAGEOFF12, ARM64_RELOC_UNSIGNED, RelocationInfo,
};

/// How the value of a field comes from its target's address.
#[derive(Clone, Copy)]
pub enum RelocationKind {
    /// The address.
    Absolute,
    /// The distance from the place to the address.
    Relative,
    /// The low 12 bits of the address.
    AbsoluteLowPart,
    /// The distance from the place to the target's slot.
    GotRelative,
    /// The low 12 bits of the address of the target's slot.
    Got,
    /// Not a field: the addend of the next relocation.
    MachoAddition,
    /// Not a field: what the next relocation subtracts.
    MachoSubtraction,
}

/// What a value is written to.
#[derive(Clone, Copy, PartialEq, Eq)]
pub enum FieldSize {
    /// So many bytes: 4 or 8, and 0 for what is no field.
    Bytes(u8),
    /// The immediate of an ADRP, in pages of 4 KiB.
    Adr,
    /// The immediate of a B or BL, in words.
    JumpCall,
    /// The immediate of an ADD, a load or a store, in units of its scale.
    Low12,
}

/// The kind of a relocation.
#[derive(Clone, Copy)]
pub struct RelocationKindInfo {
    /// How the value comes from the target.
    pub kind: RelocationKind,
    /// What it is written to.
    pub size: FieldSize,
    /// Whether both addresses are those of their pages of 4 KiB.
    pub page: bool,
    /// Whether the addend is what the field holds in the input.
    pub implicit_addend: bool,
}

/// The relocation's type, length and pcrel are none that there are.
#[derive(Clone, Copy)]
pub struct UnknownRelocation;

/// A relocation that there is.
#[derive(Clone, Copy)]
pub struct KindRow {
    /// The `ARM64_RELOC_` type.
    pub r_type: u8,
    /// The width, as an exponent of 2.
    pub r_length: u8,
    /// Whether the value is relative to the place.
    pub r_pcrel: bool,
    /// Its kind.
    pub info: RelocationKindInfo,
}

impl KindRow {
    /// The row is that of the relocation.
    fn is_of(&self, rel: &RelocationInfo) -> bool
        ensures { result ≡ is_row_of rel.now.r_type rel.now.r_length rel.now.r_pcrel self.now }
    {
        let row = *self;
        let rel = *rel;
        row.r_type == rel.r_type && row.r_length == rel.r_length && row.r_pcrel == rel.r_pcrel
    }
}

/// The 64-bit Arm architecture of Mach-O files.
pub struct MachOAArch64;

macro_rules! row {
    ($type:ident, $length:literal, $pcrel:literal => $kind:ident, $size:expr, $page:literal, $implicit:literal) => {
        KindRow {
            r_type: $type,
            r_length: $length,
            r_pcrel: $pcrel,
            info: RelocationKindInfo {
                kind: RelocationKind::$kind,
                size: $size,
                page: $page,
                implicit_addend: $implicit,
            },
        }
    };
}

/// Every relocation that there is: type, length, pcrel => kind, size, page, implicit addend.
const KINDS: [KindRow; 13] = [
    row!(ARM64_RELOC_UNSIGNED, 2, false => Absolute, FieldSize::Bytes(4), false, true),
    row!(ARM64_RELOC_UNSIGNED, 3, false => Absolute, FieldSize::Bytes(8), false, true),
    row!(ARM64_RELOC_SUBTRACTOR, 2, false => MachoSubtraction, FieldSize::Bytes(0), false, false),
    row!(ARM64_RELOC_SUBTRACTOR, 3, false => MachoSubtraction, FieldSize::Bytes(0), false, false),
    row!(ARM64_RELOC_BRANCH26, 2, true => Relative, FieldSize::JumpCall, false, false),
    row!(ARM64_RELOC_PAGE21, 2, true => Relative, FieldSize::Adr, true, false),
    row!(ARM64_RELOC_PAGEOFF12, 2, false => AbsoluteLowPart, FieldSize::Low12, false, false),
    row!(ARM64_RELOC_GOT_LOAD_PAGE21, 2, true => GotRelative, FieldSize::Adr, true, false),
    row!(ARM64_RELOC_GOT_LOAD_PAGEOFF12, 2, false => Got, FieldSize::Low12, false, false),
    row!(ARM64_RELOC_POINTER_TO_GOT, 2, true => GotRelative, FieldSize::Bytes(4), false, false),
    row!(ARM64_RELOC_TLVP_LOAD_PAGE21, 2, true => Relative, FieldSize::Adr, true, false),
    row!(ARM64_RELOC_TLVP_LOAD_PAGEOFF12, 2, false => AbsoluteLowPart, FieldSize::Low12, false, false),
    row!(ARM64_RELOC_ADDEND, 2, false => MachoAddition, FieldSize::Bytes(0), false, false),
];

impl MachOAArch64 {
    /// The kind of a relocation, by its type, length and pcrel.
    ///
    /// # Errors
    ///
    /// There is no relocation of this type, length and pcrel.
    pub fn relocation_from_raw(rel: RelocationInfo) -> Result<RelocationKindInfo, UnknownRelocation>
        ensures found { IfOk result (λ info. info_of rel ≡ Some info) }
        ensures why { OnErr result (info_of rel ≡ None) }
    {
        kind_in(&KINDS, rel).ok_or(UnknownRelocation)
    }
}

/// The kind that a table of rows has for a relocation.
#[tactic(auto, unfolding(crate::specs::Kinds::kind_among))]
fn kind_in(rows: &[KindRow], rel: RelocationInfo) -> Option<RelocationKindInfo>
    ensures { result ≡ kind_among rows.now rel.r_type rel.r_length rel.r_pcrel }
{
    rows.iter().find(|row| row.is_of(&rel)).map(|row| row.info)
}
