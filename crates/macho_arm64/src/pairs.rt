//! Two relocations of one field: the first is what the second one's pointer subtracts, or what the second one adds.
//!
//!     SUBTRACTOR _start   place 8, 8 bytes     the difference _end - _start
//!     UNSIGNED   _end     place 8, 8 bytes
//!     ADDEND     0x10     place 32             a branch to _f + 16
//!     BRANCH26   _f       place 32
ghost use Rattle.std.specs.Prelude.{◌≡◌};
ghost use Rattle.macho_model.specs.Fields.{takes_addend, is_difference, is_with_addend};

use macho_records::{
    ARM64_RELOC_ADDEND, ARM64_RELOC_BRANCH26, ARM64_RELOC_PAGE21, ARM64_RELOC_PAGEOFF12,
    ARM64_RELOC_SUBTRACTOR, ARM64_RELOC_UNSIGNED, RelocationInfo,
};

/// Whether an addend may stand before a relocation of a type.
fn takes_addend(kind: u8) -> bool
    ensures { result ≡ takes_addend kind }
{
    kind == ARM64_RELOC_BRANCH26 || kind == ARM64_RELOC_PAGE21 || kind == ARM64_RELOC_PAGEOFF12
}

/// Whether two relocations are a subtrahend and its pointer.
pub fn is_difference(first: RelocationInfo, second: RelocationInfo) -> bool
    ensures { result ≡ is_difference first second }
{
    first.r_type == ARM64_RELOC_SUBTRACTOR
        && second.r_type == ARM64_RELOC_UNSIGNED
        && first.r_address == second.r_address
        && first.r_length == second.r_length
}

/// Whether two relocations are an addend and what takes it.
pub fn is_with_addend(first: RelocationInfo, second: RelocationInfo) -> bool
    ensures { result ≡ is_with_addend first second }
{
    first.r_type == ARM64_RELOC_ADDEND
        && takes_addend(second.r_type)
        && first.r_address == second.r_address
}
