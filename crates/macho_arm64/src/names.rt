//! The names of relocation types.
ghost use Rattle.std.specs.Prelude.{◌≡◌, IfOk, slice_get, string_bytes};
ghost use Rattle.std.specs.Option.{option_copied};
ghost use Rattle.macho_arm64.specs.Kinds.{type_names, type_text};

use macho_records::RelocationInfo;
use std::alloc::{AllocError, Global};

/// What a relocation's type is printed as: `ARM64_RELOC_BRANCH26` of type 2, and `Unknown arm64 relocation type 0xc` of
/// type 12, which has no name.
///
/// # Errors
///
/// There is not enough memory.
pub fn rel_type_to_string(alloc: Global, rel: RelocationInfo) -> Result<String, AllocError>
    ensures { IfOk result (λ s. string_bytes s ≡ type_text rel.r_type) }
{
    let r_type = rel.r_type;
    match type_name(r_type) {
        Some(name) => format!(in alloc; "ARM64_RELOC_{name}"),
        None => format!(in alloc; "Unknown arm64 relocation type 0x{r_type:x}"),
    }
}

/// The name of a type without its prefix.
fn type_name(r_type: u8) -> Option<&'static str>
    ensures { option_copied result ≡ slice_get type_names r_type }
{
    let name = match r_type {
        0 => "UNSIGNED",
        1 => "SUBTRACTOR",
        2 => "BRANCH26",
        3 => "PAGE21",
        4 => "PAGEOFF12",
        5 => "GOT_LOAD_PAGE21",
        6 => "GOT_LOAD_PAGEOFF12",
        7 => "POINTER_TO_GOT",
        8 => "TLVP_LOAD_PAGE21",
        9 => "TLVP_LOAD_PAGEOFF12",
        10 => "ADDEND",
        11 => "AUTHENTICATED_POINTER",
        _ => return None,
    };
    Some(name)
}
