//! What a caller may ask of relocations that the linker never asks: their names, what is known of one by its bits, how a reference through
//! a slot is relaxed, and where addresses begin.
use macho_arm64::{
    FieldSize, MachOAArch64, RelocationKind, rel_type_to_string, start_memory_address,
};
use macho_records::RelocationInfo;
use std::alloc::{AllocError, Global};
use std::test::Fail;

fn relocation(r_type: u8, r_pcrel: bool) -> RelocationInfo {
    RelocationInfo {
        r_address: 0,
        r_symbolnum: 0,
        r_pcrel,
        r_length: 2,
        r_extern: true,
        r_type,
    }
}

/// Types of relocations, and their names in mach-o/arm64/reloc.h.
static NAMES: [(u8, &str); 3] = [
    (2, "ARM64_RELOC_BRANCH26"),
    (11, "ARM64_RELOC_AUTHENTICATED_POINTER"),
    (12, "Unknown arm64 relocation type 0xc"),
];

/// The first type that has another name; 0 where there is none.
fn first_misnamed(alloc: Global, names: &[(u8, &str)]) -> Result<u8, AllocError> {
    for (r_type, text) in names {
        if rel_type_to_string(alloc, relocation(*r_type, true))?.as_str() != *text {
            return Ok(*r_type);
        }
    }
    Ok(0)
}

/// Whether a branch is relative and of its instruction, and there is none that isn't.
fn are_branches_told() -> bool {
    let Ok(info) = MachOAArch64::relocation_from_raw(relocation(2, true)) else {
        return false;
    };
    info.kind == RelocationKind::Relative
        && info.size == FieldSize::JumpCall
        && MachOAArch64::relocation_from_raw(relocation(2, false)).is_err()
}

/// Whether a load of a slot becomes an offset in a page where its target is defined, and there alone.
fn are_relaxations_told() -> bool {
    let Some(relaxation) = MachOAArch64::new_relaxation(relocation(6, false), true) else {
        return false;
    };
    relaxation.rel_info().kind == RelocationKind::AbsoluteLowPart
        && MachOAArch64::new_relaxation(relocation(6, false), false).is_none()
}

#[test]
fn relocations_are_asked(rt: HostRuntime) -> Result<(), Fail> {
    assert_eq!(rt; first_misnamed(rt.alloc(), &NAMES)?, 0);
    assert!(rt; are_branches_told());
    assert!(rt; are_relaxations_told());
    assert!(rt; start_memory_address(true) == 0x1_0000_0000 && start_memory_address(false) == 0);
    Ok(())
}
