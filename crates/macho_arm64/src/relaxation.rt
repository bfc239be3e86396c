//! Relaxations: a reference through a slot whose target is known is made one to the target itself.
//!
//!     adrp x0, _x@GOTPAGE              adrp x0, _x@PAGE
//!     ldr  x0, [x0, _x@GOTPAGEOFF]     add  x0, x0, _x@PAGEOFF
//!
//! The load `00 00 40 f9` becomes the ADD `00 00 00 91`, and is then written with the target's offset in its page.
ghost use Rattle.std.specs.Prelude.{◌≡◌, ◌+◌, ◌≤◌, length, true, false, None, Some, OnOk, OnErr, if◌then◌else◌};
ghost use Rattle.macho_bytes.specs.Numbers.{le_at};
ghost use Rattle.macho_arm64.specs.Relaxations.{relaxation_of, relaxed_kind, can_relax, is_relaxable, IsMadeAdd, MakesAdd, Relaxes};

use crate::kinds::{FieldSize, MachOAArch64, RelocationKind, RelocationKindInfo};
use crate::words::is_ldr;
use macho_records::{
    ARM64_RELOC_GOT_LOAD_PAGE21, ARM64_RELOC_GOT_LOAD_PAGEOFF12, ARM64_RELOC_TLVP_LOAD_PAGEOFF12,
    RelocationInfo,
};
use macho_wire::{Number, put_little};

/// How an instruction of a reference through a slot is relaxed.
#[derive(Clone, Copy)]
pub enum Relaxation {
    /// The ADRP stays as it is, to be given the target's page.
    Page,
    /// The load becomes an ADD, to be given the target's offset in its page.
    LoadToAdd,
}

/// The word is no 64-bit load with an unsigned offset, or one into register 31, which an ADD takes for the stack
/// pointer.
#[derive(Clone, Copy)]
pub struct NotALoad;

impl MachOAArch64 {
    /// The relaxation of a relocation, where it is of a page or a load of a slot and its target is defined.
    pub fn new_relaxation(rel: RelocationInfo, defined: bool) -> Option<Relaxation>
        ensures { result ≡ (if defined then relaxation_of rel.r_type else None) }
    {
        if !defined {
            return None;
        }
        match rel.r_type {
            ARM64_RELOC_GOT_LOAD_PAGE21 => Some(Relaxation::Page),
            ARM64_RELOC_GOT_LOAD_PAGEOFF12 | ARM64_RELOC_TLVP_LOAD_PAGEOFF12 => Some(
                Relaxation::LoadToAdd,
            ),
            _ => None,
        }
    }
}

impl Relaxation {
    /// The kind of the relaxed reference: that of a page, or of an offset in one.
    #[tactic(auto, unfolding(crate::specs::Kinds::kind_among))]
    pub fn rel_info(&self) -> RelocationKindInfo
        ensures { relaxed_kind self.now ≡ Some result }
    {
        let (kind, size) = match self {
            Relaxation::Page => (RelocationKind::Relative, FieldSize::Adr),
            Relaxation::LoadToAdd => (RelocationKind::AbsoluteLowPart, FieldSize::Low12),
        };
        RelocationKindInfo {
            kind,
            size,
            page: size == FieldSize::Adr,
            implicit_addend: false,
        }
    }

    /// Relaxes the instruction at a place.
    ///
    /// # Errors
    ///
    /// The instruction is no load that can be made an ADD. Nothing is changed then.
    pub fn apply(&self, bytes: &mut [u8], at: usize) -> Result<(), NotALoad>
        requires { at + 4 ≤ length bytes.old }
        ensures found { OnOk result (can_relax self.now (le_at 4 bytes.old at) ≡ true) }
        ensures why { OnErr result (can_relax self.now (le_at 4 bytes.old at) ≡ false) }
        ensures kept { OnErr result (bytes.new ≡ bytes.old) }
        ensures done { OnOk result (Relaxes self.now at bytes.old bytes.new) }
    {
        match self {
            Relaxation::Page => Ok(()),
            Relaxation::LoadToAdd => make_add(bytes, at),
        }
    }
}

/// Makes the load at a place the ADD of 0 to the same base, into the same register.
fn make_add(bytes: &mut [u8], at: usize) -> Result<(), NotALoad>
    requires { at + 4 ≤ length bytes.old }
    ensures found { OnOk result (is_relaxable (le_at 4 bytes.old at) ≡ true) }
    ensures why { OnErr result (is_relaxable (le_at 4 bytes.old at) ≡ false) }
    ensures kept { OnErr result (bytes.new ≡ bytes.old) }
    ensures done { OnOk result (MakesAdd at bytes.old bytes.new) }
{
    let word = u32::read_little(bytes, at);
    if !is_relaxable(word) {
        return Err(NotALoad);
    }
    put_little(bytes, at, add_of(word));
    Ok(())
}

/// The register that is zero in a load, and the stack pointer in an ADD.
const ZERO_OR_STACK: u32 = 31;

fn is_relaxable(word: u32) -> bool
    ensures { result ≡ is_relaxable word }
{
    is_ldr(word) && word & 0x1f != ZERO_OR_STACK
}

/// The ADD of 0 with the registers of a load.
fn add_of(word: u32) -> u32
    ensures { IsMadeAdd word result }
{
    (0b1001000100 << 22) + (word & 0x3ff)
}
