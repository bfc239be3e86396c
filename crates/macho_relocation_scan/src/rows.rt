//! Which relocations are supported: by form, pair, instruction and target (`mach-o/arm64/reloc.h`).
ghost use Rattle.std.specs.Prelude.{◌≡◌, true, false};
ghost use Rattle.macho_model.specs.Targets.{is_defined};
ghost use Rattle.macho_model.specs.Rows.{has_form, is_none, defined_or_import};
ghost use Rattle.macho_model.specs.Supported.{takes_offset, load_fits};
ghost use Rattle.macho_relocation_scan.specs.steps.Supported.{difference_in, addend_in, pointer_in, called_in, page_load, offset_load, slot_reference_in, reference_in, supported_in};

use crate::pairs::Seen;
use macho_arm64::{FieldSize, fits_instruction, is_add, is_ldr, is_load_store};
use macho_model::Target;
use macho_needs::is_import;
use macho_records::{
    ARM64_RELOC_ADDEND, ARM64_RELOC_BRANCH26, ARM64_RELOC_GOT_LOAD_PAGE21,
    ARM64_RELOC_GOT_LOAD_PAGEOFF12, ARM64_RELOC_PAGE21, ARM64_RELOC_PAGEOFF12,
    ARM64_RELOC_POINTER_TO_GOT, ARM64_RELOC_SUBTRACTOR, ARM64_RELOC_TLVP_LOAD_PAGE21,
    ARM64_RELOC_TLVP_LOAD_PAGEOFF12, ARM64_RELOC_UNSIGNED, RelocationInfo,
};

/// Whether a target moves with the image.
pub(crate) fn is_defined(target: Target) -> bool
    ensures { result ≡ is_defined target }
{
    match target {
        Target::Section { .. } | Target::Common { .. } | Target::Base => true,
        _ => false,
    }
}

/// Whether a target is nothing.
fn is_none(target: Target) -> bool
    ensures { result ≡ is_none target }
{
    match target {
        Target::None => true,
        _ => false,
    }
}

/// Whether a relocation has a length, is relative to its place or not, and names a symbol.
fn has_form(rel: RelocationInfo, length: u8, pcrel: bool) -> bool
    ensures { result ≡ has_form rel length pcrel true }
{
    rel.r_length == length && rel.r_pcrel == pcrel && rel.r_extern
}

/// Whether a word takes an offset in a page.
fn takes_offset(word: u32) -> bool
    ensures { result ≡ takes_offset word }
{
    is_add(word) || is_load_store(word)
}

/// Whether a word loads a slot: one that becomes an ADD is not a load into the zero register.
fn load_fits(word: u32, target: Target) -> bool
    ensures { result ≡ load_fits word target }
{
    is_ldr(word) && (is_import(target) || word & 0x1f != 31)
}

/// Whether a relocation is part of a difference of 4 or 8 bytes, of something that moves with the image.
fn difference_fits(rel: RelocationInfo, target: Target) -> bool
    ensures { result ≡ difference_in rel target }
{
    (has_form(rel, 2, false) || has_form(rel, 3, false)) && is_defined(target)
}

/// Whether a pointer has 8 bytes and leads somewhere; one with a subtrahend is part of a difference.
fn pointer_fits(seen: Seen, target: Target) -> bool
    ensures { result ≡ pointer_in seen target }
{
    if seen.has_subtrahend() {
        difference_fits(seen.this, target)
    } else {
        seen.this.r_length == 3 && !seen.this.r_pcrel && !is_none(target)
    }
}

/// Whether a target may be called: an import only without an addend.
fn may_be_called(seen: Seen, target: Target) -> bool
    ensures { result ≡ called_in seen target }
{
    is_defined(target) || is_import(target) && !seen.has_addend()
}

/// Whether a type is that of an ADRP for a slot.
fn is_page_load(kind: u8) -> bool
    ensures { result ≡ page_load kind }
{
    kind == ARM64_RELOC_GOT_LOAD_PAGE21 || kind == ARM64_RELOC_TLVP_LOAD_PAGE21
}

/// Whether a type is that of a load from a slot.
fn is_offset_load(kind: u8) -> bool
    ensures { result ≡ offset_load kind }
{
    kind == ARM64_RELOC_GOT_LOAD_PAGEOFF12 || kind == ARM64_RELOC_TLVP_LOAD_PAGEOFF12
}

/// Whether a reference to a slot is supported.
#[tactic(auto, unfolding(crate::specs::steps::Supported::slot_reference_in))]
fn slot_reference_fits(rel: RelocationInfo, target: Target, word: u32) -> bool
    ensures { result ≡ slot_reference_in rel target word }
{
    let leads = is_defined(target) || is_import(target);
    if is_page_load(rel.r_type) {
        has_form(rel, 2, true) && fits_instruction(FieldSize::Adr, word) && leads
    } else if is_offset_load(rel.r_type) {
        has_form(rel, 2, false) && load_fits(word, target) && leads
    } else if rel.r_type == ARM64_RELOC_POINTER_TO_GOT {
        has_form(rel, 2, true) && leads
    } else {
        false
    }
}

/// Whether a reference from an instruction, or to a slot, is supported.
#[tactic(auto, unfolding(crate::specs::steps::Supported::reference_in))]
fn reference_fits(seen: Seen, target: Target, word: u32) -> bool
    ensures { result ≡ reference_in seen target word }
{
    let rel = seen.this;
    if rel.r_type == ARM64_RELOC_BRANCH26 {
        has_form(rel, 2, true)
            && fits_instruction(FieldSize::JumpCall, word)
            && may_be_called(seen, target)
    } else if rel.r_type == ARM64_RELOC_PAGE21 {
        has_form(rel, 2, true) && fits_instruction(FieldSize::Adr, word) && is_defined(target)
    } else if rel.r_type == ARM64_RELOC_PAGEOFF12 {
        has_form(rel, 2, false) && takes_offset(word) && is_defined(target)
    } else {
        slot_reference_fits(rel, target, word)
    }
}

/// Whether a relocation is supported, by what it leads to and the 4 bytes at its place.
#[tactic(auto, unfolding(crate::specs::steps::Supported::supported_in))]
pub(crate) fn is_supported(seen: Seen, target: Target, word: u32) -> bool
    ensures { result ≡ supported_in seen target word }
{
    let rel = seen.this;
    if rel.r_type == ARM64_RELOC_UNSIGNED {
        pointer_fits(seen, target)
    } else if rel.r_type == ARM64_RELOC_SUBTRACTOR {
        difference_fits(rel, target) && seen.begins_pair()
    } else if rel.r_type == ARM64_RELOC_ADDEND {
        rel.r_length == 2 && !rel.r_pcrel && seen.begins_pair()
    } else {
        reference_fits(seen, target, word)
    }
}
