//! A field, read from its relocation, the one in front of it and the bytes of its section.
ghost use Rattle.std.specs.Prelude.{◌≡◌, ◌+◌, ◌-◌, ◌^◌, ◌<◌, ◌≤◌, ◌⊎◌, true, false, Some, IfSome, length};
ghost use Rattle.macho_bytes.specs.Numbers.{le_at, signed};
ghost use Rattle.macho_model.specs.Objects.{num_sections, section_at, relocation_at};
ghost use Rattle.macho_wire.specs.Relocations.{BitsFit};
ghost use Rattle.macho_fields.specs.steps.Fields.{subtractor_in, addend_before, target_in, subtrahend_in, addend_in, small_addend_in, IsInFront, IsNear, IsRead};

use crate::places::Places;
use macho_arm64::{is_difference, is_with_addend};
use macho_model::Target;
use macho_object::{File, RelocationList};
use macho_records::{ARM64_RELOC_UNSIGNED, RelocationInfo};
use macho_wire::Number;

/// A field of a section.
#[derive(Clone, Copy)]
pub(crate) struct Field {
    /// The number of its relocation in the section's table, from 0.
    pub relocation: u32,
    /// Where it stands: bytes from the start of its section.
    pub offset: u32,
    /// How many bytes it has.
    pub width: u8,
    /// The type of its relocation.
    pub r_type: u8,
    /// What it refers to.
    pub target: Target,
    /// What it subtracts, where it is a difference.
    pub subtrahend: Option<Target>,
    /// What it adds, modulo 2^64.
    pub addend: u64,
}

/// The subtrahend in front of a relocation.
fn subtractor(
    previous: Option<RelocationInfo>,
    relocation: RelocationInfo,
) -> Option<RelocationInfo>
    ensures { result ≡ subtractor_in previous relocation }
{
    match previous {
        Some(q) => {
            if is_difference(q, relocation) {
                Some(q)
            } else {
                None
            }
        }
        None => None,
    }
}

/// The addend in front of a relocation.
fn addend_before(
    previous: Option<RelocationInfo>,
    relocation: RelocationInfo,
) -> Option<RelocationInfo>
    ensures { result ≡ addend_before previous relocation }
{
    match previous {
        Some(q) => {
            if is_with_addend(q, relocation) {
                Some(q)
            } else {
                None
            }
        }
        None => None,
    }
}

/// The number in the bytes of a relocation's length.
fn content_of(bytes: &[u8], at: usize, exponent: u8) -> u64
    requires inside { at + 2 ^ exponent ≤ length bytes.now }
    requires exponent { exponent < 4 }
    ensures is { result ≡ le_at (2 ^ exponent) bytes.now at }
    ensures small { exponent ≡ 2 → result < 2 ^ 32 }
{
    match exponent {
        0 => u64::from(u8::read_little(bytes, at)),
        1 => u64::from(u16::read_little(bytes, at)),
        2 => u64::from(u32::read_little(bytes, at)),
        _ => u64::read_little(bytes, at),
    }
}

/// A number of 4 or 8 bytes read as signed, modulo 2^64.
fn signed(exponent: u8, content: u64) -> u64
    requires { exponent ≡ 2 → content < 2 ^ 32 }
    ensures four { exponent ≡ 2 → result ≡ signed 32 content }
    ensures eight { exponent ≡ 3 → result ≡ signed 64 content }
{
    if exponent == 2 && content >= 1 << 31 {
        content + 0xffff_ffff_0000_0000
    } else {
        content
    }
}

/// A number of 24 bits read as signed, modulo 2^64.
fn signed_24(number: u32) -> u64
    requires { number < 2 ^ 24 }
    ensures { result ≡ signed 24 number }
{
    let number = u64::from(number);
    if number < 1 << 23 {
        number
    } else {
        number + 0xffff_ffff_ff00_0000
    }
}

/// The addend of a field by its content, the address in the input of the section that its relocation names, and the
/// relocation in front.
fn addend_of(
    content: u64,
    from: u64,
    relocation: RelocationInfo,
    previous: Option<RelocationInfo>,
) -> u64
    requires content { relocation.r_length ≡ 2 → content < 2 ^ 32 }
    requires previous { IfSome previous BitsFit }
    ensures { (relocation.r_length ≡ 2) ⊎ (relocation.r_length ≡ 3) → result ≡ addend_in content from relocation previous }
{
    if relocation.r_type != ARM64_RELOC_UNSIGNED {
        return small_addend(addend_before(previous, relocation));
    }
    if subtractor(previous, relocation).is_some() {
        return signed(relocation.r_length, content);
    }
    if relocation.r_extern {
        content
    } else {
        content.wrapping_sub(from)
    }
}

/// The addend of the relocation in front, 0 where there is none.
fn small_addend(before: Option<RelocationInfo>) -> u64
    requires { IfSome before BitsFit }
    ensures { result ≡ small_addend_in before }
{
    match before {
        Some(q) => signed_24(q.r_symbolnum),
        None => 0,
    }
}

/// The address in the input of the section that a relocation names by its number, from 1; 0 where it names a symbol.
fn input_address(file: &File<'_>, relocation: RelocationInfo) -> u64
    requires { file.now.is_dynamic ≡ false }
    ensures { relocation.r_extern ≡ false → relocation.r_symbolnum - 1 < num_sections file.now.bytes
        → result ≡ (section_at file.now.bytes (relocation.r_symbolnum - 1)).addr }
{
    if relocation.r_extern {
        return 0;
    }
    match file.section(relocation.r_symbolnum.saturating_sub(1)) {
        Some(header) => header.addr,
        None => 0,
    }
}

/// What a relocation leads to, where it leads anywhere.
fn target_of<P: Places>(places: &P, file: u32, relocation: RelocationInfo) -> Target
    requires { relocation.r_extern ≡ true → P.has_symbol places.now file relocation.r_symbolnum }
    ensures { result ≡ target_in (P.look places.now) file relocation }
{
    if relocation.r_extern {
        places.target(file, relocation.r_symbolnum)
    } else {
        Target::Section {
            file,
            section: relocation.r_symbolnum.saturating_sub(1),
            offset: 0,
        }
    }
}

/// What the subtrahend in front of a relocation leads to.
fn subtrahend_of<P: Places>(places: &P, file: u32, before: Option<RelocationInfo>) -> Option<Target>
    requires { IfSome before (λ q. q.r_extern ≡ true → P.has_symbol places.now file q.r_symbolnum) }
    ensures { result ≡ subtrahend_in (P.look places.now) file before }
{
    match before {
        Some(q) => Some(target_of(places, file, q)),
        None => None,
    }
}

/// A relocation, with the one in front of it.
#[derive(Clone, Copy)]
pub(crate) struct Near {
    /// Its number in its section's table, from 0.
    pub index: u32,
    /// What it says.
    pub relocation: RelocationInfo,
    /// The one in front, where there is one.
    pub previous: Option<RelocationInfo>,
}

/// A relocation of a list.
fn relocation_at(list: &RelocationList<'_>, index: u32) -> RelocationInfo
    requires { index < (section_at list.now.bytes list.now.section).nreloc }
    ensures is { result ≡ relocation_at list.now.bytes list.now.section index }
    ensures bits { BitsFit result }
{
    match list.get(index) {
        Some(relocation) => relocation,
        None => unreachable!(),
    }
}

/// A relocation of a list with the one in front of it, which was read already.
pub(crate) fn near_at(
    list: &RelocationList<'_>,
    index: u32,
    previous: Option<RelocationInfo>,
) -> Near
    requires index { index < (section_at list.now.bytes list.now.section).nreloc }
    requires previous { IsInFront list.now.bytes list.now.section index previous }
    ensures near { IsNear list.now.bytes list.now.section index result }
    ensures front { IsInFront list.now.bytes list.now.section (index + 1) (Some result.relocation) }
{
    Near {
        index,
        relocation: relocation_at(list, index),
        previous,
    }
}

/// The field of a relocation in a section's bytes.
#[inline(always)]
pub(crate) fn read_field<P: Places>(
    places: &P,
    number: u32,
    file: &File<'_>,
    bytes: &[u8],
    near: &Near,
) -> Field
    requires object { file.now.is_dynamic ≡ false }
    requires inside { near.now.relocation.r_address + 2 ^ near.now.relocation.r_length ≤ length bytes.now }
    requires bits { BitsFit near.now.relocation }
    requires previous_bits { IfSome near.now.previous BitsFit }
    requires symbol { near.now.relocation.r_extern ≡ true → P.has_symbol places.now number near.now.relocation.r_symbolnum }
    requires previous { IfSome (subtractor_in near.now.previous near.now.relocation)
        (λ q. q.r_extern ≡ true → P.has_symbol places.now number q.r_symbolnum) }
    ensures { IsRead (P.look places.now) number file.now.bytes bytes.now near.now result }
{
    let relocation = near.relocation;
    let content = content_of(bytes, relocation.r_address as usize, relocation.r_length);
    let from = input_address(file, relocation);
    let subtractor = subtractor(near.previous, relocation);
    Field {
        relocation: near.index,
        offset: relocation.r_address,
        width: 1 << relocation.r_length,
        r_type: relocation.r_type,
        target: target_of(places, number, relocation),
        subtrahend: subtrahend_of(places, number, subtractor),
        addend: addend_of(content, from, relocation, near.previous),
    }
}
