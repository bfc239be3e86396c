//! The relocations of one carried section, looked at one by one.
ghost use Rattle.std.specs.Prelude.{◌≡◌, ℕ, ◌+◌, ◌-◌, ◌%◌, ◌^◌, ◌<◌, ◌≤◌, ◌++◌, ◌∷◌, [], ◌==◌, if◌then◌else◌, Some, None, true, false, List, length, Contains, OnOk, IfOk, IfErr};
ghost use Rattle.std.specs.Bool.{OnTrue};
ghost use Rattle.macho_bytes.specs.Numbers.{le_at};
ghost use Rattle.macho_records.specs.declared.constants.TheConstants.{ARM64_RELOC_UNSIGNED};
ghost use Rattle.macho_wire.specs.Relocations.{BitsFit};
ghost use Rattle.macho_model.specs.declared.placed.Counts.{Counts};
ghost use Rattle.macho_model.specs.Objects.{num_sections, section_at, section_bytes, relocation_at};
ghost use Rattle.macho_model.specs.Links.{Input, Link, SectionId, object_of, carried_of};
ghost use Rattle.macho_model.specs.Uses.{Use, ByRelocation, uses_of, carried_uses};
ghost use Rattle.macho_model.specs.Values.{fits_signed};
ghost use Rattle.macho_symbol_names.specs.Kept.{Keeps};
ghost use Rattle.macho_symbols.specs.Kept.{IsResolved};
ghost use Rattle.macho_answer.specs.Standing.{Stands};
ghost use Rattle.macho_promise.specs.Noted.{BeginsWith};
ghost use Rattle.macho_needs.specs.Noted.{IsNext};
ghost use Rattle.macho_relocation_scan.specs.steps.Found.{IsSurveyed};
ghost use Rattle.macho_relocation_scan.specs.steps.Windows.{window_in};
ghost use Rattle.macho_relocation_scan.specs.steps.Overlaps.{AreApart};
ghost use Rattle.macho_relocation_scan.specs.steps.Sections.{is_plain, IsSectionOf, relocations_of, HasRows, id_of, counted_from, addend_by, pointer_at, bad_addend, misplaced, judged, pair_of, HasObject, IsCarriedAt};

use crate::findings::{Addend, Findings, Pair, Place};
use crate::overlap::{Order, first_overlap};
use crate::pairs::Seen;
use crate::rows::is_supported;
use macho_answer::LinkError;
use macho_model::Target;
use macho_needs::{Needs, is_import};
use macho_object::{File, RelocationList};
use macho_records::{ARM64_RELOC_UNSIGNED, RelocationInfo};
use macho_wire::Number;
use std::alloc::Global;

/// A carried section.
#[derive(Clone, Copy)]
pub(crate) struct Section {
    /// The number of its file.
    pub(crate) file: u32,
    /// Its number in the file.
    pub(crate) section: u32,
    /// Whether it is in a segment in which the loader writes pointers.
    pub(crate) holds_pointers: bool,
}

/// The difference of two numbers, modulo 2^64.
fn less(from: u64, by: u64) -> u64
    ensures { result ≡ (from + (2 ^ 64 - by)) % 2 ^ 64 }
{
    from.wrapping_sub(by)
}

/// Whether a number, read as signed, fits 32 bits.
fn fits_signed_word(value: u64) -> bool
    ensures { result ≡ fits_signed 32 value }
{
    value < 0x8000_0000 || value >= 0xffff_ffff_8000_0000
}

/// The 4 bytes at a relocation's place, as a word; 0 where its field isn't of 4 bytes.
fn word_at(bytes: &[u8], rel: RelocationInfo) -> u32
    requires { rel.r_length ≡ 2 → rel.r_address + 4 ≤ length bytes.now }
    ensures { rel.r_length ≡ 2 → result ≡ le_at 4 bytes.now rel.r_address }
{
    if rel.r_length == 2 {
        u32::read_little(bytes, rel.r_address as usize)
    } else {
        0
    }
}

/// The address in the input that a pointer to a section by number counts from.
fn counted_from(object: &File<'_>, rel: RelocationInfo) -> u64
    requires kind { object.now.is_dynamic ≡ false }
    requires there { rel.r_symbolnum - 1 < num_sections object.now.bytes }
    ensures { result ≡ counted_from object.now.bytes rel }
{
    match object.section(rel.r_symbolnum.saturating_sub(1)) {
        Some(header) => header.addr,
        None => unreachable!(),
    }
}

/// The addend of a relocation that is a pointer of 8 bytes; None for another one.
fn pointer(object: &File<'_>, bytes: &[u8], seen: Seen) -> Option<u64>
    requires kind { object.now.is_dynamic ≡ false }
    requires there { (seen.this.r_type == ARM64_RELOC_UNSIGNED) ≡ true → seen.this.r_extern ≡ false
        → seen.this.r_symbolnum - 1 < num_sections object.now.bytes }
    requires inside { seen.this.r_length ≡ 3 → seen.this.r_address + 8 ≤ length bytes.now }
    ensures { result ≡ (if is_plain seen
        then Some (addend_by object.now.bytes seen.this (le_at 8 bytes.now seen.this.r_address)) else None) }
{
    let rel = seen.this;
    if rel.r_type != ARM64_RELOC_UNSIGNED || rel.r_length != 3 || seen.has_subtrahend() {
        return None;
    }
    let content = u64::read_little(bytes, rel.r_address as usize);
    if rel.r_extern {
        Some(content)
    } else {
        Some(less(content, counted_from(object, rel)))
    }
}

/// A pointer to an import whose addend doesn't fit 32 bits, with its place; None for any other relocation.
fn bad_addend(place: Place, pointer: Option<u64>, target: Target) -> Option<Addend>
    ensures { result ≡ bad_addend place pointer target }
{
    match pointer {
        Some(addend) if is_import(target) && !fits_signed_word(addend) => Some(Addend {
            place,
            addend,
        }),
        _ => None,
    }
}

/// Whether a relocation is a pointer that the loader writes, in a segment that may hold none.
fn is_misplaced(holds_pointers: bool, pointer: Option<u64>, target: Target) -> bool
    ensures { result ≡ misplaced holds_pointers pointer target }
{
    match pointer {
        Some(_) => !target.is_absolute() && !holds_pointers,
        None => false,
    }
}

/// Notes what is found once a relocation was looked at: by its neighbours, its target, the word at its place, and the addend of
/// a pointer.
fn judge(
    findings: &mut Findings,
    at: Section,
    index: u32,
    seen: Seen,
    target: Target,
    word: u32,
    pointer: Option<u64>,
)
    ensures { findings.new ≡ judged findings.old at.holds_pointers
        (record { file = at.file; section = at.section; relocation = index }) seen target word pointer }
{
    let place = Place {
        file: at.file,
        section: at.section,
        relocation: index,
    };
    findings.note_unsupported(place, !is_supported(seen, target, word));
    findings.note_addend(bad_addend(place, pointer, target));
    findings.note_place(place, is_misplaced(at.holds_pointers, pointer, target));
}

/// Looks at a relocation of a section, which was seen with its neighbours: its use is noted, and what stands against it is found.
fn survey_relocation(
    needs: &mut Needs<'_>,
    findings: &mut Findings,
    object: &File<'_>,
    bytes: &[u8],
    at: Section,
    index: u32,
    seen: Seen,
) -> Result<(), LinkError>
    requires section { IsSectionOf object.now bytes.now at }
    requires seen { seen ≡ window_in object.now.bytes at.section index }
    requires bits { BitsFit seen.this }
    requires index { index < (section_at object.now.bytes at.section).nreloc }
    requires rows { HasRows needs.old.resolved.files at.file object.now.bytes }
    ensures surveyed { (l : Link) (ss : List SectionId) (us : List Use) → object_of l at.file ≡ object.now.bytes
        → Contains (carried_of l) (id_of at)
        → IsNext l us (ByRelocation (id_of at) index) → IsSurveyed l ss us needs.old findings.old
        → OnOk result (IsSurveyed l ss (us ++ ByRelocation (id_of at) index ∷ []) needs.new findings.new) }
    ensures why { (l : Link) (counts : Counts) (noted : List (List ℕ)) → object_of l at.file ≡ object.now.bytes
        → Contains (uses_of l) (ByRelocation (id_of at) index) → IsResolved l noted needs.old.resolved → IfErr result (Stands l counts) }
    ensures kept { (inputs : List Input) → Keeps inputs needs.old.resolved.files → Keeps inputs needs.new.resolved.files }
{
    let _object = object.is_dynamic();
    let pointer = pointer(object, bytes, seen);
    let target = needs.use_relocation(object, at.file, seen.this, pointer)?;
    let word = word_at(bytes, seen.this);
    judge(findings, at, index, seen, target, word, pointer);
    Ok(())
}

/// Looks at all relocations of a section, in the order of its table, and answers whether all were seen to be apart.
fn survey_relocations(
    needs: &mut Needs<'_>,
    findings: &mut Findings,
    object: &File<'_>,
    list: &RelocationList<'_>,
    bytes: &[u8],
    at: Section,
) -> Result<bool, LinkError>
    requires section { IsSectionOf object.now bytes.now at }
    requires list { list.now ≡ relocations_of object.now at }
    requires rows { HasRows needs.old.resolved.files at.file object.now.bytes }
    ensures surveyed { (l : Link) (ss : List SectionId) (us : List Use) → object_of l at.file ≡ object.now.bytes
        → Contains (carried_of l) (id_of at)
        → BeginsWith l (us ++ carried_uses l (id_of at)) → IsSurveyed l ss us needs.old findings.old
        → OnOk result (IsSurveyed l ss (us ++ carried_uses l (id_of at)) needs.new findings.new) }
    ensures why { (l : Link) (counts : Counts) (ss : List SectionId) (us : List Use) → object_of l at.file ≡ object.now.bytes
        → Contains (carried_of l) (id_of at)
        → BeginsWith l (us ++ carried_uses l (id_of at)) → IsSurveyed l ss us needs.old findings.old → IfErr result (Stands l counts) }
    ensures kept { (inputs : List Input) → Keeps inputs needs.old.resolved.files → Keeps inputs needs.new.resolved.files }
    ensures apart { IfOk result (λ are_apart. OnTrue are_apart
        (AreApart list.now.bytes list.now.section (section_at list.now.bytes list.now.section).nreloc)) }
{
    let mut order = Order::new();
    let mut last = None;
    for index in 0..list.num_relocations() {
        let seen = Seen::of(list, index, last);
        survey_relocation(needs, findings, object, bytes, at, index, seen)?;
        order = order.followed_by(seen);
        last = Some(seen);
    }
    Ok(order.are_apart)
}

/// Two relocations of a section that overlap, if there are such.
fn pair(at: Section, told: Option<(u32, u32)>) -> Option<Pair>
    ensures { result ≡ pair_of at told }
{
    match told {
        Some((first, second)) => Some(Pair {
            file: at.file,
            section: at.section,
            first,
            second,
        }),
        None => None,
    }
}

/// Looks at a carried section: at each of its relocations, then which of them overlap.
pub(crate) fn survey_section(
    alloc: Global,
    needs: &mut Needs<'_>,
    findings: &mut Findings,
    object: &File<'_>,
    at: Section,
) -> Result<(), LinkError>
    requires section { IsCarriedAt object.now at }
    requires rows { HasRows needs.old.resolved.files at.file object.now.bytes }
    ensures surveyed { (l : Link) (ss : List SectionId) (us : List Use) → HasObject l at.file object.now.bytes
        → BeginsWith l (us ++ carried_uses l (id_of at)) → IsSurveyed l ss us needs.old findings.old
        → OnOk result (IsSurveyed l (ss ++ id_of at ∷ []) (us ++ carried_uses l (id_of at)) needs.new findings.new) }
    ensures why { (l : Link) (counts : Counts) (ss : List SectionId) (us : List Use) → HasObject l at.file object.now.bytes
        → BeginsWith l (us ++ carried_uses l (id_of at)) → IsSurveyed l ss us needs.old findings.old → IfErr result (Stands l counts) }
    ensures kept { (inputs : List Input) → Keeps inputs needs.old.resolved.files → Keeps inputs needs.new.resolved.files }
{
    let Some(list) = object.relocations(at.section) else {
        unreachable!()
    };
    let Some(bytes) = object.section_bytes(at.section) else {
        unreachable!()
    };
    let are_apart = survey_relocations(needs, findings, object, &list, bytes, at)?;
    let told = first_overlap(alloc, &list, are_apart)?;
    findings.note_overlap(pair(at, told));
    Ok(())
}
