//! An entry of compact unwind information: 32 bytes of `__compact_unwind` that tell how a function is unwound.
//!
//! ```text
//!  0   start         a pointer to the function, by the number of its section
//!  8   length
//! 12   encoding
//! 16   personality   a pointer to a symbol
//! 24   lsda          a pointer to language data, by the number of its section
//! ```
ghost use Rattle.std.specs.Prelude.{◌≡◌, ℕ, List, ◌+◌, ◌-◌, ◌*◌, ◌/◌, ◌%◌, ◌^◌, ◌<◌, ◌≤◌, ◌++◌, true, false, not, if◌then◌else◌, Some, None, length, IfOk, IfErr, OnOk};
ghost use Rattle.macho_records.specs.Sections.{is_zerofill};
ghost use Rattle.macho_model.specs.declared.rules.UnwindRule.TheVariants as UnwindRule;
ghost use Rattle.macho_consumed.specs.steps.Places.{IsTable, NoneBelow};
ghost use Rattle.std.specs.Option.{option_map};
ghost use Rattle.macho_model.specs.Objects.{section_at, relocation_at};
ghost use Rattle.macho_model.specs.Consumed.{holds_functions};
ghost use Rattle.macho_consumed.specs.steps.Alone.{alone, own};
ghost use Rattle.macho_consumed.specs.steps.Checked.{AreNamed, LeadsSomewhere};
ghost use Rattle.macho_consumed.specs.steps.Slots.{ExternsExist};
ghost use Rattle.macho_consumed.specs.steps.Entries.{IsPointer, IsAddress, IsPointerAt, PointersBreak, HasPointers, EntryFits, EntryBreaks, PersonalityFound, PersonalityBreaks, read_entry, row_in, lies_from, named, NamesSection, MayName, StartFound, StartBreaks, DataFound, DataBreaks, is_clear};

use crate::places::{Cell, is_plain_pointer};
use crate::rows::{PersonalityUse, SectionPlace, UnwindEntry};
use crate::section::Section;
use crate::targets::leads_somewhere;
use macho_model::UnwindRule;
use macho_object::is_carried;
use macho_records::{RelocationInfo, SectionHeader, UnwindInfoEntry, name_bytes};
use macho_symbols::Resolved;

/// How far an address of the input lies behind the start of a section that holds it, with so many bytes from it on.
fn offset_in(header: SectionHeader, address: u64, size: u64) -> Option<u64>
    requires { header.addr + header.size ≤ 2 ^ 64 }
    ensures { result ≡ (if lies_from header address size then Some (address - header.addr) else None) }
{
    if address < header.addr {
        return None;
    }
    let offset = address - header.addr;
    if offset >= header.size || size > header.size - offset {
        return None;
    }
    Some(offset)
}

/// Whether a section is one that functions stand in: with instructions and bytes, in `__TEXT`.
fn holds_functions(header: SectionHeader) -> bool
    ensures { (b : List ℕ) (k : ℕ) → header ≡ section_at b k → result ≡ holds_functions (alone b) (own k) }
{
    is_carried(header)
        && header.is_executable()
        && name_bytes(&header.segname) == b"__TEXT".as_slice()
        && !header.is_no_bits()
}

/// Whether the words of an entry that have no relocation are 0, and so the bits that number personalities.
fn is_clear(entry: UnwindInfoEntry, personality: bool, lsda: bool) -> bool
    ensures { result ≡ is_clear entry personality lsda }
{
    (entry.encoding >> 28) & 3 == 0
        && (personality || entry.personality == 0)
        && (lsda || entry.lsda == 0)
}

impl Section<'_, '_> {
    /// The header of the section that a relocation names by its number, from 1.
    fn named(&self, relocation: RelocationInfo) -> SectionHeader
        requires by_number { relocation.r_extern ≡ false }
        requires exists { NamesSection self.now.bytes relocation }
        ensures is { result ≡ section_at self.now.bytes (named relocation) }
        ensures ends { result.addr + result.size ≤ 2 ^ 64 }
    {
        match self.file.section(relocation.r_symbolnum - 1) {
            Some(header) => header,
            None => unreachable!(),
        }
    }

    /// Where the function of an entry starts, by the relocation of that address.
    fn start_place(
        &self,
        entry: UnwindInfoEntry,
        relocation: Option<RelocationInfo>,
    ) -> Result<SectionPlace, UnwindRule>
        requires { MayName self.now.bytes relocation }
        ensures done { IfOk result (StartFound self.now.bytes entry relocation) }
        ensures why { IfErr result (StartBreaks self.now.bytes entry relocation) }
    {
        let Some(relocation) = relocation else {
            return Err(UnwindRule::U4);
        };
        if relocation.r_extern {
            return Err(UnwindRule::U4);
        }
        let header = self.named(relocation);
        if !holds_functions(header) {
            return Err(UnwindRule::U4);
        }
        match offset_in(header, entry.start, u64::from(entry.length)) {
            Some(offset) => Ok(SectionPlace {
                section: relocation.r_symbolnum - 1,
                offset,
            }),
            None => Err(UnwindRule::U5),
        }
    }

    /// Where the language data of an entry is, by the relocation of that address.
    fn data_place(
        &self,
        lsda: u64,
        relocation: Option<RelocationInfo>,
    ) -> Result<Option<SectionPlace>, UnwindRule>
        requires { MayName self.now.bytes relocation }
        ensures done { IfOk result (DataFound self.now.bytes lsda relocation) }
        ensures why { IfErr result (DataBreaks self.now.bytes lsda relocation) }
    {
        let Some(relocation) = relocation else {
            return Ok(None);
        };
        if relocation.r_extern {
            return Err(UnwindRule::U7);
        }
        let header = self.named(relocation);
        if !is_carried(header) {
            return Err(UnwindRule::U7);
        }
        match offset_in(header, lsda, 0) {
            Some(offset) => Ok(Some(SectionPlace {
                section: relocation.r_symbolnum - 1,
                offset,
            })),
            None => Err(UnwindRule::U7),
        }
    }
}

impl Section<'_, '_> {
    /// The relocation with a number, if there is one.
    fn relocation_in(&self, number: Option<u32>) -> Option<RelocationInfo>
        requires { IsPointer self.now.bytes self.now.section number }
        ensures is { result ≡ option_map (relocation_at self.now.bytes self.now.section) number }
        ensures names { MayName self.now.bytes result }
    {
        match number {
            Some(number) => Some(self.relocation(number)),
            None => None,
        }
    }

    /// The personality function of an entry, by the number of that address's relocation.
    fn personality(
        &self,
        symbols: &Resolved<'_>,
        file: u32,
        number: Option<u32>,
    ) -> Result<Option<PersonalityUse>, UnwindRule>
        requires pointer { IsPointer self.now.bytes self.now.section number }
        requires exist { ExternsExist self.now.bytes self.now.section }
        requires named { AreNamed symbols.now file self.now.bytes }
        ensures done { IfOk result (PersonalityFound self.now.bytes self.now.section number) }
        ensures leads { IfOk result (λ told. LeadsSomewhere symbols.now file told true) }
        ensures why { IfErr result (PersonalityBreaks symbols.now self.now.bytes file self.now.section number) }
    {
        let Some(number) = number else {
            return Ok(None);
        };
        let relocation = self.relocation(number);
        if !relocation.r_extern {
            return Err(UnwindRule::U7);
        }
        let used = PersonalityUse { number, relocation };
        if !leads_somewhere(symbols, file, used) {
            return Err(UnwindRule::U7);
        }
        Ok(Some(used))
    }

    /// The words of an entry.
    fn words(&self, entry: u32) -> UnwindInfoEntry
        requires bytes { is_zerofill (section_at self.now.bytes self.now.section) ≡ false }
        requires within { 32 * entry + 32 ≤ (section_at self.now.bytes self.now.section).size }
        ensures { result ≡ read_entry self.now.bytes self.now.section entry }
    {
        match UnwindInfoEntry::read(self.bytes, UnwindInfoEntry::SIZE * entry as usize) {
            Some(entry) => entry,
            None => unreachable!(),
        }
    }
}

/// The relocations of the three addresses of an entry, by their numbers.
#[derive(Clone, Copy)]
struct Pointers {
    start: Option<u32>,
    personality: Option<u32>,
    lsda: Option<u32>,
}

impl Section<'_, '_> {
    /// The relocation of an address of an entry, in units of 8 bytes: a plain pointer, or none.
    fn pointer(&self, places: &[Cell], entry: u32, at: usize) -> Result<Option<u32>, UnwindRule>
        requires table { IsTable self.now.bytes self.now.section (section_at self.now.bytes self.now.section).nreloc places.now }
        requires within { 4 * entry + 4 ≤ length places.now }
        requires address { IsAddress (8 * at) }
        ensures done { IfOk result (IsPointerAt self.now.bytes self.now.section entry (8 * at)) }
        ensures why { IfErr result (PointersBreak self.now.bytes self.now.section entry) }
    {
        match places[4 * entry as usize + at] {
            Cell::Empty => Ok(None),
            Cell::One(number) => {
                if !is_plain_pointer(self.relocation(number)) {
                    return Err(UnwindRule::U2);
                }
                Ok(Some(number))
            }
            Cell::Several => Err(UnwindRule::U3),
        }
    }

    /// The relocations of an entry, of which none stands elsewhere than at the three addresses.
    fn pointers(&self, places: &[Cell], entry: u32) -> Result<Pointers, UnwindRule>
        requires table { IsTable self.now.bytes self.now.section (section_at self.now.bytes self.now.section).nreloc places.now }
        requires within { 4 * entry + 4 ≤ length places.now }
        ensures done { IfOk result (λ p. HasPointers self.now.bytes self.now.section entry p.start p.personality p.lsda) }
        ensures why { IfErr result (PointersBreak self.now.bytes self.now.section entry) }
    {
        if !places[4 * entry as usize + 1].is_empty() {
            return Err(UnwindRule::U2);
        }
        Ok(Pointers {
            start: self.pointer(places, entry, 0)?,
            personality: self.pointer(places, entry, 2)?,
            lsda: self.pointer(places, entry, 3)?,
        })
    }

    /// An entry, by the words and the relocations that it has.
    pub(crate) fn entry(
        &self,
        symbols: &Resolved<'_>,
        file: u32,
        entry: u32,
        places: &[Cell],
    ) -> Result<UnwindEntry, UnwindRule>
        requires bytes { is_zerofill (section_at self.now.bytes self.now.section) ≡ false }
        requires within { 32 * entry + 32 ≤ (section_at self.now.bytes self.now.section).size }
        requires table { IsTable self.now.bytes self.now.section (section_at self.now.bytes self.now.section).nreloc places.now }
        requires aligned { NoneBelow self.now.bytes self.now.section (section_at self.now.bytes self.now.section).nreloc (32 * entry + 32) }
        requires exist { ExternsExist self.now.bytes self.now.section }
        requires named { AreNamed symbols.now file self.now.bytes }
        ensures done { IfOk result (λ row. row ≡ row_in self.now.bytes file self.now.section entry) }
        ensures found { OnOk result (EntryFits self.now.bytes self.now.section entry) }
        ensures leads { IfOk result (λ row. LeadsSomewhere symbols.now file row.personality true) }
        ensures why { IfErr result (EntryBreaks symbols.now self.now.bytes file self.now.section entry) }
    {
        let pointers = self.pointers(places, entry)?;
        let words = self.words(entry);
        let start = self.start_place(words, self.relocation_in(pointers.start))?;
        let personality = self.personality(symbols, file, pointers.personality)?;
        let lsda = self.data_place(words.lsda, self.relocation_in(pointers.lsda))?;
        if !is_clear(words, personality.is_some(), lsda.is_some()) {
            return Err(UnwindRule::U8);
        }
        Ok(UnwindEntry {
            file,
            section: self.number,
            entry,
            start,
            length: words.length,
            encoding: words.encoding,
            personality,
            lsda,
        })
    }
}
