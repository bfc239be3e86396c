//! Look-up of an offset in the bytes of a section.
//!
//! An offset leads to a page entry, to a function of its page, to the number of an encoding, and from the encoding to a
//! personality. The function's start leads to its LSDA. The tables are searched from front to back, since nothing says
//! that a section that was made elsewhere has them in order.
ghost use Rattle.std.specs.Prelude.{◌≡◌, ℕ, ◌+◌, ◌<◌, ◌≤◌, ◌^◌, ◌↔◌, IsTrue, IfSome, MatchOption, Option};
ghost use Rattle.macho_unwind.specs.Sections.{header_of, HasTables, IsWhole, entry_at, first_at, word_at, encoding_at, lsda_at};
ghost use Rattle.macho_unwind.specs.Lookup.{UnwindFinds, IsPageOf, HasLsda};
ghost use Rattle.macho_unwind.specs.steps.Parts.{HasPage, IsFunctionOf, NamesPersonality, IsBest, IsPage, IsWordOf};

use crate::records::{CompactUnwindInfoHeader, CompressedPage, LsdaEntry, PageEntry};
use macho_wire::little_at;

/// `UNWIND_SECOND_LEVEL_COMPRESSED`: the kind of a page whose functions are words of an index and an offset.
pub(crate) const COMPRESSED: u32 = 3;

/// A function word's low 24 bits are an offset, those above them a number.
const OFFSETS: u32 = 1 << 24;

/// What a section says of an offset. Its offsets count from the image's base.
#[derive(Clone, Copy)]
pub struct Found {
    /// Where the function starts.
    pub start: u32,
    /// How its frame is unwound; bits 28 and 29 are cleared.
    pub encoding: u32,
    /// The slot that holds the address of its personality.
    pub personality: Option<u32>,
    /// Its language data.
    pub lsda: Option<u32>,
}

/// A page entry, by its number, with the head of its page and how many LSDA entries it has.
#[derive(Clone, Copy)]
pub(crate) struct Page {
    number: u32,
    entry: PageEntry,
    head: CompressedPage,
    lsdas: u32,
}

/// What a section says of an offset from the image's base.
///
/// Any bytes and any offset are taken. None where the section says nothing of the offset, or where a record or a table on
/// the way to the answer isn't whole inside the bytes.
pub fn unwind_lookup(bytes: &[u8], offset: u32) -> Option<Found>
    ensures found { IfSome result (λ x. UnwindFinds bytes.now offset x) }
    ensures only { (x : Found) → UnwindFinds bytes.now offset x → result ≡ Some x }
{
    let header = read_tables(bytes)?;
    let number = find_page(bytes, header, offset)?;
    let page = read_page(bytes, header, number)?;
    let word = find_function(bytes, page, offset)?;
    let encoding = read_encoding(bytes, header, page, word / OFFSETS)?;
    let bits = encoding / (1 << 28) % 4;
    let personality = read_personality(bytes, header, bits)?;
    let start = page.entry.first_address + word % OFFSETS;
    Some(Found {
        start,
        encoding: encoding - (1 << 28) * bits,
        personality,
        lsda: find_lsda(bytes, page, start),
    })
}

/// The header, where it is whole and so are the tables that it tells of.
fn read_tables(bytes: &[u8]) -> Option<CompactUnwindInfoHeader>
    ensures { MatchOption result (HasTables bytes.now → ⊥) (λ h. (h ≡ header_of bytes.now) × HasTables bytes.now) }
{
    let header = CompactUnwindInfoHeader::read(bytes, 0)?;
    let has_encodings = is_whole(
        bytes,
        header.global_opcodes_offset as usize,
        4,
        header.global_opcodes_len,
    );
    let has_personalities = is_whole(
        bytes,
        header.personalities_offset as usize,
        4,
        header.personalities_len,
    );
    let has_pages = is_whole(
        bytes,
        header.pages_offset as usize,
        PageEntry::SIZE,
        header.pages_len,
    );
    if has_encodings && has_personalities && has_pages {
        Some(header)
    } else {
        None
    }
}

/// So many items of a size stand whole inside the bytes.
fn is_whole(bytes: &[u8], at: usize, size: usize, count: u32) -> bool
    requires place { at < 2 ^ 33 }
    requires small { size < 2 ^ 8 }
    ensures { IsTrue result ↔ IsWhole bytes.now at size count }
{
    at + size * count as usize <= bytes.len()
}

/// The number of the page entry of an offset.
fn find_page(bytes: &[u8], header: CompactUnwindInfoHeader, offset: u32) -> Option<u32>
    requires is { header ≡ header_of bytes.now }
    requires tables { HasTables bytes.now }
    ensures { MatchOption result ((k : ℕ) → IsPageOf bytes.now offset k → ⊥) (λ k. IsPageOf bytes.now offset k) }
{
    if header.pages_len == 0 {
        return None;
    }
    let last = header.pages_len - 1;
    if read_entry(bytes, header, last).first_address <= offset {
        return None;
    }
    let mut best = None;
    for k in 0..last {
        let entry = read_entry(bytes, header, k);
        best = greater(best, k, entry.first_address, offset);
    }
    Some(best?.0)
}

/// A page entry by its number.
#[tactic(auto, unfolding(crate::specs::Sections::entry_at))]
fn read_entry(bytes: &[u8], header: CompactUnwindInfoHeader, k: u32) -> PageEntry
    requires is { header ≡ header_of bytes.now }
    requires tables { HasTables bytes.now }
    requires one { k < header.pages_len }
    ensures { result ≡ entry_at bytes.now k }
{
    match PageEntry::read(
        bytes,
        header.pages_offset as usize + PageEntry::SIZE * k as usize,
    ) {
        Some(entry) => entry,
        None => unreachable!(),
    }
}

/// The greatest number so far with its place, or the next one, where it is no less and not above the limit.
fn greater(best: Option<(u32, u32)>, k: u32, number: u32, limit: u32) -> Option<(u32, u32)>
    ensures { (f : ℕ → ℕ) → f k ≡ number → IsBest limit k f best → IsBest limit (k + 1) f result }
{
    if number > limit {
        return best;
    }
    match best {
        Some(b) => {
            if number < b.1 {
                Some(b)
            } else {
                Some((k, number))
            }
        }
        None => Some((k, number)),
    }
}

/// The page of an entry, where it is a compressed one and whole with all that it tells of.
fn read_page(bytes: &[u8], header: CompactUnwindInfoHeader, number: u32) -> Option<Page>
    requires is { header ≡ header_of bytes.now }
    requires tables { HasTables bytes.now }
    requires one { number + 1 < header.pages_len }
    ensures { MatchOption result (HasPage bytes.now number → ⊥) (λ p. (p.number ≡ number) × IsPage bytes.now p) }
{
    let entry = read_entry(bytes, header, number);
    let next = read_entry(bytes, header, number + 1);
    let place = entry.page_offset as usize;
    let head = CompressedPage::read(bytes, place)?;
    let functions = place + head.functions_offset as usize;
    let encodings = place + head.local_opcodes_offset as usize;
    let first = entry.lsda_index_offset;
    let lsdas = next.lsda_index_offset.saturating_sub(first) / 8;
    let has_functions = is_whole(bytes, functions, 4, head.functions_len as u32);
    let has_encodings = is_whole(bytes, encodings, 4, head.local_opcodes_len as u32);
    let has_lsdas = is_whole(bytes, first as usize, LsdaEntry::SIZE, lsdas);
    if head.kind == COMPRESSED && has_functions && has_encodings && has_lsdas {
        Some(Page {
            number,
            entry,
            head,
            lsdas,
        })
    } else {
        None
    }
}

/// The word of a page's function of an offset.
fn find_function(bytes: &[u8], page: Page, offset: u32) -> Option<u32>
    requires page { IsPage bytes.now page }
    requires first { first_at bytes.now page.number ≤ offset }
    ensures { MatchOption result ((j : ℕ) → IsFunctionOf bytes.now page.number offset j → ⊥)
        (λ w. IsWordOf bytes.now page.number offset w) }
{
    let limit = offset - page.entry.first_address;
    let mut best = None;
    for j in 0..page.head.functions_len {
        let word = read_word(bytes, page, j as u32);
        best = greater(best, j as u32, word % OFFSETS, limit);
    }
    Some(read_word(bytes, page, best?.0))
}

/// A function word of a page by its number.
#[tactic(auto, unfolding(crate::specs::Sections::word_at))]
fn read_word(bytes: &[u8], page: Page, j: u32) -> u32
    requires page { IsPage bytes.now page }
    requires one { j < page.head.functions_len }
    ensures { result ≡ word_at bytes.now page.number j }
{
    let place = page.entry.page_offset as usize + page.head.functions_offset as usize;
    little_at(bytes, place, 4 * j as usize)
}

/// The encoding of a number: one that all pages share, or one of the page.
#[tactic(auto, unfolding(crate::specs::Sections::encoding_at))]
fn read_encoding(
    bytes: &[u8],
    header: CompactUnwindInfoHeader,
    page: Page,
    index: u32,
) -> Option<u32>
    requires is { header ≡ header_of bytes.now }
    requires tables { HasTables bytes.now }
    requires page { IsPage bytes.now page }
    ensures { result ≡ encoding_at bytes.now page.number index }
{
    if index < header.global_opcodes_len {
        return Some(little_at(
            bytes,
            header.global_opcodes_offset as usize,
            4 * index as usize,
        ));
    }
    let local = index - header.global_opcodes_len;
    if local < page.head.local_opcodes_len as u32 {
        let place = page.entry.page_offset as usize + page.head.local_opcodes_offset as usize;
        return Some(little_at(bytes, place, 4 * local as usize));
    }
    None
}

/// The personality of a number from 1 on, none for 0; None where the number passes the table.
#[tactic(auto, unfolding(crate::specs::Sections::personality_at))]
fn read_personality(
    bytes: &[u8],
    header: CompactUnwindInfoHeader,
    number: u32,
) -> Option<Option<u32>>
    requires is { header ≡ header_of bytes.now }
    requires tables { HasTables bytes.now }
    ensures { MatchOption result ((x : Option ℕ) → NamesPersonality bytes.now number x → ⊥) (λ x. NamesPersonality bytes.now number x) }
{
    if number == 0 {
        return Some(None);
    }
    if number > header.personalities_len {
        return None;
    }
    Some(Some(little_at(
        bytes,
        header.personalities_offset as usize,
        4 * (number - 1) as usize,
    )))
}

/// The LSDA of the function at a start, none where it has none.
fn find_lsda(bytes: &[u8], page: Page, start: u32) -> Option<u32>
    requires { IsPage bytes.now page }
    ensures { HasLsda bytes.now page.number start result }
{
    for j in 0..page.lsdas {
        let entry = read_lsda(bytes, page, j);
        if entry.function_offset == start {
            return Some(entry.lsda_offset);
        }
    }
    None
}

/// An LSDA entry of a page by its number.
#[tactic(auto, unfolding(crate::specs::Sections::lsda_at))]
fn read_lsda(bytes: &[u8], page: Page, j: u32) -> LsdaEntry
    requires page { IsPage bytes.now page }
    requires one { j < page.lsdas }
    ensures { result ≡ lsda_at bytes.now page.number j }
{
    match LsdaEntry::read(
        bytes,
        page.entry.lsda_index_offset as usize + LsdaEntry::SIZE * j as usize,
    ) {
        Some(entry) => entry,
        None => unreachable!(),
    }
}
