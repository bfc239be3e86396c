//! The rule of chain words: each stands in its page and in the file bytes of its segment, which may be written to, and
//! its import exists.
//!
//! A page's chain is walked from its start on. Segments that stand in order share no address, so a word that fits is read
//! in its own segment alone, and the chain has one next word.
ghost use Rattle.std.specs.Prelude.{◌≡◌, ◌+◌, ◌*◌, ◌<◌, ◌^◌, ℕ, length, Some, None};
ghost use Rattle.macho_model.specs.Chain.{STRIDE, next_of};
ghost use Rattle.macho_model.specs.Loader.{WordFits, WordFails};
ghost use Rattle.macho_image_walks.specs.Readings.{IsNth, segment_there, starts_of};
ghost use Rattle.macho_image_walks.specs.steps.WordTests.{address_in, UnfitFrom, FitFrom, UnfitOnPage, FitOnPage, EachWordFits};
ghost use Rattle.macho_image_walks.specs.declared.walk.Listed.TheVariants as list;
ghost use Rattle.macho_loader.specs.steps.Words.{StandApart, IsChained, IsFittingWord};
ghost use Rattle.macho_loader.specs.steps.Blank.{AreBlank};

use crate::blank::{Blank, no_records};
use crate::cursor::{first, step_from};
use macho_image_walks::{
    Listed, binds, nth, ordinal, page_has, pages_in, segment_at, start_of_page, steps_of, table_at,
    word_of,
};
use macho_model::{NO_START, SEGMENT_PAGE};

/// A segment whose pages may have chains.
#[derive(Clone, Copy)]
pub(crate) struct Chained {
    /// The place of the fixup table's command.
    pub(crate) table: u64,
    /// The number of the segment, from 0.
    pub(crate) number: u32,
    /// The place of its command.
    pub(crate) place: u64,
}

/// The word at an offset in a segment where it fits in a page, None where it does not.
pub(crate) fn fitting_word(bytes: &[u8], segment: Chained, page: u16, offset: u64) -> Option<u64>
    requires apart { StandApart bytes.now }
    requires chained { IsChained bytes.now segment }
    ensures found { (w : ℕ) → result ≡ Some w → IsFittingWord bytes.now segment.place page (address_in bytes.now segment.place offset) w }
    ensures only { result ≡ None
        → WordFits bytes.now (segment_there bytes.now segment.place) page (address_in bytes.now segment.place offset) → ⊥ }
{
    let address = segment_at(bytes, segment.place).address as u128 + offset as u128;
    if !page_has(bytes, segment.place, page, address) {
        return None;
    }
    let word = word_of(bytes, segment.place, address)?;
    if binds(word) && ordinal(word) >= table_at(bytes, segment.table).imports_count {
        return None;
    }
    Some(word)
}

/// The bytes from a word to the next one of its page, 0 at the last.
pub(crate) fn stride_of(word: u64) -> u64
    ensures is { result ≡ STRIDE * next_of word }
    ensures small { result < 16384 }
{
    4 * steps_of(word)
}

/// The offset in its segment of the first word that does not fit, of the word at an offset and those that it leads to.
fn unfit_from(bytes: &[u8], segment: Chained, page: u16, from: u64) -> Option<u64>
    requires apart { StandApart bytes.now }
    requires chained { IsChained bytes.now segment }
    requires small { from < 2 ^ 31 }
    ensures found { (x : ℕ) → result ≡ Some x → UnfitFrom bytes.now segment.number segment.place page from x }
    ensures only { result ≡ None → FitFrom bytes.now segment.number segment.place page from }
{
    let mut offset = from;
    while let Some(word) = fitting_word(bytes, segment, page, offset) {
        let stride = stride_of(word);
        if stride == 0 {
            return None;
        }
        offset += stride;
    }
    Some(offset)
}

/// The offset in its segment of the first word of a page's chain that does not fit.
fn unfit_on_page(bytes: &[u8], segment: Chained, page: u16) -> Option<u64>
    requires apart { StandApart bytes.now }
    requires chained { IsChained bytes.now segment }
    requires among { page < length (starts_of bytes.now segment.number) }
    ensures found { (x : ℕ) → result ≡ Some x → UnfitOnPage bytes.now segment.number segment.place page x }
    ensures only { result ≡ None → FitOnPage bytes.now segment.number segment.place page }
{
    let start = start_of_page(bytes, segment.table, segment.number, page);
    if start == NO_START {
        return None;
    }
    unfit_from(
        bytes,
        segment,
        page,
        SEGMENT_PAGE * page as u64 + start as u64,
    )
}

/// The file offset of the first word of a segment's chains that does not fit.
fn unfit_on_segment(bytes: &[u8], segment: Chained) -> Option<u64>
    requires apart { StandApart bytes.now }
    requires chained { IsChained bytes.now segment }
    ensures found { (x : ℕ) → result ≡ Some x → WordFails bytes.now x }
    ensures only { result ≡ None → (page : ℕ) → FitOnPage bytes.now segment.number segment.place page }
{
    let start = segment_at(bytes, segment.place).file_offset;
    for page in 0..pages_in(bytes, segment.table, segment.number) {
        if let Some(offset) = unfit_on_page(bytes, segment, page) {
            return Some(start + offset);
        }
    }
    None
}

/// The same; no page is walked where the segment's record of starts is known to have none.
fn unfit_by_record(bytes: &[u8], segment: Chained, blank: &mut Blank) -> Option<u64>
    requires apart { StandApart bytes.now }
    requires chained { IsChained bytes.now segment }
    requires blank { AreBlank bytes.now segment.table blank.old }
    ensures blank { AreBlank bytes.now segment.table blank.new }
    ensures found { (x : ℕ) → result ≡ Some x → WordFails bytes.now x }
    ensures only { result ≡ None → (page : ℕ) → FitOnPage bytes.now segment.number segment.place page }
{
    if blank.holds(bytes, segment) {
        return None;
    }
    unfit_on_segment(bytes, segment)
}

/// The file offset of the first chain word that does not fit, by the fixup table of a command.
fn first_unfit_in(bytes: &[u8], table: u64) -> Option<u64>
    requires apart { StandApart bytes.now }
    requires table { IsNth list.Tables bytes.now 0 table }
    ensures found { (x : ℕ) → result ≡ Some x → WordFails bytes.now x }
    ensures only { result ≡ None → EachWordFits bytes.now }
{
    let mut at = first();
    let mut blank = no_records(bytes, table);
    while let Some(step) = step_from(bytes, Listed::Segments, at) {
        let segment = Chained {
            table,
            number: at.number,
            place: step.place,
        };
        if let Some(word) = unfit_by_record(bytes, segment, &mut blank) {
            return Some(word);
        }
        at = step.next;
    }
    None
}

/// The file offset of the first chain word that does not fit.
pub(crate) fn first_unfit_word(bytes: &[u8]) -> Option<u64>
    requires { StandApart bytes.now }
    ensures found { (x : ℕ) → result ≡ Some x → WordFails bytes.now x }
    ensures only { result ≡ None → EachWordFits bytes.now }
{
    match nth(bytes, Listed::Tables, 0) {
        Some(table) => first_unfit_in(bytes, table),
        None => None,
    }
}
