//! The words of chains, followed from the page starts on: plain and slow.
//!
//! A chain word has in its bits 51 to 62 the steps of four bytes to the next word, 0 at the last. Where segments share
//! addresses a word may be read in each of them, and the chain branches; so every segment is asked. Addresses are
//! numbers of 128 bits here, so that no sum passes them.
ghost use Rattle.std.specs.Prelude.{◌≡◌, ◌<◌, ◌+◌, ◌*◌, ◌-◌, ℕ, true, false, length, slice_index, Some, None};
ghost use Rattle.macho_model.specs.Chain.{next_of, OnChainOf};
ghost use Rattle.macho_image_walks.specs.Readings.{segment_there, IsNth, HasWord, starts_in, table_there, StepOf, StepIn, starts_of};
ghost use Rattle.macho_image_walks.specs.steps.Walks.{Leads, IsOnPage, IsOffSegment};
ghost use Rattle.macho_image_walks.specs.declared.walk.Listed.TheVariants as list;

use crate::reads::u64_from;
use crate::segments::segment_at;
use crate::tables::{count_of_pages, count_of_starts, offset_of_starts, start_of_page};
use crate::walk::{Listed, count_of, nth};
use macho_model::NO_START;

/// The bytes of a page of a segment, as addresses are here.
pub const SEGMENT_PAGE: u128 = macho_model::SEGMENT_PAGE as u128;

/// The word that a segment has at an address, if it stands whole in its file part.
pub fn word_of(bytes: &[u8], place: u64, address: u128) -> Option<u64>
    ensures found { (w : ℕ) → result ≡ Some w → HasWord bytes.now (segment_there bytes.now place) address w }
    ensures only { (w : ℕ) → HasWord bytes.now (segment_there bytes.now place) address w → result ≡ Some w }
{
    let segment = segment_at(bytes, place);
    let start = segment.address as u128;
    if address < start || address - start >= segment.file_size as u128 {
        return None;
    }
    let offset = (address - start) as u64;
    if segment.file_size - offset < 8 {
        return None;
    }
    Some(u64_from(bytes, segment.file_offset, offset))
}

/// The steps from a word to the next one of its page, 0 at the last.
pub fn steps_of(word: u64) -> u64
    ensures { result ≡ next_of word }
{
    (word >> 51) & 0xfff
}

/// The bytes to the next word of a chain, by what the segment of a command has at an address.
fn step_of(bytes: &[u8], place: u64, address: u128) -> Option<u64>
    ensures found { (n : ℕ) → result ≡ Some n → StepOf bytes.now place address n }
    ensures only { (n : ℕ) → StepOf bytes.now place address n → result ≡ Some n }
    ensures small { (n : ℕ) → result ≡ Some n → n < 16384 }
{
    match word_of(bytes, place, address) {
        Some(word) => {
            let steps = steps_of(word);
            if steps == 0 { None } else { Some(4 * steps) }
        }
        None => None,
    }
}

/// The bytes to the next word, by what a segment has at an address; None where it leads nowhere.
pub fn step_in(bytes: &[u8], number: u32, address: u128) -> Option<u64>
    ensures found { (n : ℕ) → result ≡ Some n → StepIn bytes.now number address n }
    ensures only { (n : ℕ) → StepIn bytes.now number address n → result ≡ Some n }
    ensures small { (n : ℕ) → result ≡ Some n → n < 16384 }
{
    match nth(bytes, Listed::Segments, number) {
        Some(place) => step_of(bytes, place, address),
        None => None,
    }
}

/// Whether a chain leads from one address to another.
fn reaches(bytes: &[u8], from: u128, to: u128) -> bool
    ensures found { result ≡ true → Leads bytes.now from to }
    ensures only { result ≡ false → Leads bytes.now from to → ⊥ }
{
    if from >= to {
        return from == to;
    }
    for number in 0..count_of(bytes) {
        if let Some(step) = step_in(bytes, number, from) {
            let step = step as u128;
            if step <= to - from && reaches(bytes, from + step, to) {
                return true;
            }
        }
    }
    false
}

/// How many pages of a segment have a start, by the first fixup table.
pub fn pages_of(bytes: &[u8], number: u32) -> u16
    ensures { result ≡ length (starts_of bytes.now number) }
{
    match nth(bytes, Listed::Tables, 0) {
        Some(table) => pages_in(bytes, table, number),
        None => 0,
    }
}

/// How many pages of a segment have a start in a table.
pub fn pages_in(bytes: &[u8], table: u64, number: u32) -> u16
    ensures { result ≡ length (starts_in bytes.now (table_there bytes.now table) number) }
{
    if number >= count_of_starts(bytes, table) {
        return 0;
    }
    if offset_of_starts(bytes, table, number) == 0 {
        return 0;
    }
    count_of_pages(bytes, table, number)
}

/// The start of a page's chain, from the page's first byte.
pub fn start_of(bytes: &[u8], number: u32, page: u16) -> u16
    requires { page < length (starts_of bytes.now number) }
    ensures { result ≡ slice_index (starts_of bytes.now number) page }
{
    match nth(bytes, Listed::Tables, 0) {
        Some(table) => start_of_page(bytes, table, number, page),
        None => NO_START,
    }
}

/// Whether an address is on the chain of a page of a segment.
fn is_on_page(bytes: &[u8], number: u32, place: u64, page: u16, address: u64) -> bool
    requires nth { IsNth list.Segments bytes.now number place }
    requires among { page < length (starts_of bytes.now number) }
    ensures found { result ≡ true → IsOnPage bytes.now number place page address }
    ensures only { result ≡ false → IsOnPage bytes.now number place page address → ⊥ }
{
    let start = start_of(bytes, number, page);
    if start == NO_START {
        return false;
    }
    let first = segment_at(bytes, place).address as u128
        + SEGMENT_PAGE * page as u128
        + start as u128;
    reaches(bytes, first, address as u128)
}

/// Whether an address is on the chain of a segment.
fn is_on_segment(bytes: &[u8], number: u32, place: u64, address: u64) -> bool
    requires nth { IsNth list.Segments bytes.now number place }
    ensures found { result ≡ true → OnChainOf bytes.now address }
    ensures only { result ≡ false → (page : ℕ) → IsOnPage bytes.now number place page address → ⊥ }
{
    for page in 0..pages_of(bytes, number) {
        if is_on_page(bytes, number, place, page, address) {
            return true;
        }
    }
    false
}

/// Whether an address is on the chain of the segment with a number.
fn is_on_nth(bytes: &[u8], number: u32, address: u64) -> bool
    ensures found { result ≡ true → OnChainOf bytes.now address }
    ensures only { result ≡ false → IsOffSegment bytes.now number address }
{
    match nth(bytes, Listed::Segments, number) {
        Some(place) => is_on_segment(bytes, number, place, address),
        None => false,
    }
}

/// Whether an address is that of a word on the chain of a file: one that the loader writes anew.
#[tactic(auto, using(crate::proofs::WordWalk::on_no_segment))]
pub fn is_on_chain(bytes: &[u8], address: u64) -> bool
    ensures found { result ≡ true → OnChainOf bytes.now address }
    ensures only { result ≡ false → OnChainOf bytes.now address → ⊥ }
{
    for number in 0..count_of(bytes) {
        if is_on_nth(bytes, number, address) {
            return true;
        }
    }
    false
}
