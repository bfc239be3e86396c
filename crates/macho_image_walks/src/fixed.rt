//! What the loader makes of a chain word (`struct dyld_chained_ptr_64_rebase` and `.._bind` of mach-o/fixup-chains.h).
ghost use Rattle.std.specs.Prelude.{◌≡◌, false, ℕ, Some, None};
ghost use Rattle.macho_model.specs.Images.{entry_addend};
ghost use Rattle.macho_model.specs.Loader.{is_bind, ordinal_of};
ghost use Rattle.macho_model.specs.Memory.{Choice, Becomes, bind_addend};
ghost use Rattle.macho_image_walks.specs.Readings.{table_there};
ghost use Rattle.macho_image_walks.specs.steps.Made.{BindsFor, BindsNothing, BoundIn, BoundByNth, MakesIt, MakesNothing, NthMakesNothing, IsMadeFor, IsNeverMade};

use crate::chain_words::word_of;
use crate::reads::u32_from;
use crate::tables::{base_address, place_of_import, table_at};
use crate::walk::{Listed, count_of, nth};

/// Whether a word binds an import.
pub fn binds(word: u64) -> bool
    ensures { result ≡ is_bind word }
{
    word >> 63 == 1
}

/// The number of the import that a word binds.
pub fn ordinal(word: u64) -> u32
    ensures { result ≡ ordinal_of word }
{
    (word & 0xff_ffff) as u32
}

/// What a word that moves with the image becomes at a slide.
fn rebased(bytes: &[u8], slide: u64, word: u64) -> u64
    requires moves { is_bind word ≡ false }
    ensures { (choice : Choice) → Becomes bytes.now slide choice word result (is_bind word) }
{
    let target = word & 0xf_ffff_ffff;
    let high = (word >> 36) & 0xff;
    let own = target
        .wrapping_add(high << 56)
        .wrapping_add(base_address(bytes));
    own.wrapping_add(slide)
}

/// The addend of an import entry, modulo 2^64.
pub fn addend_of(bytes: &[u8], table: u64, number: u32) -> u64
    ensures { result ≡ entry_addend bytes.now (table_there bytes.now table) number }
{
    if table_at(bytes, table).imports_format != 2 {
        return 0;
    }
    let addend = u32_from(bytes, place_of_import(bytes, table, number), 4) as u64;
    if addend < 0x8000_0000 {
        addend
    } else {
        addend + 0xffff_ffff_0000_0000
    }
}

/// The addend of a word that binds.
pub fn addend_in(word: u64) -> u64
    ensures { result ≡ bind_addend word }
{
    (word >> 24) & 0xff
}

/// What a word that binds becomes by a table, where the addresses have one for its import.
fn bound_in(bytes: &[u8], table: u64, addresses: &[u64], word: u64) -> Option<u64>
    ensures found { (v : ℕ) → result ≡ Some v → BoundIn bytes.now (table_there bytes.now table) addresses.now word v }
    ensures only { (v : ℕ) → BoundIn bytes.now (table_there bytes.now table) addresses.now word v → result ≡ Some v }
{
    let number = ordinal(word);
    if number >= table_at(bytes, table).imports_count {
        return None;
    }
    if number as usize >= addresses.len() {
        return None;
    }
    let import = addresses[number as usize].wrapping_add(addend_of(bytes, table, number));
    Some(import.wrapping_add(addend_in(word)))
}

/// The same by the table with a number.
fn bound_by_nth(bytes: &[u8], number: u32, addresses: &[u64], word: u64) -> Option<u64>
    ensures found { (v : ℕ) → result ≡ Some v → BoundByNth bytes.now number addresses.now word v }
    ensures only { (v : ℕ) → BoundByNth bytes.now number addresses.now word v → result ≡ Some v }
{
    match nth(bytes, Listed::Tables, number) {
        Some(table) => bound_in(bytes, table, addresses, word),
        None => None,
    }
}

/// What a word that binds becomes.
fn bound(bytes: &[u8], addresses: &[u64], word: u64) -> Option<u64>
    ensures found { (v : ℕ) → result ≡ Some v → BindsFor bytes.now addresses.now word v }
    ensures only { result ≡ None → BindsNothing bytes.now addresses.now word }
{
    for number in 0..count_of(bytes) {
        if let Some(value) = bound_by_nth(bytes, number, addresses, word) {
            return Some(value);
        }
    }
    None
}

/// What the loader makes of a word, None where its import has no address.
fn made(bytes: &[u8], slide: u64, addresses: &[u64], word: u64) -> Option<u64>
    ensures found { (v : ℕ) → result ≡ Some v → MakesIt bytes.now slide addresses.now word v }
    ensures only { result ≡ None → MakesNothing bytes.now slide addresses.now word }
{
    if binds(word) {
        bound(bytes, addresses, word)
    } else {
        Some(rebased(bytes, slide, word))
    }
}

/// What the loader makes of the word that the segment with a number has at an address.
fn made_of_nth(
    bytes: &[u8],
    number: u32,
    slide: u64,
    addresses: &[u64],
    word_at: u64,
) -> Option<u64>
    ensures found { (v : ℕ) → result ≡ Some v → IsMadeFor bytes.now slide addresses.now word_at v }
    ensures only { result ≡ None → NthMakesNothing bytes.now number slide addresses.now word_at }
{
    match nth(bytes, Listed::Segments, number) {
        Some(place) => match word_of(bytes, place, word_at as u128) {
            Some(word) => made(bytes, slide, addresses, word),
            None => None,
        },
        None => None,
    }
}

/// What the loader makes of the word at an address, None where there is no word or where its import has no address.
pub(crate) fn fixed_value(bytes: &[u8], slide: u64, addresses: &[u64], word_at: u64) -> Option<u64>
    ensures found { (v : ℕ) → result ≡ Some v → IsMadeFor bytes.now slide addresses.now word_at v }
    ensures only { result ≡ None → IsNeverMade bytes.now slide addresses.now word_at }
{
    for number in 0..count_of(bytes) {
        if let Some(value) = made_of_nth(bytes, number, slide, addresses, word_at) {
            return Some(value);
        }
    }
    None
}
