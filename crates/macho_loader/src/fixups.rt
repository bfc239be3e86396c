//! What a word of a chain says: a value that moves with the image, or an import (`struct dyld_chained_ptr_64_rebase` and
//! `.._bind` of mach-o/fixup-chains.h).
//!
//!     bits   0 to 35  36 to 43  51 to 62  63        a value: its offset from the base, its highest byte
//!     word   target   high      next      0
//!     bits   0 to 23  24 to 31  51 to 62  63        an import: the number of its entry, an addend
//!     word   ordinal  addend    next      1
ghost use Rattle.std.specs.Prelude.{◌≡◌, ◌+◌, ◌*◌, ◌%◌, ◌^◌, ◌<◌, drop, true, false, Some, None};
ghost use Rattle.macho_model.specs.Chain.{OnChainOf};
ghost use Rattle.macho_model.specs.Images.{base_of, table_names};
ghost use Rattle.macho_model.specs.Loader.{IsAccepted};
ghost use Rattle.macho_model.specs.Memory.{rebase_target, rebase_high};
ghost use Rattle.macho_model.specs.ReadBack.{IsLoadedFixup};
ghost use Rattle.macho_bytes.specs.Texts.{name_of};
ghost use Rattle.macho_image_walks.specs.Readings.{HasWord, segment_there, table_there};
ghost use Rattle.macho_image_walks.specs.steps.Walks.{Leads};
ghost use Rattle.macho_image_walks.specs.steps.WordTests.{address_in, FitFrom};
ghost use Rattle.macho_loader.specs.Fixups.{fixup_of, found_of};
ghost use Rattle.macho_loader.specs.steps.Words.{StandApart, IsChained};
ghost use Rattle.macho_loader.specs.steps.Held.{IsHeld, HasNoWord, import_said};
ghost use Rattle.macho_loader.specs.declared.fixups.Held.{Held};

use crate::cursor::{first, step_from};
use crate::import_rules::names_of;
use crate::word_rules::{Chained, fitting_word, stride_of};
use macho_image_walks::{
    Listed, addend_in, addend_of, binds, library_of, name_offset_of, nth, ordinal, pages_in,
    place_of_import, segment_at, start_of_page, u32_from, word_of,
};
use macho_model::{NO_START, SEGMENT_PAGE};
use macho_records::name_bytes;

/// What the loader makes of a word on a chain, before any slide.
#[derive(Clone, Copy)]
pub enum LoadedFixup<'a> {
    /// A value that moves with the image.
    Rebase {
        /// The value where the image is loaded at its own address.
        value: u64,
    },
    /// The address of an import.
    Bind {
        /// The number of its library among those that the image needs, from 1.
        library: u8,
        /// Its name.
        name: &'a [u8],
        /// What is added to its address: the addend of its entry and that of the word.
        addend: i64,
    },
}

/// A word in the file bytes of a segment.
#[derive(Clone, Copy)]
pub(crate) struct Held {
    /// The number of the segment.
    number: u32,
    /// The place of its command.
    place: u64,
    /// The word.
    word: u64,
}

/// The word that a segment has at an address.
fn word_held(bytes: &[u8], address: u64) -> Option<Held>
    ensures found { (h : Held) → result ≡ Some h → IsHeld bytes.now address h }
    ensures only { result ≡ None → HasNoWord bytes.now address }
{
    let mut at = first();
    while let Some(step) = step_from(bytes, Listed::Segments, at) {
        if let Some(word) = word_of(bytes, step.place, address as u128) {
            return Some(Held {
                number: at.number,
                place: step.place,
                word,
            });
        }
        at = step.next;
    }
    None
}

/// Whether a chain whose words all fit in a page leads from an offset in the segment to another one.
fn leads_to(bytes: &[u8], segment: Chained, page: u16, from: u64, to: u64) -> bool
    requires apart { StandApart bytes.now }
    requires chained { IsChained bytes.now segment }
    requires small { from < 2 ^ 31 }
    requires fit { FitFrom bytes.now segment.number segment.place page from }
    ensures found { result ≡ true → Leads bytes.now (address_in bytes.now segment.place from) (address_in bytes.now segment.place to) }
    ensures only { result ≡ false → Leads bytes.now (address_in bytes.now segment.place from) (address_in bytes.now segment.place to) → ⊥ }
{
    let mut offset = from;
    while offset < to {
        let Some(word) = fitting_word(bytes, segment, page, offset) else {
            return false;
        };
        let stride = stride_of(word);
        if stride == 0 {
            return false;
        }
        offset += stride;
    }
    offset == to
}

/// Whether a word of a segment is on a chain.
fn is_on_chain(bytes: &[u8], segment: Chained, address: u64, word: u64) -> bool
    requires accepted { IsAccepted bytes.now }
    requires chained { IsChained bytes.now segment }
    requires has { HasWord bytes.now (segment_there bytes.now segment.place) address word }
    ensures found { result ≡ true → OnChainOf bytes.now address }
    ensures only { result ≡ false → OnChainOf bytes.now address → ⊥ }
{
    let offset = address - segment_at(bytes, segment.place).address;
    let page = offset / SEGMENT_PAGE;
    if page >= pages_in(bytes, segment.table, segment.number) as u64 {
        return false;
    }
    let page = page as u16;
    let start = start_of_page(bytes, segment.table, segment.number, page);
    if start == NO_START {
        return false;
    }
    leads_to(
        bytes,
        segment,
        page,
        SEGMENT_PAGE * page as u64 + start as u64,
        offset,
    )
}

/// The value of a word that moves with the image.
pub(crate) fn rebased(word: u64, base: u64) -> u64
    ensures { result ≡ (rebase_target word + rebase_high word * 2 ^ 56 + base) % 2 ^ 64 }
{
    let target = word & 0xf_ffff_ffff;
    let high = (word >> 36) & 0xff;
    target.wrapping_add(high << 56).wrapping_add(base)
}

/// The name at an offset among the names of a fixup table.
pub(crate) fn name_at(bytes: &[u8], table: u64, offset: u32) -> &[u8]
    ensures { result.now ≡ name_of (drop offset (table_names bytes.now (table_there bytes.now table))) }
{
    let names = names_of(bytes, table);
    let from = (offset as usize).min(names.len());
    name_bytes(&names[from..])
}

/// The import of a word that binds.
fn bound<'a>(bytes: &'a [u8], table: u64, word: u64) -> LoadedFixup<'a>
    ensures { fixup_of result ≡ import_said bytes.now (table_there bytes.now table) word }
{
    let number = ordinal(word);
    let entry = u32_from(bytes, place_of_import(bytes, table, number), 0);
    let addend = addend_of(bytes, table, number).wrapping_add(addend_in(word));
    LoadedFixup::Bind {
        library: library_of(entry) as u8,
        name: name_at(bytes, table, name_offset_of(entry)),
        addend: addend.cast_signed(),
    }
}

/// What stands on the chain of an accepted image at an address.
pub(crate) fn fixup_in<'a>(bytes: &'a [u8], base: u64, address: u64) -> Option<LoadedFixup<'a>>
    requires accepted { IsAccepted bytes.now }
    requires base { base ≡ base_of bytes.now }
    ensures { IsLoadedFixup bytes.now address (found_of result) }
{
    let table = nth(bytes, Listed::Tables, 0)?;
    let held = word_held(bytes, address)?;
    let segment = Chained {
        table,
        number: held.number,
        place: held.place,
    };
    if !is_on_chain(bytes, segment, address, held.word) {
        return None;
    }
    if binds(held.word) {
        return Some(bound(bytes, table, held.word));
    }
    Some(LoadedFixup::Rebase {
        value: rebased(held.word, base),
    })
}
