//! The words on the chains of an accepted image, listed by rising addresses.
//!
//! Segments stand in order, the pages of a segment do, and a word of a page's chain leads upwards, to one of the same page.
//! So a walk over segments, pages and words meets each word once, and in order; nothing is sorted. At a page that begins
//! at 0x4000 and has two words:
//!
//!     start of the page   10 00                     its first word is at 0x4010
//!     0x4010              78 02 00 00 00 00 10 00   a value, 0x278 from the base; the next word is 2 steps of 4 bytes on
//!     0x4018              00 00 00 00 00 00 00 80   import 0; the last word
ghost use Rattle.std.specs.Prelude.{◌≡◌, ◌+◌, ◌<◌, length, IfOk, OnOk};
ghost use Rattle.macho_model.specs.Images.{base_of};
ghost use Rattle.macho_model.specs.Loader.{IsAccepted};
ghost use Rattle.macho_image_walks.specs.Readings.{IsNth, segment_there, table_there, starts_of};
ghost use Rattle.macho_image_walks.specs.declared.walk.Listed.TheVariants as list;
ghost use Rattle.macho_image_walks.specs.steps.Walks.{IsOnPage};
ghost use Rattle.macho_image_walks.specs.steps.WordTests.{address_in};
ghost use Rattle.macho_loader.specs.Lists.{AreFixups};
ghost use Rattle.macho_loader.specs.steps.Listing.{IsWalk, KindOf, ListsTo, page_from, segment_end};
ghost use Rattle.macho_loader.specs.steps.Words.{IsChained};

use crate::cursor::{first, step_from};
use crate::fixups::rebased;
use crate::word_rules::{Chained, stride_of};
use macho_image_walks::{
    Listed, SegmentNumbers, addend_in, addend_of, binds, nth, ordinal, pages_in, segment_at,
    start_of_page, u64_from,
};
use macho_model::{NO_START, SEGMENT_PAGE};
use std::alloc::{AllocError, Global};

/// What the loader makes of a word on a chain, before any slide.
#[derive(Clone, Copy)]
pub enum LineKind {
    /// A value that moves with the image.
    Rebase {
        /// The value where the image is loaded at its own address.
        value: u64,
    },
    /// The address of an import.
    Bind {
        /// The number of the import, from 0.
        import: u32,
        /// What is added to its address: the addend of its entry and that of the word.
        addend: i64,
    },
}

/// A word on a chain, and what the loader makes of it.
#[derive(Clone, Copy)]
pub struct FixupLine {
    /// The word's address, where the image is loaded at its own.
    pub address: u64,
    /// What the word says.
    pub kind: LineKind,
}

/// What a walk over the pages of a segment keeps at hand.
#[derive(Clone, Copy)]
struct Walk {
    /// The segment.
    segment: Chained,
    /// The numbers of its command.
    numbers: SegmentNumbers,
    /// The address of the image's first byte.
    base: u64,
}

/// What a word says, by the fixup table of a command.
fn kind_of(bytes: &[u8], table: u64, base: u64, word: u64) -> LineKind
    ensures { KindOf bytes.now (table_there bytes.now table) base word result }
{
    if !binds(word) {
        return LineKind::Rebase {
            value: rebased(word, base),
        };
    }
    let import = ordinal(word);
    let addend = addend_of(bytes, table, import).wrapping_add(addend_in(word));
    LineKind::Bind {
        import,
        addend: addend.cast_signed(),
    }
}

/// Lists the word at an offset in a segment, and those of its page that it leads to.
///
/// Words begin at least 4 bytes apart. So more of them than a quarter of the file's bytes stand only in segments that share
/// bytes of the file, and no memory is taken for more: a small file could have any number.
fn list_from(
    bytes: &[u8],
    walk: Walk,
    page: u16,
    from: u64,
    lines: &mut Vec<FixupLine>,
) -> Result<(), AllocError>
    requires accepted { IsAccepted bytes.now }
    requires walk { IsWalk bytes.now walk }
    requires on { IsOnPage bytes.now walk.segment.number walk.segment.place page (address_in bytes.now walk.segment.place from) }
    requires so_far { ListsTo bytes.now lines.old.items (address_in bytes.now walk.segment.place from) }
    ensures { OnOk result (ListsTo bytes.now lines.new.items (page_from (segment_there bytes.now walk.segment.place) (page + 1))) }
{
    let mut offset = from;
    'words: loop {
        if lines.len() > bytes.len() / 4 {
            return Err(AllocError);
        }
        let word = u64_from(bytes, walk.numbers.file_offset, offset);
        lines.push(FixupLine {
            address: walk.numbers.address + offset,
            kind: kind_of(bytes, walk.segment.table, walk.base, word),
        })?;
        let stride = stride_of(word);
        if stride == 0 {
            return Ok(());
        }
        offset += stride;
    }
}

/// Lists the words of a page.
fn list_page(
    bytes: &[u8],
    walk: Walk,
    page: u16,
    lines: &mut Vec<FixupLine>,
) -> Result<(), AllocError>
    requires accepted { IsAccepted bytes.now }
    requires walk { IsWalk bytes.now walk }
    requires among { page < length (starts_of bytes.now walk.segment.number) }
    requires so_far { ListsTo bytes.now lines.old.items (page_from (segment_there bytes.now walk.segment.place) page) }
    ensures { OnOk result (ListsTo bytes.now lines.new.items (page_from (segment_there bytes.now walk.segment.place) (page + 1))) }
{
    let start = start_of_page(bytes, walk.segment.table, walk.segment.number, page);
    if start == NO_START {
        return Ok(());
    }
    let from = SEGMENT_PAGE * page as u64 + start as u64;
    list_from(bytes, walk, page, from, lines)
}

/// Lists the words of a segment.
fn list_segment(
    bytes: &[u8],
    segment: Chained,
    base: u64,
    lines: &mut Vec<FixupLine>,
) -> Result<(), AllocError>
    requires accepted { IsAccepted bytes.now }
    requires chained { IsChained bytes.now segment }
    requires base { base ≡ base_of bytes.now }
    requires so_far { ListsTo bytes.now lines.old.items (segment_there bytes.now segment.place).vmaddr }
    ensures { OnOk result (ListsTo bytes.now lines.new.items (segment_end (segment_there bytes.now segment.place))) }
{
    let walk = Walk {
        segment,
        numbers: segment_at(bytes, segment.place),
        base,
    };
    if walk.numbers.size == 0 {
        return Ok(());
    }
    for page in 0..pages_in(bytes, segment.table, segment.number) {
        list_page(bytes, walk, page, lines)?;
    }
    Ok(())
}

/// The words on the chains of an image, by the fixup table of a command.
fn list_words(
    alloc: Global,
    bytes: &[u8],
    base: u64,
    table: u64,
) -> Result<Vec<FixupLine>, AllocError>
    requires accepted { IsAccepted bytes.now }
    requires base { base ≡ base_of bytes.now }
    requires table { IsNth list.Tables bytes.now 0 table }
    ensures { IfOk result (λ v. AreFixups bytes.now v.items) }
{
    let mut lines = Vec::new(alloc);
    let mut at = first();
    while let Some(step) = step_from(bytes, Listed::Segments, at) {
        let segment = Chained {
            table,
            number: at.number,
            place: step.place,
        };
        list_segment(bytes, segment, base, &mut lines)?;
        at = step.next;
    }
    Ok(lines)
}

/// The words on the chains of an image, by rising addresses.
pub(crate) fn list_fixups(
    alloc: Global,
    bytes: &[u8],
    base: u64,
) -> Result<Vec<FixupLine>, AllocError>
    requires accepted { IsAccepted bytes.now }
    requires base { base ≡ base_of bytes.now }
    ensures { IfOk result (λ v. AreFixups bytes.now v.items) }
{
    match nth(bytes, Listed::Tables, 0) {
        Some(table) => list_words(alloc, bytes, base, table),
        None => Ok(Vec::new(alloc)),
    }
}
