//! Whether the words of the chains fit: the loader's last rule, asked of each word that a page's start leads to.
ghost use Rattle.std.specs.Prelude.{◌≡◌, ◌<◌, ◌+◌, ◌*◌};
ghost use Rattle.macho_image_walks.specs.Readings.{segment_there};
ghost use Rattle.macho_image_walks.specs.Tests.{page_holds};

use crate::chain_words::SEGMENT_PAGE;
use crate::segments::segment_at;

/// Whether a word at an address stands in a page of a segment and in its file part, and the segment may be written to.
pub fn page_has(bytes: &[u8], place: u64, page: u16, address: u128) -> bool
    ensures { result ≡ page_holds (segment_there bytes.now place) page address }
{
    let segment = segment_at(bytes, place);
    let start = segment.address as u128;
    let page_start = start + SEGMENT_PAGE * page as u128;
    let is_writable = (segment.first >> 1) & 1 == 1;
    is_writable
        && page_start <= address
        && address <= u128::MAX - 8
        && address + 8 <= page_start + SEGMENT_PAGE
        && address + 8 <= start + segment.file_size as u128
}
