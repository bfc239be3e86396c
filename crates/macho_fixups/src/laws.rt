//! Laws on the room for a table, by which a linker keeps it before it knows the fixups; on the table and the chains of a
//! file; and on bytes beside the words.
ghost use Rattle.macho_fixups.specs.Laws.{PagesAreBounded, RoomGrows, NoFixupNoPages, PlacesAreInSegments, ChainsAreTold, NamesAreRead, TextsStay, BytesStay};

/// A segment's pages with chains are at most its file size over 16 KiB, rounded up.
pub fn pages_are_bounded()
    ensures { PagesAreBounded }
{}

/// The room for a table grows with its entries, its bytes of names and its pages.
pub fn room_grows()
    ensures { RoomGrows }
{}

/// A segment without a fixup has no pages with chains.
pub fn no_fixup_no_pages()
    ensures { NoFixupNoPages }
{}

/// The place of a word in the file is as far from its segment's place as its address is from the segment's.
pub fn places_are_in_segments()
    ensures { PlacesAreInSegments }
{}

/// Where a file has one fixup table, which tells of each of its segments, its chains are those that the table tells.
pub fn chains_are_told()
    ensures { ChainsAreTold }
{}

/// The name of each import is read back, up to its NUL.
pub fn names_are_read()
    ensures { NamesAreRead }
{}

/// What no word of a run covers stays when the words are written: a byte, and a text, by their addresses.
pub fn bytes_beside_words_stay()
    ensures bytes { BytesStay }
    ensures texts { TextsStay }
{}
