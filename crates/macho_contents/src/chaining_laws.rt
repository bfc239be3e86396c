//! Laws on words and the table of fixups: each is the contract of a function that does nothing.
ghost use Rattle.macho_contents.specs.ChainingLaws.{WordsLieInRanges, BytesOutsideStay, WordsStay, FixupsAreKept, ImportsAreKept};

/// The words of a link lie in the ranges of its sections and slots: every other byte stays when they are written, and they stay
/// when every other byte is written.
pub fn chained_words_lie_in_ranges()
    ensures lie { WordsLieInRanges }
    ensures outside { BytesOutsideStay }
    ensures stay { WordsStay }
{}

/// A file in which the words of a link and its fixup table stand says the link's fixups and imports.
pub fn fixups_are_kept()
    ensures fixups { FixupsAreKept }
    ensures imports { ImportsAreKept }
{}
