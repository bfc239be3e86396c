//! Laws on the ranges of a file: each is the contract of a function that does nothing.
ghost use Rattle.macho_placed_laws.specs.Ranges.{RangesAreApart, RangesEnd};

/// The parts of a placed image stand in ranges of the file that share no byte, and that end in the file.
pub fn parts_have_ranges_of_their_own()
    ensures apart { RangesAreApart }
    ensures inside { RangesEnd }
{}
