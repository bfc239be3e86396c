//! Laws of needs: each is the contract of a function that does nothing.
ghost use Rattle.macho_needs.specs.Laws.{NeedsAreWhole, NamesAreFoundThen, NamesAreNoted, NameIsNoted};

/// Once all uses are noted, the lists are the link's needs, and each name that is used is defined.
pub fn needs_are_whole()
    ensures needs { NeedsAreWhole }
    ensures names { NamesAreFoundThen }
{}

/// Names of export lists ask for imports alone.
pub fn names_are_noted()
    ensures names { NamesAreNoted }
    ensures one { NameIsNoted }
{}
