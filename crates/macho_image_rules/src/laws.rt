//! Laws on what is told of the words that a link needs: each is the contract of a function that does nothing.
ghost use Rattle.macho_image_rules.specs.WordLaws.{DifferencesAreOfTheLink, NeededWordsAreAll, MisledWordsAreOfSites};

/// Where no address differs between the chains of an image and the words that its link needs, the chains are whole. Where one
/// does, it is on the chains and needs no fixup, or the other way round.
pub fn differences_are_of_the_link()
    ensures { DifferencesAreOfTheLink }
{}

/// Where each word that a link needs leads as it is to, each of its slots and pointers does. Where one is misled, so is the slot
/// or the pointer that its site names.
pub fn needed_words_are_slots_and_pointers()
    ensures all { NeededWordsAreAll }
    ensures misled { MisledWordsAreOfSites }
{}
