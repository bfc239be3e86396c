//! Laws on composed images: each is the contract of a function that calls the laws it rests on, and does nothing else.
ghost use Rattle.macho_image_laws.specs.Laws.{ComposedStands, ComposedChains, ComposedIsAccepted, ComposedIsLoadable, LinksLead, SectionsStayFilled, StubsStaySet, ValidIsSound};
ghost use Rattle.macho_image_laws.specs.Template.{HeadersTellTemplate};

use macho_arm64::fields_denote;
use macho_commands::head_keeps_rules;
use macho_fixups::{bytes_beside_words_stay, chains_are_told};
use macho_model::{
    fields_denote_at_every_slide, plain_pointers_stay, slots_stand_at_every_slide,
    what_no_word_covers_is_held,
};

/// A composed image stands in memory at every slide of whole 16 KiB, for every choice of import addresses; its chain is
/// exactly the slots and the pointers that need a fixup.
pub fn composed_images_stand()
    ensures stands { ComposedStands }
    ensures chain { ComposedChains }
{
    what_no_word_covers_is_held();
    fields_denote_at_every_slide();
    plain_pointers_stay();
    slots_stand_at_every_slide();
    fields_denote();
    chains_are_told();
}

/// The loader accepts a composed image.
pub fn composed_images_are_accepted()
    ensures { ComposedIsAccepted }
{
    head_keeps_rules();
    chains_are_told();
}

/// A composed image is what the promise of a link calls loadable: placed, accepted, and standing in memory.
pub fn composed_images_are_loadable()
    ensures { ComposedIsLoadable }
{
    composed_images_stand();
    composed_images_are_accepted();
}

/// Fields of a sound link lie in their sections; slots, and pointers that the loader writes, lead to parts of the
/// link or to its imports.
pub fn links_lead()
    ensures { LinksLead }
{}

/// When the words of a link's fixups are written over a file, its sections stay filled and its stubs set.
pub fn words_leave_the_rest()
    ensures sections { SectionsStayFilled }
    ensures stubs { StubsStaySet }
{
    bytes_beside_words_stay();
}

/// A valid link is sound, and its personality functions are defined or imported.
pub fn valid_links_are_sound()
    ensures { ValidIsSound }
{}

/// The section headers of a file tell the range of the thread-local template, where it is no wider than its sections.
pub fn headers_tell_the_template()
    ensures { HeadersTellTemplate }
{}
