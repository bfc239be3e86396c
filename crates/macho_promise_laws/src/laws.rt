//! The law on whole files: the contract of a function that calls the laws it rests on, and does nothing else.
ghost use Rattle.macho_promise_laws.specs.Meaning.{WrittenIsLinked};
ghost use Rattle.macho_promise_laws.specs.Whole.{WholeIsLinked};

use macho_commands::head_is_read;
use macho_contents::{chained_words_lie_in_ranges, fixups_are_kept};
use macho_head::signature_is_the_links;
use macho_image_laws::{
    composed_images_are_loadable, composed_images_stand, headers_tell_the_template,
    words_leave_the_rest,
};
use macho_linkedit::{exports_are_said, symbols_are_said};
use macho_placed_laws::{
    head_agrees, libraries_are_said, parts_have_ranges_of_their_own, segments_have_room,
};
use macho_synthetic::texts_are_said;
use macho_writing_laws::heads_fit;

/// A file in which the head, the tables and the contents of a placed link stand, with zeros elsewhere and a signature of these
/// bytes, is an image as promised.
pub fn composed_files_are_linked()
    ensures { WholeIsLinked }
{
    head_agrees();
    libraries_are_said();
    segments_have_room();
    head_is_read();
    signature_is_the_links();
    composed_images_stand();
    composed_images_are_loadable();
    headers_tell_the_template();
}

/// A file into which the contents and the texts of a placed link were written, each into its range, is an image as promised.
pub fn written_files_are_linked()
    ensures { WrittenIsLinked }
{
    parts_have_ranges_of_their_own();
    heads_fit();
    chained_words_lie_in_ranges();
    words_leave_the_rest();
    head_is_read();
    fixups_are_kept();
    exports_are_said();
    symbols_are_said();
    texts_are_said();
    composed_files_are_linked();
}
