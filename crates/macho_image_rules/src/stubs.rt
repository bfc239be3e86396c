//! Whether the words of a stub go on through a slot.
ghost use Rattle.std.specs.Prelude.{◌≡◌, true};
ghost use Rattle.std.specs.Bool.{OnTrue};
ghost use Rattle.macho_model.specs.Meaning.{GoesThrough};

use crate::instructions::{loads_from, pages_to};

/// `adrp x16` by no page.
const ADRP_X16: u32 = 0x9000_0010;

/// `ldr x16, [x16]`.
const LDR_X16: u32 = 0xf940_0210;

/// `br x16`.
const BR_X16: u32 = 0xd61f_0200;

/// The three words of a stub.
#[derive(Clone, Copy)]
pub struct StubWords {
    /// The first, which gives the page of the slot.
    pub adrp: u32,
    /// The second, which reads the slot.
    pub ldr: u32,
    /// The third, which goes on to what it read.
    pub br: u32,
}

/// Whether a stub at a place goes on through a slot.
pub fn stub_says(place: u64, slot: u64, words: StubWords) -> bool
    ensures found { OnTrue result (GoesThrough place slot words.adrp words.ldr words.br) }
    ensures only { GoesThrough place slot words.adrp words.ldr words.br → result ≡ true }
{
    pages_to(place, words.adrp, ADRP_X16, slot)
        && loads_from(words.ldr, LDR_X16, slot)
        && words.br == BR_X16
}
