//! Laws of placements: what is laid out of a link's plan is placed as an image of the link has to be.
//!
//! Each law is the contract of a function that does nothing. Together they are all that a linker has to know of a layout.
#![tactic(auto)]

ghost use Rattle.macho_layout_laws.specs.Laws.{LaidOutIsPlaced, KeptIsPlaced, RefusalsAreLinks, AnsweredPassNone, PagesFit, CommonsByNumber, SlotsByNumber};

/// What is laid out of a link's plan has each part at its place, in the stated order, as low as it may be, with the headers
/// of the link's output sections; and so has a placement that a refusal keeps.
pub fn what_is_laid_out_is_placed()
    ensures laid { LaidOutIsPlaced }
    ensures kept { KeptIsPlaced }
{}

/// A plan is refused only where its link passes a limit, and a placement that is answered passes none.
pub fn refusals_are_the_links()
    ensures why { RefusalsAreLinks }
    ensures none { AnsweredPassNone }
{}

/// The room of the fixup table holds the starts of all pages that fixups may stand in.
pub fn pages_fit()
    ensures { PagesFit }
{}

/// The address of a common stands at its number in the placement's list, and that of a slot at its target's.
pub fn addresses_by_number()
    ensures commons { CommonsByNumber }
    ensures slots { SlotsByNumber }
{}
