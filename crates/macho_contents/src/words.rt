//! The words of chains, in the whole file.
ghost use Rattle.std.specs.Prelude.{◌≡◌, length, OnOk, OnErr};
ghost use Rattle.macho_model.specs.declared.placed.Counts.{Counts};
ghost use Rattle.macho_model.specs.Links.{Link};
ghost use Rattle.macho_layout.specs.Placements.{placed_of};
ghost use Rattle.macho_contents.specs.Chaining.{IsToChain, IsChained};

use crate::segments::fixup_segments;
use macho_fixups::{Fixup, write_chains};
use macho_layout::Placement;
use macho_linkedit::sort_run;
use std::alloc::{AllocError, Global};

/// Puts the fixups that the parts of a link ask for into order, and writes the word of each into the file's bytes.
///
/// # Errors
///
/// There is not enough memory. The run is then as it was, or in order, and the bytes are as they were.
pub fn write_words(
    alloc: Global,
    placement: &Placement,
    run: &mut [Fixup],
    out: &mut [u8],
) -> Result<(), AllocError>
    requires link { (l : Link) × (counts : Counts) × IsToChain l counts (placed_of placement.now) run.old (length out.old) }
    ensures done { (l : Link) (counts : Counts) → IsToChain l counts (placed_of placement.now) run.old (length out.old)
        → OnOk result (IsChained l (placed_of placement.now) run.new out.old out.new) }
    ensures length { length out.new ≡ length out.old }
    ensures kept { OnErr result (out.new ≡ out.old) }
{
    let segments = fixup_segments(alloc, placement)?;
    sort_run(run);
    match write_chains(run, &segments, out) {
        Ok(()) => Ok(()),
        Err(_) => unreachable!(),
    }
}
