//! The fixup table, in its range of the file.
ghost use Rattle.std.specs.Prelude.{◌≡◌, length, OnOk, OnErr};
ghost use Rattle.macho_layout.specs.Placements.{placed_of};
ghost use Rattle.macho_contents.specs.Writing.{FitsRange, TableIsPut};

use crate::segments::fixup_segments;
use macho_fixups::{Fixup, write_chained_fixup_table};
use macho_layout::Placement;
use macho_linkedit::ImportTable;
use std::alloc::{AllocError, Global};

/// Writes the fixup table of a sorted run into the range that is kept for it; what the table doesn't need becomes zero.
///
/// # Errors
///
/// There is not enough memory. The bytes are then as they were.
pub fn write_fixup_table(
    alloc: Global,
    placement: &Placement,
    run: &[Fixup],
    table: &ImportTable,
    out: &mut [u8],
) -> Result<(), AllocError>
    requires fits { FitsRange (placed_of placement.now) run.now table.now (length out.old) }
    ensures done { OnOk result (TableIsPut (placed_of placement.now) run.now table.now out.old out.new) }
    ensures kept { OnErr result (out.new ≡ out.old) }
{
    let segments = fixup_segments(alloc, placement)?;
    let range = placement.linkedit.fixups;
    write_chained_fixup_table(
        &mut out[range.start as usize..range.end as usize],
        &segments,
        placement.base,
        run,
        table.format,
        &table.entries,
        &table.names,
    );
    Ok(())
}
