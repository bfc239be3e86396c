//! The contents of segments: sections and stubs with the words of the loader, and what is made of consumed sections.
ghost use Rattle.std.specs.Prelude.{◌≡◌, length, IfOk, OnOk, IfErr};
ghost use Rattle.macho_bytes.specs.Images.{zeros};
ghost use Rattle.macho_model.specs.Links.{Link};
ghost use Rattle.macho_fields.specs.Faults.{NoneIsBad};
ghost use Rattle.macho_promise_laws.specs.Written.{AreContents};
ghost use Rattle.macho_linking.specs.steps.Planned.{IsLooked, KnowsAll, placement_of};
ghost use Rattle.macho_linking.specs.steps.Unwritten.{UnwrittenStands};
ghost use Rattle.macho_linking.specs.steps.Written.{OffsetsArePut, UnwindIsPut};

use crate::fault::Unwritten;
use crate::planned::Planned;
use macho_contents::{file_offset, fill_contents, write_words};
use macho_fields::Places;
use macho_fixups::Fixup;
use macho_synthetic::{INIT_OFFSET_SIZE, unwind_section, write_initializers};
use std::alloc::Global;

/// Fills sections and stubs, and writes the words of the loader over them. The words are answered, by their addresses.
pub(crate) fn write_contents<P: Places>(
    alloc: Global,
    b: &Planned<'_>,
    places: &P,
    out: &mut [u8],
) -> Result<Vec<Fixup>, Unwritten>
    requires known { KnowsAll b.now (P.has_symbol places.now) }
    requires link { (l : Link) × IsLooked l b.now (P.look places.now) }
    requires zeros { out.old ≡ zeros (placement_of b.now).linkedit.signature.end }
    ensures length { length out.new ≡ length out.old }
    ensures done { (l : Link) → IsLooked l b.now (P.look places.now)
        → IfOk result (λ run. AreContents l (placement_of b.now) run.items (placement_of b.now).linkedit.signature.end out.new) }
    ensures good { (l : Link) → IsLooked l b.now (P.look places.now) → OnOk result (NoneIsBad l (placement_of b.now)) }
    ensures why { (l : Link) → IsLooked l b.now (P.look places.now) → IfErr result (UnwrittenStands l (placement_of b.now)) }
{
    let placement = &b.sized.placement;
    let mut run = Vec::new(alloc);
    fill_contents(places, b.views, placement, &mut run, out)?;
    write_words(alloc, placement, &mut run, out)?;
    Ok(run)
}

/// Writes the offsets of initializers.
pub(crate) fn write_offsets<P: Places>(
    b: &Planned<'_>,
    places: &P,
    out: &mut [u8],
) -> Result<(), Unwritten>
    requires known { KnowsAll b.now (P.has_symbol places.now) }
    requires link { (l : Link) × IsLooked l b.now (P.look places.now) }
    requires long { length out.old ≡ (placement_of b.now).linkedit.signature.end }
    ensures length { length out.new ≡ length out.old }
    ensures done { (l : Link) → IsLooked l b.now (P.look places.now) → OnOk result (OffsetsArePut l (placement_of b.now) out.old out.new) }
    ensures why { (l : Link) → IsLooked l b.now (P.look places.now) → IfErr result (UnwrittenStands l (placement_of b.now)) }
{
    let placement = &b.sized.placement;
    let rows = &b.read.initializers;
    let at = file_offset(&placement.segments, placement.init_offsets.start) as usize;
    write_initializers(
        places,
        rows,
        &mut out[at..at + INIT_OFFSET_SIZE * rows.len()],
    )?;
    Ok(())
}

/// Writes unwind information.
pub(crate) fn write_unwind<P: Places>(
    alloc: Global,
    b: &Planned<'_>,
    places: &P,
    out: &mut [u8],
) -> Result<(), Unwritten>
    requires known { KnowsAll b.now (P.has_symbol places.now) }
    requires link { (l : Link) × IsLooked l b.now (P.look places.now) }
    requires long { length out.old ≡ (placement_of b.now).linkedit.signature.end }
    ensures length { length out.new ≡ length out.old }
    ensures done { (l : Link) → IsLooked l b.now (P.look places.now) → OnOk result (UnwindIsPut l (placement_of b.now) out.old out.new) }
    ensures why { (l : Link) → IsLooked l b.now (P.look places.now) → IfErr result (UnwrittenStands l (placement_of b.now)) }
{
    let placement = &b.sized.placement;
    let at = file_offset(&placement.segments, placement.unwind.start) as usize;
    let section = unwind_section(alloc, places, &b.read.needs.tables, &b.read.entries)?;
    section.write(&mut out[at..]);
    Ok(())
}
