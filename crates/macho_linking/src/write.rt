//! The image of a placed link: its contents, its tables, its head and its signature, in one buffer.
ghost use Rattle.std.specs.Prelude.{◌≡◌, length, IfOk, OnOk, IfErr};
ghost use Rattle.macho_model.specs.Links.{Link};
ghost use Rattle.macho_bytes.specs.Images.{zeros};
ghost use Rattle.macho_linking.specs.steps.Planned.{IsPlanned, IsLooked, KnowsAll, placement_of, counts_of};
ghost use Rattle.macho_linking.specs.steps.Unwritten.{UnwrittenStands};
ghost use Rattle.macho_linking.specs.steps.Imaged.{IsImaged};

use crate::contents::{write_offsets, write_unwind};
use crate::fault::Unwritten;
use crate::planned::Planned;
use crate::refused::try_contents;
use crate::sealing::{sign, write_head};
use crate::tables::{write_imports, write_symbols, write_trie};
use macho_contents::LinkPlaces;
use macho_fields::Places;
use macho_promise_laws::written_files_are_linked;
use std::alloc::Global;

/// The bytes of an image, and how many words the loader writes.
#[derive(Drop)]
pub(crate) struct Written {
    pub(crate) bytes: Vec<u8>,
    pub(crate) fixups: u64,
}

/// Writes the parts of an image into zeros.
fn write_parts<P: Places>(
    alloc: Global,
    b: &Planned<'_>,
    places: &P,
    uuid: [u8; 16],
    out: &mut [u8],
) -> Result<u64, Unwritten>
    requires known { KnowsAll b.now (P.has_symbol places.now) }
    requires link { (l : Link) × IsLooked l b.now (P.look places.now) }
    requires zeros { out.old ≡ zeros (placement_of b.now).linkedit.signature.end }
    ensures length { length out.new ≡ length out.old }
    ensures done { (l : Link) → IsLooked l b.now (P.look places.now)
        → IfOk result (IsImaged l (counts_of b.now) (placement_of b.now) uuid out.new) }
    ensures why { (l : Link) → IsLooked l b.now (P.look places.now) → IfErr result (UnwrittenStands l (placement_of b.now)) }
{
    let run = try_contents(alloc, b, places, out)?;
    write_offsets(b, places, out)?;
    write_unwind(alloc, b, places, out)?;
    write_imports(alloc, b, &run, out)?;
    let trie = write_trie(alloc, b, places, out)?;
    write_symbols(alloc, b, places, out)?;
    write_head(alloc, b, places, uuid, trie, out)?;
    sign(b, out);
    written_files_are_linked();
    Ok(run.len() as u64)
}

/// Writes the image of a placed link.
pub(crate) fn write_image(
    alloc: Global,
    b: &Planned<'_>,
    uuid: [u8; 16],
) -> Result<Written, Unwritten>
    requires { (l : Link) × IsPlanned l b.now }
    ensures done { (l : Link) → IsPlanned l b.now
        → IfOk result (λ w. IsImaged l (counts_of b.now) (placement_of b.now) uuid w.bytes.items w.fixups) }
    ensures why { (l : Link) → IsPlanned l b.now → IfErr result (UnwrittenStands l (placement_of b.now)) }
{
    let size = b.sized.placement.linkedit.signature.end as usize;
    let places = LinkPlaces::new(alloc, &b.sized.placement, &b.read.needs, b.views)?;
    let mut bytes = vec![in alloc; 0u8; size]?;
    let fixups = write_parts(alloc, b, &places, uuid, &mut bytes)?;
    Ok(Written { bytes, fixups })
}
