//! The head of the file, and its signature.
ghost use Rattle.std.specs.Prelude.{◌≡◌, ◌<◌, ◌^◌, true, length, OnOk};
ghost use Rattle.macho_model.specs.Links.{Link};
ghost use Rattle.macho_model.specs.Segments.{TEXT};
ghost use Rattle.macho_model.specs.Placement.{Placed, is_segment_named};
ghost use Rattle.macho_model.specs.Targets.{is_defined};
ghost use Rattle.macho_model.specs.Addresses.{address_of};
ghost use Rattle.macho_fields.specs.Looks.{TellsAddresses};
ghost use Rattle.macho_linking.specs.steps.Planned.{IsPlanned, IsLooked, placement_of, counts_of};
ghost use Rattle.macho_linking.specs.steps.Written.{HeadIsWritten, SignatureIsPut};
ghost use Rattle.macho_linking.specs.steps.Sealing.{IsTextSize, entry_said};

use crate::planned::Planned;
use macho_fields::{Places, address_of};
use macho_head::{HeadParts, write_image_head};
use macho_layout::PlacedSegment;
use macho_linker::last_part;
use macho_model::Target;
use macho_records::name_bytes;
use macho_signature::{Signer, sign_file, stamped_uuid};
use std::alloc::{AllocError, Global};

/// Whether a segment is named `__TEXT`.
fn is_text(segment: &PlacedSegment) -> bool
    ensures { result ≡ is_segment_named TEXT segment.now }
{
    let bytes = segment.name.into_bytes();
    name_bytes(&bytes) == b"__TEXT".as_slice()
}

/// The bytes of `__TEXT` in the file; 0 where there is no such segment.
fn text_size(segments: &[PlacedSegment]) -> u64
    ensures { IsTextSize segments.now result }
{
    for segment in segments {
        if is_text(segment) {
            return segment.file_size;
        }
    }
    0
}

/// The address of a target in the image, or the value of one that is absolute, whatever it is; 0 for an import.
fn place_of<P: Places>(places: &P, target: Target) -> u64
    ensures { (p : Placed) → TellsAddresses p (P.look places.now) → (is_defined target ≡ true → address_of p target < 2 ^ 64)
        → result ≡ address_of p target }
{
    match target {
        Target::Absolute { value } => value,
        _ => address_of(places, target),
    }
}

/// Where the name of the entry leads, counted from the base: an executable begins there.
fn entry_offset<P: Places>(b: &Planned<'_>, places: &P) -> u64
    requires link { (l : Link) × IsLooked l b.now (P.look places.now) }
    ensures { (l : Link) → IsLooked l b.now (P.look places.now) → result ≡ entry_said l (placement_of b.now) }
{
    let target = b.read.needs.resolved.definition(b.linker.entry());
    place_of(places, target).saturating_sub(b.sized.placement.base)
}

/// Writes header and load commands, which tell a trie of so many bytes.
pub(crate) fn write_head<P: Places>(
    alloc: Global,
    b: &Planned<'_>,
    places: &P,
    uuid: [u8; 16],
    trie: usize,
    out: &mut [u8],
) -> Result<(), AllocError>
    requires link { (l : Link) × IsLooked l b.now (P.look places.now) }
    requires long { length out.old ≡ (placement_of b.now).linkedit.signature.end }
    requires trie { trie < 2 ^ 32 }
    ensures length { length out.new ≡ length out.old }
    ensures done { (l : Link) → IsLooked l b.now (P.look places.now)
        → OnOk result (HeadIsWritten l (counts_of b.now) uuid (placement_of b.now) trie out.old out.new) }
{
    let parts = HeadParts {
        executable: b.linker.is_executable(),
        entry: entry_offset(b, places),
        uuid: stamped_uuid(uuid),
        versions: b.linker.versions(),
        install_name: b.linker.install_name(),
        libraries: b.libraries,
        rpaths: b.linker.rpaths(),
        trie_size: trie as u32,
        symbols: b.sized.counts.symbols as u32,
        strings_size: b.sized.counts.strings as u32,
    };
    write_image_head(alloc, &b.sized.placement, &parts, out)
}

/// Signs the file.
pub(crate) fn sign(b: &Planned<'_>, out: &mut [u8])
    requires link { (l : Link) × IsPlanned l b.now }
    requires long { length out.old ≡ (placement_of b.now).linkedit.signature.end }
    ensures { (l : Link) → IsPlanned l b.now → SignatureIsPut l (placement_of b.now) out.old out.new }
{
    let placement = &b.sized.placement;
    let signer = Signer {
        identifier: last_part(b.linker.output()),
        text_offset: 0,
        text_size: text_size(&placement.segments),
        executable: b.linker.is_executable(),
    };
    sign_file(out, placement.linkedit.signature.start as usize, &signer);
}
