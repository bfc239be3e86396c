//! Places in the file.
ghost use Rattle.std.specs.Prelude.{◌≡◌, ◌%◌, ◌^◌, ◌<◌};
ghost use Rattle.macho_places.specs.steps.Segments.{has_in_file};
ghost use Rattle.macho_model.specs.Placement.{Placed};
ghost use Rattle.macho_model.specs.Addresses.{offset_in_file};

use macho_model::PlacedSegment;

/// Whether an address lies in the file part of a segment.
fn has_in_file(segment: PlacedSegment, address: u64) -> bool
    ensures { result ≡ has_in_file address segment }
{
    segment.address <= address && address - segment.address < segment.file_size
}

/// The file offset of the byte at an address, modulo 2^64; 0 where no byte of the file is mapped there.
pub fn file_offset(segments: &[PlacedSegment], address: u64) -> u64
    ensures is { (p : Placed) → segments.now ≡ p.segments → result ≡ offset_in_file p address % 2 ^ 64 }
    ensures low { (p : Placed) → segments.now ≡ p.segments → offset_in_file p address < 2 ^ 64 → result ≡ offset_in_file p address }
{
    for segment in segments {
        if has_in_file(*segment, address) {
            return segment.file_offset.wrapping_add(address - segment.address);
        }
    }
    0
}
