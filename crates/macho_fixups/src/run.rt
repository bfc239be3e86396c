//! The sorted run of fixups, and the part of it that stands in a segment.
ghost use Rattle.std.specs.Prelude.{◌≡◌, ◌+◌, ◌≤◌, length, nat_lt, true, false};
ghost use Rattle.macho_fixups.specs.steps.Cuts.{IsSkip, IsNextBelow, IsNoneBelow};

use crate::words::FixupKind;

/// A word that the loader writes anew.
#[derive(Clone, Copy)]
pub struct Fixup {
    /// The address of its first byte.
    pub address: u64,
    /// What the loader makes of it.
    pub kind: FixupKind,
}

/// A segment, as fixups see it.
#[derive(Clone, Copy)]
pub struct FixupSegment {
    /// The address of its first byte.
    pub address: u64,
    /// Its bytes in memory.
    pub size: u64,
    /// The place of its first byte in the file.
    pub file_offset: u64,
    /// Its bytes in the file.
    pub file_size: u64,
}

/// The number of the first fixup, from one on, that isn't below `base + size`.
pub(crate) fn skip_below(fixups: &[Fixup], from: usize, base: u64, size: u64) -> usize
    requires { from ≤ length fixups.now }
    ensures { IsSkip fixups.now from (base + size) result }
{
    let mut next = from;
    while next < fixups.len() && is_below(&fixups[next], base, size) {
        next += 1;
    }
    next
}

fn is_below(fixup: &Fixup, base: u64, size: u64) -> bool
    ensures { result ≡ nat_lt fixup.now.address (base + size) }
{
    let address = fixup.address;
    address < base || address - base < size
}

/// Whether a fixup is left that stands below the end of a segment's file part.
pub(crate) fn has_next(fixups: &[Fixup], next: usize, segment: &FixupSegment) -> bool
    ensures some { result ≡ true → IsNextBelow fixups.now next (segment.now.address + segment.now.file_size) }
    ensures none { result ≡ false → IsNoneBelow fixups.now next (segment.now.address + segment.now.file_size) }
{
    next < fixups.len() && is_below(&fixups[next], segment.address, segment.file_size)
}

/// The part of the run that stands in a segment.
#[derive(Clone, Copy)]
pub(crate) struct SegmentRun {
    /// The number behind its last fixup.
    pub(crate) end: usize,
    /// The pages of the segment up to that of its last fixup.
    pub(crate) pages: u64,
}
