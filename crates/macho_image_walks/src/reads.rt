//! Numbers and names of a file, read without a look at its length: a byte behind the end is 0, as in the definitions.
ghost use Rattle.std.specs.Prelude.{◌≡◌, ◌+◌, slice_index, slice_range};
ghost use Rattle.macho_bytes.specs.Numbers.{le_at};

/// The byte of the file at a sum of offsets, 0 behind its end.
pub(crate) fn file_byte(bytes: &[u8], start: u64, offset: u64) -> u8
    ensures { result ≡ slice_index bytes.now (start + offset) }
{
    match start.checked_add(offset) {
        Some(at) if at < bytes.len() as u64 => bytes[at as usize],
        _ => 0,
    }
}

/// The number of two bytes at a sum of offsets, the lowest first.
#[tactic(auto, using(crate::proofs::ByteReads::le_at_two, crate::proofs::ByteReads::le_at_behind))]
pub fn u16_from(bytes: &[u8], start: u64, offset: u64) -> u16
    ensures { result ≡ le_at 2 bytes.now (start + offset) }
{
    if start > u64::MAX - offset {
        return 0;
    }
    let at = start + offset;
    let low = file_byte(bytes, at, 0);
    let high = file_byte(bytes, at, 1);
    low as u16 + 256 * high as u16
}

/// The number of four bytes at a sum of offsets.
#[tactic(auto, using(crate::proofs::ByteReads::le_at_four, crate::proofs::ByteReads::le_at_behind))]
pub fn u32_from(bytes: &[u8], start: u64, offset: u64) -> u32
    ensures { result ≡ le_at 4 bytes.now (start + offset) }
{
    if start > u64::MAX - offset {
        return 0;
    }
    let at = start + offset;
    let low = u16_from(bytes, at, 0);
    let high = u16_from(bytes, at, 2);
    low as u32 + 65536 * high as u32
}

/// The number of eight bytes at a sum of offsets.
#[tactic(auto, using(crate::proofs::ByteReads::le_at_eight, crate::proofs::ByteReads::le_at_behind))]
pub fn u64_from(bytes: &[u8], start: u64, offset: u64) -> u64
    ensures { result ≡ le_at 8 bytes.now (start + offset) }
{
    if start > u64::MAX - offset {
        return 0;
    }
    let at = start + offset;
    let low = u32_from(bytes, at, 0);
    let high = u32_from(bytes, at, 4);
    low as u64 + (1 << 32) * high as u64
}

/// The bytes of the file from a place up to another, as many as there are.
pub fn range_from(bytes: &[u8], start: u64, end: u64) -> &[u8]
    ensures { result.now ≡ slice_range bytes.now start end }
{
    let length = bytes.len() as u64;
    let from = start.min(length);
    let to = end.min(length).max(from);
    &bytes[from as usize..to as usize]
}
