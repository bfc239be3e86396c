//! Numbers and names as bytes.

use std::alloc::AllocError;

/// The number in two bytes.
pub(crate) fn put_half(out: &mut Vec<u8>, number: u64) -> Result<(), AllocError> {
    out.extend_from_slice(&((number % 0x1_0000) as u16).to_le_bytes())
}

/// The numbers in four bytes each.
pub(crate) fn put_words(out: &mut Vec<u8>, numbers: &[u64]) -> Result<(), AllocError> {
    for number in numbers {
        out.extend_from_slice(&((*number % 0x1_0000_0000) as u32).to_le_bytes())?;
    }
    Ok(())
}

/// The numbers in eight bytes each.
pub(crate) fn put_longs(out: &mut Vec<u8>, numbers: &[u64]) -> Result<(), AllocError> {
    for number in numbers {
        out.extend_from_slice(&number.to_le_bytes())?;
    }
    Ok(())
}

/// The name in sixteen bytes.
pub(crate) fn put_name(out: &mut Vec<u8>, name: &[u8]) -> Result<(), AllocError> {
    for place in 0..16usize {
        match name.get(place) {
            Some(byte) => out.push(*byte)?,
            None => out.push(0)?,
        }
    }
    Ok(())
}

/// Zeros up to the next multiple of the step.
pub(crate) fn pad(out: &mut Vec<u8>, step: usize) -> Result<(), AllocError> {
    for _turn in 0..16usize {
        if step > 0 && out.len() % step > 0 {
            out.push(0)?;
        }
    }
    Ok(())
}

/// The length as a number.
pub(crate) fn length(bytes: &[u8]) -> u64 {
    bytes.len() as u64
}
