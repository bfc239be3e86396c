//! Writing a value to a field.
ghost use Rattle.std.specs.Prelude.{◌≡◌, ◌+◌, ◌≤◌, true, false, length, OnOk, OnErr, IfErr, IfSome, MatchOption};
ghost use Rattle.macho_arm64.specs.Fields.{width_of, is_field};
ghost use Rattle.macho_fields.specs.steps.Writes.{IsReady, ChangesOnly, IsPut, HasField, CannotPut, IsNumber};

use macho_arm64::{FieldSize, Relaxation, fits_instruction, write_field};
use macho_wire::Number;

/// What is to be written to a field.
#[derive(Clone, Copy)]
pub(crate) struct FieldWrite {
    /// Where it stands in its section.
    pub at: u32,
    /// What of the bytes there it is.
    pub size: FieldSize,
    /// Whether the load there becomes an ADD first.
    pub relax: bool,
    /// The number that it is to hold, modulo 2^64.
    pub value: u64,
}

/// Why a value isn't written.
#[derive(Clone, Copy)]
pub(crate) enum WriteFault {
    /// There is no such field at the place.
    NoWord,
    /// The field can't hold the value.
    Range,
}

/// The bytes of a field, None for what is none.
fn width_of(size: FieldSize) -> Option<usize>
    ensures { MatchOption result (is_field size ≡ false) (λ w. (is_field size ≡ true) × (w ≡ width_of size)) }
{
    match size {
        FieldSize::Bytes(4) => Some(4),
        FieldSize::Bytes(8) => Some(8),
        FieldSize::Bytes(_) => None,
        _ => Some(4),
    }
}

/// Whether a field has its bytes among so many.
pub(crate) fn has_room(write: &FieldWrite, long: usize) -> bool
    ensures yes { result ≡ true → (is_field write.now.size ≡ true) × (write.now.at + width_of write.now.size ≤ long) }
    ensures no { result ≡ false → is_field write.now.size ≡ true → write.now.at + width_of write.now.size ≤ long → ⊥ }
{
    match width_of(write.size) {
        Some(width) => width <= long && write.at as usize <= long - width,
        None => false,
    }
}

/// Makes the load at a field's place an ADD, where the field asks for it.
fn make_ready(write: &FieldWrite, out: &mut [u8]) -> Result<(), WriteFault>
    requires { write.now.at + 4 ≤ length out.old }
    ensures done { OnOk result (IsReady write.now out.old out.new) }
    ensures rest { OnOk result (ChangesOnly write.now.at 4 out.old out.new) }
    ensures why { IfErr result (CannotPut write.now out.old) }
{
    if !write.relax {
        return Ok(());
    }
    match Relaxation::LoadToAdd.apply(out, write.at as usize) {
        Ok(()) => Ok(()),
        Err(_) => Err(WriteFault::NoWord),
    }
}

/// Writes a value to its field.
pub(crate) fn put_field(write: &FieldWrite, out: &mut [u8]) -> Result<(), WriteFault>
    ensures done { OnOk result (IsPut write.now out.old out.new) }
    ensures why { IfErr result (CannotPut write.now out.old) }
{
    if !has_room(write, out.len()) {
        return Err(WriteFault::NoWord);
    }
    let at = write.at as usize;
    make_ready(write, out)?;
    if !fits_instruction(write.size, u32::read_little(out, at)) {
        return Err(WriteFault::NoWord);
    }
    match write_field(write.size, out, at, write.value) {
        Ok(()) => Ok(()),
        Err(_) => Err(WriteFault::Range),
    }
}

/// The bytes of the widest field.
const WIDEST: usize = 8;

/// Why a number can't be written to a field of bytes, None where it can. It is tried on other bytes: whether it fits rests on the
/// field's width alone.
pub(crate) fn write_fault(write: &FieldWrite, bytes: &[u8]) -> Option<WriteFault>
    requires { IsNumber write.now }
    ensures { IfSome result (CannotPut write.now bytes.now) }
{
    if !has_room(write, bytes.len()) {
        return Some(WriteFault::NoWord);
    }
    match write_field(write.size, &mut [0; WIDEST], 0, write.value) {
        Ok(()) => None,
        Err(_) => Some(WriteFault::Range),
    }
}
