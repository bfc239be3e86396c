//! The bytes of a changed image.
ghost use Rattle.std.specs.Prelude.{◌≡◌, ◌+◌, ◌*◌, ◌-◌, ◌≤◌, ◌<◌, ◌^◌, IfOk, length, slice_range};
ghost use Rattle.macho_bytes.specs.Numbers.{le_bytes};
ghost use Rattle.macho_bytes.specs.Texts.{put};
ghost use Rattle.macho_model.specs.Signature.{page_count};
ghost use Rattle.macho_retool.specs.Changes.{record_size, path_for};
ghost use Rattle.macho_retool.specs.steps.Rewritten.{PlaceFits, front, changed_commands, unsigned, signed_at};

use crate::change::Change;
use crate::form::Form;
use macho_signature::sign_again;
use macho_wire::{put_little, put_littles, put_text};
use std::alloc::{AllocError, Global};

/// Where a command is changed.
#[derive(Clone, Copy)]
pub(crate) struct Place {
    /// The place of the command.
    pub(crate) at: usize,
    /// Its old size.
    pub(crate) old_size: usize,
    /// Its new one.
    pub(crate) new_size: usize,
    /// Where the load commands end before the change.
    pub(crate) old_end: usize,
    /// Where they end afterwards.
    pub(crate) new_end: usize,
}

/// Writes a new command over zeros: the fields that stay are those of the old one.
#[tactic(auto, using(macho_bytes::proofs::Puts::puts))]
fn write_command(out: &mut [u8], old: &[u8], change: &Change, size: u32)
    requires old { record_size change.now ≤ length old.now }
    requires room { record_size change.now + length (path_for change.now) ≤ length out.old }
    ensures { out.new ≡ put 0 (front change.now size old.now) out.old }
{
    let record = change.record_size();
    put_littles(out, 0, &[change.command_number(), size, record as u32]);
    put_text(out, 12, &old[12..record]);
    put_text(out, record, change.path());
}

/// Writes the changed command over zeros, and behind it the ones that follow.
#[tactic(auto, unfolding(crate::specs::steps::Rewritten::changed_commands))]
fn write_commands(out: &mut [u8], bytes: &[u8], change: &Change, p: Place)
    requires record { record_size change.now ≤ p.old_size }
    requires inside { p.at + p.old_size ≤ p.old_end }
    requires end { p.old_end ≤ length bytes.now }
    requires small { p.new_size < 2 ^ 32 }
    requires path { record_size change.now + length (path_for change.now) ≤ p.new_size }
    requires room { p.new_size + (p.old_end - (p.at + p.old_size)) ≤ length out.old }
    ensures { out.new ≡ put p.new_size (slice_range bytes.now (p.at + p.old_size) p.old_end)
        (put 0 (front change.now p.new_size (slice_range bytes.now p.at (length bytes.now))) out.old) }
{
    write_command(out, &bytes[p.at..], change, p.new_size as u32);
    put_text(out, p.new_size, &bytes[p.at + p.old_size..p.old_end]);
}

/// What stands from the changed command on, up to where the old and the new load commands are both over.
fn changed_commands(
    alloc: Global,
    bytes: &[u8],
    change: &Change,
    place: &Place,
    form: Form,
) -> Result<Vec<u8>, AllocError>
    requires { PlaceFits change.now bytes.now place.now form }
    ensures { IfOk result (λ v. v.items ≡ changed_commands change.now bytes.now place.now) }
{
    let p = *place;
    let mut text = vec![in alloc; 0u8; p.old_end.max(p.new_end) - p.at]?;
    write_commands(&mut text, bytes, change, p);
    Ok(text)
}

/// Writes the digests of all pages in front of a signature.
fn sign(image: &mut [u8], form: Form)
    requires { form.limit + form.hashes_offset + 32 * page_count form.limit ≤ length image.old }
    ensures { image.new ≡ signed_at form image.old }
{
    let (signed, signature) = image.split_at_mut(form.limit as usize);
    sign_again(signed, signature, form.hashes_offset as usize);
}

/// Writes the changed head into an image, and signs it again.
fn write_image(image: &mut [u8], text: &[u8], place: &Place, form: Form)
    requires size { place.now.new_end < 2 ^ 32 }
    requires least { 32 ≤ place.now.new_end }
    requires head { 24 ≤ length image.old }
    requires room { place.now.at + length text.now ≤ length image.old }
    requires digests { form.limit + form.hashes_offset + 32 * page_count form.limit ≤ length image.old }
    ensures { image.new ≡ signed_at form (put place.now.at text.now (put 20 (le_bytes 4 (place.now.new_end - 32)) image.old)) }
{
    put_little(image, 20, (place.new_end - 32) as u32);
    put_text(image, place.at, text);
    sign(image, form);
}

/// The changed image.
pub(crate) fn rewritten(
    alloc: Global,
    bytes: &[u8],
    change: &Change,
    place: &Place,
    form: Form,
) -> Result<Vec<u8>, AllocError>
    requires { PlaceFits change.now bytes.now place.now form }
    ensures { IfOk result (λ v. v.items ≡ signed_at form (unsigned change.now bytes.now place.now)) }
{
    let text = changed_commands(alloc, bytes, change, place, form)?;
    let mut image = bytes.to_vec(alloc)?;
    write_image(&mut image, &text, place, form);
    Ok(image)
}
