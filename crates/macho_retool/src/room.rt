//! What stands in the way of new load commands, and the room for them.
ghost use Rattle.std.specs.Prelude.{◌≡◌, ◌≤◌, ◌<◌, ℕ, None, Some, All, length, slice_index, false, min, nat_lt, nat_le, ◌&&◌, if◌then◌else◌};
ghost use Rattle.macho_retool.specs.Parts.{is_in_way, least, begins_from};
ghost use Rattle.macho_retool.specs.Refusals.{IsFirstUsed};
ghost use Rattle.macho_retool.specs.steps.Clear.{IsPartInWay};

use crate::parts::FilePart;

/// Whether a part is in the way: it is not empty, and it begins before the load commands end, or it is fixed and ends behind
/// the limit of what is signed.
fn is_in_way(part: &FilePart, end: u64, limit: u64) -> bool
    ensures { result ≡ is_in_way end limit part.now }
{
    part.size > 0
        && (part.at < end || part.fixed && (part.at > limit || part.size > limit - part.at))
}

/// The file offset of the first part that is in the way.
pub(crate) fn first_in_way(parts: &[FilePart], end: u64, limit: u64) -> Option<u64>
    ensures found { (place : ℕ) → result ≡ Some place → IsPartInWay parts.now end limit place }
    ensures only { result ≡ None → All (λ p. is_in_way end limit p ≡ false) parts.now }
{
    for part in parts {
        if is_in_way(part, end, limit) {
            return Some(part.at);
        }
    }
    None
}

/// The lesser of a number and where a part begins, if that one is not empty and does not begin among the load commands.
fn room_with(part: &FilePart, room: u64, end: u64) -> u64
    ensures { result ≡ (if nat_lt 0 part.now.size && nat_le end part.now.at then min room part.now.at else room) }
{
    if part.size > 0 && end <= part.at {
        return room.min(part.at);
    }
    room
}

/// The least of where `__TEXT` ends and where the parts begin that do not begin among the load commands.
pub(crate) fn room_before(parts: &[FilePart], text_end: u64, end: u64) -> u64
    ensures { result ≡ least text_end (begins_from end parts.now) }
{
    let mut room = text_end;
    for part in parts {
        room = room_with(part, room, end);
    }
    room
}

/// The place of the first byte in a range that is not zero.
pub(crate) fn first_used(bytes: &[u8], from: u64, to: u64) -> Option<u64>
    requires { to ≤ length bytes.now }
    ensures found { (place : ℕ) → result ≡ Some place → IsFirstUsed bytes.now from to place }
    ensures only { result ≡ None → (i : ℕ) → from ≤ i → i < to → slice_index bytes.now i ≡ 0 }
{
    for place in from..to {
        if bytes[place as usize] != 0 {
            return Some(place);
        }
    }
    None
}
