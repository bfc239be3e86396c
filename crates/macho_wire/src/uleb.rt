//! ULEB128 numbers, as the exports trie has them (DWARF 5, section 7.6).
//!
//! Groups of seven bits, the lowest first; each byte but the last has its high bit set:
//!
//!     ac 02   300 = 0x2c + 2 * 128
ghost use Rattle.std.specs.Prelude.{◌≡◌, ◌+◌, ◌*◌, ◌%◌, ◌^◌, ◌≤◌, ℕ, length, take, true, false, OnOk, OnErr, IfSome, MatchOption, Some, ◌++◌};
ghost use Rattle.macho_bytes.specs.Uleb.{uleb_of, uleb_at, IsUlebAt, UlebReadsBack, uleb_value, first_groups, has_last_group};

use std::alloc::AllocError;

/// The most groups that a number of 64 bits has.
const MOST_GROUPS: usize = 10;

/// The number of bytes of the shortest form.
pub fn uleb_size(value: u64) -> usize
    ensures { result ≡ length (uleb_of value) }
{
    let mut rest = value;
    for size in 1..MOST_GROUPS {
        if rest < 0x80 {
            return size;
        }
        rest /= 0x80;
    }
    MOST_GROUPS
}

/// Appends the shortest form. `AllocError`: there is no memory, and `out` is as before.
pub fn write_uleb(out: &mut Vec<u8>, value: u64) -> Result<(), AllocError>
    ensures done { OnOk result (out.new.items ≡ out.old.items ++ uleb_of value) }
    ensures kept { OnErr result (out.new.items ≡ out.old.items) }
    ensures back { UlebReadsBack value }
{
    let mut groups = [0; MOST_GROUPS];
    let size = put_groups(&mut groups, value);
    out.extend_from_slice(&groups[..size])
}

/// Puts the shortest form to the front, and tells its bytes.
fn put_groups(groups: &mut [u8], value: u64) -> usize
    requires { length groups.old ≡ 10 }
    ensures within { result ≤ 10 }
    ensures written { take result groups.new ≡ uleb_of value }
{
    let mut rest = value;
    for count in 0..MOST_GROUPS - 1 {
        if rest < 0x80 {
            groups[count] = rest as u8;
            return count + 1;
        }
        groups[count] = 0x80 + (rest % 0x80) as u8;
        rest /= 0x80;
    }
    groups[MOST_GROUPS - 1] = rest as u8;
    MOST_GROUPS
}

/// The number at a place, and the place after it.
///
/// None where no last byte stands within ten bytes and within the slice, or the number passes 64 bits.
pub fn read_uleb(bytes: &[u8], at: usize) -> Option<(u64, usize)>
    ensures value { result ≡ uleb_at bytes.now at }
    ensures found { IfSome result (λ r. IsUlebAt bytes.now at r.0 r.1) }
    ensures only { (n last : ℕ) → IsUlebAt bytes.now at n last → result ≡ Some (n, last) }
{
    if bytes.len() < at {
        return None;
    }
    let groups = first_groups(&bytes[at..])?;
    let value = number_of(groups)?;
    Some((value, at + groups.len()))
}

/// The groups up to the first last one, None where it isn't among the first ten bytes.
fn first_groups(bytes: &[u8]) -> Option<&[u8]>
    ensures { MatchOption result (has_last_group bytes.now ≡ false)
        (λ t. (has_last_group bytes.now ≡ true) × (t.now ≡ first_groups bytes.now)) }
{
    for count in 0..MOST_GROUPS {
        if *bytes.get(count)? < 0x80 {
            return Some(&bytes[..count + 1]);
        }
    }
    None
}

/// The number of groups, the last of them first; None where it passes 64 bits.
fn number_of(groups: &[u8]) -> Option<u64>
    ensures { MatchOption result (2 ^ 64 ≤ uleb_value groups.now) (λ v. v ≡ uleb_value groups.now) }
{
    let mut left = groups.len();
    let mut value = 0;
    while left != 0 {
        left -= 1;
        value = with_group(groups[left], value)?;
    }
    Some(value)
}

/// A group below the number of those above it, None where the number passes 64 bits.
fn with_group(group: u8, above: u64) -> Option<u64>
    ensures { MatchOption result (2 ^ 64 ≤ group % 128 + 128 * above) (λ v. v ≡ group % 128 + 128 * above) }
{
    above
        .checked_mul(0x80)?
        .checked_add(u64::from(group % 0x80))
}
