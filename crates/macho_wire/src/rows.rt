//! Numbers at an offset from a record's place, and rows of them.
ghost use Rattle.std.specs.Prelude.{◌≡◌, ◌+◌, ◌*◌, ◌≤◌, length};
ghost use Rattle.macho_bytes.specs.Numbers.{le_at, be_at, le_bytes, little, big, row_bytes, AllBelow};
ghost use Rattle.macho_bytes.specs.Texts.{put};

use crate::number::Number;

/// The number at an offset from a place, the lowest byte first.
pub fn little_at<N: Number>(bytes: &[u8], at: usize, offset: usize) -> N
    requires { at + offset + N.WIDTH ≤ length bytes.now }
    ensures { N.value result ≡ le_at N.WIDTH bytes.now (at + offset) }
{
    N::read_little(bytes, at + offset)
}

/// The number at an offset from a place, the highest byte first.
pub fn big_at<N: Number>(bytes: &[u8], at: usize, offset: usize) -> N
    requires { at + offset + N.WIDTH ≤ length bytes.now }
    ensures { N.value result ≡ be_at N.WIDTH bytes.now (at + offset) }
{
    N::read_big(bytes, at + offset)
}

/// Writes a number at a place, the lowest byte first.
pub fn put_little<N: Number>(out: &mut [u8], at: usize, number: N)
    requires { at + N.WIDTH ≤ length out.old }
    ensures written { out.new ≡ put at (le_bytes N.WIDTH (N.value number)) out.old }
    ensures long { length (le_bytes N.WIDTH (N.value number)) ≡ N.WIDTH }
    ensures read { le_at N.WIDTH out.new at ≡ N.value number }
{
    number.write_little(out, at);
}

/// Writes numbers one behind the other, the lowest byte of each first.
pub fn put_littles<N: Number>(out: &mut [u8], at: usize, numbers: &[N])
    requires { at + N.WIDTH * length numbers.now ≤ length out.old }
    ensures written { out.new ≡ put at (row_bytes little N.WIDTH (N.values numbers.now)) out.old }
    ensures fits { AllBelow N.WIDTH (N.values numbers.now) }
{
    let mut place = at;
    for number in numbers {
        number.write_little(out, place);
        place += N::WIDTH;
    }
}

/// Writes numbers one behind the other, the highest byte of each first.
pub fn put_bigs<N: Number>(out: &mut [u8], at: usize, numbers: &[N])
    requires { at + N.WIDTH * length numbers.now ≤ length out.old }
    ensures written { out.new ≡ put at (row_bytes big N.WIDTH (N.values numbers.now)) out.old }
    ensures fits { AllBelow N.WIDTH (N.values numbers.now) }
{
    let mut place = at;
    for number in numbers {
        number.write_big(out, place);
        place += N::WIDTH;
    }
}
