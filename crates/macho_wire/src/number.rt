//! The numbers that records are made of.
ghost use Rattle.std.specs.Prelude.{◌≡◌, ◌+◌, ◌^◌, ◌<◌, ◌≤◌, ℕ, List, length, map};
ghost use Rattle.std.proofs.lemmas.List.{map-id};
ghost use Rattle.macho_bytes.specs.Numbers.{le_at, be_at, le_bytes, be_bytes};
ghost use Rattle.macho_bytes.specs.Texts.{put};

use crate::texts::put_text;
use byteorder::{BigEndian, ByteOrder, LittleEndian};

/// An unsigned number of a record: of 1, 2, 4 or 8 bytes.
pub trait Number: Copy {
    ghost WIDTH: { ℕ };

    ghost value: { Self → ℕ };

    ghost values: { List Self → List ℕ };

    /// How many bytes it has.
    const WIDTH: usize;

    /// The number at a place, the lowest byte first.
    fn read_little(bytes: &[u8], at: usize) -> Self
        requires { at + Self.WIDTH ≤ length bytes.now }
        ensures { value result ≡ le_at Self.WIDTH bytes.now at };

    /// The number at a place, the highest byte first.
    fn read_big(bytes: &[u8], at: usize) -> Self
        requires { at + Self.WIDTH ≤ length bytes.now }
        ensures { value result ≡ be_at Self.WIDTH bytes.now at };

    /// Writes the number at a place, the lowest byte first.
    fn write_little(self, out: &mut [u8], at: usize)
        requires { at + Self.WIDTH ≤ length out.old }
        ensures written { out.new ≡ put at (le_bytes Self.WIDTH (value self)) out.old }
        ensures fits { value self < 256 ^ Self.WIDTH };

    /// Writes the number at a place, the highest byte first.
    fn write_big(self, out: &mut [u8], at: usize)
        requires { at + Self.WIDTH ≤ length out.old }
        ensures written { out.new ≡ put at (be_bytes Self.WIDTH (value self)) out.old }
        ensures fits { value self < 256 ^ Self.WIDTH };

    ghost each: { (ns : List Self) → map value ns ≡ values ns };
}

impl Number for u8 {
    ghost WIDTH = { 1 };

    ghost value = { λ n. n };

    ghost values = { λ ns. ns };

    ghost each = { λ ns. map-id ns };

    const WIDTH: usize = 1;

    #[tactic(auto, unfolding(macho_bytes::specs::Numbers::le_at))]
    fn read_little(bytes: &[u8], at: usize) -> u8 {
        bytes[at]
    }

    #[tactic(auto, unfolding(macho_bytes::specs::Numbers::be_at))]
    fn read_big(bytes: &[u8], at: usize) -> u8 {
        bytes[at]
    }

    fn write_little(self, out: &mut [u8], at: usize) {
        put_text(out, at, &[self]);
    }

    fn write_big(self, out: &mut [u8], at: usize) {
        put_text(out, at, &[self]);
    }
}

impl Number for u16 {
    ghost WIDTH = { 2 };

    ghost value = { λ n. n };

    ghost values = { λ ns. ns };

    ghost each = { λ ns. map-id ns };

    const WIDTH: usize = 2;

    #[tactic(auto, unfolding(macho_bytes::specs::Numbers::le_at))]
    fn read_little(bytes: &[u8], at: usize) -> u16 {
        LittleEndian::read_u16(&bytes[at..])
    }

    #[tactic(auto, unfolding(macho_bytes::specs::Numbers::be_at))]
    fn read_big(bytes: &[u8], at: usize) -> u16 {
        BigEndian::read_u16(&bytes[at..])
    }

    fn write_little(self, out: &mut [u8], at: usize) {
        LittleEndian::write_u16(&mut out[at..], self);
    }

    fn write_big(self, out: &mut [u8], at: usize) {
        BigEndian::write_u16(&mut out[at..], self);
    }
}

impl Number for u32 {
    ghost WIDTH = { 4 };

    ghost value = { λ n. n };

    ghost values = { λ ns. ns };

    ghost each = { λ ns. map-id ns };

    const WIDTH: usize = 4;

    #[tactic(auto, unfolding(macho_bytes::specs::Numbers::le_at))]
    fn read_little(bytes: &[u8], at: usize) -> u32 {
        LittleEndian::read_u32(&bytes[at..])
    }

    #[tactic(auto, unfolding(macho_bytes::specs::Numbers::be_at))]
    fn read_big(bytes: &[u8], at: usize) -> u32 {
        BigEndian::read_u32(&bytes[at..])
    }

    fn write_little(self, out: &mut [u8], at: usize) {
        LittleEndian::write_u32(&mut out[at..], self);
    }

    fn write_big(self, out: &mut [u8], at: usize) {
        BigEndian::write_u32(&mut out[at..], self);
    }
}

impl Number for u64 {
    ghost WIDTH = { 8 };

    ghost value = { λ n. n };

    ghost values = { λ ns. ns };

    ghost each = { λ ns. map-id ns };

    const WIDTH: usize = 8;

    #[tactic(auto, unfolding(macho_bytes::specs::Numbers::le_at))]
    fn read_little(bytes: &[u8], at: usize) -> u64 {
        LittleEndian::read_u64(&bytes[at..])
    }

    #[tactic(auto, unfolding(macho_bytes::specs::Numbers::be_at))]
    fn read_big(bytes: &[u8], at: usize) -> u64 {
        BigEndian::read_u64(&bytes[at..])
    }

    fn write_little(self, out: &mut [u8], at: usize) {
        LittleEndian::write_u64(&mut out[at..], self);
    }

    fn write_big(self, out: &mut [u8], at: usize) {
        BigEndian::write_u64(&mut out[at..], self);
    }
}
