//! Relocations: a place and a word of packed bits.
//!
//! The second word of a relocation, from its lowest bit (`mach-o/reloc.h`):
//!
//!     bits 0 to 23   r_symbolnum
//!     bit 24         r_pcrel
//!     bits 25, 26    r_length
//!     bit 27         r_extern
//!     bits 28 to 31  r_type
//!
//! A branch to symbol 2 is `02 00 00 2d`: type 2, extern, length 2, relative.
ghost use Rattle.std.specs.Prelude.{◌≡◌, ◌+◌, ◌≤◌, IfSome, length};
ghost use Rattle.macho_bytes.specs.Texts.{put};
ghost use Rattle.macho_bytes.specs.Layouts.{read_of, size_of};
ghost use Rattle.macho_wire.specs.Relocations.{relocation_info, BitsFit};
ghost use Rattle.macho_bytes.specs.Spellings.{spelling, ReadsBack};
ghost use Rattle.macho_wire.specs.Spellings.{packed_word, relocation_info_rows};

use crate::rows::{little_at, put_littles};

/// `struct relocation_info` of `mach-o/reloc.h`: a relocation.
#[derive(Clone, Copy)]
pub struct RelocationInfo {
    /// The offset in the section of what is relocated.
    pub r_address: u32,
    /// A symbol index where `r_extern`, else a section number from 1; of ADDEND the addend. 24 bits.
    pub r_symbolnum: u32,
    /// Whether the value is relative to the place.
    pub r_pcrel: bool,
    /// The width, as an exponent of 2. 2 bits.
    pub r_length: u8,
    /// Whether `r_symbolnum` is a symbol index.
    pub r_extern: bool,
    /// The `ARM64_RELOC_` type. 4 bits.
    pub r_type: u8,
}

impl RelocationInfo {
    /// The bytes of the record.
    pub const SIZE: usize = 8;

    /// The record at a place of the bytes, None where it does not stand there whole.
    #[tactic(auto, unfolding(macho_bytes::specs::Layouts::reading))]
    pub fn read(bytes: &[u8], at: usize) -> Option<RelocationInfo>
        ensures done { result ≡ read_of relocation_info bytes.now at }
        ensures bits { IfSome result BitsFit }
    {
        if bytes.len() < Self::SIZE || bytes.len() - Self::SIZE < at {
            return None;
        }
        let word: u32 = little_at(bytes, at, 4);
        Some(RelocationInfo {
            r_address: little_at(bytes, at, 0),
            r_symbolnum: word & 0xff_ffff,
            r_pcrel: (word >> 24) & 1 == 1,
            r_length: ((word >> 25) & 3) as u8,
            r_extern: (word >> 27) & 1 == 1,
            r_type: ((word >> 28) & 15) as u8,
        })
    }

    /// Writes the record at a place; the other bytes stay. Each field is below the bound of its bits.
    #[tactic(auto, using(macho_bytes::proofs::Layouts::little_record))]
    pub fn write(&self, out: &mut [u8], at: usize)
        requires room { at + size_of relocation_info ≤ length out.old }
        requires bits { BitsFit self.now }
        ensures written { out.new ≡ put at (spelling relocation_info_rows self.now) out.old }
        ensures back { ReadsBack relocation_info_rows self.now }
    {
        put_littles(out, at, &[self.r_address, self.word()]);
    }

    /// The bits of all fields but the address.
    fn word(&self) -> u32
        requires { BitsFit self.now }
        ensures { result ≡ packed_word self.now }
    {
        let r = *self;
        r.r_symbolnum
            + (u32::from(r.r_pcrel) << 24)
            + (u32::from(r.r_length) << 25)
            + (u32::from(r.r_extern) << 27)
            + (u32::from(r.r_type) << 28)
    }
}
