//! The code directory of a signature.
//!
//! A signature is a superblob of 20 bytes, then the code directory, the identifier and the digests
//! (`cs_blobs.h`, xnu). Its numbers are big-endian.
ghost use Rattle.std.specs.Prelude.{◌≡◌, ◌+◌, ◌≤◌, length, [], ◌∷◌};
ghost use Rattle.macho_bytes.specs.Numbers.{big, row_bytes, AllBelow};
ghost use Rattle.macho_bytes.specs.Texts.{put};
ghost use Rattle.macho_bytes.specs.Layouts.{read_of, size_of};
ghost use Rattle.macho_wire.specs.Layouts.{code_directory};
ghost use Rattle.macho_bytes.specs.Spellings.{spelling, ReadsBack};
ghost use Rattle.macho_wire.specs.Spellings.{code_directory_rows};

use crate::rows::{big_at, put_bigs};

/// `struct __CodeDirectory` of cs_blobs.h (xnu): what a code signature signs. Big-endian.
#[derive(Clone, Copy)]
pub struct CodeDirectory {
    /// `CSMAGIC_CODEDIRECTORY`, 0xfade0c02.
    pub magic: u32,
    /// The bytes of this record with what follows it.
    pub length: u32,
    /// 0x20400: up to the executable segment.
    pub version: u32,
    /// `CS_` flags: ad hoc and signed by a linker.
    pub flags: u32,
    /// The place of the digest of the first page, from this record.
    pub hash_offset: u32,
    /// The place of the identifier.
    pub ident_offset: u32,
    /// How many digests stand before the first page.
    pub special_slots: u32,
    /// How many pages are signed.
    pub code_slots: u32,
    /// The bytes that are signed.
    pub code_limit: u32,
    /// The bytes of a digest, 32.
    pub hash_size: u8,
    /// 2 for SHA-256.
    pub hash_type: u8,
    /// 0.
    pub platform: u8,
    /// The bytes of a page, as an exponent of 2.
    pub page_exponent: u8,
    /// 0.
    pub spare: u32,
    /// 0.
    pub scatter_offset: u32,
    /// 0.
    pub team_offset: u32,
    /// 0.
    pub spare2: u32,
    /// The bytes that are signed, where 32 bits are too few; else 0.
    pub code_limit64: u64,
    /// The file offset of `__TEXT`.
    pub exec_base: u64,
    /// Its file size.
    pub exec_limit: u64,
    /// 1 for an executable.
    pub exec_flags: u64,
}

impl CodeDirectory {
    /// The bytes of the record.
    pub const SIZE: usize = 88;

    /// The record at a place of the bytes, None where it does not stand there whole.
    #[tactic(auto, unfolding(macho_bytes::specs::Layouts::reading))]
    pub fn read(bytes: &[u8], at: usize) -> Option<CodeDirectory>
        ensures { result ≡ read_of code_directory bytes.now at }
    {
        if bytes.len() < Self::SIZE || bytes.len() - Self::SIZE < at {
            return None;
        }
        Some(CodeDirectory {
            magic: big_at(bytes, at, 0),
            length: big_at(bytes, at, 4),
            version: big_at(bytes, at, 8),
            flags: big_at(bytes, at, 12),
            hash_offset: big_at(bytes, at, 16),
            ident_offset: big_at(bytes, at, 20),
            special_slots: big_at(bytes, at, 24),
            code_slots: big_at(bytes, at, 28),
            code_limit: big_at(bytes, at, 32),
            hash_size: big_at(bytes, at, 36),
            hash_type: big_at(bytes, at, 37),
            platform: big_at(bytes, at, 38),
            page_exponent: big_at(bytes, at, 39),
            spare: big_at(bytes, at, 40),
            scatter_offset: big_at(bytes, at, 44),
            team_offset: big_at(bytes, at, 48),
            spare2: big_at(bytes, at, 52),
            code_limit64: big_at(bytes, at, 56),
            exec_base: big_at(bytes, at, 64),
            exec_limit: big_at(bytes, at, 72),
            exec_flags: big_at(bytes, at, 80),
        })
    }

    /// Writes the record at a place; the other bytes stay.
    #[tactic(auto, using(macho_bytes::proofs::Layouts::big_record))]
    pub fn write(&self, out: &mut [u8], at: usize)
        requires { at + size_of code_directory ≤ length out.old }
        ensures written { out.new ≡ put at (spelling code_directory_rows self.now) out.old }
        ensures back { ReadsBack code_directory_rows self.now }
    {
        let r = *self;
        put_bigs(
            out,
            at,
            &[
                r.magic,
                r.length,
                r.version,
                r.flags,
                r.hash_offset,
                r.ident_offset,
                r.special_slots,
                r.code_slots,
                r.code_limit,
            ],
        );
        put_bigs(
            out,
            at + 36,
            &[r.hash_size, r.hash_type, r.platform, r.page_exponent],
        );
        put_bigs(
            out,
            at + 40,
            &[r.spare, r.scatter_offset, r.team_offset, r.spare2],
        );
        self.write_wide(out, at + 56);
    }

    // Writes the fields of 64 bits, which later versions of the format added, at a place.
    fn write_wide(&self, out: &mut [u8], at: usize)
        requires { at + 32 ≤ length out.old }
        ensures written { let r = self.now in
            out.new ≡ put at (row_bytes big 8 (r.code_limit64 ∷ r.exec_base ∷ r.exec_limit ∷ r.exec_flags ∷ [])) out.old }
        ensures fits { let r = self.now in
            AllBelow 8 (r.code_limit64 ∷ r.exec_base ∷ r.exec_limit ∷ r.exec_flags ∷ []) }
    {
        put_bigs(
            out,
            at,
            &[
                self.code_limit64,
                self.exec_base,
                self.exec_limit,
                self.exec_flags,
            ],
        );
    }
}
