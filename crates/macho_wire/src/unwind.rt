//! The entries of compact unwind information in objects.
//!
//! Each function has an entry of 32 bytes (`mach-o/compact_unwind_encoding.h`): its start and its personality and
//! language data are filled in by relocations at 0, 16 and 24.
ghost use Rattle.std.specs.Prelude.{◌≡◌, ◌+◌, ◌≤◌, length};
ghost use Rattle.macho_bytes.specs.Texts.{put};
ghost use Rattle.macho_bytes.specs.Layouts.{read_of, size_of};
ghost use Rattle.macho_wire.specs.Layouts.{unwind_info_entry};
ghost use Rattle.macho_bytes.specs.Spellings.{spelling, ReadsBack};
ghost use Rattle.macho_wire.specs.Spellings.{unwind_info_entry_rows};

use crate::rows::{little_at, put_littles};

/// An entry of `__LD,__compact_unwind`, mach-o/compact_unwind_encoding.h: how a function is unwound, as compilers write it.
#[derive(Clone, Copy)]
pub struct UnwindInfoEntry {
    /// The address of the function.
    pub start: u64,
    /// Its bytes.
    pub length: u32,
    /// How its frame is unwound.
    pub encoding: u32,
    /// The address of its personality function, 0 for none.
    pub personality: u64,
    /// The address of its language data, 0 for none.
    pub lsda: u64,
}

impl UnwindInfoEntry {
    /// The bytes of the record.
    pub const SIZE: usize = 32;

    /// The record at a place of the bytes, None where it does not stand there whole.
    #[tactic(auto, unfolding(macho_bytes::specs::Layouts::reading))]
    pub fn read(bytes: &[u8], at: usize) -> Option<UnwindInfoEntry>
        ensures { result ≡ read_of unwind_info_entry bytes.now at }
    {
        if bytes.len() < Self::SIZE || bytes.len() - Self::SIZE < at {
            return None;
        }
        Some(UnwindInfoEntry {
            start: little_at(bytes, at, 0),
            length: little_at(bytes, at, 8),
            encoding: little_at(bytes, at, 12),
            personality: little_at(bytes, at, 16),
            lsda: little_at(bytes, at, 24),
        })
    }

    /// Writes the record at a place; the other bytes stay.
    #[tactic(auto, using(macho_bytes::proofs::Layouts::little_record))]
    pub fn write(&self, out: &mut [u8], at: usize)
        requires { at + size_of unwind_info_entry ≤ length out.old }
        ensures written { out.new ≡ put at (spelling unwind_info_entry_rows self.now) out.old }
        ensures back { ReadsBack unwind_info_entry_rows self.now }
    {
        let r = *self;
        put_littles(out, at, &[r.start]);
        put_littles(out, at + 8, &[r.length, r.encoding]);
        put_littles(out, at + 16, &[r.personality, r.lsda]);
    }
}
