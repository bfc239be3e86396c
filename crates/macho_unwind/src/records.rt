//! The records of the section `__unwind_info` (`mach-o/compact_unwind_encoding.h`).
ghost use Rattle.std.specs.Prelude.{◌≡◌, ◌+◌, ◌≤◌, length};
ghost use Rattle.macho_bytes.specs.Texts.{put};
ghost use Rattle.macho_bytes.specs.Layouts.{read_of, size_of};
ghost use Rattle.macho_unwind.specs.Layouts.{compact_unwind_info_header, page_entry, compressed_page, lsda_entry};
ghost use Rattle.macho_bytes.specs.Spellings.{spelling, ReadsBack};
ghost use Rattle.macho_unwind.specs.Spellings.{compact_unwind_info_header_rows, page_entry_rows, compressed_page_rows, lsda_entry_rows};

use macho_wire::{little_at, put_littles};

/// The name of the section that an image has.
pub const UNWIND_INFO_SECTION_NAME: &str = "__unwind_info";
/// The name of the section of `__LD` that an object has.
pub const COMPACT_UNWIND_SECTION_NAME: &str = "__compact_unwind";

/// `struct unwind_info_section_header`: where the section's tables are. Offsets count from the section's start.
#[derive(Clone, Copy)]
pub struct CompactUnwindInfoHeader {
    /// `UNWIND_SECTION_VERSION`, 1.
    pub version: u32,
    /// The place of the encodings that all pages share.
    pub global_opcodes_offset: u32,
    /// How many these are.
    pub global_opcodes_len: u32,
    /// The place of the personalities, each 4 bytes.
    pub personalities_offset: u32,
    /// How many these are.
    pub personalities_len: u32,
    /// The place of the page entries.
    pub pages_offset: u32,
    /// How many these are, with the last one, which has no page.
    pub pages_len: u32,
}

impl CompactUnwindInfoHeader {
    /// The bytes of the record.
    pub const SIZE: usize = 28;

    /// The record at a place of the bytes, None where it does not stand there whole.
    #[tactic(auto, unfolding(macho_bytes::specs::Layouts::reading))]
    pub fn read(bytes: &[u8], at: usize) -> Option<CompactUnwindInfoHeader>
        ensures { result ≡ read_of compact_unwind_info_header bytes.now at }
    {
        if bytes.len() < Self::SIZE || bytes.len() - Self::SIZE < at {
            return None;
        }
        Some(CompactUnwindInfoHeader {
            version: little_at(bytes, at, 0),
            global_opcodes_offset: little_at(bytes, at, 4),
            global_opcodes_len: little_at(bytes, at, 8),
            personalities_offset: little_at(bytes, at, 12),
            personalities_len: little_at(bytes, at, 16),
            pages_offset: little_at(bytes, at, 20),
            pages_len: little_at(bytes, at, 24),
        })
    }

    /// Writes the record at a place; the other bytes stay.
    #[tactic(auto, using(macho_bytes::proofs::Layouts::little_record))]
    pub fn write(&self, out: &mut [u8], at: usize)
        requires { at + size_of compact_unwind_info_header ≤ length out.old }
        ensures written { out.new ≡ put at (spelling compact_unwind_info_header_rows self.now) out.old }
        ensures back { ReadsBack compact_unwind_info_header_rows self.now }
    {
        let r = *self;
        put_littles(
            out,
            at,
            &[
                r.version,
                r.global_opcodes_offset,
                r.global_opcodes_len,
                r.personalities_offset,
                r.personalities_len,
                r.pages_offset,
                r.pages_len,
            ],
        );
    }
}

/// `struct unwind_info_section_header_index_entry`: a page of functions.
#[derive(Clone, Copy)]
pub struct PageEntry {
    /// The start of the page's first function, from the image's base; in the last entry the end of the last function.
    pub first_address: u32,
    /// The place of the page; 0 in the last entry.
    pub page_offset: u32,
    /// The place of the first LSDA entry of the page's functions; in the last entry the end of these entries.
    pub lsda_index_offset: u32,
}

impl PageEntry {
    /// The bytes of the record.
    pub const SIZE: usize = 12;

    /// The record at a place of the bytes, None where it does not stand there whole.
    #[tactic(auto, unfolding(macho_bytes::specs::Layouts::reading))]
    pub fn read(bytes: &[u8], at: usize) -> Option<PageEntry>
        ensures { result ≡ read_of page_entry bytes.now at }
    {
        if bytes.len() < Self::SIZE || bytes.len() - Self::SIZE < at {
            return None;
        }
        Some(PageEntry {
            first_address: little_at(bytes, at, 0),
            page_offset: little_at(bytes, at, 4),
            lsda_index_offset: little_at(bytes, at, 8),
        })
    }

    /// Writes the record at a place; the other bytes stay.
    #[tactic(auto, using(macho_bytes::proofs::Layouts::little_record))]
    pub fn write(&self, out: &mut [u8], at: usize)
        requires { at + size_of page_entry ≤ length out.old }
        ensures written { out.new ≡ put at (spelling page_entry_rows self.now) out.old }
        ensures back { ReadsBack page_entry_rows self.now }
    {
        let r = *self;
        put_littles(
            out,
            at,
            &[r.first_address, r.page_offset, r.lsda_index_offset],
        );
    }
}

/// `struct unwind_info_compressed_second_level_page_header`: the head of a page. Offsets count from the page's start.
#[derive(Clone, Copy)]
pub struct CompressedPage {
    /// `UNWIND_SECOND_LEVEL_COMPRESSED`, 3.
    pub kind: u32,
    /// The place of the page's functions, each 4 bytes.
    pub functions_offset: u16,
    /// How many these are.
    pub functions_len: u16,
    /// The place of the encodings of this page alone.
    pub local_opcodes_offset: u16,
    /// How many these are.
    pub local_opcodes_len: u16,
}

impl CompressedPage {
    /// The bytes of the record.
    pub const SIZE: usize = 12;

    /// The record at a place of the bytes, None where it does not stand there whole.
    #[tactic(auto, unfolding(macho_bytes::specs::Layouts::reading))]
    pub fn read(bytes: &[u8], at: usize) -> Option<CompressedPage>
        ensures { result ≡ read_of compressed_page bytes.now at }
    {
        if bytes.len() < Self::SIZE || bytes.len() - Self::SIZE < at {
            return None;
        }
        Some(CompressedPage {
            kind: little_at(bytes, at, 0),
            functions_offset: little_at(bytes, at, 4),
            functions_len: little_at(bytes, at, 6),
            local_opcodes_offset: little_at(bytes, at, 8),
            local_opcodes_len: little_at(bytes, at, 10),
        })
    }

    /// Writes the record at a place; the other bytes stay.
    #[tactic(auto, using(macho_bytes::proofs::Layouts::little_record))]
    pub fn write(&self, out: &mut [u8], at: usize)
        requires { at + size_of compressed_page ≤ length out.old }
        ensures written { out.new ≡ put at (spelling compressed_page_rows self.now) out.old }
        ensures back { ReadsBack compressed_page_rows self.now }
    {
        let r = *self;
        put_littles(out, at, &[r.kind]);
        put_littles(
            out,
            at + 4,
            &[
                r.functions_offset,
                r.functions_len,
                r.local_opcodes_offset,
                r.local_opcodes_len,
            ],
        );
    }
}

/// `struct unwind_info_section_header_lsda_index_entry`: the language data of a function.
#[derive(Clone, Copy)]
pub struct LsdaEntry {
    /// The start of the function, from the image's base.
    pub function_offset: u32,
    /// Its language data, from the image's base.
    pub lsda_offset: u32,
}

impl LsdaEntry {
    /// The bytes of the record.
    pub const SIZE: usize = 8;

    /// The record at a place of the bytes, None where it does not stand there whole.
    #[tactic(auto, unfolding(macho_bytes::specs::Layouts::reading))]
    pub fn read(bytes: &[u8], at: usize) -> Option<LsdaEntry>
        ensures { result ≡ read_of lsda_entry bytes.now at }
    {
        if bytes.len() < Self::SIZE || bytes.len() - Self::SIZE < at {
            return None;
        }
        Some(LsdaEntry {
            function_offset: little_at(bytes, at, 0),
            lsda_offset: little_at(bytes, at, 4),
        })
    }

    /// Writes the record at a place; the other bytes stay.
    #[tactic(auto, using(macho_bytes::proofs::Layouts::little_record))]
    pub fn write(&self, out: &mut [u8], at: usize)
        requires { at + size_of lsda_entry ≤ length out.old }
        ensures written { out.new ≡ put at (spelling lsda_entry_rows self.now) out.old }
        ensures back { ReadsBack lsda_entry_rows self.now }
    {
        let r = *self;
        put_littles(out, at, &[r.function_offset, r.lsda_offset]);
    }
}
