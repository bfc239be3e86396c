//! The header of a Mach-O file, its segments and sections.
//!
//! A file begins so, here with one section of one segment (`mach-o/loader.h`):
//!
//!     0   MachHeader       cf fa ed fe 0c 00 00 01 ..     32 bytes
//!     32  SegmentCommand   19 00 00 00 98 00 00 00 ..     72 bytes, cmdsize 72 + 80 for each section
//!     104 SectionHeader    5f 5f 74 65 78 74 00 ..        80 bytes, `__text` of `__TEXT`
ghost use Rattle.std.specs.Prelude.{◌≡◌, ◌+◌, ◌≤◌, length};
ghost use Rattle.macho_bytes.specs.Texts.{put};
ghost use Rattle.macho_bytes.specs.Layouts.{read_of, size_of};
ghost use Rattle.macho_records.specs.Layouts.{mach_header, load_command, segment_command, section_header};
ghost use Rattle.macho_bytes.specs.Spellings.{spelling, ReadsBack};
ghost use Rattle.macho_records.specs.Spellings.{mach_header_rows, load_command_rows, segment_command_rows, section_header_rows};

use macho_wire::{little_at, put_littles, put_text, text_at};

/// `struct mach_header_64` of mach-o/loader.h: the head of every 64-bit Mach-O file.
#[derive(Clone, Copy)]
pub struct MachHeader {
    /// `MH_MAGIC_64`.
    pub magic: u32,
    /// `CPU_TYPE_ARM64` for the files of this linker.
    pub cputype: u32,
    /// The kind of processor, 0 for all of them.
    pub cpusubtype: u32,
    /// `MH_OBJECT`, `MH_EXECUTE` or `MH_DYLIB`.
    pub filetype: u32,
    /// How many load commands follow.
    pub ncmds: u32,
    /// Their bytes, all together.
    pub sizeofcmds: u32,
    /// The `MH_` flags.
    pub flags: u32,
    /// 0.
    pub reserved: u32,
}

impl MachHeader {
    /// The bytes of the record.
    pub const SIZE: usize = 32;

    /// The record at a place of the bytes, None where it does not stand there whole.
    #[tactic(auto, unfolding(macho_bytes::specs::Layouts::reading))]
    pub fn read(bytes: &[u8], at: usize) -> Option<MachHeader>
        ensures { result ≡ read_of mach_header bytes.now at }
    {
        if bytes.len() < Self::SIZE || bytes.len() - Self::SIZE < at {
            return None;
        }
        Some(MachHeader {
            magic: little_at(bytes, at, 0),
            cputype: little_at(bytes, at, 4),
            cpusubtype: little_at(bytes, at, 8),
            filetype: little_at(bytes, at, 12),
            ncmds: little_at(bytes, at, 16),
            sizeofcmds: little_at(bytes, at, 20),
            flags: little_at(bytes, at, 24),
            reserved: little_at(bytes, at, 28),
        })
    }

    /// Writes the record at a place; the other bytes stay.
    #[tactic(auto, using(macho_bytes::proofs::Layouts::little_record))]
    pub fn write(&self, out: &mut [u8], at: usize)
        requires { at + size_of mach_header ≤ length out.old }
        ensures written { out.new ≡ put at (spelling mach_header_rows self.now) out.old }
        ensures back { ReadsBack mach_header_rows self.now }
    {
        let r = *self;
        put_littles(
            out,
            at,
            &[
                r.magic,
                r.cputype,
                r.cpusubtype,
                r.filetype,
                r.ncmds,
                r.sizeofcmds,
                r.flags,
                r.reserved,
            ],
        );
    }
}

/// `struct load_command` of mach-o/loader.h: what each load command begins with.
#[derive(Clone, Copy)]
pub struct LoadCommand {
    /// The number of the command.
    pub cmd: u32,
    /// The bytes of the command, this record and what follows it.
    pub cmdsize: u32,
}

impl LoadCommand {
    /// The bytes of the record.
    pub const SIZE: usize = 8;

    /// The record at a place of the bytes, None where it does not stand there whole.
    #[tactic(auto, unfolding(macho_bytes::specs::Layouts::reading))]
    pub fn read(bytes: &[u8], at: usize) -> Option<LoadCommand>
        ensures { result ≡ read_of load_command bytes.now at }
    {
        if bytes.len() < Self::SIZE || bytes.len() - Self::SIZE < at {
            return None;
        }
        Some(LoadCommand {
            cmd: little_at(bytes, at, 0),
            cmdsize: little_at(bytes, at, 4),
        })
    }

    /// Writes the record at a place; the other bytes stay.
    #[tactic(auto, using(macho_bytes::proofs::Layouts::little_record))]
    pub fn write(&self, out: &mut [u8], at: usize)
        requires { at + size_of load_command ≤ length out.old }
        ensures written { out.new ≡ put at (spelling load_command_rows self.now) out.old }
        ensures back { ReadsBack load_command_rows self.now }
    {
        let r = *self;
        put_littles(out, at, &[r.cmd, r.cmdsize]);
    }
}

/// `struct segment_command_64` of mach-o/loader.h: a segment; its section headers follow.
#[derive(Clone, Copy)]
pub struct SegmentCommand {
    /// The number of the command.
    pub cmd: u32,
    /// The bytes of the command, this record and what follows it.
    pub cmdsize: u32,
    /// The name, filled with zeros.
    pub segname: [u8; 16],
    /// The address of its first byte.
    pub vmaddr: u64,
    /// Its bytes in memory.
    pub vmsize: u64,
    /// The file offset of its first byte.
    pub fileoff: u64,
    /// Its bytes in the file.
    pub filesize: u64,
    /// The greatest protection: 1 read, 2 write, 4 execute.
    pub maxprot: u32,
    /// The protection at the start.
    pub initprot: u32,
    /// How many section headers follow.
    pub nsects: u32,
    /// The `SG_` flags.
    pub flags: u32,
}

impl SegmentCommand {
    /// The bytes of the record.
    pub const SIZE: usize = 72;

    /// The record at a place of the bytes, None where it does not stand there whole.
    #[tactic(auto, unfolding(macho_bytes::specs::Layouts::reading))]
    pub fn read(bytes: &[u8], at: usize) -> Option<SegmentCommand>
        ensures { result ≡ read_of segment_command bytes.now at }
    {
        if bytes.len() < Self::SIZE || bytes.len() - Self::SIZE < at {
            return None;
        }
        Some(SegmentCommand {
            cmd: little_at(bytes, at, 0),
            cmdsize: little_at(bytes, at, 4),
            segname: text_at(bytes, at, 8),
            vmaddr: little_at(bytes, at, 24),
            vmsize: little_at(bytes, at, 32),
            fileoff: little_at(bytes, at, 40),
            filesize: little_at(bytes, at, 48),
            maxprot: little_at(bytes, at, 56),
            initprot: little_at(bytes, at, 60),
            nsects: little_at(bytes, at, 64),
            flags: little_at(bytes, at, 68),
        })
    }

    /// Writes the record at a place; the other bytes stay.
    #[tactic(auto, using(macho_bytes::proofs::Layouts::little_record))]
    pub fn write(&self, out: &mut [u8], at: usize)
        requires { at + size_of segment_command ≤ length out.old }
        ensures written { out.new ≡ put at (spelling segment_command_rows self.now) out.old }
        ensures back { ReadsBack segment_command_rows self.now }
    {
        let r = *self;
        put_littles(out, at, &[r.cmd, r.cmdsize]);
        put_text(out, at + 8, &r.segname);
        put_littles(out, at + 24, &[r.vmaddr, r.vmsize, r.fileoff, r.filesize]);
        put_littles(out, at + 56, &[r.maxprot, r.initprot, r.nsects, r.flags]);
    }
}

/// `struct section_64` of mach-o/loader.h: a section of a segment.
#[derive(Clone, Copy)]
pub struct SectionHeader {
    /// The name, filled with zeros.
    pub sectname: [u8; 16],
    /// The name of its segment, filled with zeros.
    pub segname: [u8; 16],
    /// The address of its first byte.
    pub addr: u64,
    /// Its bytes.
    pub size: u64,
    /// The file offset of its data, 0 for zerofill.
    pub offset: u32,
    /// Its alignment, as an exponent of 2.
    pub align: u32,
    /// The file offset of its relocations.
    pub reloff: u32,
    /// How many relocations it has.
    pub nreloc: u32,
    /// Its type in the low byte, attributes above.
    pub flags: u32,
    /// By type: the index of its first indirect symbol.
    pub reserved1: u32,
    /// By type: the bytes of a stub.
    pub reserved2: u32,
    /// 0.
    pub reserved3: u32,
}

impl SectionHeader {
    /// The bytes of the record.
    pub const SIZE: usize = 80;

    /// The record at a place of the bytes, None where it does not stand there whole.
    #[tactic(auto, unfolding(macho_bytes::specs::Layouts::reading))]
    pub fn read(bytes: &[u8], at: usize) -> Option<SectionHeader>
        ensures { result ≡ read_of section_header bytes.now at }
    {
        if bytes.len() < Self::SIZE || bytes.len() - Self::SIZE < at {
            return None;
        }
        Some(SectionHeader {
            sectname: text_at(bytes, at, 0),
            segname: text_at(bytes, at, 16),
            addr: little_at(bytes, at, 32),
            size: little_at(bytes, at, 40),
            offset: little_at(bytes, at, 48),
            align: little_at(bytes, at, 52),
            reloff: little_at(bytes, at, 56),
            nreloc: little_at(bytes, at, 60),
            flags: little_at(bytes, at, 64),
            reserved1: little_at(bytes, at, 68),
            reserved2: little_at(bytes, at, 72),
            reserved3: little_at(bytes, at, 76),
        })
    }

    /// Writes the record at a place; the other bytes stay.
    #[tactic(auto, using(macho_bytes::proofs::Layouts::little_record))]
    pub fn write(&self, out: &mut [u8], at: usize)
        requires { at + size_of section_header ≤ length out.old }
        ensures written { out.new ≡ put at (spelling section_header_rows self.now) out.old }
        ensures back { ReadsBack section_header_rows self.now }
    {
        let r = *self;
        put_text(out, at, &r.sectname);
        put_text(out, at + 16, &r.segname);
        put_littles(out, at + 32, &[r.addr, r.size]);
        put_littles(
            out,
            at + 48,
            &[
                r.offset,
                r.align,
                r.reloff,
                r.nreloc,
                r.flags,
                r.reserved1,
                r.reserved2,
                r.reserved3,
            ],
        );
    }
}
