//! The load commands but those of segments and symbols.
//!
//! A command is its record, then what it needs, filled with zeros to a multiple of 8 (`mach-o/loader.h`):
//!
//!     0e 00 00 00 20 00 00 00 0c 00 00 00   DylinkerCommand: 32 bytes, the path at 12
//!     "/usr/lib/dyld" and zeros
ghost use Rattle.std.specs.Prelude.{◌≡◌, ◌+◌, ◌≤◌, length};
ghost use Rattle.macho_bytes.specs.Texts.{put};
ghost use Rattle.macho_bytes.specs.Layouts.{read_of, size_of};
ghost use Rattle.macho_wire.specs.Layouts.{entry_point_command, dylinker_command, dylib_command, rpath_command, linkedit_data_command, uuid_command, build_version_command, build_tool_version};
ghost use Rattle.macho_bytes.specs.Spellings.{spelling, ReadsBack};
ghost use Rattle.macho_wire.specs.Spellings.{entry_point_command_rows, dylinker_command_rows, dylib_command_rows, rpath_command_rows, linkedit_data_command_rows, uuid_command_rows, build_version_command_rows, build_tool_version_rows};

use crate::rows::{little_at, put_littles};
use crate::texts::{put_text, text_at};

/// `struct entry_point_command` of mach-o/loader.h, `LC_MAIN`: where an executable begins.
#[derive(Clone, Copy)]
pub struct EntryPointCommand {
    /// The number of the command.
    pub cmd: u32,
    /// The bytes of the command, this record and what follows it.
    pub cmdsize: u32,
    /// The file offset of the first instruction.
    pub entryoff: u64,
    /// The bytes of the stack, 0 for the default.
    pub stacksize: u64,
}

impl EntryPointCommand {
    /// The bytes of the record.
    pub const SIZE: usize = 24;

    /// The record at a place of the bytes, None where it does not stand there whole.
    #[tactic(auto, unfolding(macho_bytes::specs::Layouts::reading))]
    pub fn read(bytes: &[u8], at: usize) -> Option<EntryPointCommand>
        ensures { result ≡ read_of entry_point_command bytes.now at }
    {
        if bytes.len() < Self::SIZE || bytes.len() - Self::SIZE < at {
            return None;
        }
        Some(EntryPointCommand {
            cmd: little_at(bytes, at, 0),
            cmdsize: little_at(bytes, at, 4),
            entryoff: little_at(bytes, at, 8),
            stacksize: little_at(bytes, at, 16),
        })
    }

    /// Writes the record at a place; the other bytes stay.
    #[tactic(auto, using(macho_bytes::proofs::Layouts::little_record))]
    pub fn write(&self, out: &mut [u8], at: usize)
        requires { at + size_of entry_point_command ≤ length out.old }
        ensures written { out.new ≡ put at (spelling entry_point_command_rows self.now) out.old }
        ensures back { ReadsBack entry_point_command_rows self.now }
    {
        let r = *self;
        put_littles(out, at, &[r.cmd, r.cmdsize]);
        put_littles(out, at + 8, &[r.entryoff, r.stacksize]);
    }
}

/// `struct dylinker_command` of mach-o/loader.h: the dynamic linker; its path follows.
#[derive(Clone, Copy)]
pub struct DylinkerCommand {
    /// The number of the command.
    pub cmd: u32,
    /// The bytes of the command, this record and what follows it.
    pub cmdsize: u32,
    /// The place of the path, from the start of the command.
    pub name_offset: u32,
}

impl DylinkerCommand {
    /// The bytes of the record.
    pub const SIZE: usize = 12;

    /// The record at a place of the bytes, None where it does not stand there whole.
    #[tactic(auto, unfolding(macho_bytes::specs::Layouts::reading))]
    pub fn read(bytes: &[u8], at: usize) -> Option<DylinkerCommand>
        ensures { result ≡ read_of dylinker_command bytes.now at }
    {
        if bytes.len() < Self::SIZE || bytes.len() - Self::SIZE < at {
            return None;
        }
        Some(DylinkerCommand {
            cmd: little_at(bytes, at, 0),
            cmdsize: little_at(bytes, at, 4),
            name_offset: little_at(bytes, at, 8),
        })
    }

    /// Writes the record at a place; the other bytes stay.
    #[tactic(auto, using(macho_bytes::proofs::Layouts::little_record))]
    pub fn write(&self, out: &mut [u8], at: usize)
        requires { at + size_of dylinker_command ≤ length out.old }
        ensures written { out.new ≡ put at (spelling dylinker_command_rows self.now) out.old }
        ensures back { ReadsBack dylinker_command_rows self.now }
    {
        let r = *self;
        put_littles(out, at, &[r.cmd, r.cmdsize, r.name_offset]);
    }
}

/// `struct dylib_command` of mach-o/loader.h: a dynamic library, needed or made; its path follows.
#[derive(Clone, Copy)]
pub struct DylibCommand {
    /// The number of the command.
    pub cmd: u32,
    /// The bytes of the command, this record and what follows it.
    pub cmdsize: u32,
    /// The place of the path, from the start of the command.
    pub name_offset: u32,
    /// A time stamp; linkers write 1 or 2.
    pub timestamp: u32,
    /// The version, as 16, 8 and 8 bits.
    pub current_version: u32,
    /// The oldest version that it stands for.
    pub compatibility_version: u32,
}

impl DylibCommand {
    /// The bytes of the record.
    pub const SIZE: usize = 24;

    /// The record at a place of the bytes, None where it does not stand there whole.
    #[tactic(auto, unfolding(macho_bytes::specs::Layouts::reading))]
    pub fn read(bytes: &[u8], at: usize) -> Option<DylibCommand>
        ensures { result ≡ read_of dylib_command bytes.now at }
    {
        if bytes.len() < Self::SIZE || bytes.len() - Self::SIZE < at {
            return None;
        }
        Some(DylibCommand {
            cmd: little_at(bytes, at, 0),
            cmdsize: little_at(bytes, at, 4),
            name_offset: little_at(bytes, at, 8),
            timestamp: little_at(bytes, at, 12),
            current_version: little_at(bytes, at, 16),
            compatibility_version: little_at(bytes, at, 20),
        })
    }

    /// Writes the record at a place; the other bytes stay.
    #[tactic(auto, using(macho_bytes::proofs::Layouts::little_record))]
    pub fn write(&self, out: &mut [u8], at: usize)
        requires { at + size_of dylib_command ≤ length out.old }
        ensures written { out.new ≡ put at (spelling dylib_command_rows self.now) out.old }
        ensures back { ReadsBack dylib_command_rows self.now }
    {
        let r = *self;
        put_littles(
            out,
            at,
            &[
                r.cmd,
                r.cmdsize,
                r.name_offset,
                r.timestamp,
                r.current_version,
                r.compatibility_version,
            ],
        );
    }
}

/// `struct rpath_command` of mach-o/loader.h: a path to search `@rpath` in; it follows.
#[derive(Clone, Copy)]
pub struct RpathCommand {
    /// The number of the command.
    pub cmd: u32,
    /// The bytes of the command, this record and what follows it.
    pub cmdsize: u32,
    /// The place of the path, from the start of the command.
    pub name_offset: u32,
}

impl RpathCommand {
    /// The bytes of the record.
    pub const SIZE: usize = 12;

    /// The record at a place of the bytes, None where it does not stand there whole.
    #[tactic(auto, unfolding(macho_bytes::specs::Layouts::reading))]
    pub fn read(bytes: &[u8], at: usize) -> Option<RpathCommand>
        ensures { result ≡ read_of rpath_command bytes.now at }
    {
        if bytes.len() < Self::SIZE || bytes.len() - Self::SIZE < at {
            return None;
        }
        Some(RpathCommand {
            cmd: little_at(bytes, at, 0),
            cmdsize: little_at(bytes, at, 4),
            name_offset: little_at(bytes, at, 8),
        })
    }

    /// Writes the record at a place; the other bytes stay.
    #[tactic(auto, using(macho_bytes::proofs::Layouts::little_record))]
    pub fn write(&self, out: &mut [u8], at: usize)
        requires { at + size_of rpath_command ≤ length out.old }
        ensures written { out.new ≡ put at (spelling rpath_command_rows self.now) out.old }
        ensures back { ReadsBack rpath_command_rows self.now }
    {
        let r = *self;
        put_littles(out, at, &[r.cmd, r.cmdsize, r.name_offset]);
    }
}

/// `struct linkedit_data_command` of mach-o/loader.h: a range of `__LINKEDIT`.
#[derive(Clone, Copy)]
pub struct LinkeditDataCommand {
    /// The number of the command.
    pub cmd: u32,
    /// The bytes of the command, this record and what follows it.
    pub cmdsize: u32,
    /// The file offset of the range.
    pub dataoff: u32,
    /// Its bytes.
    pub datasize: u32,
}

impl LinkeditDataCommand {
    /// The bytes of the record.
    pub const SIZE: usize = 16;

    /// The record at a place of the bytes, None where it does not stand there whole.
    #[tactic(auto, unfolding(macho_bytes::specs::Layouts::reading))]
    pub fn read(bytes: &[u8], at: usize) -> Option<LinkeditDataCommand>
        ensures { result ≡ read_of linkedit_data_command bytes.now at }
    {
        if bytes.len() < Self::SIZE || bytes.len() - Self::SIZE < at {
            return None;
        }
        Some(LinkeditDataCommand {
            cmd: little_at(bytes, at, 0),
            cmdsize: little_at(bytes, at, 4),
            dataoff: little_at(bytes, at, 8),
            datasize: little_at(bytes, at, 12),
        })
    }

    /// Writes the record at a place; the other bytes stay.
    #[tactic(auto, using(macho_bytes::proofs::Layouts::little_record))]
    pub fn write(&self, out: &mut [u8], at: usize)
        requires { at + size_of linkedit_data_command ≤ length out.old }
        ensures written { out.new ≡ put at (spelling linkedit_data_command_rows self.now) out.old }
        ensures back { ReadsBack linkedit_data_command_rows self.now }
    {
        let r = *self;
        put_littles(out, at, &[r.cmd, r.cmdsize, r.dataoff, r.datasize]);
    }
}

/// `struct uuid_command` of mach-o/loader.h: the name of this build.
#[derive(Clone, Copy)]
pub struct UuidCommand {
    /// The number of the command.
    pub cmd: u32,
    /// The bytes of the command, this record and what follows it.
    pub cmdsize: u32,
    /// The 16 bytes of the UUID.
    pub uuid: [u8; 16],
}

impl UuidCommand {
    /// The bytes of the record.
    pub const SIZE: usize = 24;

    /// The record at a place of the bytes, None where it does not stand there whole.
    #[tactic(auto, unfolding(macho_bytes::specs::Layouts::reading))]
    pub fn read(bytes: &[u8], at: usize) -> Option<UuidCommand>
        ensures { result ≡ read_of uuid_command bytes.now at }
    {
        if bytes.len() < Self::SIZE || bytes.len() - Self::SIZE < at {
            return None;
        }
        Some(UuidCommand {
            cmd: little_at(bytes, at, 0),
            cmdsize: little_at(bytes, at, 4),
            uuid: text_at(bytes, at, 8),
        })
    }

    /// Writes the record at a place; the other bytes stay.
    #[tactic(auto, using(macho_bytes::proofs::Layouts::little_record))]
    pub fn write(&self, out: &mut [u8], at: usize)
        requires { at + size_of uuid_command ≤ length out.old }
        ensures written { out.new ≡ put at (spelling uuid_command_rows self.now) out.old }
        ensures back { ReadsBack uuid_command_rows self.now }
    {
        let r = *self;
        put_littles(out, at, &[r.cmd, r.cmdsize]);
        put_text(out, at + 8, &r.uuid);
    }
}

/// `struct build_version_command` of mach-o/loader.h: what the file was built for; the tools follow.
#[derive(Clone, Copy)]
pub struct BuildVersionCommand {
    /// The number of the command.
    pub cmd: u32,
    /// The bytes of the command, this record and what follows it.
    pub cmdsize: u32,
    /// `PLATFORM_MACOS` is 1.
    pub platform: u32,
    /// The least version, as 16, 8 and 8 bits.
    pub minos: u32,
    /// The version of the SDK.
    pub sdk: u32,
    /// How many tools follow.
    pub ntools: u32,
}

impl BuildVersionCommand {
    /// The bytes of the record.
    pub const SIZE: usize = 24;

    /// The record at a place of the bytes, None where it does not stand there whole.
    #[tactic(auto, unfolding(macho_bytes::specs::Layouts::reading))]
    pub fn read(bytes: &[u8], at: usize) -> Option<BuildVersionCommand>
        ensures { result ≡ read_of build_version_command bytes.now at }
    {
        if bytes.len() < Self::SIZE || bytes.len() - Self::SIZE < at {
            return None;
        }
        Some(BuildVersionCommand {
            cmd: little_at(bytes, at, 0),
            cmdsize: little_at(bytes, at, 4),
            platform: little_at(bytes, at, 8),
            minos: little_at(bytes, at, 12),
            sdk: little_at(bytes, at, 16),
            ntools: little_at(bytes, at, 20),
        })
    }

    /// Writes the record at a place; the other bytes stay.
    #[tactic(auto, using(macho_bytes::proofs::Layouts::little_record))]
    pub fn write(&self, out: &mut [u8], at: usize)
        requires { at + size_of build_version_command ≤ length out.old }
        ensures written { out.new ≡ put at (spelling build_version_command_rows self.now) out.old }
        ensures back { ReadsBack build_version_command_rows self.now }
    {
        let r = *self;
        put_littles(
            out,
            at,
            &[r.cmd, r.cmdsize, r.platform, r.minos, r.sdk, r.ntools],
        );
    }
}

/// `struct build_tool_version` of mach-o/loader.h: a tool that built the file.
#[derive(Clone, Copy)]
pub struct BuildToolVersion {
    /// The number of the tool.
    pub tool: u32,
    /// Its version, as 16, 8 and 8 bits.
    pub version: u32,
}

impl BuildToolVersion {
    /// The bytes of the record.
    pub const SIZE: usize = 8;

    /// The record at a place of the bytes, None where it does not stand there whole.
    #[tactic(auto, unfolding(macho_bytes::specs::Layouts::reading))]
    pub fn read(bytes: &[u8], at: usize) -> Option<BuildToolVersion>
        ensures { result ≡ read_of build_tool_version bytes.now at }
    {
        if bytes.len() < Self::SIZE || bytes.len() - Self::SIZE < at {
            return None;
        }
        Some(BuildToolVersion {
            tool: little_at(bytes, at, 0),
            version: little_at(bytes, at, 4),
        })
    }

    /// Writes the record at a place; the other bytes stay.
    #[tactic(auto, using(macho_bytes::proofs::Layouts::little_record))]
    pub fn write(&self, out: &mut [u8], at: usize)
        requires { at + size_of build_tool_version ≤ length out.old }
        ensures written { out.new ≡ put at (spelling build_tool_version_rows self.now) out.old }
        ensures back { ReadsBack build_tool_version_rows self.now }
    {
        let r = *self;
        put_littles(out, at, &[r.tool, r.version]);
    }
}
