//! Commands that are records of a fixed size: entry, UUID, build version.
ghost use Rattle.std.specs.Prelude.{◌≡◌, ◌+◌, ◌≤◌, length};
ghost use Rattle.macho_bytes.specs.Texts.{put};
ghost use Rattle.macho_commands.specs.Texts.{text_said};
ghost use Rattle.macho_commands.specs.Commands.{entry_point_said, uuid_said, versions_said};
ghost use Rattle.macho_commands.specs.Reading.{IsReadable};

use macho_records::{
    BuildToolVersion, BuildVersionCommand, EntryPointCommand, LC_BUILD_VERSION, LC_MAIN, LC_UUID,
    UuidCommand,
};

/// `PLATFORM_MACOS`.
const PLATFORM_MACOS: u32 = 1;
/// The number of this linker as a tool: the bytes `wild`.
const THIS_TOOL: u32 = 0x646c_6977;
/// Its version, 0.11.0, as 16, 8 and 8 bits.
const THIS_VERSION: u32 = 0x0000_0b00;

/// Writes the entry of an executable at a place, with the default stack.
#[tactic(auto, using(crate::proofs::Readable::entry_point_readable), unfolding(crate::specs::Texts::text_said))]
pub(crate) fn write_entry_point(offset: u64, out: &mut [u8], at: usize)
    requires { at + 24 ≤ length out.old }
    ensures written { out.new ≡ put at (text_said (entry_point_said offset)) out.old }
    ensures long { length (text_said (entry_point_said offset)) ≡ 24 }
    ensures readable { IsReadable (entry_point_said offset) }
{
    let record = EntryPointCommand {
        cmd: LC_MAIN,
        cmdsize: EntryPointCommand::SIZE as u32,
        entryoff: offset,
        stacksize: 0,
    };
    record.write(out, at);
}

/// Writes the UUID at a place.
#[tactic(auto, using(crate::proofs::Readable::uuid_readable), unfolding(crate::specs::Texts::text_said))]
pub(crate) fn write_uuid(uuid: [u8; 16], out: &mut [u8], at: usize)
    requires { at + 24 ≤ length out.old }
    ensures written { out.new ≡ put at (text_said (uuid_said uuid)) out.old }
    ensures long { length (text_said (uuid_said uuid)) ≡ 24 }
    ensures readable { IsReadable (uuid_said uuid) }
{
    let record = UuidCommand {
        cmd: LC_UUID,
        cmdsize: UuidCommand::SIZE as u32,
        uuid,
    };
    record.write(out, at);
}

/// Writes the versions at a place, with this linker as the one tool.
#[tactic(auto, using(crate::proofs::Readable::build_version_readable), unfolding(crate::specs::Texts::text_said))]
pub(crate) fn write_build_version(minimum: u32, sdk: u32, out: &mut [u8], at: usize)
    requires { at + 32 ≤ length out.old }
    ensures written { out.new ≡ put at (text_said (versions_said minimum sdk)) out.old }
    ensures long { length (text_said (versions_said minimum sdk)) ≡ 32 }
    ensures readable { IsReadable (versions_said minimum sdk) }
{
    let record = BuildVersionCommand {
        cmd: LC_BUILD_VERSION,
        cmdsize: (BuildVersionCommand::SIZE + BuildToolVersion::SIZE) as u32,
        platform: PLATFORM_MACOS,
        minos: minimum,
        sdk,
        ntools: 1,
    };
    let tool = BuildToolVersion {
        tool: THIS_TOOL,
        version: THIS_VERSION,
    };
    record.write(out, at);
    tool.write(out, at + BuildVersionCommand::SIZE);
}
