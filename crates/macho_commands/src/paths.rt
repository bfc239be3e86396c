//! Commands with a path behind their record: at least one NUL ends it, and zeros fill the command to a multiple of 8.
ghost use Rattle.std.specs.Prelude.{◌≡◌, ◌+◌, ◌<◌, ◌≤◌, ◌-◌, ◌^◌, ◌++◌, ◌⊎◌, length, replicate};
ghost use Rattle.macho_bytes.specs.Numbers.{rounded_up};
ghost use Rattle.macho_bytes.specs.Texts.{put};
ghost use Rattle.macho_records.specs.declared.constants.TheConstants.{LC_ID_DYLIB, LC_LOAD_DYLIB};
ghost use Rattle.macho_model.specs.HeadCommands.{path_command_size, path_filled, dylinker_for, dylib_for, needed_dylib_for, rpath_for};
ghost use Rattle.macho_commands.specs.Texts.{text_said};
ghost use Rattle.macho_commands.specs.Reading.{IsReadable};

use crate::command::DYLINKER_PATH;
use macho_records::{
    DylibCommand, DylinkerCommand, LC_LOAD_DYLIB, LC_LOAD_DYLINKER, LC_RPATH, RpathCommand,
};

/// The version of a needed library that is written: 1356.0.0, as 16, 8 and 8 bits.
const LIBRARY_VERSION: u32 = 0x054c_0000;
/// The oldest version of a needed library that is written: 1.0.0.
const LIBRARY_COMPATIBILITY: u32 = 0x0001_0000;
/// The time stamp of a needed library that is written.
const LIBRARY_TIME: u32 = 2;

/// The bytes of a command with a path of so many bytes behind a record, which has so many in front of it.
pub fn path_command_size(front: usize, path: usize) -> usize
    requires front { front ≤ 24 }
    requires path { path < 2 ^ 32 }
    ensures { result ≡ rounded_up 8 (front + path + 1) }
{
    (front + path + 1).next_multiple_of(8)
}

/// Writes the path of a command, with zeros to the command's end.
fn put_path(path: &[u8], front: usize, out: &mut [u8], at: usize)
    requires front { front ≤ 24 }
    requires path { length path.now < 2 ^ 32 }
    requires room { at + path_command_size front path.now ≤ length out.old }
    ensures { out.new ≡ put (at + front) (path_filled front path.now) out.old }
{
    let start = at + front;
    let end = start + path.len();
    out[start..end].copy_from_slice(path);
    out[end..at + path_command_size(front, path.len())].fill(0);
}

/// Writes the dynamic linker's command at a place.
pub(crate) fn write_dylinker(out: &mut [u8], at: usize)
    requires { at + 32 ≤ length out.old }
    ensures written { out.new ≡ put at (text_said dylinker_for) out.old }
    ensures long { length (text_said dylinker_for) ≡ 32 }
    ensures readable { IsReadable dylinker_for }
{
    let record = DylinkerCommand {
        cmd: LC_LOAD_DYLINKER,
        cmdsize: path_command_size(DylinkerCommand::SIZE, DYLINKER_PATH.len()) as u32,
        name_offset: DylinkerCommand::SIZE as u32,
    };
    record.write(out, at);
    put_path(&DYLINKER_PATH, DylinkerCommand::SIZE, out, at);
}

/// Writes a library's command at a place: this one's or that of one that is needed.
pub(crate) fn write_dylib(
    number: u32,
    timestamp: u32,
    current: u32,
    compatible: u32,
    name: &[u8],
    out: &mut [u8],
    at: usize,
)
    requires number { (number ≡ LC_ID_DYLIB) ⊎ (number ≡ LC_LOAD_DYLIB) }
    requires fits { path_command_size 24 name.now < 2 ^ 32 }
    requires room { at + path_command_size 24 name.now ≤ length out.old }
    ensures written { out.new ≡ put at (text_said (dylib_for number timestamp current compatible name.now)) out.old }
    ensures long { length (text_said (dylib_for number timestamp current compatible name.now)) ≡ path_command_size 24 name.now }
    ensures readable { IsReadable (dylib_for number timestamp current compatible name.now) }
{
    let record = DylibCommand {
        cmd: number,
        cmdsize: path_command_size(DylibCommand::SIZE, name.len()) as u32,
        name_offset: DylibCommand::SIZE as u32,
        timestamp,
        current_version: current,
        compatibility_version: compatible,
    };
    record.write(out, at);
    put_path(name, DylibCommand::SIZE, out, at);
}

/// Writes the command of a library that is needed, at a place.
pub(crate) fn write_needed(name: &[u8], out: &mut [u8], at: usize)
    requires fits { path_command_size 24 name.now < 2 ^ 32 }
    requires room { at + path_command_size 24 name.now ≤ length out.old }
    ensures written { out.new ≡ put at (text_said (needed_dylib_for name.now)) out.old }
    ensures long { length (text_said (needed_dylib_for name.now))
        ≡ path_command_size 24 name.now }
    ensures readable { IsReadable (needed_dylib_for name.now) }
{
    write_dylib(
        LC_LOAD_DYLIB,
        LIBRARY_TIME,
        LIBRARY_VERSION,
        LIBRARY_COMPATIBILITY,
        name,
        out,
        at,
    );
}

/// Writes the command of a path to search `@rpath` in.
pub(crate) fn write_rpath(path: &[u8], out: &mut [u8], at: usize)
    requires fits { path_command_size 12 path.now < 2 ^ 32 }
    requires room { at + path_command_size 12 path.now ≤ length out.old }
    ensures written { out.new ≡ put at (text_said (rpath_for path.now)) out.old }
    ensures long { length (text_said (rpath_for path.now)) ≡ path_command_size 12 path.now }
    ensures readable { IsReadable (rpath_for path.now) }
{
    let record = RpathCommand {
        cmd: LC_RPATH,
        cmdsize: path_command_size(RpathCommand::SIZE, path.len()) as u32,
        name_offset: RpathCommand::SIZE as u32,
    };
    record.write(out, at);
    put_path(path, RpathCommand::SIZE, out, at);
}
