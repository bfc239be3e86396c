//! The head of an image: its header, and the load commands behind it.
ghost use Rattle.std.specs.Prelude.{◌≡◌, ◌+◌, ◌<◌, ◌≤◌, ◌^◌, length, All};
ghost use Rattle.macho_bytes.specs.Texts.{put};
ghost use Rattle.macho_commands.specs.Commands.{Fits, commands_size};
ghost use Rattle.macho_commands.specs.Heads.{flags_of, header_of_kind, head_text, HeadIsReadable};

use crate::command::Command;
use crate::list::{commands_size, write_commands};
use macho_records::{
    CPU_SUBTYPE_ARM64_ALL, CPU_TYPE_ARM64, MH_DYLDLINK, MH_DYLIB, MH_EXECUTE,
    MH_HAS_TLV_DESCRIPTORS, MH_MAGIC_64, MH_NOUNDEFS, MH_PIE, MH_TWOLEVEL, MachHeader,
};

/// What kind of image a head begins.
#[derive(Clone, Copy)]
pub struct ImageKind {
    /// An executable, else a dynamic library.
    pub executable: bool,
    /// Whether a section describes thread-local variables.
    pub thread_locals: bool,
}

/// The flags of an image's header.
fn flags_of(kind: ImageKind) -> u32
    ensures { result ≡ flags_of kind }
{
    let slides = if kind.executable { MH_PIE } else { 0 };
    let describes = if kind.thread_locals {
        MH_HAS_TLV_DESCRIPTORS
    } else {
        0
    };
    MH_NOUNDEFS + MH_DYLDLINK + MH_TWOLEVEL + slides + describes
}

/// The header of an image with these load commands.
fn header_for(kind: ImageKind, commands: &[Command<'_>]) -> MachHeader
    requires fit { All Fits commands.now }
    requires small { commands_size commands.now < 2 ^ 32 }
    requires few { length commands.now < 2 ^ 32 }
    ensures { result ≡ header_of_kind kind commands.now }
{
    let filetype = if kind.executable {
        MH_EXECUTE
    } else {
        MH_DYLIB
    };
    MachHeader {
        magic: MH_MAGIC_64,
        cputype: CPU_TYPE_ARM64,
        cpusubtype: CPU_SUBTYPE_ARM64_ALL,
        filetype,
        ncmds: commands.len() as u32,
        sizeofcmds: commands_size(commands) as u32,
        flags: flags_of(kind),
        reserved: 0,
    }
}

/// Writes header and load commands to the front of a file; the other bytes stay.
pub fn write_head(kind: ImageKind, commands: &[Command<'_>], out: &mut [u8])
    requires fit { All Fits commands.now }
    requires small { commands_size commands.now < 2 ^ 32 }
    requires few { length commands.now < 2 ^ 32 }
    requires room { 32 + commands_size commands.now ≤ length out.old }
    ensures done { out.new ≡ put 0 (head_text kind commands.now) out.old }
    ensures length { length (head_text kind commands.now) ≡ 32 + commands_size commands.now }
    ensures found { HeadIsReadable kind commands.now }
{
    let header = header_for(kind, commands);
    header.write(out, 0);
    write_commands(commands, out, MachHeader::SIZE);
}
