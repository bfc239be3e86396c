//! The list of load commands: what it has in bytes, and these bytes.
ghost use Rattle.std.specs.Prelude.{◌≡◌, ◌+◌, ◌<◌, ◌≤◌, ◌^◌, length, All, sum_by};
ghost use Rattle.std.specs.List.{flat_map};
ghost use Rattle.macho_bytes.specs.Texts.{put};
ghost use Rattle.macho_commands.specs.Commands.{text_of, Fits, size_of_command, commands_text, commands_size};
ghost use Rattle.macho_commands.specs.Reading.{ListIsReadable};

use crate::command::Command;

/// The bytes of all commands.
pub fn commands_size(commands: &[Command<'_>]) -> usize
    requires fit { All Fits commands.now }
    requires small { commands_size commands.now < 2 ^ 64 }
    ensures { result ≡ commands_size commands.now }
{
    let mut size = 0;
    for command in commands {
        size += command.size();
    }
    size
}

/// Writes the commands one behind the other; the other bytes stay.
pub fn write_commands(commands: &[Command<'_>], out: &mut [u8], at: usize)
    requires fit { All Fits commands.now }
    requires room { at + commands_size commands.now ≤ length out.old }
    ensures written { out.new ≡ put at (commands_text commands.now) out.old }
    ensures long { length (commands_text commands.now) ≡ commands_size commands.now }
    ensures readable { ListIsReadable commands.now }
{
    let mut place = at;
    for command in commands {
        command.write(out, place);
        place += command.size();
    }
}
