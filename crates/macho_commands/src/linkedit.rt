//! Commands that name ranges of `__LINKEDIT`.
ghost use Rattle.std.specs.Prelude.{◌≡◌, ◌+◌, ◌≤◌, length};
ghost use Rattle.macho_bytes.specs.Texts.{put};
ghost use Rattle.macho_model.specs.HeadCommands.{linkedit_for};
ghost use Rattle.macho_commands.specs.Texts.{text_said};
ghost use Rattle.macho_commands.specs.Commands.{symtab_said};
ghost use Rattle.macho_commands.specs.steps.Writing.{IsLinkedit};
ghost use Rattle.macho_commands.specs.Reading.{IsReadable};

use crate::command::{SymbolTable, Table};
use macho_records::{LC_SYMTAB, LinkeditDataCommand, SymtabCommand};

/// Writes the range of a table of `__LINKEDIT` at a place, under the number of its command.
#[tactic(auto, using(crate::proofs::Readable::linkedit_readable), unfolding(crate::specs::Texts::text_said))]
pub(crate) fn write_linkedit(number: u32, table: Table, out: &mut [u8], at: usize)
    requires number { IsLinkedit number }
    requires room { at + 16 ≤ length out.old }
    ensures written { out.new ≡ put at (text_said (linkedit_for number table.offset table.size)) out.old }
    ensures long { length (text_said (linkedit_for number table.offset table.size)) ≡ 16 }
    ensures readable { IsReadable (linkedit_for number table.offset table.size) }
{
    let record = LinkeditDataCommand {
        cmd: number,
        cmdsize: LinkeditDataCommand::SIZE as u32,
        dataoff: table.offset,
        datasize: table.size,
    };
    record.write(out, at);
}

/// Writes the ranges of symbols and strings at a place.
#[tactic(auto, using(crate::proofs::Readable::symtab_readable), unfolding(crate::specs::Texts::text_said))]
pub(crate) fn write_symtab(tables: SymbolTable, out: &mut [u8], at: usize)
    requires { at + 24 ≤ length out.old }
    ensures written { out.new ≡ put at (text_said (symtab_said tables)) out.old }
    ensures long { length (text_said (symtab_said tables)) ≡ 24 }
    ensures readable { IsReadable (symtab_said tables) }
{
    let record = SymtabCommand {
        cmd: LC_SYMTAB,
        cmdsize: SymtabCommand::SIZE as u32,
        symoff: tables.symbols_offset,
        nsyms: tables.symbols,
        stroff: tables.strings_offset,
        strsize: tables.strings_size,
    };
    record.write(out, at);
}
