//! One pass over the load commands: each is whole, and where those stand that a file of the kind has once.
ghost use Rattle.std.specs.Prelude.{◌≡◌, ◌+◌, ◌≤◌, ◌==◌, true, false, nat_le, Some, None, IfOk, IfErr, if◌then◌else◌, length};
ghost use Rattle.macho_bytes.specs.Layouts.{reading};
ghost use Rattle.macho_records.specs.Layouts.{load_command};
ghost use Rattle.macho_model.specs.Commands.{command_at, header_of, commands_end, command_fits};
ghost use Rattle.macho_model.specs.ObjectRules.{commands_inside};
ghost use Rattle.macho_model.specs.Grammar.{Breaks};
ghost use Rattle.macho_object.specs.steps.Scans.{needed_of, whole_command, main_number, found_if, IsScanned};

use crate::fault::ObjectFault;
use macho_model::ObjectRule;
use macho_records::{
    DylibCommand, LC_ID_DYLIB, LC_SEGMENT_64, LC_SYMTAB, LoadCommand, MachHeader, SectionHeader,
    SegmentCommand, SymtabCommand,
};

/// Where a command stands of which a file is to have one.
#[derive(Clone, Copy)]
pub(crate) enum Found {
    /// There is none.
    Nowhere,
    /// There is one, at this place.
    Once(usize),
    /// There are several, the second at this place.
    Twice(usize),
}

impl Found {
    /// The same with one more command at a place, if it counts.
    fn noted(self, counts: bool, at: usize) -> Found
        ensures { result ≡ found_if counts self at }
    {
        match self {
            Found::Nowhere if counts => Found::Once(at),
            Found::Once(_) if counts => Found::Twice(at),
            _ => self,
        }
    }
}

/// Where the two commands stand that a file of each kind has once.
#[derive(Clone, Copy)]
pub(crate) struct Tally {
    /// The segment of an object, the install name of a library.
    pub(crate) main: Found,
    /// The symbol table.
    pub(crate) symtab: Found,
}

/// Looks at each load command once.
pub(crate) fn scan(input: &[u8], is_dynamic: bool, header: MachHeader) -> Result<Tally, ObjectFault>
    requires is { header ≡ header_of input.now }
    requires whole { 32 ≤ length input.now }
    ensures found { IfOk result (λ t. IsScanned is_dynamic input.now t) }
    ensures why { IfErr result (λ f. Breaks is_dynamic input.now f.rule f.place) }
{
    let Some(end) = end_of_commands(input, header) else {
        return Err(broken(0));
    };
    let mut at = MachHeader::SIZE;
    let mut tally = Tally {
        main: Found::Nowhere,
        symtab: Found::Nowhere,
    };
    for _number in 0..header.ncmds {
        let Some(command) = read_command(input, is_dynamic, at, end) else {
            return Err(broken(at));
        };
        tally = tally.noted(is_dynamic, command.cmd, at);
        at += command.cmdsize as usize;
    }
    Ok(tally)
}

/// The place where the commands end, if the file reaches so far.
#[tactic(auto, unfolding(macho_model::specs::Commands::commands_end))]
fn end_of_commands(input: &[u8], header: MachHeader) -> Option<usize>
    requires is { header ≡ header_of input.now }
    ensures { result ≡ (if commands_inside input.now then Some (commands_end input.now) else None) }
{
    let end = MachHeader::SIZE + header.sizeofcmds as usize;
    if end <= input.len() { Some(end) } else { None }
}

impl Tally {
    /// The same with one more command at a place.
    fn noted(self, is_dynamic: bool, number: u32, at: usize) -> Tally
        ensures main { result.main ≡ found_if (number == main_number is_dynamic) self.main at }
        ensures symtab { result.symtab ≡ found_if (number == LC_SYMTAB) self.symtab at }
    {
        let main = if is_dynamic {
            LC_ID_DYLIB
        } else {
            LC_SEGMENT_64
        };
        Tally {
            main: self.main.noted(number == main, at),
            symtab: self.symtab.noted(number == LC_SYMTAB, at),
        }
    }
}

fn broken(at: usize) -> ObjectFault
    ensures rule { result.rule ≡ ObjectRule.O2 }
    ensures place { result.place ≡ at }
{
    ObjectFault {
        place: at as u64,
        rule: ObjectRule::O2,
    }
}

/// The command at a place, if it is as long as what it holds and ends where the commands end or before.
fn read_command(input: &[u8], is_dynamic: bool, at: usize, end: usize) -> Option<LoadCommand>
    requires is_end { end ≡ commands_end input.now }
    requires inside { end ≤ length input.now }
    requires before { at ≤ end }
    ensures { result ≡ whole_command is_dynamic input.now at }
{
    let command = LoadCommand::read(input, at)?;
    let size = command.cmdsize as usize;
    if size >= LoadCommand::SIZE
        && size <= end - at
        && is_long_enough(input, is_dynamic, at, command)
    {
        Some(command)
    } else {
        None
    }
}

/// Whether a command inside the bytes is as long as its record and the section headers behind it.
fn is_long_enough(input: &[u8], is_dynamic: bool, at: usize, command: LoadCommand) -> bool
    requires is { command ≡ reading load_command input.now at }
    requires inside { at + command.cmdsize ≤ length input.now }
    ensures { result ≡ nat_le (needed_of is_dynamic input.now (command_at input.now at)) command.cmdsize }
{
    let size = command.cmdsize as usize;
    match command.cmd {
        LC_SYMTAB => size >= SymtabCommand::SIZE,
        LC_ID_DYLIB if is_dynamic => size >= DylibCommand::SIZE,
        LC_SEGMENT_64 if !is_dynamic => match SegmentCommand::read(input, at) {
            Some(segment) => {
                size >= SegmentCommand::SIZE + SectionHeader::SIZE * segment.nsects as usize
            }
            None => false,
        },
        _ => true,
    }
}
