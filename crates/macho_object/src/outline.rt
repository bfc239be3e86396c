//! Where a file's tables stand: what its header and its commands say.
ghost use Rattle.std.specs.Prelude.{◌≡◌, ◌+◌, ◌≤◌, true, false, IfOk, IfErr, length};
ghost use Rattle.macho_model.specs.Objects.{symtab_of};
ghost use Rattle.macho_model.specs.ObjectRules.{tables_inside};
ghost use Rattle.macho_model.specs.Grammar.{Breaks};
ghost use Rattle.macho_object.specs.Views.{section_count};
ghost use Rattle.macho_object.specs.steps.Outlines.{HasCommands, IsOutlined, IsNotOnce};

use crate::commands::{Found, scan};
use crate::fault::ObjectFault;
use crate::header::read_header;
use macho_model::ObjectRule;
use macho_records::{SegmentCommand, SymtabCommand, SymtabEntry};

/// Where the two commands stand that a file of each kind has once.
#[derive(Clone, Copy)]
pub(crate) struct Places {
    /// The segment of an object, the install name of a library.
    pub(crate) main: usize,
    /// The symbol table.
    pub(crate) symtab: usize,
}

/// A file's bytes, and where its tables stand in them.
#[derive(Clone, Copy)]
pub(crate) struct Outline<'data> {
    pub(crate) input: &'data [u8],
    pub(crate) is_dynamic: bool,
    pub(crate) places: Places,
    /// How many sections are read, none of a library.
    pub(crate) num_sections: u32,
    pub(crate) symtab: SymtabCommand,
}

/// Reads the header and the commands.
pub(crate) fn read_outline(input: &[u8], is_dynamic: bool) -> Result<Outline<'_>, ObjectFault>
    ensures input { IfOk result (λ o. o.input.now ≡ input.now) }
    ensures kind { IfOk result (λ o. o.is_dynamic ≡ is_dynamic) }
    ensures found { IfOk result (λ o. IsOutlined o) }
    ensures why { IfErr result (λ f. Breaks is_dynamic input.now f.rule f.place) }
{
    let places = find_commands(input, is_dynamic)?;
    let symtab = read_symtab(input, is_dynamic, places)?;
    Ok(Outline {
        input,
        is_dynamic,
        places,
        num_sections: count_sections(input, is_dynamic, places),
        symtab,
    })
}

/// Looks for the two commands that a file of a kind has once.
fn find_commands(input: &[u8], is_dynamic: bool) -> Result<Places, ObjectFault>
    ensures found { IfOk result (λ p. HasCommands is_dynamic input.now p) }
    ensures why { IfErr result (λ f. Breaks is_dynamic input.now f.rule f.place) }
{
    let header = read_header(input, is_dynamic)?;
    let tally = scan(input, is_dynamic, header)?;
    let main = once(tally.main)?;
    let symtab = once(tally.symtab)?;
    Ok(Places { main, symtab })
}

/// The place of a command that is to stand once.
fn once(found: Found) -> Result<usize, ObjectFault>
    ensures found { IfOk result (λ at. found ≡ Found.Once at) }
    ensures rule { IfErr result (λ f. f.rule ≡ ObjectRule.O3) }
    ensures why { IfErr result (λ f. IsNotOnce found f.place) }
{
    let place = match found {
        Found::Once(at) => return Ok(at),
        Found::Nowhere => 0,
        Found::Twice(second) => second as u64,
    };
    Err(ObjectFault {
        place,
        rule: ObjectRule::O3,
    })
}

/// The symbol table's command, if the symbols and the strings stand inside the file.
#[tactic(auto, unfolding(macho_model::specs::Objects::symtab_of, macho_model::specs::Objects::num_symbols))]
fn read_symtab(input: &[u8], is_dynamic: bool, places: Places) -> Result<SymtabCommand, ObjectFault>
    requires { HasCommands is_dynamic input.now places }
    ensures found { IfOk result (λ s. s ≡ symtab_of input.now) }
    ensures tables { IfOk result (λ s. tables_inside input.now ≡ true) }
    ensures why { IfErr result (λ f. Breaks is_dynamic input.now f.rule f.place) }
{
    let Some(symtab) = SymtabCommand::read(input, places.symtab) else {
        unreachable!()
    };
    let symbols_end = symtab.symoff as usize + SymtabEntry::SIZE * symtab.nsyms as usize;
    let strings_end = symtab.stroff as usize + symtab.strsize as usize;
    if symbols_end > input.len() || strings_end > input.len() {
        return Err(ObjectFault {
            place: places.symtab as u64,
            rule: ObjectRule::O4,
        });
    }
    Ok(symtab)
}

/// How many sections are read: those of an object's segment, none of a library.
#[tactic(auto, unfolding(macho_model::specs::Objects::num_sections))]
fn count_sections(input: &[u8], is_dynamic: bool, places: Places) -> u32
    requires { HasCommands is_dynamic input.now places }
    ensures { result ≡ section_count is_dynamic input.now }
{
    if is_dynamic {
        return 0;
    }
    match SegmentCommand::read(input, places.main) {
        Some(segment) => segment.nsects,
        None => unreachable!(),
    }
}
