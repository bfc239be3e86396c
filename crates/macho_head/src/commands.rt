//! The load commands of an image, as one list.
ghost use Rattle.std.specs.Prelude.{◌≡◌, ℕ, ◌-◌, ◌<◌, ◌^◌, [], ◌∷◌, ◌++◌, List, map, if◌then◌else◌, IfOk, OnOk};
ghost use Rattle.macho_model.specs.declared.placed.Counts.{Counts};
ghost use Rattle.macho_model.specs.Links.{Link};
ghost use Rattle.macho_records.specs.declared.constants.TheConstants.{LC_ID_DYLIB};
ghost use Rattle.macho_model.specs.Segments.{list_if};
ghost use Rattle.macho_model.specs.HeadCommands.{commands_for, versions_for, dylinker_for, dylib_for, needed_dylib_for, rpath_for};
ghost use Rattle.macho_layout.specs.Placements.{placed_of};
ghost use Rattle.macho_commands.specs.declared.command.Command.TheVariants.{BuildVersion};
ghost use Rattle.macho_commands.specs.Commands.{said_by, entry_point_said};
ghost use Rattle.macho_head.specs.Heads.{AreHeadParts, TablesAreSmall, VersionsFit, commands_of_parts};
ghost use Rattle.macho_head.specs.Splits.{HeadersAreSplit};
ghost use Rattle.macho_head.specs.steps.Said.{own_said, tables_said};

use crate::segments::add_segments;
use macho_commands::{Command, SymbolTable, Table};
use macho_layout::Placement;
use macho_model::Range64;
use std::alloc::{AllocError, Global};

/// What the head of an image says beside its placement.
#[derive(Clone, Copy)]
pub struct HeadParts<'a> {
    /// An executable, else a dynamic library.
    pub executable: bool,
    /// Where an executable begins, counted from the base.
    pub entry: u64,
    /// The bytes of the UUID as they stand in the file.
    pub uuid: [u8; 16],
    /// The least version of the system and that of the SDK, as 16, 8 and 8 bits.
    pub versions: Option<(u32, u32)>,
    /// The name of a dynamic library.
    pub install_name: &'a [u8],
    /// The install names of the libraries that are needed.
    pub libraries: &'a [Vec<u8>],
    /// The paths to search `@rpath` in.
    pub rpaths: &'a [Vec<u8>],
    /// The bytes of the exports trie.
    pub trie_size: u32,
    /// How many symbols the symbol table has.
    pub symbols: u32,
    /// The bytes of their names.
    pub strings_size: u32,
}

/// A range of the file as a command tells it.
fn table_of(range: Range64) -> Table
    requires start { range.start < 2 ^ 32 }
    requires end { range.end < 2 ^ 32 }
    ensures { result ≡ record { offset = range.start; size = range.end - range.start } }
{
    Table {
        offset: range.start as u32,
        size: range.end.saturating_sub(range.start) as u32,
    }
}

/// Where an executable begins.
fn add_entry(parts: &HeadParts<'_>, commands: &mut Vec<Command<'_>>) -> Result<(), AllocError>
    ensures { OnOk result
        (map said_by commands.new.items ≡ map said_by commands.old.items
        ++ list_if parts.now.executable (entry_point_said parts.now.entry ∷ [])) }
{
    if parts.executable {
        commands.push(Command::EntryPoint {
            offset: parts.entry,
        })?;
    }
    Ok(())
}

/// The command of the least version of the system and that of the SDK.
fn build_version<'a>(minimum: u32, sdk: u32) -> Command<'a>
    ensures is { result ≡ BuildVersion minimum sdk }
    ensures fit { (minimum < 2 ^ 32) × (sdk < 2 ^ 32) }
{
    Command::BuildVersion { minimum, sdk }
}

/// The versions of the system that the image is for, where they were given.
fn add_versions(parts: &HeadParts<'_>, commands: &mut Vec<Command<'_>>) -> Result<(), AllocError>
    ensures said { OnOk result (map said_by commands.new.items ≡ map said_by commands.old.items ++ versions_for parts.now.versions) }
    ensures fit { OnOk result (VersionsFit parts.now.versions) }
{
    if let Some((minimum, sdk)) = parts.versions {
        commands.push(build_version(minimum, sdk))?;
    }
    Ok(())
}

/// The system's dynamic linker of an executable, or the name of a library.
fn own_command<'a>(parts: &HeadParts<'a>) -> Command<'a>
    ensures { said_by result ≡ (if parts.now.executable then dylinker_for else dylib_for LC_ID_DYLIB 1 0 0 parts.now.install_name.now) }
{
    if parts.executable {
        Command::Dylinker
    } else {
        Command::IdDylib {
            name: parts.install_name,
        }
    }
}

/// The libraries that are needed, in order.
fn add_libraries<'a>(
    libraries: &'a [Vec<u8>],
    commands: &mut Vec<Command<'a>>,
) -> Result<(), AllocError>
    ensures { OnOk result
        (map said_by commands.new.items ≡ map said_by commands.old.items ++ map needed_dylib_for (map (λ n. n.items) libraries.now)) }
{
    for name in libraries {
        commands.push(Command::LoadDylib {
            name: name.as_slice(),
        })?;
    }
    Ok(())
}

/// The paths to search, in order.
fn add_rpaths<'a>(rpaths: &'a [Vec<u8>], commands: &mut Vec<Command<'a>>) -> Result<(), AllocError>
    ensures { OnOk result
        (map said_by commands.new.items ≡ map said_by commands.old.items ++ map rpath_for (map (λ n. n.items) rpaths.now)) }
{
    for path in rpaths {
        commands.push(Command::Rpath {
            path: path.as_slice(),
        })?;
    }
    Ok(())
}

/// What stands behind the segments' commands and in front of the libraries.
fn add_own<'a>(parts: &HeadParts<'a>, commands: &mut Vec<Command<'a>>) -> Result<(), AllocError>
    ensures said { OnOk result (map said_by commands.new.items ≡ map said_by commands.old.items ++ own_said parts.now) }
    ensures fit { OnOk result (VersionsFit parts.now.versions) }
{
    add_entry(parts, commands)?;
    commands.push(Command::Uuid { uuid: parts.uuid })?;
    add_versions(parts, commands)?;
    commands.push(own_command(parts))?;
    Ok(())
}

/// The tables of `__LINKEDIT`, the signature last.
fn add_tables(
    placement: &Placement,
    parts: &HeadParts<'_>,
    commands: &mut Vec<Command<'_>>,
) -> Result<(), AllocError>
    requires { TablesAreSmall placement.now.linkedit }
    ensures { OnOk result
        (map said_by commands.new.items ≡ map said_by commands.old.items ++ tables_said placement.now.linkedit parts.now) }
{
    let tables = &placement.linkedit;
    commands.push(Command::ChainedFixups(table_of(tables.fixups)))?;
    commands.push(Command::ExportsTrie(Table {
        offset: tables.trie.start as u32,
        size: parts.trie_size,
    }))?;
    commands.push(Command::Symtab(SymbolTable {
        symbols_offset: tables.symtab.start as u32,
        symbols: parts.symbols,
        strings_offset: tables.strtab.start as u32,
        strings_size: parts.strings_size,
    }))?;
    commands.push(Command::CodeSignature(table_of(tables.signature)))?;
    Ok(())
}

/// The load commands of an image, in order: segments with their section headers, entry, UUID, versions, the dynamic linker or the
/// library's own name, libraries, paths to search, tables.
///
/// # Errors
///
/// There is not enough memory.
pub fn head_commands<'a>(
    alloc: Global,
    placement: &'a Placement,
    parts: &HeadParts<'a>,
) -> Result<Vec<Command<'a>>, AllocError>
    requires split { HeadersAreSplit (placed_of placement.now) }
    requires tables { TablesAreSmall placement.now.linkedit }
    ensures said { IfOk result (λ v. map said_by v.items ≡ commands_of_parts (placed_of placement.now) parts.now) }
    ensures fit { OnOk result (VersionsFit parts.now.versions) }
    ensures done { (l : Link) (counts : Counts) (uuid : List ℕ) → AreHeadParts l counts uuid (placed_of placement.now) parts.now
        → IfOk result (λ v. map said_by v.items ≡ commands_for l counts (placed_of placement.now) uuid parts.now.trie_size) }
{
    let mut commands = Vec::new(alloc);
    add_segments(placement, &mut commands)?;
    add_own(parts, &mut commands)?;
    add_libraries(parts.libraries, &mut commands)?;
    add_rpaths(parts.rpaths, &mut commands)?;
    add_tables(placement, parts, &mut commands)?;
    Ok(commands)
}
