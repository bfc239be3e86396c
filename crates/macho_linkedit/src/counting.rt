//! The sizes of a link that are known before addresses are.
ghost use Rattle.std.specs.Prelude.{◌≡◌, ◌+◌, ◌<◌, ◌≤◌, ◌^◌, ◌==◌, if◌then◌else◌, sum_by, length, All};
ghost use Rattle.macho_model.specs.Links.{Link};
ghost use Rattle.macho_model.specs.HeadCommands.{path_command_size};
ghost use Rattle.macho_promise.specs.Sizes.{counts_with};
ghost use Rattle.macho_linkedit.specs.Imports.{name_bytes};
ghost use Rattle.macho_linkedit.specs.Counting.{IsPath, FitCounts, AreAsked};
ghost use Rattle.macho_linkedit.specs.steps.Counting.{own_asked, padding_asked, commands_asked};

use macho_commands::{DYLINKER_PATH, path_command_size};
use macho_model::Counts;
use macho_records::{
    BuildToolVersion, BuildVersionCommand, DylibCommand, DylinkerCommand, EntryPointCommand,
    LinkeditDataCommand, RpathCommand, SymtabCommand, UuidCommand,
};
use macho_symbols::Import;

/// The arguments of a link that its sizes depend on.
#[derive(Clone, Copy)]
pub struct SizeArguments<'a> {
    /// An executable, else a dynamic library.
    pub executable: bool,
    /// The library's own name.
    pub install_name: &'a [u8],
    /// Whether versions of the system were given.
    pub has_versions: bool,
    /// The paths that libraries are searched in.
    pub rpaths: &'a [Vec<u8>],
    /// Whether room for longer names is asked for.
    pub headerpad: bool,
    /// The name of the output file: the last part of its path.
    pub name: &'a [u8],
}

/// What the sizes of a link depend on.
#[derive(Clone, Copy)]
pub struct SizesAsked<'a> {
    /// The arguments.
    pub arguments: SizeArguments<'a>,
    /// The libraries that the image needs.
    pub libraries: &'a [Vec<u8>],
    /// The imports.
    pub imports: &'a [Import],
    /// How many entries of the import table pointers need of their own.
    pub own_entries: u64,
    /// How many initializers there are.
    pub initializers: u64,
    /// The most bytes that unwind information may have.
    pub unwind: u64,
    /// Bytes of the exports trie.
    pub trie: u64,
    /// How many symbols the symbol table has.
    pub symbols: u64,
    /// Bytes of the string table.
    pub strings: u64,
}

/// The bytes of room for a longer name: one such room for each path that names a library or is searched.
const NAME_ROOM: u64 = 1024;

/// The sizes of a link that its placement needs: bytes of commands, padding, tables and identifier, and numbers of initializers,
/// import entries and symbols.
pub fn count(asked: &SizesAsked<'_>) -> Counts
    requires { FitCounts asked.now }
    ensures { (l : Link) → AreAsked l asked.now → result ≡ counts_with l asked.now.trie }
{
    Counts {
        commands: commands_size(asked),
        padding: padding_size(asked),
        initializers: asked.initializers,
        unwind: asked.unwind,
        imports: asked.imports.len() as u64 + asked.own_entries,
        import_size: entry_size(asked.own_entries),
        name_bytes: names_size(asked.imports),
        trie: asked.trie,
        symbols: asked.symbols,
        strings: asked.strings,
        identifier: (asked.arguments.name.len() as u64 + 1).next_multiple_of(16),
    }
}

/// The bytes of all load commands except those of segments.
fn commands_size(asked: &SizesAsked<'_>) -> u64
    requires { FitCounts asked.now }
    ensures { result ≡ commands_asked asked.now }
{
    let fixed = own_size(asked) + UuidCommand::SIZE + versions_size(asked.arguments.has_versions);
    fixed as u64
        + paths_size(DylibCommand::SIZE, asked.libraries)
        + paths_size(RpathCommand::SIZE, asked.arguments.rpaths)
        + (3 * LinkeditDataCommand::SIZE + SymtabCommand::SIZE) as u64
}

/// The bytes of an executable's entry and dynamic linker, or of a library's own name.
fn own_size(asked: &SizesAsked<'_>) -> usize
    requires { FitCounts asked.now }
    ensures is { result ≡ own_asked asked.now }
    ensures small { result < 2 ^ 34 }
{
    if asked.arguments.executable {
        EntryPointCommand::SIZE + path_command_size(DylinkerCommand::SIZE, DYLINKER_PATH.len())
    } else {
        path_command_size(DylibCommand::SIZE, asked.arguments.install_name.len())
    }
}

/// The bytes of the command that tells versions.
fn versions_size(has_versions: bool) -> usize
    ensures is { result ≡ (if has_versions then 24 + 8 else 0) }
    ensures small { result ≤ 32 }
{
    if has_versions {
        BuildVersionCommand::SIZE + BuildToolVersion::SIZE
    } else {
        0
    }
}

/// The room for longer names that is asked for.
fn padding_size(asked: &SizesAsked<'_>) -> u64
    requires { FitCounts asked.now }
    ensures { result ≡ padding_asked asked.now }
{
    if !asked.arguments.headerpad {
        return 0;
    }
    let paths = asked.libraries.len() as u64 + asked.arguments.rpaths.len() as u64;
    if asked.arguments.executable {
        NAME_ROOM * paths
    } else {
        NAME_ROOM * (paths + 1)
    }
}

/// The bytes of an entry of the import table: a word, and an addend where some entry has one.
fn entry_size(own_entries: u64) -> u64
    ensures { result ≡ (if own_entries == 0 then 4 else 8) }
{
    if own_entries == 0 { 4 } else { 8 }
}

/// The bytes of commands of one kind, each a record of `front` bytes with a path behind it.
fn paths_size(front: usize, paths: &[Vec<u8>]) -> u64
    requires front { front ≤ 24 }
    requires short { All IsPath paths.now }
    requires few { length paths.now < 2 ^ 28 }
    ensures is { result ≡ sum_by (λ p. path_command_size front p.items) paths.now }
    ensures small { result < 2 ^ 62 }
{
    let mut size = 0;
    for path in paths {
        size += path_command_size(front, path.len()) as u64;
    }
    size
}

/// The bytes of the imports' names with their NULs.
fn names_size(imports: &[Import]) -> u64
    requires { name_bytes imports.now < 2 ^ 64 }
    ensures { result ≡ name_bytes imports.now }
{
    let mut size = 0;
    for import in imports {
        size += import.name.len() as u64 + 1;
    }
    size
}
