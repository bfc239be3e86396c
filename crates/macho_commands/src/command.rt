//! One load command: what it says, how many bytes it has, and its bytes.
ghost use Rattle.std.specs.Prelude.{◌≡◌, ◌+◌, ◌≤◌, length};
ghost use Rattle.macho_bytes.specs.Texts.{put};

use crate::linkedit::{write_linkedit, write_symtab};
use crate::paths::{path_command_size, write_dylib, write_dylinker, write_needed, write_rpath};
use crate::records::{write_build_version, write_entry_point, write_uuid};
use crate::segment::write_segment;
use macho_model::PlacedSegment;
use macho_records::{
    BuildToolVersion, BuildVersionCommand, DylibCommand, DylinkerCommand, EntryPointCommand,
    LC_CODE_SIGNATURE, LC_DYLD_CHAINED_FIXUPS, LC_DYLD_EXPORTS_TRIE, LC_ID_DYLIB,
    LinkeditDataCommand, RpathCommand, SectionHeader, SegmentCommand, SymtabCommand, UuidCommand,
};

/// The path of the system's dynamic linker.
pub const DYLINKER_PATH: [u8; 13] = *b"/usr/lib/dyld";

/// A range of the file, in `__LINKEDIT`.
#[derive(Clone, Copy)]
pub struct Table {
    /// The file offset of its first byte.
    pub offset: u32,
    /// Its bytes.
    pub size: u32,
}

/// The symbol table and its strings.
#[derive(Clone, Copy)]
pub struct SymbolTable {
    /// The file offset of the first symbol.
    pub symbols_offset: u32,
    /// How many symbols there are.
    pub symbols: u32,
    /// The file offset of the names.
    pub strings_offset: u32,
    /// The bytes of the names.
    pub strings_size: u32,
}

/// A load command that the linker writes (`mach-o/loader.h`).
#[derive(Clone, Copy)]
pub enum Command<'a> {
    /// `LC_SEGMENT_64`: a segment, and the headers of its sections.
    Segment {
        /// Where the segment stands.
        segment: PlacedSegment,
        /// What it may be accessed for, now and at most.
        protection: u32,
        /// Its `SG_` flags.
        flags: u32,
        /// The headers of its sections, in order.
        headers: &'a [SectionHeader],
    },
    /// `LC_MAIN`: where an executable begins.
    EntryPoint {
        /// The file offset of the first instruction.
        offset: u64,
    },
    /// `LC_UUID`: the name of this build.
    Uuid {
        /// The bytes as they stand in the file.
        uuid: [u8; 16],
    },
    /// `LC_BUILD_VERSION`: for which macOS the file was built, and by this linker.
    BuildVersion {
        /// The least version of the system, as 16, 8 and 8 bits.
        minimum: u32,
        /// The version of the SDK.
        sdk: u32,
    },
    /// `LC_LOAD_DYLINKER`: the system's dynamic linker.
    Dylinker,
    /// `LC_ID_DYLIB`: the name of this library.
    IdDylib {
        /// Its install name.
        name: &'a [u8],
    },
    /// `LC_LOAD_DYLIB`: a library that is needed.
    LoadDylib {
        /// Its install name.
        name: &'a [u8],
    },
    /// `LC_RPATH`: a path to search `@rpath` in.
    Rpath {
        /// The path.
        path: &'a [u8],
    },
    /// `LC_DYLD_CHAINED_FIXUPS`: the fixup table.
    ChainedFixups(Table),
    /// `LC_DYLD_EXPORTS_TRIE`: the exports trie.
    ExportsTrie(Table),
    /// `LC_SYMTAB`: the symbol table.
    Symtab(SymbolTable),
    /// `LC_CODE_SIGNATURE`: the signature.
    CodeSignature(Table),
}

impl Command<'_> {
    ghost use Rattle.macho_commands.specs.Commands.{text_of, Fits, size_of_command, said_by};
    ghost use Rattle.macho_commands.specs.Reading.{IsReadable};

    /// The bytes of the command.
    pub fn size(&self) -> usize
        requires { Fits self.now }
        ensures { result ≡ size_of_command self.now }
    {
        match self {
            Command::Segment { headers, .. } => SegmentCommand::SIZE
                + SectionHeader::SIZE * headers.len(),
            Command::EntryPoint { .. } => EntryPointCommand::SIZE,
            Command::Uuid { .. } => UuidCommand::SIZE,
            Command::BuildVersion { .. } => BuildVersionCommand::SIZE + BuildToolVersion::SIZE,
            Command::Dylinker => path_command_size(DylinkerCommand::SIZE, DYLINKER_PATH.len()),
            Command::IdDylib { name } => path_command_size(DylibCommand::SIZE, name.len()),
            Command::LoadDylib { name } => path_command_size(DylibCommand::SIZE, name.len()),
            Command::Rpath { path } => path_command_size(RpathCommand::SIZE, path.len()),
            Command::ChainedFixups(_) => LinkeditDataCommand::SIZE,
            Command::ExportsTrie(_) => LinkeditDataCommand::SIZE,
            Command::Symtab(_) => SymtabCommand::SIZE,
            Command::CodeSignature(_) => LinkeditDataCommand::SIZE,
        }
    }

    /// Writes the command at a place; the other bytes stay.
    pub fn write(&self, out: &mut [u8], at: usize)
        requires fits { Fits self.now }
        requires room { at + size_of_command self.now ≤ length out.old }
        ensures written { out.new ≡ put at (text_of self.now) out.old }
        ensures long { length (text_of self.now) ≡ size_of_command self.now }
        ensures readable { IsReadable (said_by self.now) }
    {
        match self {
            Command::Segment {
                segment,
                protection,
                flags,
                headers,
            } => write_segment(segment, *protection, *flags, headers, out, at),
            Command::EntryPoint { offset } => write_entry_point(*offset, out, at),
            Command::Uuid { uuid } => write_uuid(*uuid, out, at),
            Command::BuildVersion { minimum, sdk } => {
                write_build_version(*minimum, *sdk, out, at)
            }
            Command::Dylinker => write_dylinker(out, at),
            Command::IdDylib { name } => write_dylib(LC_ID_DYLIB, 1, 0, 0, name, out, at),
            Command::LoadDylib { name } => write_needed(name, out, at),
            Command::Rpath { path } => write_rpath(path, out, at),
            Command::ChainedFixups(table) => {
                write_linkedit(LC_DYLD_CHAINED_FIXUPS, *table, out, at)
            }
            Command::ExportsTrie(table) => write_linkedit(LC_DYLD_EXPORTS_TRIE, *table, out, at),
            Command::Symtab(tables) => write_symtab(*tables, out, at),
            Command::CodeSignature(table) => write_linkedit(LC_CODE_SIGNATURE, *table, out, at),
        }
    }
}
