//! The tests that the loader makes of one load command.
ghost use Rattle.std.specs.Prelude.{◌≡◌};
ghost use Rattle.macho_bytes.specs.Layouts.{reading};
ghost use Rattle.macho_bytes.specs.Texts.{name_of};
ghost use Rattle.macho_records.specs.Layouts.{segment_command};
ghost use Rattle.macho_model.specs.Commands.{command_at, command_fits, commands_end};
ghost use Rattle.macho_model.specs.ObjectRules.{commands_inside};
ghost use Rattle.macho_model.specs.Segments.{loaded_protection_of};
ghost use Rattle.macho_model.specs.LoadRules.{image_head_fits, needed_in_image, protections_fit};
ghost use Rattle.macho_model.specs.Loader.{segment_in};
ghost use Rattle.macho_model.specs.SegmentRules.{segment_ends, begins_behind, file_part_inside, segment_is_paged, text_holds_commands};

use crate::reads::u32_from;
use crate::segments::segment_at;
use crate::walk::is_segment_named;
use macho_model::SEGMENT_PAGE;
use macho_records::{
    CPU_TYPE_ARM64, LC_BUILD_VERSION, LC_CODE_SIGNATURE, LC_DYLD_CHAINED_FIXUPS,
    LC_DYLD_EXPORTS_TRIE, LC_ID_DYLIB, LC_LOAD_DYLIB, LC_LOAD_DYLINKER, LC_MAIN, LC_RPATH,
    LC_SEGMENT_64, LC_SYMTAB, LC_UUID, MH_DYLIB, MH_EXECUTE, MH_MAGIC_64, VM_PROT_EXECUTE,
    VM_PROT_READ, VM_PROT_WRITE,
};

/// Whether the header is whole, of a 64-bit arm64 executable or dynamic library.
#[tactic(auto, unfolding(macho_bytes::specs::Layouts::reading, macho_model::specs::Commands::header_of))]
pub fn head_fits(bytes: &[u8]) -> bool
    ensures { result ≡ image_head_fits bytes.now }
{
    let file_type = u32_from(bytes, 0, 12);
    bytes.len() >= 32
        && u32_from(bytes, 0, 0) == MH_MAGIC_64
        && u32_from(bytes, 0, 4) == CPU_TYPE_ARM64
        && (file_type == MH_EXECUTE || file_type == MH_DYLIB)
}

/// The place where the load commands end.
#[tactic(auto, unfolding(macho_bytes::specs::Layouts::reading, macho_model::specs::Commands::header_of, macho_model::specs::Commands::commands_end))]
pub(crate) fn end_of_commands(bytes: &[u8]) -> u64
    ensures { result ≡ commands_end bytes.now }
{
    32 + u32_from(bytes, 0, 20) as u64
}

/// Whether the load commands end inside the file.
pub fn commands_end_inside(bytes: &[u8]) -> bool
    ensures { result ≡ commands_inside bytes.now }
{
    end_of_commands(bytes) <= bytes.len() as u64
}

/// The bytes of the record of a command, by its number; 0 for one that is not known.
#[tactic(auto, unfolding(macho_bytes::specs::Layouts::reading))]
fn needed(bytes: &[u8], place: u64) -> u64
    ensures { result ≡ needed_in_image bytes.now (command_at bytes.now place) }
{
    match u32_from(bytes, place, 0) {
        LC_SEGMENT_64 => 72 + 80 * u32_from(bytes, place, 64) as u64,
        LC_SYMTAB | LC_LOAD_DYLIB | LC_ID_DYLIB | LC_UUID | LC_BUILD_VERSION | LC_MAIN => 24,
        LC_LOAD_DYLINKER | LC_RPATH => 12,
        LC_CODE_SIGNATURE | LC_DYLD_EXPORTS_TRIE | LC_DYLD_CHAINED_FIXUPS => 16,
        _ => 0,
    }
}

/// Whether a command stands where commands do, and is as long as its record.
#[tactic(auto, unfolding(macho_bytes::specs::Layouts::reading))]
pub fn is_whole(bytes: &[u8], place: u64) -> bool
    ensures { result ≡ command_fits (needed_in_image bytes.now) bytes.now (command_at bytes.now place) }
{
    let size = u32_from(bytes, place, 4) as u64;
    let end = end_of_commands(bytes);
    size >= 8 && place <= end && size <= end - place && needed(bytes, place) <= size
}

/// What a segment may be accessed for, by its name.
fn wanted_protection(bytes: &[u8], place: u64) -> u32
    ensures { result ≡ loaded_protection_of (name_of (reading segment_command bytes.now place).segname) }
{
    if is_segment_named(bytes, place, b"__PAGEZERO".as_slice()) {
        0
    } else if is_segment_named(bytes, place, b"__TEXT".as_slice()) {
        VM_PROT_READ + VM_PROT_EXECUTE
    } else if is_segment_named(bytes, place, b"__LINKEDIT".as_slice()) {
        VM_PROT_READ
    } else {
        VM_PROT_READ + VM_PROT_WRITE
    }
}

/// Whether a segment has the protections of its name.
pub fn protections_are_right(bytes: &[u8], place: u64) -> bool
    ensures { result ≡ protections_fit (segment_in bytes.now (command_at bytes.now place)) }
{
    let segment = segment_at(bytes, place);
    let wanted = wanted_protection(bytes, place);
    segment.most == wanted && segment.first == wanted
}

/// Whether a segment's file bytes stand inside the file, and are at most its bytes in memory.
pub fn file_bytes_are_inside(bytes: &[u8], place: u64) -> bool
    ensures { result ≡ file_part_inside bytes.now (segment_in bytes.now (command_at bytes.now place)) }
{
    let segment = segment_at(bytes, place);
    let length = bytes.len() as u64;
    segment.file_size <= length
        && segment.file_offset <= length - segment.file_size
        && segment.file_size <= segment.size
}

/// Whether a segment is made of whole pages.
pub fn is_paged(bytes: &[u8], place: u64) -> bool
    ensures { result ≡ segment_is_paged (segment_in bytes.now (command_at bytes.now place)) }
{
    let segment = segment_at(bytes, place);
    segment.address % SEGMENT_PAGE == 0
        && segment.size % SEGMENT_PAGE == 0
        && segment.file_offset % SEGMENT_PAGE == 0
}

/// Whether a segment ends at 2^64 at most.
pub fn ends_below(bytes: &[u8], place: u64) -> bool
    ensures { result ≡ segment_ends (segment_in bytes.now (command_at bytes.now place)) }
{
    let segment = segment_at(bytes, place);
    segment.size == 0 || segment.address <= u64::MAX - (segment.size - 1)
}

/// Whether a segment begins where another one ends, or behind.
pub fn follows(bytes: &[u8], place: u64, next: u64) -> bool
    ensures { result
        ≡ begins_behind (segment_in bytes.now (command_at bytes.now place)) (segment_in bytes.now (command_at bytes.now next)) }
{
    let segment = segment_at(bytes, place);
    let behind = segment_at(bytes, next);
    segment.address <= behind.address && segment.size <= behind.address - segment.address
}

/// Whether a segment begins the file and holds the load commands.
pub fn holds_commands(bytes: &[u8], place: u64) -> bool
    ensures { result ≡ text_holds_commands bytes.now (segment_in bytes.now (command_at bytes.now place)) }
{
    let segment = segment_at(bytes, place);
    segment.file_offset == 0 && end_of_commands(bytes) <= segment.file_size
}
