//! The parts of an image that stand in its file beside header and load commands.
ghost use Rattle.std.specs.Prelude.{◌≡◌, ◌+◌, ◌*◌, ◌≤◌, ◌++◌, map, IfOk, OnOk, All, length};
ghost use Rattle.std.specs.List.{flat_map, range_with_len};
ghost use Rattle.macho_model.specs.Commands.{command_at, segment_size};
ghost use Rattle.macho_model.specs.Loader.{IsAccepted, segment_in};
ghost use Rattle.macho_retool.specs.Parts.{part_of_segment, own_parts, parts_of_segment, parts_of};
ghost use Rattle.macho_retool.specs.steps.PartLists.{section_part, range_part, symbols_part, strings_part};

use macho_image_walks::{is_segment_named, u32_from};
use macho_loader::{LinkeditRange, Loaded};
use macho_records::{
    LC_CODE_SIGNATURE, LC_DYLD_CHAINED_FIXUPS, LC_DYLD_EXPORTS_TRIE, LC_SEGMENT_64, LC_SYMTAB,
    SectionHeader, SegmentCommand,
};
use std::alloc::{AllocError, Global};

/// A range of the file.
#[derive(Clone, Copy)]
pub struct FilePart {
    /// The file offset of its first byte.
    pub at: u64,
    /// Its bytes.
    pub size: u64,
    /// Whether the loader writes in it, or reads in it where to write.
    pub fixed: bool,
}

/// The part that a section is, of the segment whose command stands at a place, by its number.
fn section_part(bytes: &[u8], place: usize, number: u32) -> FilePart
    requires { place + 72 + 80 * (number + 1) ≤ length bytes.now }
    ensures { result ≡ section_part bytes.now place number }
{
    let Some(section) = SectionHeader::read(bytes, place + 72 + 80 * number as usize) else {
        unreachable!();
    };
    FilePart {
        at: section.offset as u64,
        size: if section.is_no_bits() {
            0
        } else {
            section.size
        },
        fixed: false,
    }
}

/// Adds the sections of the segment of a command.
fn add_sections(
    bytes: &[u8],
    place: usize,
    count: u32,
    parts: &mut Vec<FilePart>,
) -> Result<(), AllocError>
    requires { place + 72 + 80 * count ≤ length bytes.now }
    ensures { OnOk result (parts.new.items ≡ parts.old.items ++ map (section_part bytes.now place) (range_with_len 0 count)) }
{
    for number in 0..count {
        parts.push(section_part(bytes, place, number))?;
    }
    Ok(())
}

/// The part that a segment is.
fn part_of_segment(segment: &SegmentCommand) -> FilePart
    ensures { result ≡ part_of_segment segment.now }
{
    FilePart {
        at: segment.fileoff,
        size: segment.filesize,
        fixed: (segment.initprot >> 1) & 1 == 1,
    }
}

/// The segment of a command.
fn segment_there(bytes: &[u8], place: u64) -> SegmentCommand
    requires { place + 72 ≤ length bytes.now }
    ensures { result ≡ segment_in bytes.now (command_at bytes.now place) }
{
    let Some(segment) = SegmentCommand::read(bytes, place as usize) else {
        unreachable!();
    };
    segment
}

/// Adds the segment of a command, unless it is `__TEXT`.
fn add_own(bytes: &[u8], place: u64, parts: &mut Vec<FilePart>) -> Result<(), AllocError>
    requires { place + 72 ≤ length bytes.now }
    ensures { OnOk result (parts.new.items ≡ parts.old.items ++ own_parts bytes.now (command_at bytes.now place)) }
{
    if !is_segment_named(bytes, place, b"__TEXT".as_slice()) {
        parts.push(part_of_segment(&segment_there(bytes, place)))?;
    }
    Ok(())
}

/// Adds the segment of a command, unless it is `__TEXT`, and its sections.
fn add_segment(bytes: &[u8], place: u64, parts: &mut Vec<FilePart>) -> Result<(), AllocError>
    requires { place + segment_size bytes.now place ≤ length bytes.now }
    ensures { OnOk result (parts.new.items ≡ parts.old.items ++ parts_of_segment bytes.now (command_at bytes.now place)) }
{
    add_own(bytes, place, parts)?;
    let count = segment_there(bytes, place).nsects;
    add_sections(bytes, place as usize, count, parts)?;
    Ok(())
}

/// Adds the segments of some commands, and their sections.
fn add_segments(
    bytes: &[u8],
    commands: &[LinkeditRange],
    parts: &mut Vec<FilePart>,
) -> Result<(), AllocError>
    requires { All (λ r. r.command + segment_size bytes.now r.command ≤ length bytes.now) commands.now }
    ensures { OnOk result (parts.new.items ≡ parts.old.items
        ++ flat_map (λ r. parts_of_segment bytes.now (command_at bytes.now r.command)) commands.now) }
{
    for command in commands {
        add_segment(bytes, command.command, parts)?;
    }
    Ok(())
}

/// Adds some tables.
fn add_tables(
    ranges: &[LinkeditRange],
    fixed: bool,
    parts: &mut Vec<FilePart>,
) -> Result<(), AllocError>
    ensures { OnOk result (parts.new.items ≡ parts.old.items ++ map (range_part fixed) ranges.now) }
{
    for range in ranges {
        parts.push(FilePart {
            at: range.at as u64,
            size: range.size as u64,
            fixed,
        })?;
    }
    Ok(())
}

/// The part that the symbol table of a command is.
#[tactic(auto, unfolding(macho_bytes::specs::Layouts::reading))]
fn symbols_part(bytes: &[u8], command: &LinkeditRange) -> FilePart
    ensures { result ≡ symbols_part bytes.now command.now }
{
    FilePart {
        at: u32_from(bytes, command.command, 8) as u64,
        size: 16 * u32_from(bytes, command.command, 12) as u64,
        fixed: false,
    }
}

/// Adds the symbol tables of some commands.
fn add_symbols(
    bytes: &[u8],
    commands: &[LinkeditRange],
    parts: &mut Vec<FilePart>,
) -> Result<(), AllocError>
    ensures { OnOk result (parts.new.items ≡ parts.old.items ++ map (symbols_part bytes.now) commands.now) }
{
    for command in commands {
        parts.push(symbols_part(bytes, command))?;
    }
    Ok(())
}

/// The part that the string table of a command is.
#[tactic(auto, unfolding(macho_bytes::specs::Layouts::reading))]
fn strings_part(bytes: &[u8], command: &LinkeditRange) -> FilePart
    ensures { result ≡ strings_part bytes.now command.now }
{
    FilePart {
        at: u32_from(bytes, command.command, 16) as u64,
        size: u32_from(bytes, command.command, 20) as u64,
        fixed: false,
    }
}

/// Adds the string tables of some commands.
fn add_strings(
    bytes: &[u8],
    commands: &[LinkeditRange],
    parts: &mut Vec<FilePart>,
) -> Result<(), AllocError>
    ensures { OnOk result (parts.new.items ≡ parts.old.items ++ map (strings_part bytes.now) commands.now) }
{
    for command in commands {
        parts.push(strings_part(bytes, command))?;
    }
    Ok(())
}

/// The parts of an image.
pub(crate) fn parts_of(
    alloc: Global,
    bytes: &[u8],
    loaded: &Loaded<'_>,
) -> Result<Vec<FilePart>, AllocError>
    requires same { loaded.now ≡ bytes.now }
    requires accepted { IsAccepted bytes.now }
    ensures { IfOk result (λ v. v.items ≡ parts_of bytes.now) }
{
    let mut parts = Vec::new(alloc);
    let segments = loaded.ranges(alloc, LC_SEGMENT_64)?;
    add_segments(bytes, &segments, &mut parts)?;
    let fixups = loaded.ranges(alloc, LC_DYLD_CHAINED_FIXUPS)?;
    add_tables(&fixups, true, &mut parts)?;
    let tries = loaded.ranges(alloc, LC_DYLD_EXPORTS_TRIE)?;
    add_tables(&tries, false, &mut parts)?;
    let symbols = loaded.ranges(alloc, LC_SYMTAB)?;
    add_symbols(bytes, &symbols, &mut parts)?;
    add_strings(bytes, &symbols, &mut parts)?;
    let signatures = loaded.ranges(alloc, LC_CODE_SIGNATURE)?;
    add_tables(&signatures, false, &mut parts)?;
    Ok(parts)
}
