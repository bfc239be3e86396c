//! A relocatable object: header, segment with its sections, symbol table command; then contents, relocations, symbols and names.

use crate::numbers::{length, pad, put_half, put_longs, put_name, put_words};
use crate::tables::{Content, Object, Section, Symbol};
use std::alloc::{AllocError, Global};

/// The first numbers of every file: its magic and the processor.
const MAGIC: [u64; 3] = [0xfeed_facf, 0x0100_000c, 0];

/// `MH_OBJECT`.
const OBJECT: u64 = 1;

/// `LC_SEGMENT_64` and its bytes without section headers, and a section header's.
const SEGMENT: u64 = 0x19;

const SEGMENT_SIZE: u64 = 72;

const SECTION_SIZE: u64 = 80;

/// `LC_SYMTAB` and its bytes.
const SYMTAB: u64 = 2;

pub(crate) const SYMTAB_SIZE: u64 = 24;

/// The bytes of a file's header.
pub(crate) const HEADER_SIZE: u64 = 32;

/// The bytes of a relocation.
const RELOCATION_SIZE: u64 = 8;

/// A file's header.
pub(crate) fn put_header(
    out: &mut Vec<u8>,
    kind: u64,
    commands: u64,
    size: u64,
) -> Result<(), AllocError> {
    put_words(out, &MAGIC)?;
    put_words(out, &[kind, commands, size, 0, 0])
}

/// The bytes of a symbol's row.
const ROW_SIZE: u64 = 16;

/// The symbols as they stand in a table, and their names.
#[derive(Drop)]
pub(crate) struct Symbols {
    pub(crate) rows: Vec<u8>,
    pub(crate) names: Vec<u8>,
}

// Adds the row of a symbol whose name begins at the place in the string table.
fn put_symbol(rows: &mut Vec<u8>, place: u64, symbol: &Symbol<'_>) -> Result<(), AllocError> {
    put_words(rows, &[place])?;
    rows.push(symbol.kind)?;
    rows.push(symbol.section)?;
    put_half(rows, symbol.description as u64)?;
    put_longs(rows, &[symbol.value])
}

/// The table of the symbols.
pub(crate) fn symbols_of(alloc: Global, symbols: &[Symbol<'_>]) -> Result<Symbols, AllocError> {
    let mut rows = Vec::new(alloc);
    let mut names = vec![in alloc; 0u8; 1]?;
    for symbol in symbols {
        let place = if symbol.name.is_empty() {
            0
        } else {
            length(&names)
        };
        put_symbol(&mut rows, place, symbol)?;
        if !symbol.name.is_empty() {
            names.extend_from_slice(symbol.name)?;
            names.push(0)?;
        }
    }
    pad(&mut names, 4)?;
    Ok(Symbols { rows, names })
}

/// The command of a symbol table that begins at the place, with the string table behind it.
pub(crate) fn put_symtab(
    out: &mut Vec<u8>,
    place: u64,
    rows: &[u8],
    names: &[u8],
) -> Result<(), AllocError> {
    put_words(out, &[SYMTAB, SYMTAB_SIZE, place, length(rows) / ROW_SIZE])?;
    put_words(out, &[place.saturating_add(length(rows)), length(names)])
}

// How many bytes a section has, and how many of them stand in the file.
fn sizes(section: &Section<'_>) -> (u64, u64) {
    match section.content {
        Content::Bytes(bytes) => (length(bytes), length(bytes)),
        Content::Room(count) => (count, 0),
    }
}

// The contents of all sections, one behind the other.
fn contents(alloc: Global, sections: &[Section<'_>]) -> Result<Vec<u8>, AllocError> {
    let mut out = Vec::new(alloc);
    for section in sections {
        match section.content {
            Content::Bytes(bytes) => out.extend_from_slice(bytes)?,
            Content::Room(_) => {}
        }
    }
    pad(&mut out, 8)?;
    Ok(out)
}

// The relocations of all sections, one behind the other.
fn relocations(alloc: Global, sections: &[Section<'_>]) -> Result<Vec<u8>, AllocError> {
    let mut out = Vec::new(alloc);
    for section in sections {
        for relocation in section.relocations {
            let number = (relocation.1 % 0x100_0000) as u64;
            put_words(&mut out, &[relocation.0 as u64])?;
            put_words(&mut out, &[number | (relocation.2 as u64) << 24])?;
        }
    }
    Ok(out)
}

// The header of a section whose content and relocations begin at the places.
fn put_section(
    out: &mut Vec<u8>,
    section: &Section<'_>,
    content: u64,
    relocations: u64,
) -> Result<(), AllocError> {
    let (size, in_file) = sizes(section);
    let content = if in_file == 0 { 0 } else { content };
    let count = section.relocations.len() as u64;
    let relocations = if count == 0 { 0 } else { relocations };
    put_name(out, section.name)?;
    put_name(out, section.segment)?;
    put_longs(out, &[section.address, size])?;
    put_words(out, &[content, section.exponent as u64, relocations, count])?;
    put_words(out, &[section.flags as u64, 0, 0, 0])
}

// The end of the highest section in the object's addresses.
fn highest_end(sections: &[Section<'_>]) -> u64 {
    let mut end = 0u64;
    for section in sections {
        let (size, _) = sizes(section);
        end = end.max(section.address.saturating_add(size));
    }
    end
}

// How many bytes of the sections stand in the file.
fn size_in_file(sections: &[Section<'_>]) -> u64 {
    let mut size = 0u64;
    for section in sections {
        let (_, taken) = sizes(section);
        size = size.saturating_add(taken);
    }
    size
}

// The segment with the headers of its sections, whose contents begin at the one place and their relocations at the other.
fn put_segment(
    out: &mut Vec<u8>,
    sections: &[Section<'_>],
    content: u64,
    behind: u64,
) -> Result<(), AllocError> {
    let count = sections.len() as u64;
    let size = SEGMENT_SIZE.saturating_add(SECTION_SIZE.saturating_mul(count));
    put_words(out, &[SEGMENT, size])?;
    put_name(out, b"")?;
    let in_file = size_in_file(sections);
    put_longs(out, &[0, highest_end(sections), content, in_file])?;
    put_words(out, &[7, 7, count, 0])?;
    let mut place = content;
    let mut relocations = behind;
    for section in sections {
        put_section(out, section, place, relocations)?;
        let (_, taken) = sizes(section);
        place = place.saturating_add(taken);
        let count = section.relocations.len() as u64;
        relocations = relocations.saturating_add(RELOCATION_SIZE.saturating_mul(count));
    }
    Ok(())
}

/// The bytes of an object, whose names begin with a zero and are padded to four bytes.
///
/// Its two commands are the segment and the symbol table. The contents of the sections stand one behind the other, padded to eight
/// bytes at their end; then the relocations of all sections, the symbols, and the names.
pub fn object_bytes(alloc: Global, object: &Object<'_>) -> Result<Vec<u8>, AllocError> {
    let symbols = symbols_of(alloc, object.symbols)?;
    let count = object.sections.len() as u64;
    let commands = SEGMENT_SIZE
        .saturating_add(SECTION_SIZE.saturating_mul(count))
        .saturating_add(SYMTAB_SIZE);
    let content = HEADER_SIZE.saturating_add(commands);
    let data = contents(alloc, object.sections)?;
    let moved = relocations(alloc, object.sections)?;
    let behind = content.saturating_add(length(&data));
    let table = behind.saturating_add(length(&moved));
    let mut out = Vec::new(alloc);
    put_header(&mut out, OBJECT, 2, commands)?;
    put_segment(&mut out, object.sections, content, behind)?;
    put_symtab(&mut out, table, &symbols.rows, &symbols.names)?;
    out.extend_from_slice(&data)?;
    out.extend_from_slice(&moved)?;
    out.extend_from_slice(&symbols.rows)?;
    out.extend_from_slice(&symbols.names)?;
    Ok(out)
}
