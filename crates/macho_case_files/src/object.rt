//! The bytes of an object, by its lines.

use crate::lines::{Line, first_word};
use crate::values::{Unread, add_bytes, named_byte, number, size, word_number, wrong};
use macho_samples::{Content, Object, Relocation, Section, Symbol, kinds, object_bytes};
use std::alloc::Global;

/// The highest bytes of relocations' words.
const KINDS: [(&str, u8); 14] = [
    ("pointer", kinds::POINTER),
    ("section_pointer", kinds::SECTION_POINTER),
    ("short", kinds::SHORT),
    ("short_less", kinds::SHORT_LESS),
    ("less", kinds::LESS),
    ("branch", kinds::BRANCH),
    ("page", kinds::PAGE),
    ("page_offset", kinds::PAGE_OFFSET),
    ("slot_page", kinds::SLOT_PAGE),
    ("slot_offset", kinds::SLOT_OFFSET),
    ("to_slot", kinds::TO_SLOT),
    ("variable_page", kinds::VARIABLE_PAGE),
    ("variable_offset", kinds::VARIABLE_OFFSET),
    ("addend", kinds::ADDEND),
];

/// The types of symbols.
const TYPES: [(&str, u8); 4] = [
    ("global", 0x0f),
    ("local", 0x0e),
    ("undefined", 1),
    ("absolute", 3),
];

/// The numbers of a section, and the greatest of each.
const OF_SECTIONS: [(&str, u64); 4] = [
    ("address", u64::MAX),
    ("exponent", 0xffff_ffff),
    ("flags", 0xffff_ffff),
    ("room", u64::MAX),
];

/// The numbers of a symbol, and the greatest of each.
const OF_SYMBOLS: [(&str, u64); 3] = [
    ("section", 0xff),
    ("description", 0xffff),
    ("value", u64::MAX),
];

// The place of a key, and the greatest number that it takes.
fn place_of(keys: &[(&str, u64)], key: &str) -> Option<(usize, u64)> {
    for (place, (one, most)) in keys.iter().enumerate() {
        if *one == key {
            return Some((place, *most));
        }
    }
    None
}

// The numbers of words `KEY=VALUE`, each in the place of its key, and 0 where none is told.
fn fields_of(keys: &[(&str, u64)], words: &str) -> Result<[u64; 4], Unread> {
    let mut fields = [0; 4];
    for word in words.split_whitespace() {
        let Some((key, value)) = word.split_once('=') else {
            return Err(wrong("no KEY=VALUE"));
        };
        let Some((place, most)) = place_of(keys, key) else {
            return Err(wrong("there is no such KEY"));
        };
        let value = number(value, most)?;
        if let Some(field) = fields.get_mut(place) {
            *field = value;
        }
    }
    Ok(fields)
}

// The section of a line `SEGMENT,NAME KEY=VALUE ..`, without bytes and relocations.
fn section_of(text: &str) -> Result<Section<'_>, Unread> {
    let line = first_word(text);
    let Some((segment, name)) = line.key.split_once(',') else {
        return Err(wrong("no SEGMENT,NAME"));
    };
    let [address, exponent, flags, room] = fields_of(&OF_SECTIONS, line.rest)?;
    Ok(Section {
        segment: segment.as_bytes(),
        name: name.as_bytes(),
        address,
        exponent: (exponent % 0x1_0000_0000) as u32,
        flags: (flags % 0x1_0000_0000) as u32,
        content: Content::Room(room),
        relocations: &[],
    })
}

// The symbol of a line `NAME TYPE KEY=VALUE ..`, where `-` is no name.
fn symbol_of(text: &str) -> Result<Symbol<'_>, Unread> {
    let name = first_word(text);
    let kind = first_word(name.rest);
    let [section, description, value, _] = fields_of(&OF_SYMBOLS, kind.rest)?;
    Ok(Symbol {
        name: if name.key == "-" {
            b""
        } else {
            name.key.as_bytes()
        },
        kind: named_byte(&TYPES, kind.key)?,
        section: (section % 0x100) as u8,
        description: (description % 0x1_0000) as u16,
        value,
    })
}

// The relocation `PLACE KIND NUMBER`.
fn relocation_of(text: &str) -> Result<Relocation, Unread> {
    let mut words = text.split_whitespace();
    let (Some(place), Some(kind), Some(index)) = (words.next(), words.next(), words.next()) else {
        return Err(wrong("no PLACE KIND NUMBER"));
    };
    Ok(Relocation(
        word_number(place)?,
        word_number(index)?,
        named_byte(&KINDS, kind)?,
    ))
}

// Adds the relocations of a line, with commas between them.
fn add_relocations(relocations: &mut Vec<Relocation>, text: &str) -> Result<(), Unread> {
    for one in text.split(',') {
        if !one.trim().is_empty() {
            relocations.push(relocation_of(one)?)?;
        }
    }
    Ok(())
}

// No section has more zeros.
const MOST_ZEROS: usize = 0x200_0000;

/// Adds zeros.
pub(crate) fn add_zeros(bytes: &mut Vec<u8>, count: usize) -> Result<(), Unread> {
    if count > MOST_ZEROS {
        return Err(wrong("too many zeros"));
    }
    Ok(bytes.resize(bytes.len().saturating_add(count), 0)?)
}

/// What the sections of an object hold, one behind the other.
#[derive(Drop)]
struct Held {
    bytes: Vec<u8>,
    relocations: Vec<Relocation>,
    starts: Vec<Start>,
}

/// From where on the bytes and the relocations of a section stand there.
#[derive(Clone, Copy)]
struct Start {
    byte: usize,
    relocation: usize,
}

impl Held {
    // Where the next section starts.
    fn end(&self) -> Start {
        Start {
            byte: self.bytes.len(),
            relocation: self.relocations.len(),
        }
    }

    // Adds where the next section starts.
    fn begin(&mut self) -> Result<(), Unread> {
        let start = self.end();
        Ok(self.starts.push(start)?)
    }

    // Adds a line of a section.
    fn add(&mut self, alloc: Global, line: Line<'_>) -> Result<(), Unread> {
        match line.key {
            "section" => self.begin(),
            "hex" => add_bytes(alloc, &mut self.bytes, line.rest),
            "zeros" => add_zeros(&mut self.bytes, size(line.rest)?),
            "relocations" => add_relocations(&mut self.relocations, line.rest),
            _ => Ok(()),
        }
    }

    // Where the section of that number starts, counted from 0.
    fn start(&self, number: usize) -> Start {
        match self.starts.get(number) {
            Some(start) => *start,
            None => self.end(),
        }
    }

    // The section of a line, with what it holds.
    fn section<'a>(&'a self, number: usize, text: &'a str) -> Result<Section<'a>, Unread> {
        let mut section = section_of(text)?;
        let start = self.start(number);
        let end = self.start(number.saturating_add(1));
        let bytes = self.bytes.get(start.byte..end.byte).unwrap_or(b"");
        if !bytes.is_empty() {
            section.content = Content::Bytes(bytes);
        }
        let relocations = self.relocations.get(start.relocation..end.relocation);
        section.relocations = relocations.unwrap_or(&[]);
        Ok(section)
    }
}

// What the sections of an object hold.
fn held_of(alloc: Global, lines: &[Line<'_>]) -> Result<Held, Unread> {
    let mut held = Held {
        bytes: Vec::new(alloc),
        relocations: Vec::new(alloc),
        starts: Vec::new(alloc),
    };
    for line in lines {
        held.add(alloc, *line)?;
    }
    Ok(held)
}

// The sections of an object.
fn sections_of<'a>(
    alloc: Global,
    lines: &[Line<'a>],
    held: &'a Held,
) -> Result<Vec<Section<'a>>, Unread> {
    let mut sections = Vec::new(alloc);
    for line in lines {
        if line.key == "section" {
            sections.push(held.section(sections.len(), line.rest)?)?;
        }
    }
    Ok(sections)
}

// The symbols of an object.
fn symbols_of<'a>(alloc: Global, lines: &[Line<'a>]) -> Result<Vec<Symbol<'a>>, Unread> {
    let mut symbols = Vec::new(alloc);
    for line in lines {
        if line.key == "symbol" {
            symbols.push(symbol_of(line.rest)?)?;
        }
    }
    Ok(symbols)
}

/// The bytes of the object that some lines of a case describe.
///
/// # Errors
///
/// A line can't be read, or there is not enough memory.
pub(crate) fn bytes_of_object(alloc: Global, lines: &[Line<'_>]) -> Result<Vec<u8>, Unread> {
    let held = held_of(alloc, lines)?;
    let sections = sections_of(alloc, lines, &held)?;
    let symbols = symbols_of(alloc, lines)?;
    let object = Object {
        sections: &sections,
        symbols: &symbols,
    };
    Ok(object_bytes(alloc, &object)?)
}
