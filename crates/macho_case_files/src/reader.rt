//! The form of a file of cases, and its reader.
//!
//!     # What the cases show. Blank lines, lines that begin with `#` and the space before a line are passed over.
//!     define main object                            a file that cases share, under a name: an object has the sections and symbols
//!       section __TEXT,__text exponent=2            behind it, in their order; address, exponent and flags are 0 where none is told;
//!                                                   room=8 where no bytes of it stand in the file
//!         hex 00008052 c0035fd6 "text"              bytes, also `zeros 8`
//!         relocations 0 branch 1, 4 page 2          the place, the kind (a name of `macho_samples::kinds` or a byte), the number
//!       symbol _main global section=1 value=4       or local, undefined, absolute, a byte; `-` has no name; description=0x80
//!     define both object main other                 the sections and symbols of other objects; within an object `with other`
//!     define system stub /usr/lib/libA.dylib _exit  a text stub with the names that it offers, or a `dylib`; names behind the word
//!                                                   `weak` have weak definitions
//!     define list bytes                             bytes of `hex` and `zeros`, and lines, each behind `>`
//!       > _main
//!       repeat 1000 00000000 "text"                 such bytes, so many times
//!
//!     case a call through a stub                    what the case shows
//!       file in.o as main                           a file under its path: as `main` was defined, or made as behind `define`
//!         cut 239                                   its first bytes alone
//!         change 211 0x14                           a byte of it
//!       file lib.tbd as system
//!       words in.o lib.tbd -map                     without such a line the paths of all files
//!       fails_write 8192                            the first write fails behind so many bytes; `fails_read N`, `fails_print N`,
//!                                                   `fails_line N`: that one fails, counted from 0
//!       steady                                      the run stands over files and a standard error that never fail
//!       folder sdk/lib                              a path of a folder
//!       leads sdk /sdk14                            the canonical path of a path
//!
//! What is wanted, of which a case has one of the first two:
//!
//!       linked                        status 0, no line, an image that the loader accepts; `length 33436`: how long it is
//!       ends 1 cannot find in.o       the status and the line of standard error; nothing printed, and no image unless the status is 4
//!       line_is "wild_macho: "        all of standard error
//!       line cut                      of the line some first bytes, and not all
//!       prints objects 1              a line of standard output; prints_part "objects": a text without the end of its line, behind them
//!       printed more                  behind those lines there is more; printed cut: of those lines some first bytes, and not all
//!       at 0x4000 00000000 "_exit"    bytes of the image at a place
//!       told import 1 _exit           a line of what is told of the image, of which all are wanted then: libraries, imports with the
//!                                     number of their library, exports, fixups
//!       sha256 ae1d57..               the digest of the image
//!       holds out image 8192          a path behind the run: the image's first bytes, or all; or `bytes 6f6c64`, `nothing`
//!       same in.o written_out         two of the files have the same bytes
//!       keeps section 5               what the fault keeps beside its line: a word, a section, a placement
//!       cut_to 16907                  the loader refuses so many first bytes of the image,
//!       loader_says L4 at 256         by this rule, at this place
//!       finds 0x100004000 _exit of 1, plus 0
//!                                     what the loader makes of the word at an address: that, or `moves with 0x1000003f0`, or `nothing`;
//!                                     `finds base 0x100000000`, `finds segments 0x0:0x0 0x100000000:0x0`: addresses and file offsets
//!       linker_refuses cut.o          a linker without files refuses that object and takes the others; it links them twice to one image,
//!                                     whose length and bytes are those of the run's
//!
//! Instead of a run the loader may read one of the files, and says whether it refuses it, and what it finds:
//!
//!       loader_reads image
//!       loader_says L5 at 488
//!
//! A table is a case whose lines stand once for each row, with the parts of the row in the places of `$1`, `$2` and so on:
//!
//!     table
//!       case $1
//!         file in.o as main
//!         words in.o $2
//!         ends 2 bad word 1: $3
//!     row an unknown word | -x | Unknown

use crate::lines::{Line, first_word, is_in};
use crate::values::{Unread, wrong};
use std::alloc::{AllocError, Global};

/// The lines that say what a file holds.
pub(crate) const OF_FILES: [&str; 13] = [
    "object",
    "dylib",
    "stub",
    "bytes",
    "section",
    "symbol",
    "hex",
    "zeros",
    "repeat",
    "relocations",
    ">",
    "cut",
    "change",
];

/// The lines that they stand behind.
const FILES: [&str; 2] = ["file", "define"];

/// The other lines of a case.
const OF_CASES: [&str; 28] = [
    "case",
    "words",
    "fails_read",
    "fails_write",
    "fails_print",
    "fails_line",
    "steady",
    "folder",
    "leads",
    "linked",
    "length",
    "ends",
    "line_is",
    "line",
    "prints",
    "prints_part",
    "printed",
    "at",
    "told",
    "sha256",
    "holds",
    "same",
    "keeps",
    "cut_to",
    "loader_says",
    "loader_reads",
    "finds",
    "linker_refuses",
];

// The part of a row that a digit names.
fn part_of(row: &str, digit: u8) -> Option<&str> {
    let mut number = b'0';
    for part in row.split('|') {
        number = number.saturating_add(1);
        if number == digit {
            return Some(part.trim());
        }
    }
    None
}

// Adds what stands behind a `$`, with a part of the row in place of its digit.
fn add_piece(out: &mut String, piece: &str, row: &str) -> Result<(), Unread> {
    let Some(digit) = piece.as_bytes().first() else {
        return Err(wrong("no number behind $"));
    };
    let Some(part) = part_of(row, *digit) else {
        return Err(wrong("the row has no such part"));
    };
    out.push_str(part)?;
    Ok(out.push_str(piece.get(1..).unwrap_or(""))?)
}

// Adds a table's lines for a row.
fn add_row(out: &mut String, table: &str, row: &str) -> Result<(), Unread> {
    let mut is_first = true;
    for piece in table.split('$') {
        if is_first {
            out.push_str(piece)?;
        } else {
            add_piece(out, piece, row)?;
        }
        is_first = false;
    }
    Ok(())
}

// Adds a line that says something.
fn add_text(out: &mut String, text: &str) -> Result<(), AllocError> {
    if text.is_empty() || text.starts_with('#') {
        return Ok(());
    }
    out.push_str(text)?;
    out.push_str("\n")
}

/// What is written out so far, and the lines of the last table.
#[derive(Drop)]
struct Writer {
    out: String,
    table: String,
    in_table: bool,
}

impl Writer {
    // Adds a line of the file.
    fn add(&mut self, line: &str) -> Result<(), Unread> {
        if line == "table" {
            self.table.clear();
            self.in_table = true;
            return Ok(());
        }
        if let Some(row) = line.strip_prefix("row ") {
            self.in_table = false;
            return add_row(&mut self.out, self.table.as_str(), row);
        }
        if self.in_table {
            Ok(add_text(&mut self.table, line)?)
        } else {
            Ok(add_text(&mut self.out, line)?)
        }
    }
}

/// The lines of a file that say something, with a table's lines once for each row.
///
/// # Errors
///
/// A table names a part that a row doesn't have, or there is not enough memory.
pub fn written_out(alloc: Global, text: &str) -> Result<String, Unread> {
    let mut writer = Writer {
        out: String::new(alloc),
        table: String::new(alloc),
        in_table: false,
    };
    for line in text.lines() {
        writer.add(line.trim_start())?;
    }
    Ok(writer.out)
}

// The place of the line that defines the name.
fn definition_of(lines: &[Line<'_>], name: &str) -> Option<usize> {
    for (place, line) in lines.iter().enumerate() {
        if line.key == "define" && line.rest == name {
            return Some(place);
        }
    }
    None
}

// Adds the lines of a file that begins at the place.
fn add_again(lines: &mut Vec<Line<'_>>, place: usize) -> Result<(), AllocError> {
    for place in place.saturating_add(1)..lines.len() {
        match lines.get(place) {
            Some(line) if is_in(&OF_FILES, line.key) => {
                let line = *line;
                lines.push(line)?;
            }
            _ => return Ok(()),
        }
    }
    Ok(())
}

// Adds the lines of shared files.
fn add_shared(lines: &mut Vec<Line<'_>>, names: &str) -> Result<(), Unread> {
    for name in names.split_whitespace() {
        match definition_of(lines, name) {
            Some(place) => add_again(lines, place)?,
            None => return Err(wrong("nothing has that name")),
        }
    }
    Ok(())
}

// Adds the line of a file, and what the file is made of, by a kind and what stands behind it.
fn add_file<'a>(lines: &mut Vec<Line<'a>>, key: &'a str, rest: &'a str) -> Result<(), Unread> {
    let name = first_word(rest);
    let kind = first_word(name.rest);
    lines.push(Line {
        key,
        rest: name.key,
    })?;
    if kind.key != "as" {
        lines.push(kind)?;
    }
    if kind.key == "as" || kind.key == "object" {
        add_shared(lines, kind.rest)?;
    }
    Ok(())
}

// Whether the next line may say what a file holds.
fn is_in_file(lines: &[Line<'_>]) -> bool {
    match lines.last() {
        Some(line) => is_in(&OF_FILES, line.key) || is_in(&FILES, line.key),
        None => false,
    }
}

// Adds a line, or where it names shared files those of theirs.
fn add_line<'a>(lines: &mut Vec<Line<'a>>, line: Line<'a>) -> Result<(), Unread> {
    if is_in(&FILES, line.key) {
        return add_file(lines, line.key, line.rest);
    }
    let is_of_file = is_in(&OF_FILES, line.key) || line.key == "with";
    if is_of_file && !is_in_file(lines) {
        return Err(wrong("no file"));
    }
    if line.key == "with" {
        return add_shared(lines, line.rest);
    }
    if !is_of_file && !is_in(&OF_CASES, line.key) {
        return Err(wrong("there is no such line"));
    }
    Ok(lines.push(line)?)
}

/// The lines of a text, with those of shared files in the places of their names.
///
/// # Errors
///
/// A line's first word is unknown, or it names what isn't there, or there is not enough memory.
pub fn lines_of(alloc: Global, text: &str) -> Result<Vec<Line<'_>>, Unread> {
    let mut lines = Vec::new(alloc);
    for line in text.lines() {
        if !line.trim().is_empty() {
            add_line(&mut lines, first_word(line))?;
        }
    }
    Ok(lines)
}

// The lines behind a place, up to the next case; or those of a file alone.
fn lines_behind<'a, 'b>(lines: &'b [Line<'a>], place: usize, of_file: bool) -> &'b [Line<'a>] {
    let start = place.saturating_add(1);
    let mut end = start;
    for line in lines.get(start..).unwrap_or(&[]) {
        if line.key == "case" || of_file && !is_in(&OF_FILES, line.key) {
            break;
        }
        end = end.saturating_add(1);
    }
    lines.get(start..end).unwrap_or(&[])
}

/// The lines of the case whose first one stands at the place, without that one.
pub fn case_at<'a, 'b>(lines: &'b [Line<'a>], place: usize) -> &'b [Line<'a>] {
    lines_behind(lines, place, false)
}

/// The lines of the file whose first one stands at the place, without that one.
pub(crate) fn file_at<'a, 'b>(lines: &'b [Line<'a>], place: usize) -> &'b [Line<'a>] {
    lines_behind(lines, place, true)
}
