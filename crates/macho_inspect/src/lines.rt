//! The lines of a report, printed in one go over it, without memory.

ghost use Rattle.std.specs.Prelude.{ℕ, List, map};
ghost use Rattle.std.specs.List.{flat_map, enumerate_from};
ghost use Rattle.macho_printing.specs.Printing.{IsPrinted, IsPushed, held_in};
ghost use Rattle.macho_loader.specs.declared.chain_list.LineKind.TheVariants.{Rebase, Bind};
ghost use Rattle.macho_inspect.specs.Lines.{segment_pieces, library_pieces, import_pieces, export_pieces, exports_pieces, malformed_pieces, kind_pieces, fixup_pieces, line_text, report_text};

use crate::report::{ExportLine, Exports, ImportLine, Report, SegmentLine};
use macho_devices::{Sink, SinkFault};
use macho_loader::{FixupLine, LineKind};
use macho_printing::{LineBuffer, Piece, push_pieces};
use macho_records::name_bytes;

/// Prints the lines of a report. Where the sink fails, nothing more is printed.
pub(crate) fn print_report<O: Sink>(out: &mut O, report: &Report) -> Result<(), SinkFault>
    ensures { IsPrinted (O.state out.old) (O.state out.new) (report_text report.now) result }
{
    let mut lines = LineBuffer::new();
    push_report(&mut lines, out, report)?;
    lines.flush(out)
}

fn push_report<O: Sink>(
    lines: &mut LineBuffer,
    out: &mut O,
    report: &Report,
) -> Result<(), SinkFault>
    ensures { IsPushed (O.state out.old) (O.state out.new) (held_in lines.old) (held_in lines.new) (report_text report.now) result }
{
    push_lines(lines, out, &report.segments)?;
    push_libraries(lines, out, &report.libraries)?;
    push_lines(lines, out, &report.imports)?;
    push_exports(lines, out, &report.exports)?;
    push_lines(lines, out, &report.fixups)
}

/// An item of a report that has a line.
trait Line {
    ghost pieces: { Self → List (List ℕ) };

    /// Pushes the line.
    fn push<O: Sink>(&self, lines: &mut LineBuffer, out: &mut O) -> Result<(), SinkFault>
        ensures { IsPushed (O.state out.old) (O.state out.new) (held_in lines.old) (held_in lines.new)
            (line_text (pieces self.now)) result };
}

// Pushes the lines of items, one behind the other.
fn push_lines<T: Line, O: Sink>(
    lines: &mut LineBuffer,
    out: &mut O,
    items: &[T],
) -> Result<(), SinkFault>
    ensures { IsPushed (O.state out.old) (O.state out.new) (held_in lines.old) (held_in lines.new)
        (flat_map (λ x. line_text (T.pieces x)) items.now) result }
{
    for index in 0..items.len() {
        let item = &items[index];
        item.push(lines, out)?;
    }
    Ok(())
}

impl Line for SegmentLine {
    ghost pieces = { segment_pieces };

    fn push<O: Sink>(&self, lines: &mut LineBuffer, out: &mut O) -> Result<(), SinkFault> {
        let name = self.name.into_bytes();
        let pieces = [
            Piece::Text(b"segment "),
            Piece::Text(name_bytes(&name)),
            Piece::Text(b" "),
            Piece::Address(self.address),
            Piece::Text(b" "),
            Piece::Address(self.size),
            Piece::Text(b" "),
            Piece::Number(u64::from(self.protection)),
            Piece::LineFeed,
        ];
        push_pieces(lines, out, &pieces)
    }
}

impl Line for ImportLine {
    ghost pieces = { import_pieces };

    fn push<O: Sink>(&self, lines: &mut LineBuffer, out: &mut O) -> Result<(), SinkFault> {
        let pieces = [
            Piece::Text(b"import "),
            Piece::Number(u64::from(self.library)),
            Piece::Text(b" "),
            Piece::Text(&self.name),
            Piece::Text(b" "),
            Piece::Signed(i64::from(self.addend)),
            Piece::LineFeed,
        ];
        push_pieces(lines, out, &pieces)
    }
}

impl Line for ExportLine {
    ghost pieces = { export_pieces };

    fn push<O: Sink>(&self, lines: &mut LineBuffer, out: &mut O) -> Result<(), SinkFault> {
        let pieces = [
            Piece::Text(b"export "),
            Piece::Number(self.flags),
            Piece::Text(b" "),
            Piece::Address(self.value),
            Piece::Text(b" "),
            Piece::Text(&self.name),
            Piece::LineFeed,
        ];
        push_pieces(lines, out, &pieces)
    }
}

impl Line for FixupLine {
    ghost pieces = { fixup_pieces };

    fn push<O: Sink>(&self, lines: &mut LineBuffer, out: &mut O) -> Result<(), SinkFault> {
        match self.kind {
            LineKind::Rebase { value } => push_rebase(lines, out, self.address, value),
            LineKind::Bind { import, addend } => push_bind(
                lines,
                out,
                self.address,
                import,
                addend,
            ),
        }
    }
}

// Pushes the line of a word that moves with the image.
fn push_rebase<O: Sink>(
    lines: &mut LineBuffer,
    out: &mut O,
    address: u64,
    value: u64,
) -> Result<(), SinkFault>
    ensures { IsPushed (O.state out.old) (O.state out.new) (held_in lines.old) (held_in lines.new)
        (line_text (kind_pieces address (Rebase value))) result }
{
    let pieces = [
        Piece::Text(b"fixup "),
        Piece::Address(address),
        Piece::Text(b" rebase "),
        Piece::Address(value),
        Piece::LineFeed,
    ];
    push_pieces(lines, out, &pieces)
}

// Pushes the line of a word that is bound to an import.
fn push_bind<O: Sink>(
    lines: &mut LineBuffer,
    out: &mut O,
    address: u64,
    import: u32,
    addend: i64,
) -> Result<(), SinkFault>
    ensures { IsPushed (O.state out.old) (O.state out.new) (held_in lines.old) (held_in lines.new)
        (line_text (kind_pieces address (Bind import addend))) result }
{
    let pieces = [
        Piece::Text(b"fixup "),
        Piece::Address(address),
        Piece::Text(b" bind "),
        Piece::Number(u64::from(import)),
        Piece::Text(b" "),
        Piece::Signed(addend),
        Piece::LineFeed,
    ];
    push_pieces(lines, out, &pieces)
}

// Pushes the lines of libraries, which are counted from 1.
fn push_libraries<O: Sink>(
    lines: &mut LineBuffer,
    out: &mut O,
    paths: &[Vec<u8>],
) -> Result<(), SinkFault>
    ensures { IsPushed (O.state out.old) (O.state out.new) (held_in lines.old) (held_in lines.new)
        (flat_map (λ library. line_text (library_pieces library)) (enumerate_from 1 (map (λ path. path.items) paths.now))) result }
{
    for index in 0..paths.len() {
        let path = &paths[index];
        push_library(lines, out, index as u64 + 1, path.as_slice())?;
    }
    Ok(())
}

// Pushes the line of a library.
fn push_library<O: Sink>(
    lines: &mut LineBuffer,
    out: &mut O,
    number: u64,
    path: &[u8],
) -> Result<(), SinkFault>
    ensures { IsPushed (O.state out.old) (O.state out.new) (held_in lines.old) (held_in lines.new)
        (line_text (library_pieces (number, path.now))) result }
{
    let pieces = [
        Piece::Text(b"library "),
        Piece::Number(number),
        Piece::Text(b" "),
        Piece::Text(path),
        Piece::LineFeed,
    ];
    push_pieces(lines, out, &pieces)
}

// Pushes the lines of exports, or the one of a malformed trie.
fn push_exports<O: Sink>(
    lines: &mut LineBuffer,
    out: &mut O,
    exports: &Exports,
) -> Result<(), SinkFault>
    ensures { IsPushed (O.state out.old) (O.state out.new) (held_in lines.old) (held_in lines.new)
        (flat_map line_text (exports_pieces exports.now)) result }
{
    match exports {
        Exports::Listed(names) => push_lines(lines, out, names),
        Exports::Malformed { place } => push_malformed(lines, out, *place),
    }
}

// Pushes the line of a malformed trie.
fn push_malformed<O: Sink>(lines: &mut LineBuffer, out: &mut O, place: u64) -> Result<(), SinkFault>
    ensures { IsPushed (O.state out.old) (O.state out.new) (held_in lines.old) (held_in lines.new)
        (line_text (malformed_pieces place)) result }
{
    let pieces = [
        Piece::Text(b"exports malformed "),
        Piece::Number(place),
        Piece::LineFeed,
    ];
    push_pieces(lines, out, &pieces)
}
