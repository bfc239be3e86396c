//! Lines by their shapes: which texts, names and numbers stand in them, one behind the other.

ghost use Rattle.std.specs.Prelude.{◌≡◌, [], ◌∷◌, codes, decimal};
ghost use Rattle.macho_report.specs.Lines.{line_of};
ghost use Rattle.macho_printing.specs.Printing.{IsPrinted};

use macho_devices::{Sink, SinkFault};
use macho_printing::{Piece, print_pieces};

/// One text.
pub(crate) fn print_text<E: Sink>(err: &mut E, text: &'static [u8]) -> Result<(), SinkFault>
    ensures { IsPrinted (E.state err.old) (E.state err.new) (line_of (text.now ∷ [])) result }
{
    print_pieces(
        err,
        &[
            Piece::Text(b"wild_macho: "),
            Piece::Text(text),
            Piece::Text(b"\n"),
        ],
    )
}

/// A text, a name, and a text.
pub(crate) fn print_named<E: Sink>(
    err: &mut E,
    front: &'static [u8],
    name: &[u8],
    back: &'static [u8],
) -> Result<(), SinkFault>
    ensures { IsPrinted (E.state err.old) (E.state err.new)
        (line_of (front.now ∷ name.now ∷ back.now ∷ [])) result }
{
    let pieces = [
        Piece::Text(b"wild_macho: "),
        Piece::Text(front),
        Piece::Text(name),
        Piece::Text(back),
        Piece::Text(b"\n"),
    ];
    print_pieces(err, &pieces)
}

/// A text, a number, a text and a text.
pub(crate) fn print_numbered<E: Sink>(
    err: &mut E,
    front: &'static [u8],
    number: u64,
    middle: &'static [u8],
    back: &'static [u8],
) -> Result<(), SinkFault>
    ensures { IsPrinted (E.state err.old) (E.state err.new)
        (line_of (front.now ∷ decimal number ∷ middle.now ∷ back.now ∷ [])) result }
{
    let pieces = [
        Piece::Text(b"wild_macho: "),
        Piece::Text(front),
        Piece::Number(number),
        Piece::Text(middle),
        Piece::Text(back),
        Piece::Text(b"\n"),
    ];
    print_pieces(err, &pieces)
}

/// A name of two definitions, and the files of both.
pub(crate) fn print_duplicate<'a, E: Sink>(
    err: &mut E,
    name: &'a [u8],
    first: &'a [u8],
    second: &'a [u8],
) -> Result<(), SinkFault>
    ensures { IsPrinted (E.state err.old) (E.state err.new)
        (line_of (codes "duplicate symbol " ∷ name.now ∷ codes " in " ∷ first.now ∷ codes " and " ∷ second.now ∷ [])) result }
{
    let pieces = [
        Piece::Text(b"wild_macho: "),
        Piece::Text(b"duplicate symbol "),
        Piece::Text(name),
        Piece::Text(b" in "),
        Piece::Text(first),
        Piece::Text(b" and "),
        Piece::Text(second),
        Piece::Text(b"\n"),
    ];
    print_pieces(err, &pieces)
}

/// A name without a definition, and the file that uses it.
pub(crate) fn print_undefined<'a, E: Sink>(
    err: &mut E,
    name: &'a [u8],
    file: &'a [u8],
) -> Result<(), SinkFault>
    ensures { IsPrinted (E.state err.old) (E.state err.new)
        (line_of (codes "undefined symbol " ∷ name.now ∷ codes " in " ∷ file.now ∷ [])) result }
{
    let pieces = [
        Piece::Text(b"wild_macho: "),
        Piece::Text(b"undefined symbol "),
        Piece::Text(name),
        Piece::Text(b" in "),
        Piece::Text(file),
        Piece::Text(b"\n"),
    ];
    print_pieces(err, &pieces)
}

/// A place of a section of initializers.
pub(crate) fn print_initializer<E: Sink>(
    err: &mut E,
    file: &[u8],
    section: u32,
    offset: u64,
) -> Result<(), SinkFault>
    ensures { IsPrinted (E.state err.old) (E.state err.new)
        (line_of (file.now ∷ codes ": bad initializer at " ∷ decimal offset ∷ codes " in section " ∷ decimal section ∷ [])) result }
{
    let pieces = [
        Piece::Text(b"wild_macho: "),
        Piece::Text(file),
        Piece::Text(b": bad initializer at "),
        Piece::Number(offset),
        Piece::Text(b" in section "),
        Piece::Number(u64::from(section)),
        Piece::Text(b"\n"),
    ];
    print_pieces(err, &pieces)
}

/// An unwind entry, and the rule that it breaks.
pub(crate) fn print_unwind<E: Sink>(
    err: &mut E,
    file: &[u8],
    entry: u32,
    rule: &'static [u8],
) -> Result<(), SinkFault>
    ensures { IsPrinted (E.state err.old) (E.state err.new)
        (line_of (file.now ∷ codes ": unwind entry " ∷ decimal entry ∷ codes " breaks rule " ∷ rule.now ∷ [])) result }
{
    let pieces = [
        Piece::Text(b"wild_macho: "),
        Piece::Text(file),
        Piece::Text(b": unwind entry "),
        Piece::Number(u64::from(entry)),
        Piece::Text(b" breaks rule "),
        Piece::Text(rule),
        Piece::Text(b"\n"),
    ];
    print_pieces(err, &pieces)
}

/// Two relocations of a section that overlap.
pub(crate) fn print_overlap<E: Sink>(
    err: &mut E,
    file: &[u8],
    section: u32,
    first: u32,
    second: u32,
) -> Result<(), SinkFault>
    ensures { IsPrinted (E.state err.old) (E.state err.new)
        (line_of (file.now ∷ codes ": section " ∷ decimal section ∷ codes ", relocations " ∷ decimal first ∷ codes " and " ∷ decimal second
        ∷ codes " overlap" ∷ [])) result }
{
    let pieces = [
        Piece::Text(b"wild_macho: "),
        Piece::Text(file),
        Piece::Text(b": section "),
        Piece::Number(u64::from(section)),
        Piece::Text(b", relocations "),
        Piece::Number(u64::from(first)),
        Piece::Text(b" and "),
        Piece::Number(u64::from(second)),
        Piece::Text(b" overlap"),
        Piece::Text(b"\n"),
    ];
    print_pieces(err, &pieces)
}

/// What there is too much of, and how much.
pub(crate) fn print_many<E: Sink>(
    err: &mut E,
    what: &'static [u8],
    number: u64,
) -> Result<(), SinkFault>
    ensures { IsPrinted (E.state err.old) (E.state err.new)
        (line_of (codes "too many " ∷ what.now ∷ codes ": " ∷ decimal number ∷ [])) result }
{
    let pieces = [
        Piece::Text(b"wild_macho: "),
        Piece::Text(b"too many "),
        Piece::Text(what),
        Piece::Text(b": "),
        Piece::Number(number),
        Piece::Text(b"\n"),
    ];
    print_pieces(err, &pieces)
}

/// A relocation of a file, and what is wrong with it.
pub(crate) fn print_relocation<E: Sink>(
    err: &mut E,
    file: &[u8],
    section: u32,
    relocation: u32,
    text: &'static [u8],
) -> Result<(), SinkFault>
    ensures { IsPrinted (E.state err.old) (E.state err.new)
        (line_of (file.now ∷ codes ": section " ∷ decimal section ∷ codes ", relocation " ∷ decimal relocation ∷ codes ": " ∷ text.now
        ∷ [])) result }
{
    let pieces = [
        Piece::Text(b"wild_macho: "),
        Piece::Text(file),
        Piece::Text(b": section "),
        Piece::Number(u64::from(section)),
        Piece::Text(b", relocation "),
        Piece::Number(u64::from(relocation)),
        Piece::Text(b": "),
        Piece::Text(text),
        Piece::Text(b"\n"),
    ];
    print_pieces(err, &pieces)
}

/// The rule that a file breaks, and where.
pub(crate) fn print_rule<E: Sink>(
    err: &mut E,
    file: &[u8],
    rule: &'static [u8],
    place: u64,
) -> Result<(), SinkFault>
    ensures { IsPrinted (E.state err.old) (E.state err.new)
        (line_of (file.now ∷ codes ": rule " ∷ rule.now ∷ codes " at " ∷ decimal place ∷ [])) result }
{
    let pieces = [
        Piece::Text(b"wild_macho: "),
        Piece::Text(file),
        Piece::Text(b": rule "),
        Piece::Text(rule),
        Piece::Text(b" at "),
        Piece::Number(place),
        Piece::Text(b"\n"),
    ];
    print_pieces(err, &pieces)
}
