//! Texts that are printed piece by piece through a buffer of lines, without memory.

ghost use Rattle.std.specs.Prelude.{◌≡◌};
ghost use Rattle.hex.specs.Hex.{encode_lower};
ghost use Rattle.std.specs.List.{flat_map};
ghost use Rattle.macho_printing.specs.Printing.{IsPrinted, IsPushed, held_in, hex_text, piece_text};

use crate::line_buffer::LineBuffer;
use byteorder::{BigEndian, ByteOrder};
use itoa::Buffer;
use macho_devices::{Sink, SinkFault};

/// A piece of a text.
#[derive(Clone, Copy)]
pub enum Piece<'a> {
    /// A text as it is.
    Text(&'a [u8]),
    /// A number in decimal digits.
    Number(u64),
    /// A number in decimal digits, with a sign before them where it is below 0.
    Signed(i64),
    /// A number as `0x` and 16 hexadecimal digits.
    Address(u64),
    /// Bytes as hexadecimal digits.
    Digest(&'a [u8; 32]),
    /// The end of a line.
    LineFeed,
}

/// Prints the pieces, one behind the other. Where the sink fails, nothing more is printed.
///
/// # Errors
///
/// The sink failed; it took the first of the text.
pub fn print_pieces<S: Sink>(sink: &mut S, pieces: &[Piece<'_>]) -> Result<(), SinkFault>
    ensures { IsPrinted (S.state sink.old) (S.state sink.new) (flat_map piece_text pieces.now) result }
{
    let mut lines = LineBuffer::new();
    push_pieces(&mut lines, sink, pieces)?;
    lines.flush(sink)
}

/// Pushes the pieces, one behind the other. Where the sink fails, nothing more is printed.
///
/// # Errors
///
/// The sink failed; it took the first of the text.
pub fn push_pieces<S: Sink>(
    lines: &mut LineBuffer,
    sink: &mut S,
    pieces: &[Piece<'_>],
) -> Result<(), SinkFault>
    ensures { IsPushed (S.state sink.old) (S.state sink.new) (held_in lines.old) (held_in lines.new)
        (flat_map piece_text pieces.now) result }
{
    for index in 0..pieces.len() {
        let piece = &pieces[index];
        push_piece(lines, sink, piece)?;
    }
    Ok(())
}

fn push_piece<S: Sink>(
    lines: &mut LineBuffer,
    sink: &mut S,
    piece: &Piece<'_>,
) -> Result<(), SinkFault>
    ensures { IsPushed (S.state sink.old) (S.state sink.new) (held_in lines.old) (held_in lines.new)
        (piece_text piece.now) result }
{
    match *piece {
        Piece::Text(text) => lines.push(sink, text),
        Piece::Number(number) => {
            let mut buffer = Buffer::new();
            lines.push(sink, buffer.format(number).as_bytes())
        }
        Piece::Signed(number) => {
            let mut buffer = Buffer::new();
            lines.push(sink, buffer.format(number).as_bytes())
        }
        Piece::Address(address) => lines.push(sink, &hex_digits(address)),
        Piece::Digest(digest) => lines.push(sink, &digest_digits(digest)),
        Piece::LineFeed => lines.push(sink, b"\n"),
    }
}

// `0x` and the 16 digits of a number.
fn hex_digits(number: u64) -> [u8; 18]
    ensures { result ≡ hex_text number }
{
    let mut text = *b"0x0000000000000000";
    let mut bytes = [0u8; 8];
    BigEndian::write_u64(&mut bytes, number);
    match hex::encode_to_slice(bytes, &mut text[2..]) {
        Ok(()) => text,
        Err(_) => unreachable!(),
    }
}

// The 64 digits of a digest.
fn digest_digits(digest: &[u8; 32]) -> [u8; 64]
    ensures { result ≡ encode_lower digest.now }
{
    let mut text = [0u8; 64];
    match hex::encode_to_slice(digest, &mut text) {
        Ok(()) => text,
        Err(_) => unreachable!(),
    }
}
