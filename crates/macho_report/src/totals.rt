//! The lines of `-generate`: how many objects were made, how many words the loader fixes up, how many bytes the image has, and
//! their digest.

ghost use Rattle.std.specs.Prelude.{◌≡◌, Some, None, IsOk};
ghost use Rattle.sha2.specs.Sha256.{sha256};
ghost use Rattle.macho_report.specs.Lines.{totals};
ghost use Rattle.macho_printing.specs.Printing.{IsPrinted};

use macho_devices::{Sink, SinkFault};
use macho_job::LinkedImage;
use macho_printing::{Piece, print_pieces};
use sha2::{Digest, Sha256};

/// Prints the lines of `-generate`, where that was given with a `count`. Where the sink fails, nothing more is printed.
pub(crate) fn print_totals<O: Sink>(
    out: &mut O,
    count: Option<u32>,
    image: &LinkedImage,
) -> Result<(), SinkFault>
    ensures printed { IsPrinted (O.state out.old) (O.state out.new) (totals count image.now) result }
    ensures silent { count ≡ None → IsOk result × (out.new ≡ out.old) }
{
    match count {
        Some(count) => print_numbers(out, count, image),
        None => Ok(()),
    }
}

fn print_numbers<O: Sink>(out: &mut O, count: u32, image: &LinkedImage) -> Result<(), SinkFault>
    ensures { IsPrinted (O.state out.old) (O.state out.new)
        (totals (Some count) image.now) result }
{
    let bytes = image.bytes.as_slice();
    let digest = digest_of(bytes);
    let pieces = [
        Piece::Text(b"objects "),
        Piece::Number(u64::from(count)),
        Piece::Text(b"\nfixups "),
        Piece::Number(image.fixups),
        Piece::Text(b"\nlength "),
        Piece::Number(bytes.len() as u64),
        Piece::Text(b"\nsha256 "),
        Piece::Digest(&digest),
        Piece::Text(b"\n"),
    ];
    print_pieces(out, &pieces)
}

fn digest_of(bytes: &[u8]) -> [u8; 32]
    ensures { result ≡ sha256 bytes.now }
{
    let mut hasher = Sha256::new();
    hasher.update(bytes);
    hasher.finalize()
}
