//! The end of a run: its status, and the line of its fault.

ghost use Rattle.std.specs.Prelude.{◌≡◌};
ghost use Rattle.std.specs.Result.{result_err};
ghost use Rattle.macho_devices.specs.Faults.{CountsOn};
ghost use Rattle.macho_printing.specs.Printing.{IsPrinted};
ghost use Rattle.macho_tools.specs.Runs.{status_of, status_line, IsEndTold};

use crate::fault::{ToolFault, ToolRan};
use macho_devices::{Sink, SinkFault};
use macho_printing::{Piece, print_pieces};

/// What a run answers that ends so. The line of a fault is printed to `err`; where that fails, the answer stays the same.
pub fn ended<T, E: Sink>(err: &mut E, name: &str, answer: Result<(), ToolFault<T>>) -> ToolRan<T>
    ensures fault { result.fault ≡ result_err answer }
    ensures status { result.status ≡ status_of result.fault }
    ensures told { IsEndTold name.now (E.state err.old) (E.state err.new) result.fault }
    ensures counted { CountsOn (E.state err.old).failed (E.state err.new).failed }
{
    match answer {
        Ok(()) => ToolRan {
            status: 0,
            fault: None,
        },
        Err(fault) => {
            let status = fault.status();
            let _ = print_status(err, name, status);
            ToolRan {
                status,
                fault: Some(fault),
            }
        }
    }
}

// Prints the line of a fault.
fn print_status<E: Sink>(err: &mut E, name: &str, status: u8) -> Result<(), SinkFault>
    ensures { IsPrinted (E.state err.old) (E.state err.new) (status_line name.now status) result }
{
    let pieces = [
        Piece::Text(name.as_bytes()),
        Piece::Text(b": status "),
        Piece::Number(u64::from(status)),
        Piece::LineFeed,
    ];
    print_pieces(err, &pieces)
}
