//! The file that a tool reads, and the one that it writes.

ghost use Rattle.std.specs.Prelude.{Some, IfOk, IfErr, OnOk};
ghost use Rattle.macho_devices.specs.Devices.{ReadsFile, WritesFile, OnlyReads, OnlyWrites};
ghost use Rattle.macho_tools.specs.Runs.{ReadFails, WriteFails};

use crate::fault::ToolFault;
use macho_devices::{FileFault, Files};
use std::alloc::Global;

/// The bytes of the file under the path that stands in a word.
pub fn read_word<F: Files, T>(
    alloc: Global,
    files: &mut F,
    word: u32,
    path: &str,
) -> Result<Vec<u8>, ToolFault<T>>
    ensures found { IfOk result (λ bytes. ReadsFile (F.state files.old).files path.now (Some bytes.items)) }
    ensures why { IfErr result (ReadFails (F.state files.old) (F.state files.new) word path.now) }
    ensures kept { OnlyReads (F.state files.old) (F.state files.new) }
{
    match files.read(alloc, path) {
        Ok(Some(bytes)) => Ok(bytes),
        Ok(None) => Err(ToolFault::MissingFile { word }),
        Err(FileFault::Failed) => Err(ToolFault::Read { word }),
        Err(FileFault::OutOfMemory) => Err(ToolFault::OutOfMemory),
    }
}

/// Makes the output path hold the answer.
pub fn write_answer<F: Files, T>(
    files: &mut F,
    path: &str,
    bytes: &[u8],
) -> Result<(), ToolFault<T>>
    ensures done { OnOk result (WritesFile (F.state files.old).files (F.state files.new).files path.now bytes.now) }
    ensures why { IfErr result (WriteFails (F.state files.old) (F.state files.new) path.now bytes.now) }
    ensures kept { OnlyWrites (F.state files.old) (F.state files.new) }
{
    match files.write(path, bytes) {
        Ok(()) => Ok(()),
        Err(FileFault::Failed) => Err(ToolFault::Write),
        Err(FileFault::OutOfMemory) => Err(ToolFault::OutOfMemory),
    }
}
