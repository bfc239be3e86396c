//! What an image says, as a value: its segments, libraries, imports, exports, and what the loader makes of each word on its
//! chains. Any image is read that the loader accepts, whoever linked it; every other file is refused, with the rule that it
//! breaks and the place. [`run`] reads the file that a word names, and prints a line for each item.
#![tactic(auto)]

mod exports;
mod inspecting;
mod lines;
mod report;
mod running;

pub use inspecting::inspect;
pub use macho_devices::{
    FileFault, Files, MemoryFiles, MemorySink, RealFiles, RealSink, Sink, SinkFault, SteadyFiles,
    SteadySink,
};
pub use macho_loader::{FixupLine, LineKind, LoadFault, LoadRule, rule_text};
pub use macho_records::SegmentName;
pub use report::{ExportLine, Exports, ImportLine, InspectFault, Report, SegmentLine};
pub use running::{ToolFault, ToolRan, run};
