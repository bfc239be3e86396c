//! The linker's top call.
//!
//! [`run`] links what the words of a command line say, and answers the image and the status; [`prepare`] answers what would be
//! linked. The devices that they read and print to are handed on from `macho_devices`; why they fail, the linker without files, and
//! what a run is made of besides it, from the crates of the job.
#![tactic(auto)]

mod passes;
mod preparing;

pub use crate::passes::{Ran, run};
pub use crate::preparing::{Job, prepare};
pub use macho_answer::{LinkError, LinkedImage};
pub use macho_devices::{
    FileFault, Files, MemoryFiles, MemorySink, RealFiles, RealSink, Sink, SinkFault, SteadyFiles,
    SteadySink,
};
pub use macho_linking::link;
pub use macho_report::{
    Fault, FileNames, InputKind, Linker, gather, print_fault, print_lines, uuid_of,
};
