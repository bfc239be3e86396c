//! The outside of a linker: the files that it reads and writes, and the places that it prints to.
//!
//! [`Files`] and [`Sink`] say what a device owes. [`MemoryFiles`] and [`MemorySink`] hold all in memory and fail
//! where they are told to; [`SteadyFiles`] and [`SteadySink`] never fail; [`RealFiles`] and [`RealSink`] are the
//! system's own.
#![tactic(auto)]

mod file_system;
mod held_files;
mod memory_files;
mod memory_sink;
mod numbers;
mod output;
mod read;
mod real;
mod write;

pub use crate::file_system::{FileFault, Files};
pub use crate::memory_files::{MemoryFiles, SteadyFiles};
pub use crate::memory_sink::{MemorySink, SteadySink};
pub use crate::output::{Sink, SinkFault};
pub use crate::real::{RealFiles, RealSink};
