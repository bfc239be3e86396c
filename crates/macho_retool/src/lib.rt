//! A name in the head of an image is changed, and the image signed again. [`run`] does it to the file that a word names.
//!
//! A library has a name of its own, an image names the libraries that it needs and the directories where they are looked for. Each name
//! stands in a load command (`mach-o/loader.h`). Behind the load commands is room: zeros up to the first section. A longer name takes
//! of it, a shorter one gives some back:
//!
//!     0     header           the bytes of the load commands: 736 -> 728
//!     32    load commands    .. LOAD_DYLIB `/usr/lib/libSystem.B.dylib`, 56 bytes -> `/usr/lib/libOther.dylib`, 48 bytes
//!           ..               those behind it move by 8 bytes to the front
//!     760   ..               8 bytes are zero
//!     768   `__text`         as before
//!
//! Whatever else the loader reads stays as it was. Last, each page of the file gets its digest anew.
#![tactic(auto)]

mod change;
mod commands;
mod form;
mod parts;
mod retooling;
mod rewriting;
mod room;
mod running;

pub use change::{Change, RetoolFault};
pub use macho_devices::{
    FileFault, Files, MemoryFiles, MemorySink, RealFiles, RealSink, Sink, SinkFault, SteadyFiles,
    SteadySink,
};
pub use macho_loader::{LoadFault, LoadRule, rule_text};
pub use retooling::retool;
pub use running::{ToolFault, ToolRan, run};
