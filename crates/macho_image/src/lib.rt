//! The linker for callers of a library. [`Linker::new`] takes the arguments; `add_object`, `add_dylib`, `add_stub` and
//! `add_export_list` take what is linked, in order; [`LinkImage::link_image`] answers the bytes of the image, or why there is none.
//! [`Loaded`] reads a finished image as a loader does, and [`write_uuid`] gives one another UUID.
#![tactic(auto)]

mod link;

pub use link::LinkImage;
pub use macho_answer::{ExportName, ImportName, InputFault, LinkError, LinkedImage, Placement};
pub use macho_args::MachOArgs;
pub use macho_linker::{InputView, Linker};
pub use macho_loader::{LoadFault, LoadRule, Loaded, LoadedFixup};
pub use macho_model::{Limit, Site, Target, UnwindRule};
pub use macho_object::{File, ObjectFault, ObjectRule};
pub use macho_records::SegmentCommand;
pub use macho_signature::write_uuid;
pub use macho_stub::StubRule;
