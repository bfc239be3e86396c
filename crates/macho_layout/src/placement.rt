//! A placement as a linker answers it.

use macho_model::{Linkedit, PlacedCommon, PlacedSection, PlacedSegment, Range64, Slot, Stub};
use macho_records::SectionHeader;

/// Where each part of an image stands: in memory by addresses, in the file by offsets.
#[derive(Drop)]
pub struct Placement {
    /// The address of the image's first byte.
    pub base: u64,
    /// The segments, in the order of their load commands.
    pub segments: Vec<PlacedSegment>,
    /// The carried sections, by file, then section.
    pub sections: Vec<PlacedSection>,
    /// The chosen commons, by number.
    pub commons: Vec<PlacedCommon>,
    /// The slots of the global offset table, by number.
    pub slots: Vec<Slot>,
    /// The stubs, by number.
    pub stubs: Vec<Stub>,
    /// The section headers of the image, segment by segment.
    pub output_sections: Vec<SectionHeader>,
    /// The offsets of initializers, in addresses; empty where there are none.
    pub init_offsets: Range64,
    /// The unwind information, in addresses; empty where there is none.
    pub unwind: Range64,
    /// The initial values of thread-local variables, in addresses, where there are any.
    pub template: Option<Range64>,
    /// The tables of `__LINKEDIT`, in file offsets.
    pub linkedit: Linkedit,
}
