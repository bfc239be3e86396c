//! The parts of a link that get addresses, and what sections are merged by.
ghost use Rattle.std.specs.Prelude.{◌≡◌};
ghost use Rattle.macho_layout.specs.Keys.{output_key_of, segment_key_of};

use macho_records::{SectionFlags, SegmentName};

/// A carried section of an object.
#[derive(Clone, Copy)]
pub struct SectionSpec {
    /// The number of its file.
    pub file: u32,
    /// Its number in the file, from 0.
    pub section: u32,
    /// The name of its segment.
    pub segment: SegmentName,
    /// Its name, filled with zeros.
    pub name: [u8; 16],
    /// Its type and attributes.
    pub flags: u32,
    /// Its alignment, as an exponent of 2.
    pub align: u8,
    /// Its bytes.
    pub size: u64,
}

/// A chosen common.
#[derive(Clone, Copy)]
pub struct CommonSpec {
    /// Its number among the chosen commons.
    pub id: u32,
    /// Its bytes, rounded up to its alignment.
    pub size: u64,
    /// Its alignment, as an exponent of 2.
    pub align: u8,
}

/// A stub.
#[derive(Clone, Copy)]
pub struct StubSpec {
    /// The number of the import that it goes on to.
    pub import: u32,
    /// The number of the slot that it goes through.
    pub slot: u32,
}

/// What sections are merged by: segment, name and type.
#[derive(Clone, Copy, PartialEq, Eq, Hash)]
pub struct OutputName {
    /// The segment.
    pub segment: SegmentName,
    /// The name.
    pub name: SegmentName,
    /// The type.
    pub kind: u32,
}

/// A section, and the number of the output section that it is merged into.
#[derive(Clone, Copy)]
pub struct Planned {
    /// The section.
    pub spec: SectionSpec,
    /// The number of the output section, as first seen.
    pub output: usize,
}

impl SectionSpec {
    /// The segment, with zeros behind the first NUL of its name.
    pub(crate) fn segment_key(&self) -> SegmentName
        ensures { result ≡ segment_key_of self.now }
    {
        SegmentName::from_bytes(&self.segment.into_bytes())
    }

    /// What the section is merged by.
    pub(crate) fn output_key(&self) -> OutputName
        ensures { result ≡ output_key_of self.now }
    {
        OutputName {
            segment: self.segment_key(),
            name: SegmentName::from_bytes(&self.name),
            kind: SectionFlags(self.flags).typ(),
        }
    }
}
