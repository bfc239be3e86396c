//! Types that other object formats fill, and that Mach-O leaves empty or plain.

use crate::sections::SectionFlags;
use crate::segments::SegmentName;

/// Indexes without an address: Mach-O has none.
#[derive(Clone, Copy)]
pub struct NonAddressableIndexes {}

/// Versions that a library needs: Mach-O has none.
#[derive(Clone, Copy)]
pub struct VerneedTable {}

/// Values of dynamic tags: Mach-O has none.
#[derive(Clone, Copy)]
pub struct DynamicTagValues {}

/// A section that the linker makes: its segment, flags and least alignment.
#[derive(Clone, Copy)]
pub struct BuiltInSectionDetails {
    /// The segment that it stands in, None for what is in no section.
    pub segment: Option<SegmentName>,
    /// Its flags.
    pub section_flags: SectionFlags,
    /// Its least alignment, as an exponent of 2.
    pub min_alignment: u8,
}

/// The type of a segment: Mach-O has but one.
pub type SegmentType = ();
