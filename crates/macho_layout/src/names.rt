//! The segments of an image, and the output sections that its sections are merged into.
ghost use Rattle.std.specs.Prelude.{◌≡◌, ◌+◌, ◌^◌, ◌≤◌, ◌++◌, ◌∷◌, [], length, filter, IfOk, OnOk};
ghost use Rattle.macho_records.specs.Segments.{text_of};
ghost use Rattle.macho_model.specs.Segments.{is_known_segment, list_if};
ghost use Rattle.macho_layout.specs.Names.{is_other, has_data_const, has_data, mapped_names, segment_count, has_new_commons, merged_count, output_at, common_output, COMMON_NAME};

use crate::plan::Plan;
use crate::spec::OutputName;
use macho_records::{S_ZEROFILL, SegmentName, name_bytes};
use std::alloc::{AllocError, Global};

/// What the chosen commons are merged into: `__common` of `__DATA`, which is zerofill.
pub(crate) fn common_name() -> OutputName
    ensures { result ≡ COMMON_NAME }
{
    OutputName {
        segment: SegmentName::DATA,
        name: SegmentName::from_bytes(b"__common"),
        kind: S_ZEROFILL,
    }
}

/// Whether a segment has a place of its own in the order.
fn is_known(name: SegmentName) -> bool
    ensures { result ≡ is_known_segment (text_of name) }
{
    let bytes = name.into_bytes();
    let text = name_bytes(&bytes);
    text == b"__PAGEZERO".as_slice()
        || text == b"__TEXT".as_slice()
        || text == b"__DATA_CONST".as_slice()
        || text == b"__DATA".as_slice()
        || text == b"__LINKEDIT".as_slice()
}

impl Plan {
    /// Whether `__DATA_CONST` has a part.
    fn has_data_const(&self) -> bool
        ensures { result ≡ has_data_const self.now }
    {
        !self.slots.is_empty() || self.segments.contains(&SegmentName::DATA_CONST)
    }

    /// Whether `__DATA` has a part.
    fn has_data(&self) -> bool
        ensures { result ≡ has_data self.now }
    {
        !self.commons.is_empty() || self.segments.contains(&SegmentName::DATA)
    }

    /// How many segments the image has, with `__PAGEZERO` and `__LINKEDIT`.
    pub(crate) fn num_segments(&self) -> u64
        ensures { result ≡ segment_count self.now }
    {
        let others = count_others(self.segments.as_slice());
        2 + u64::from(self.has_data_const())
            + u64::from(self.has_data())
            + others as u64
            + u64::from(self.executable)
    }

    /// The segments that are mapped from the file, in order, without `__LINKEDIT`.
    pub(crate) fn mapped_names(&self, alloc: Global) -> Result<Vec<SegmentName>, AllocError>
        ensures { IfOk result (λ names. names.items ≡ mapped_names self.now) }
    {
        let mut names = Vec::new(alloc);
        names.push(SegmentName::TEXT)?;
        push_if(&mut names, self.has_data_const(), SegmentName::DATA_CONST)?;
        push_if(&mut names, self.has_data(), SegmentName::DATA)?;
        push_others(&mut names, self.segments.as_slice())?;
        Ok(names)
    }

    /// Whether commons need an output section that no section is merged into.
    fn has_new_commons(&self) -> bool
        ensures { result ≡ has_new_commons self.now }
    {
        !self.commons.is_empty() && !self.keys.contains(&common_name())
    }

    /// How many output sections sections and commons are merged into.
    pub(crate) fn merged_count(&self) -> usize
        ensures value { result ≡ merged_count self.now }
        ensures small { result ≤ 2 ^ 63 }
    {
        self.keys.len() + usize::from(self.has_new_commons())
    }

    /// What is merged into an output section, by its number.
    pub(crate) fn output_at(&self, number: usize) -> OutputName
        ensures { result ≡ output_at self.now number }
    {
        match self.keys.get_index(number) {
            Some(name) => *name,
            None => common_name(),
        }
    }

    /// The number of the output section that commons are merged into.
    pub(crate) fn common_output(&self) -> usize
        ensures { result ≡ common_output self.now }
    {
        match self.keys.get_index_of(&common_name()) {
            Some(number) => number,
            None => self.keys.len(),
        }
    }
}

/// Adds a name where a test holds.
fn push_if(names: &mut Vec<SegmentName>, holds: bool, name: SegmentName) -> Result<(), AllocError>
    ensures { OnOk result (names.new.items ≡ names.old.items ++ list_if holds (name ∷ [])) }
{
    if holds {
        names.push(name)?;
    }
    Ok(())
}

/// Adds the names without a place of their own in the order.
fn push_others(names: &mut Vec<SegmentName>, segments: &[SegmentName]) -> Result<(), AllocError>
    ensures { OnOk result (names.new.items ≡ names.old.items ++ filter is_other segments.now) }
{
    for name in segments {
        if !is_known(*name) {
            names.push(*name)?;
        }
    }
    Ok(())
}

/// How many names have no place of their own in the order.
fn count_others(segments: &[SegmentName]) -> usize
    ensures count { result ≡ length (filter is_other segments.now) }
    ensures few { result ≤ length segments.now }
{
    segments.iter().filter(|name| !is_known(**name)).count()
}
