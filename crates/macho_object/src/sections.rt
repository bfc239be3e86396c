//! An object's sections: their headers, and the rules that each keeps.
ghost use Rattle.std.specs.Prelude.{◌≡◌, ℕ, ◌+◌, ◌<◌, ◌≤◌, ◌*◌, ◌^◌, ◌&&◌, ◌||◌, nat_le, true, false, OnOk, IfErr, MatchOption, codes, length};
ghost use Rattle.macho_model.specs.Objects.{section_at, section_bytes, section_place};
ghost use Rattle.macho_model.specs.ObjectRules.{is_thread_local};
ghost use Rattle.macho_model.specs.Grammar.{ObjectBreaks};
ghost use Rattle.macho_model.specs.Links.{is_carried};
ghost use Rattle.macho_records.specs.Sections.{is_zerofill, type_of};
ghost use Rattle.macho_object.specs.steps.Outlines.{IsOutlined};
ghost use Rattle.macho_object.specs.steps.Checks.{SectionFits, SectionsFit, SectionBreaks};

use crate::fault::ObjectFault;
use crate::outline::Outline;
use macho_model::ObjectRule;
use macho_records::{
    RelocationInfo, S_THREAD_LOCAL_REGULAR, S_THREAD_LOCAL_VARIABLES, S_THREAD_LOCAL_ZEROFILL,
    SectionFlags, SectionHeader, SegmentCommand, name_bytes,
};

/// The greatest alignment that is taken, as an exponent of 2: a page of 16 KiB.
pub(crate) const GREATEST_EXPONENT: u32 = 14;

/// Whether a section goes into the image as it is.
pub fn is_carried(header: SectionHeader) -> bool
    ensures { result ≡ is_carried header }
{
    let name = name_bytes(&header.sectname);
    !header.should_exclude()
        && name != b"__mod_init_func".as_slice()
        && name != b"__compact_unwind".as_slice()
}

impl<'data> Outline<'data> {
    /// The place of a section's header.
    pub(crate) fn section_place(&self, index: u32) -> usize
        requires outlined { IsOutlined self.now }
        requires among { index < self.now.num_sections }
        ensures { result ≡ section_place self.now.input.now index }
    {
        self.places.main + SegmentCommand::SIZE + SectionHeader::SIZE * index as usize
    }

    /// A section's header.
    #[tactic(auto, unfolding(macho_model::specs::Objects::section_at))]
    pub(crate) fn section(&self, index: u32) -> SectionHeader
        requires outlined { IsOutlined self.now }
        requires among { index < self.now.num_sections }
        ensures { result ≡ section_at self.now.input.now index }
    {
        match SectionHeader::read(self.input, self.section_place(index)) {
            Some(header) => header,
            None => unreachable!(),
        }
    }

    /// A section's bytes in the input, none for zerofill.
    #[tactic(auto, unfolding(macho_model::specs::Objects::section_bytes))]
    pub(crate) fn section_bytes(&self, index: u32) -> &'data [u8]
        requires outlined { IsOutlined self.now }
        requires among { index < self.now.num_sections }
        requires fits { SectionFits self.now.input.now index }
        ensures { result.now ≡ section_bytes self.now.input.now index }
    {
        let header = self.section(index);
        if header.is_no_bits() {
            return &[];
        }
        let start = header.offset as usize;
        &self.input[start..start + header.size as usize]
    }

    /// A section's alignment in bytes.
    #[tactic(auto, using(crate::proofs::Powers::shifted))]
    pub(crate) fn section_alignment(&self, index: u32) -> u64
        requires outlined { IsOutlined self.now }
        requires among { index < self.now.num_sections }
        requires fits { SectionFits self.now.input.now index }
        ensures { result ≡ 2 ^ (section_at self.now.input.now index).align }
    {
        1 << self.section(index).align
    }

    /// Whether each section of an object keeps its rules.
    pub(crate) fn check_sections(&self) -> Result<(), ObjectFault>
        requires { IsOutlined self.now }
        ensures ok { OnOk result (SectionsFit self.now.input.now self.now.num_sections) }
        ensures why { IfErr result (λ f. ObjectBreaks self.now.input.now f.rule f.place) }
    {
        for index in 0..self.num_sections {
            self.check_section(index)?;
        }
        Ok(())
    }

    #[tactic(auto, using(crate::proofs::Breaks::section_breaks))]
    fn check_section(&self, index: u32) -> Result<(), ObjectFault>
        requires outlined { IsOutlined self.now }
        requires among { index < self.now.num_sections }
        ensures ok { OnOk result (SectionFits self.now.input.now index) }
        ensures why { IfErr result (λ f. ObjectBreaks self.now.input.now f.rule f.place) }
    {
        match self.broken_in_section(index) {
            None => Ok(()),
            Some(rule) => Err(ObjectFault {
                place: self.section_place(index) as u64,
                rule,
            }),
        }
    }

    /// The first rule that a section breaks.
    fn broken_in_section(&self, index: u32) -> Option<ObjectRule>
        requires outlined { IsOutlined self.now }
        requires among { index < self.now.num_sections }
        ensures { MatchOption result (SectionFits self.now.input.now index) (SectionBreaks self.now.input.now index) }
    {
        let header = self.section(index);
        let length = self.input.len() as u64;
        if !data_fits(header, length) {
            Some(ObjectRule::O6)
        } else if header.align > GREATEST_EXPONENT {
            Some(ObjectRule::O7)
        } else if !relocations_fit(header, length) {
            Some(ObjectRule::O10)
        } else if is_thread_local(header) && name_bytes(&header.segname) != b"__DATA".as_slice() {
            Some(ObjectRule::O11)
        } else if header.is_no_bits() && header.nreloc != 0 {
            Some(ObjectRule::O12)
        } else {
            None
        }
    }
}

/// Whether a section's data stands in a file of this length, and its addresses end at 2^64 at most.
fn data_fits(header: SectionHeader, length: u64) -> bool
    ensures { result ≡ ((is_zerofill header || nat_le (header.offset + header.size) length)
        && nat_le (header.addr + header.size) (2 ^ 64)) }
{
    let offset = u64::from(header.offset);
    let in_file = header.is_no_bits() || offset <= length && header.size <= length - offset;
    in_file && (header.size == 0 || header.addr <= u64::MAX - (header.size - 1))
}

/// Whether a section's relocations stand in a file of this length.
fn relocations_fit(header: SectionHeader, length: u64) -> bool
    ensures { result ≡ nat_le (header.reloff + 8 * header.nreloc) length }
{
    u64::from(header.reloff) + RelocationInfo::SIZE as u64 * u64::from(header.nreloc) <= length
}

/// Whether a section has thread-local variables, or their first values.
fn is_thread_local(header: SectionHeader) -> bool
    ensures { result ≡ is_thread_local (type_of header) }
{
    let section_type = SectionFlags(header.flags).typ();
    section_type == S_THREAD_LOCAL_REGULAR
        || section_type == S_THREAD_LOCAL_ZEROFILL
        || section_type == S_THREAD_LOCAL_VARIABLES
}
