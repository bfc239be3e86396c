//! The members of output sections: sections and commons, with the alignments that they are placed at.
ghost use Rattle.std.specs.Prelude.{◌≡◌, ◌<◌, ◌^◌, IfOk};
ghost use Rattle.macho_layout.specs.Members.{template_align, placed_align, members_of, first_flags};
ghost use Rattle.macho_records.specs.Sections.{is_template_type};
ghost use Rattle.macho_layout.specs.Names.{merged_count};

use crate::plan::Plan;
use crate::spec::{CommonSpec, SectionSpec};
use macho_records::{
    S_THREAD_LOCAL_REGULAR, S_THREAD_LOCAL_VARIABLES, S_THREAD_LOCAL_ZEROFILL, SectionFlags,
};
use macho_stack::Member;
use std::alloc::{AllocError, Global};

/// The alignment of a pointer, as an exponent of 2.
const POINTER_EXPONENT: u8 = 3;

/// Whether a type is that of initial values of thread-local variables.
pub(crate) fn is_template(kind: u32) -> bool
    ensures { result ≡ is_template_type kind }
{
    kind == S_THREAD_LOCAL_REGULAR || kind == S_THREAD_LOCAL_ZEROFILL
}

/// The alignment that a section is placed at: in the template that of the template, and where thread-local variables are
/// described at least that of a pointer.
pub(crate) fn placed_align(spec: &SectionSpec, template: u8) -> u8
    ensures { result ≡ placed_align template spec.now }
{
    let kind = SectionFlags(spec.flags).typ();
    if is_template(kind) {
        template
    } else if kind == S_THREAD_LOCAL_VARIABLES {
        spec.align.max(POINTER_EXPONENT)
    } else {
        spec.align
    }
}

impl Plan {
    /// The alignment of the template: the greatest of its sections'.
    pub(crate) fn template_align(&self) -> u8
        ensures value { result ≡ template_align self.now }
    {
        let mut align = 0u8;
        for section in &self.sections {
            if is_template(SectionFlags(section.spec.flags).typ()) {
                align = align.max(section.spec.align);
            }
        }
        align
    }

    /// The members: sections, then commons.
    pub(crate) fn members(&self, alloc: Global) -> Result<Vec<Member>, AllocError>
        requires { merged_count self.now < 2 ^ 32 }
        ensures { IfOk result (λ members. members.items ≡ members_of self.now) }
    {
        let template = self.template_align();
        let commons = self.common_output();
        let mut members = Vec::new(alloc);
        for section in &self.sections {
            members.push(Member {
                cell: section.output as u32,
                exponent: placed_align(&section.spec, template),
                flags: section.spec.flags,
                size: section.spec.size,
            })?;
        }
        for common in &self.commons {
            members.push(Member {
                cell: commons as u32,
                exponent: common.align,
                flags: 0,
                size: common.size,
            })?;
        }
        Ok(members)
    }

    /// The flags that output sections begin with: their types.
    pub(crate) fn first_flags(&self, alloc: Global) -> Result<Vec<u32>, AllocError>
        ensures { IfOk result (λ flags. flags.items ≡ first_flags self.now) }
    {
        let mut flags = Vec::new(alloc);
        for number in 0..self.merged_count() {
            flags.push(self.output_at(number).kind)?;
        }
        Ok(flags)
    }
}
