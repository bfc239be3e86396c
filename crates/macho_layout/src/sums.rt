//! The written sum: how long the image may be, from sizes alone.
ghost use Rattle.std.specs.Prelude.{◌≡◌, ◌+◌, ◌<◌, ◌≤◌, ◌^◌, ◌*◌, ◌/◌, length, All, sum_by};
ghost use Rattle.macho_stack.specs.Costs.{cost_of};
ghost use Rattle.macho_layout.specs.Names.{segment_count, merged_count};
ghost use Rattle.macho_layout.specs.Members.{template_align, placed_align, section_member, common_member};
ghost use Rattle.macho_layout.specs.Sums.{fitting, members_cost, output_count, unsigned_sum, written_sum, section_cost};

use crate::members::placed_align;
use crate::plan::Plan;
use crate::spec::{CommonSpec, Planned};
use macho_model::{Counts, FIXUP_RECORDS, SEGMENT_PAGE, SIGNATURE_FIXED, SIGNED_PAGE};

/// A sum with the size of a section or common and twice what its alignment may cost; None from 2^64 on.
fn plus(sum: u64, size: u64, align: u8) -> Option<u64>
    requires { align ≤ 14 }
    ensures { result ≡ fitting (sum + section_cost size align) }
{
    let padding = 2 * ((1u64 << align) - 1);
    sum.checked_add(size)?.checked_add(padding)
}

/// A sum with the signature of so many bytes.
fn with_signature(unsigned: u128, identifier: u64) -> u128
    requires { unsigned < 2 ^ 110 }
    ensures { result ≡ unsigned + 108 + identifier + 32 * (unsigned / 4096 + 1) }
{
    let digests = 32 * (unsigned / u128::from(SIGNED_PAGE) + 1);
    unsigned + u128::from(SIGNATURE_FIXED) + u128::from(identifier) + digests
}

/// What sections cost beside a template of this alignment; None from 2^64 on.
fn sections_cost(sections: &[Planned], template: u8) -> Option<u64>
    requires { All (λ s. placed_align template s.spec ≤ 14) sections.now }
    ensures { result ≡ fitting (sum_by (λ s. section_cost s.spec.size (placed_align template s.spec)) sections.now) }
{
    let mut sum = 0;
    for section in sections {
        let align = placed_align(&section.spec, template);
        sum = plus(sum, section.spec.size, align)?;
    }
    Some(sum)
}

/// A sum with what commons cost; None from 2^64 on.
fn commons_cost(before: u64, commons: &[CommonSpec]) -> Option<u64>
    requires { All (λ c. c.align ≤ 14) commons.now }
    ensures { result ≡ fitting (before + sum_by (λ c. section_cost c.size c.align) commons.now) }
{
    let mut sum = before;
    for common in commons {
        sum = plus(sum, common.size, common.align)?;
    }
    Some(sum)
}

impl Plan {
    /// What sections and commons cost; None from 2^64 on.
    fn members_cost(&self) -> Option<u64>
        ensures { result ≡ fitting (members_cost self.now) }
    {
        let template = self.template_align();
        let sections = sections_cost(&self.sections, template)?;
        commons_cost(sections, &self.commons)
    }

    /// How many output sections the image has.
    pub(crate) fn num_outputs(&self, counts: &Counts) -> u64
        ensures value { result ≡ output_count self.now counts.now }
        ensures small { result < 2 ^ 63 + 5 }
    {
        self.merged_count() as u64
            + u64::from(counts.initializers > 0)
            + u64::from(counts.unwind > 0)
            + u64::from(!self.stubs.is_empty())
            + u64::from(!self.slots.is_empty())
    }

    /// The bytes of the image without its signature, at most.
    fn unsigned_sum(&self, counts: &Counts, members: u64) -> u128
        requires members { members ≡ members_cost self.now }
        requires entries { counts.now.import_size ≤ 8 }
        ensures value { result ≡ unsigned_sum self.now counts.now }
        ensures small { result < 2 ^ 110 }
    {
        let content = u128::from(members)
            + 8 * self.slots.len() as u128
            + 12 * self.stubs.len() as u128
            + 4 * u128::from(counts.initializers)
            + u128::from(counts.unwind);
        let segments = u128::from(self.num_segments());
        let commands = 72 * segments
            + 80 * u128::from(self.num_outputs(counts))
            + u128::from(counts.commands);
        let parts = (self.sections.len() + self.commons.len() + 1) as u128;
        content
            + 32
            + commands
            + u128::from(counts.padding)
            + u128::from(counts.trie)
            + 16 * u128::from(counts.symbols)
            + u128::from(counts.strings)
            + u128::from(FIXUP_RECORDS + 28)
            + u128::from(counts.import_size) * u128::from(counts.imports)
            + u128::from(counts.name_bytes)
            + 2 * (content / u128::from(SEGMENT_PAGE) + parts)
            + 2 * u128::from(SEGMENT_PAGE) * (segments - u128::from(self.executable))
    }

    /// A bound on the bytes of the image, from sizes alone, before any address is known: what the parts have and what
    /// their alignments may cost. None exactly where it is 2^64 or more.
    pub fn written_sum(&self, counts: &Counts) -> Option<u64>
        requires { counts.now.import_size ≤ 8 }
        ensures { result ≡ fitting (written_sum self.now counts.now) }
    {
        let members = self.members_cost()?;
        let unsigned = self.unsigned_sum(counts, members);
        u64::try_from(with_signature(unsigned, counts.identifier)).ok()
    }
}
