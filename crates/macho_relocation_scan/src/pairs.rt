//! A relocation beside its neighbours in the table: which two are one field.
ghost use Rattle.std.specs.Prelude.{◌≡◌, ◌+◌, ◌<◌, nat_lt, if◌then◌else◌, Some, None, IfSome};
ghost use Rattle.macho_wire.specs.Relocations.{BitsFit};
ghost use Rattle.macho_model.specs.Objects.{section_at, relocation_at};
ghost use Rattle.macho_model.specs.Fields.{is_pair};
ghost use Rattle.macho_relocation_scan.specs.steps.Windows.{window_in, this_of, subtracted, with_addend, begins, ends, IsLast};

use macho_arm64::{is_difference, is_with_addend};
use macho_object::RelocationList;
use macho_records::RelocationInfo;

/// A relocation, and those before and behind it in the table.
#[derive(Clone, Copy)]
pub(crate) struct Seen {
    /// The one before it, None for the first.
    pub(crate) before: Option<RelocationInfo>,
    /// The relocation itself.
    pub(crate) this: RelocationInfo,
    /// The one behind it, None for the last.
    pub(crate) next: Option<RelocationInfo>,
}

/// Whether two relocations are one field.
pub(crate) fn is_pair(first: RelocationInfo, second: RelocationInfo) -> bool
    ensures { result ≡ is_pair first second }
{
    is_difference(first, second) || is_with_addend(first, second)
}

/// The relocation before one in a table: the one that was seen last.
fn before(last: Option<Seen>) -> Option<RelocationInfo>
    ensures { result ≡ this_of last }
{
    match last {
        Some(last) => Some(last.this),
        None => None,
    }
}

/// A relocation of a table: the one behind that which was seen last, and the first of the table where none was.
fn here(list: &RelocationList<'_>, index: u32, last: Option<Seen>) -> Option<RelocationInfo>
    requires index { index < (section_at list.now.bytes list.now.section).nreloc }
    requires last { IsLast list.now.bytes list.now.section index last }
    ensures is { result ≡ Some (relocation_at list.now.bytes list.now.section index) }
    ensures bits { IfSome result BitsFit }
{
    match last {
        Some(last) => last.next,
        None => list.get(index),
    }
}

/// The relocation behind one in a table.
fn behind(list: &RelocationList<'_>, index: u32) -> Option<RelocationInfo>
    requires { index < (section_at list.now.bytes list.now.section).nreloc }
    ensures is { result ≡ (if nat_lt (index + 1) (section_at list.now.bytes list.now.section).nreloc
        then Some (relocation_at list.now.bytes list.now.section (index + 1)) else None) }
    ensures bits { IfSome result BitsFit }
{
    let _count = list.num_relocations();
    list.get(index + 1)
}

impl Seen {
    /// Whether a subtrahend stands before it.
    pub(crate) fn has_subtrahend(&self) -> bool
        ensures { result ≡ subtracted self.now }
    {
        match self.before {
            Some(before) => is_difference(before, self.this),
            None => false,
        }
    }

    /// Whether an addend stands before it.
    pub(crate) fn has_addend(&self) -> bool
        ensures { result ≡ with_addend self.now }
    {
        match self.before {
            Some(before) => is_with_addend(before, self.this),
            None => false,
        }
    }

    /// Whether it is the first one of a pair.
    pub(crate) fn begins_pair(&self) -> bool
        ensures { result ≡ begins self.now }
    {
        match self.next {
            Some(next) => is_pair(self.this, next),
            None => false,
        }
    }

    /// Whether it is the second one of a pair.
    pub(crate) fn ends_pair(&self) -> bool
        ensures { result ≡ ends self.now }
    {
        match self.before {
            Some(before) => is_pair(before, self.this),
            None => false,
        }
    }

    /// A relocation of a table, with its neighbours, by what was seen last: the one before it, None where it is the first.
    pub(crate) fn of(list: &RelocationList<'_>, index: u32, last: Option<Seen>) -> Seen
        requires index { index < (section_at list.now.bytes list.now.section).nreloc }
        requires last { IsLast list.now.bytes list.now.section index last }
        ensures seen { result ≡ window_in list.now.bytes list.now.section index }
        ensures bits { BitsFit result.this }
        ensures last { IsLast list.now.bytes list.now.section (index + 1) (Some result) }
    {
        let Some(this) = here(list, index, last) else {
            unreachable!()
        };
        Seen {
            before: before(last),
            this,
            next: behind(list, index),
        }
    }
}
