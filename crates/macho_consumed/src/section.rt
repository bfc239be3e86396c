//! A section of an object, with what is read of it.
ghost use Rattle.std.specs.Prelude.{◌≡◌, ℕ, ◌<◌, true, false, IfOk};
ghost use Rattle.macho_model.specs.Objects.{num_sections, section_at, relocation_at};
ghost use Rattle.macho_model.specs.Consumed.{is_plain_pointer};
ghost use Rattle.macho_consumed.specs.steps.Places.{ArePlaces};
ghost use Rattle.macho_consumed.specs.steps.Entries.{NamesSection};
ghost use Rattle.macho_consumed.specs.steps.Slots.{ExternsExist, AreInside};

use crate::places::{Places, by_place};
use macho_object::{File, RelocationList};
use macho_records::{RelocationInfo, SectionHeader};
use std::alloc::{AllocError, Global};
use std::marker::Model;

/// A section of an object.
#[derive(Drop)]
pub(crate) struct Section<'view, 'data> {
    pub(crate) file: &'view File<'data>,
    pub(crate) number: u32,
    pub(crate) header: SectionHeader,
    pub(crate) bytes: &'data [u8],
    pub(crate) relocations: RelocationList<'data>,
}

impl<'view, 'data> Model for Section<'view, 'data> {
    ghost use Rattle.macho_object.specs.Views.{RelocationBytes};

    ghost Value = { RelocationBytes };

    ghost view = { λ s. s.relocations };

    ghost use Rattle.macho_consumed.specs.steps.Sections.{IsRead};

    ghost invariant = { λ s. IsRead s.file.now s.number s.header s.bytes.now s.relocations };
}

impl Section<'_, '_> {
    /// Its relocations, by place.
    pub(crate) fn places(&self, alloc: Global) -> Result<Places, AllocError>
        ensures { IfOk result (ArePlaces self.now.bytes self.now.section) }
    {
        by_place(alloc, &self.relocations, self.header.size)
    }

    /// A relocation that the table has.
    pub(crate) fn relocation(&self, number: u32) -> RelocationInfo
        requires { number < (section_at self.now.bytes self.now.section).nreloc }
        ensures is { result ≡ relocation_at self.now.bytes self.now.section number }
        ensures names { is_plain_pointer (relocation_at self.now.bytes self.now.section number) ≡ true
            → NamesSection self.now.bytes result }
    {
        match self.relocations.get(number) {
            Some(relocation) => relocation,
            None => unreachable!(),
        }
    }
}

/// A section of an object, by its number.
pub(crate) fn section_of<'view, 'data>(
    file: &'view File<'data>,
    index: u32,
) -> Section<'view, 'data>
    requires kind { file.now.is_dynamic ≡ false }
    requires among { index < num_sections file.now.bytes }
    ensures is { result ≡ record { bytes = file.now.bytes; section = index } }
    ensures symbols { ExternsExist file.now.bytes index }
    ensures inside { AreInside file.now.bytes index }
{
    // (the contract of this call says that the file keeps the rules of objects)
    let _whole = file.is_dynamic();
    let Some(header) = file.section(index) else {
        unreachable!()
    };
    let Some(bytes) = file.section_bytes(index) else {
        unreachable!()
    };
    let Some(relocations) = file.relocations(index) else {
        unreachable!()
    };
    Section {
        file,
        number: index,
        header,
        bytes,
        relocations,
    }
}
