//! Where a section comes from: its object, its bytes and relocations there, and its place.
ghost use Rattle.std.specs.Prelude.{◌≡◌, ◌+◌, ◌^◌, ◌<◌, ◌≤◌, false};
ghost use Rattle.macho_records.specs.Sections.{is_zerofill};
ghost use Rattle.macho_model.specs.Objects.{num_sections, section_at};
ghost use Rattle.macho_fields.specs.steps.Filled.{IsSource};

use macho_model::PlacedSection;
use macho_object::{File, RelocationList};
use macho_records::{S_THREAD_LOCAL_VARIABLES, SectionFlags};

/// Where a section comes from.
#[derive(Drop)]
pub(crate) struct Source<'a, 'data> {
    /// Its object.
    pub file: &'a File<'data>,
    /// Its relocations there.
    pub list: RelocationList<'data>,
    /// Its bytes there.
    pub bytes: &'a [u8],
    /// Where it is placed: its segment, and the address of its first byte.
    pub place: PlacedSection,
    /// Whether it describes thread-local variables.
    pub descriptors: bool,
}

/// Where a section of an object comes from, with bytes of its own.
pub(crate) fn source_of<'a, 'data>(file: &'a File<'data>, place: PlacedSection) -> Source<'a, 'data>
    requires object { file.now.is_dynamic ≡ false }
    requires among { place.section < num_sections file.now.bytes }
    requires filled { is_zerofill (section_at file.now.bytes place.section) ≡ false }
    requires low { place.address + (section_at file.now.bytes place.section).size ≤ 2 ^ 64 }
    ensures source { IsSource result }
    ensures bytes { result.file.now.bytes ≡ file.now.bytes }
    ensures place { result.place ≡ place }
{
    let _object = file.is_dynamic();
    let (Some(header), Some(bytes), Some(list)) = (
        file.section(place.section),
        file.section_bytes(place.section),
        file.relocations(place.section),
    ) else {
        unreachable!()
    };
    Source {
        file,
        list,
        bytes,
        place,
        descriptors: SectionFlags(header.flags).typ() == S_THREAD_LOCAL_VARIABLES,
    }
}
