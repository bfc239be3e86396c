//! The section headers of the image.
ghost use Rattle.std.specs.Prelude.{◌≡◌, ◌≤◌, length, IfOk, map};
ghost use Rattle.macho_layout.specs.Headers.{made_title, title_of, header_of, file_offset_of};

use crate::cells::{MADE_INIT_OFFSETS, MADE_STUBS, MADE_UNWIND_INFO};
use crate::plan::Plan;
use crate::spec::OutputName;
use macho_model::PlacedSegment;
use macho_records::{
    S_ATTR_EXT_RELOC, S_ATTR_LOC_RELOC, S_ATTR_PURE_INSTRUCTIONS, S_ATTR_SOME_INSTRUCTIONS,
    S_INIT_FUNC_OFFSETS, S_NON_LAZY_SYMBOL_POINTERS, S_SYMBOL_STUBS, SectionHeader, SegmentName,
    is_zerofill_type,
};
use macho_stack::{CLASSES, Extent, PlacedCell};
use std::alloc::{AllocError, Global};

/// All flags but those that tell of relocations in an object.
const KEPT_FLAGS: u32 = u32::MAX - S_ATTR_EXT_RELOC - S_ATTR_LOC_RELOC;

/// The name, the flags and the size of a stub, as an output section's header tells them.
#[derive(Clone, Copy)]
pub(crate) struct Title {
    /// Segment, name and type.
    pub name: OutputName,
    /// Type and attributes.
    pub flags: u32,
    /// The bytes of a stub, 0 where it holds none.
    pub stub_size: u32,
}

fn made_title(segment: SegmentName, name: &[u8], flags: u32, stub_size: u32) -> Title
    requires { length name.now ≤ 16 }
    ensures { result ≡ made_title segment name.now flags stub_size }
{
    let name = OutputName {
        segment,
        name: SegmentName::from_bytes(name),
        kind: flags & 0xff,
    };
    Title {
        name,
        flags,
        stub_size,
    }
}

impl Plan {
    /// The title of an output section, by its number.
    fn title(&self, extents: &[Extent], number: usize) -> Title
        ensures { result ≡ title_of self.now extents.now number }
    {
        if let Some(extent) = extents.get(number) {
            return Title {
                name: self.output_at(number),
                flags: extent.flags & KEPT_FLAGS,
                stub_size: 0,
            };
        }
        let made = number - extents.len();
        if made == MADE_INIT_OFFSETS as usize {
            made_title(SegmentName::TEXT, b"__init_offsets", S_INIT_FUNC_OFFSETS, 0)
        } else if made == MADE_UNWIND_INFO as usize {
            made_title(SegmentName::TEXT, b"__unwind_info", 0, 0)
        } else if made == MADE_STUBS as usize {
            let flags = S_SYMBOL_STUBS + S_ATTR_PURE_INSTRUCTIONS + S_ATTR_SOME_INSTRUCTIONS;
            made_title(SegmentName::TEXT, b"__stubs", flags, 12)
        } else {
            made_title(
                SegmentName::DATA_CONST,
                b"__got",
                S_NON_LAZY_SYMBOL_POINTERS,
                0,
            )
        }
    }

    /// The header of a placed output section.
    fn header(
        &self,
        extents: &[Extent],
        segments: &[PlacedSegment],
        one: &PlacedCell,
    ) -> SectionHeader
        ensures { result ≡ header_of self.now extents.now segments.now one.now }
    {
        let title = self.title(extents, one.cell.number as usize);
        SectionHeader {
            sectname: title.name.name.into_bytes(),
            segname: title.name.segment.into_bytes(),
            addr: one.start,
            size: one.cell.size,
            offset: if is_zerofill_type(title.name.kind) {
                0
            } else {
                file_offset(segments, one)
            },
            align: u32::from(one.cell.exponent),
            reloff: 0,
            nreloc: 0,
            flags: title.flags,
            reserved1: 0,
            reserved2: title.stub_size,
            reserved3: 0,
        }
    }

    /// The headers of the placed output sections, in order.
    pub(crate) fn headers(
        &self,
        alloc: Global,
        extents: &[Extent],
        segments: &[PlacedSegment],
        placed: &[PlacedCell],
    ) -> Result<Vec<SectionHeader>, AllocError>
        ensures { IfOk result (λ headers. headers.items ≡ map (header_of self.now extents.now segments.now) placed.now) }
    {
        let mut headers = Vec::new(alloc);
        for one in placed {
            headers.push(self.header(extents, segments, one))?;
        }
        Ok(headers)
    }
}

/// The file offset of an output section, by its segment; its low 32 bits, where the file is longer.
fn file_offset(segments: &[PlacedSegment], one: &PlacedCell) -> u32
    ensures { result ≡ file_offset_of segments.now one.now }
{
    match segments.get((one.cell.rank / CLASSES) as usize) {
        Some(segment) => {
            let offset = one
                .start
                .wrapping_sub(segment.address)
                .wrapping_add(segment.file_offset);
            (offset % 0x1_0000_0000) as u32
        }
        None => 0,
    }
}
