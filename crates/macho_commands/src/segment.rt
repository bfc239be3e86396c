//! A segment's command, with the headers of its sections behind it.
ghost use Rattle.std.specs.Prelude.{◌≡◌, ◌+◌, ◌*◌, ◌<◌, ◌≤◌, ◌^◌, length};
ghost use Rattle.std.specs.List.{flat_map};
ghost use Rattle.macho_bytes.specs.Texts.{put};
ghost use Rattle.macho_records.specs.Layouts.{section_header};
ghost use Rattle.macho_commands.specs.Texts.{text_said};
ghost use Rattle.macho_commands.specs.Commands.{segment_said};
ghost use Rattle.macho_commands.specs.Reading.{IsReadable};
ghost use Rattle.macho_commands.specs.steps.Writing.{EachReadsBack};
ghost use Rattle.macho_bytes.specs.Spellings.{spelling};
ghost use Rattle.macho_records.specs.Spellings.{section_header_rows};

use macho_model::PlacedSegment;
use macho_records::{LC_SEGMENT_64, SectionHeader, SegmentCommand};

/// Writes a segment's command at a place.
pub(crate) fn write_segment(
    segment: &PlacedSegment,
    protection: u32,
    flags: u32,
    headers: &[SectionHeader],
    out: &mut [u8],
    at: usize,
)
    requires small { 72 + 80 * length headers.now < 2 ^ 32 }
    requires room { at + (72 + 80 * length headers.now) ≤ length out.old }
    ensures written { out.new ≡ put at (text_said (segment_said segment.now protection flags headers.now)) out.old }
    ensures long { length (text_said (segment_said segment.now protection flags headers.now)) ≡ 72 + 80 * length headers.now }
    ensures readable { IsReadable (segment_said segment.now protection flags headers.now) }
{
    let record = SegmentCommand {
        cmd: LC_SEGMENT_64,
        cmdsize: (72 + 80 * headers.len()) as u32,
        segname: segment.name.into_bytes(),
        vmaddr: segment.address,
        vmsize: segment.size,
        fileoff: segment.file_offset,
        filesize: segment.file_size,
        maxprot: protection,
        initprot: protection,
        nsects: headers.len() as u32,
        flags,
    };
    record.write(out, at);
    write_headers(headers, out, at + SegmentCommand::SIZE);
}

/// Writes section headers one behind the other.
fn write_headers(headers: &[SectionHeader], out: &mut [u8], at: usize)
    requires { at + 80 * length headers.now ≤ length out.old }
    ensures written { out.new ≡ put at (flat_map (spelling section_header_rows) headers.now) out.old }
    ensures long { length (flat_map (spelling section_header_rows) headers.now) ≡ 80 * length headers.now }
    ensures back { EachReadsBack section_header_rows headers.now }
{
    let mut place = at;
    for header in headers {
        header.write(out, place);
        place += SectionHeader::SIZE;
    }
}
