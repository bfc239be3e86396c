//! The lines of `-map`.
//!
//! A line tells a placed section: its address, its size, segment and name, and the path of its file, as in
//! `0x0000000100000160 0x0000000000000010 __TEXT,__text main.o`.

ghost use Rattle.std.specs.Prelude.{◌≡◌, ◌<◌, [], ◌∷◌, false, codes, map, IfSome};
ghost use Rattle.std.specs.List.{flat_map};
ghost use Rattle.macho_model.specs.Links.{Link, header_at, carried_of};
ghost use Rattle.macho_model.specs.Objects.{num_sections, section_at};
ghost use Rattle.macho_model.specs.Placement.{id_of};
ghost use Rattle.macho_job.specs.Names.{names_of};
ghost use Rattle.macho_printing.specs.Printing.{IsPrinted, IsPushed, held_in, hex_text};
ghost use Rattle.macho_report.specs.Lines.{map_line};
ghost use Rattle.macho_report.specs.steps.Sections.{HasSection, IsViewed};

use macho_devices::{Sink, SinkFault};
use macho_job::{FileNames, InputView, Linker};
use macho_layout::PlacedSection;
use macho_object::File;
use macho_printing::{LineBuffer, Piece, push_pieces};
use macho_records::{SectionHeader, name_bytes};

/// Prints a line for each placed section. Where the sink fails, nothing more is printed.
pub(crate) fn print_map<O: Sink>(
    out: &mut O,
    linker: &Linker,
    names: &FileNames,
    sections: &[PlacedSection],
) -> Result<(), SinkFault>
    requires { map id_of sections.now ≡ carried_of linker.now }
    ensures { IsPrinted (O.state out.old) (O.state out.new)
        (flat_map (map_line linker.now (names_of names.now)) sections.now) result }
{
    let mut lines = LineBuffer::new();
    push_sections(&mut lines, out, linker, names, sections)?;
    lines.flush(out)
}

// A view of an object, with the number of its file.
#[derive(Drop)]
struct Viewed<'a> {
    file: u32,
    object: File<'a>,
}

// The lines of the placed sections, one behind the other. Those of a file stand together, and each view of it takes a walk over its
// load commands, so the last one is kept.
fn push_sections<O: Sink>(
    lines: &mut LineBuffer,
    out: &mut O,
    linker: &Linker,
    names: &FileNames,
    sections: &[PlacedSection],
) -> Result<(), SinkFault>
    requires { map id_of sections.now ≡ carried_of linker.now }
    ensures { IsPushed (O.state out.old) (O.state out.new)
        (held_in lines.old) (held_in lines.new)
        (flat_map (map_line linker.now (names_of names.now)) sections.now) result }
{
    let mut last = None;
    for index in 0..sections.len() {
        let section = &sections[index];
        let viewed = view_of(linker, section, last);
        let header = header_of(&viewed.object, section);
        push_section(lines, out, names, section, header)?;
        last = Some(viewed);
    }
    Ok(())
}

// The view of a placed section's object: the last one, if it is of that file.
fn view_of<'a>(linker: &'a Linker, section: &PlacedSection, last: Option<Viewed<'a>>) -> Viewed<'a>
    requires there { HasSection linker.now (id_of section.now) }
    requires last { IfSome last (λ viewed. IsViewed linker.now viewed.file viewed.object) }
    ensures file { result.file ≡ section.now.file }
    ensures viewed { IsViewed linker.now result.file result.object }
{
    if let Some(viewed) = last {
        if viewed.file == section.file {
            return viewed;
        }
    }
    Viewed {
        file: section.file,
        object: object_of(linker, section),
    }
}

// The object of a placed section, viewed anew.
fn object_of<'a>(linker: &'a Linker, section: &PlacedSection) -> File<'a>
    requires { HasSection linker.now (id_of section.now) }
    ensures { IsViewed linker.now section.now.file result }
{
    match linker.input(section.file) {
        Some(InputView::Object(file)) => file,
        _ => unreachable!(),
    }
}

// The header of a placed section in its object.
fn header_of(object: &File<'_>, section: &PlacedSection) -> SectionHeader
    requires kind { object.now.is_dynamic ≡ false }
    requires there { section.now.section < num_sections object.now.bytes }
    ensures { result ≡ section_at object.now.bytes section.now.section }
{
    match object.section(section.section) {
        Some(header) => header,
        None => unreachable!(),
    }
}

// The line of a placed section with this header.
fn push_section<O: Sink>(
    lines: &mut LineBuffer,
    out: &mut O,
    names: &FileNames,
    section: &PlacedSection,
    header: SectionHeader,
) -> Result<(), SinkFault>
    ensures { (l : Link) → header ≡ header_at l (id_of section.now)
        → IsPushed (O.state out.old) (O.state out.new)
        (held_in lines.old) (held_in lines.new) (map_line l (names_of names.now) section.now) result }
{
    let segment = name_bytes(&header.segname);
    let name = name_bytes(&header.sectname);
    let path = names.path(section.file);
    push_row(
        lines,
        out,
        section.address,
        header.size,
        segment,
        name,
        path,
    )
}

// A row of the map.
fn push_row<'a, O: Sink>(
    lines: &mut LineBuffer,
    out: &mut O,
    address: u64,
    size: u64,
    segment: &'a [u8],
    name: &'a [u8],
    path: &'a [u8],
) -> Result<(), SinkFault>
    ensures { IsPushed (O.state out.old) (O.state out.new)
        (held_in lines.old) (held_in lines.new)
        (flat_map (λ piece. piece) (hex_text address ∷ codes " " ∷ hex_text size ∷ codes " " ∷ segment.now ∷ codes "," ∷ name.now
        ∷ codes " " ∷ path.now ∷ codes "\n" ∷ [])) result }
{
    let pieces = [
        Piece::Address(address),
        Piece::Text(b" "),
        Piece::Address(size),
        Piece::Text(b" "),
        Piece::Text(segment),
        Piece::Text(b","),
        Piece::Text(name),
        Piece::Text(b" "),
        Piece::Text(path),
        Piece::Text(b"\n"),
    ];
    push_pieces(lines, out, &pieces)
}
