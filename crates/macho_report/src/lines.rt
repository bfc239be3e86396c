//! All that a run prints besides a fault.

ghost use Rattle.std.specs.Prelude.{◌≡◌, map, [], if◌then◌else◌, false, None, IsOk};
ghost use Rattle.std.specs.List.{flat_map};
ghost use Rattle.macho_args.specs.Settings.{settings_of};
ghost use Rattle.macho_model.specs.Links.{carried_of};
ghost use Rattle.macho_model.specs.Placement.{id_of};
ghost use Rattle.macho_job.specs.Names.{names_of};
ghost use Rattle.macho_report.specs.Lines.{map_line, run_lines};
ghost use Rattle.macho_printing.specs.Printing.{IsPrinted};

use crate::map::print_map;
use crate::totals::print_totals;
use macho_args::MachOArgs;
use macho_devices::{Sink, SinkFault};
use macho_job::{FileNames, LinkedImage, Linker};
use macho_layout::PlacedSection;

/// Prints the lines of `-map`, where it was given, and then those of `-generate`. Where the sink fails, nothing more is printed.
///
/// # Errors
///
/// The sink failed; it took the first of the text.
pub fn print_lines<O: Sink>(
    out: &mut O,
    args: &MachOArgs,
    linker: &Linker,
    names: &FileNames,
    image: &LinkedImage,
) -> Result<(), SinkFault>
    requires { map id_of image.now.placement.sections.items ≡ carried_of linker.now }
    ensures printed { IsPrinted (O.state out.old) (O.state out.new)
        (run_lines (settings_of args.now) linker.now (names_of names.now) image.now) result }

    // Where no lines are asked for, nothing is printed.
    ensures silent { (settings_of args.now).map_lines ≡ false → (settings_of args.now).generate ≡ None → IsOk result × (out.new ≡ out.old) }
{
    print_wanted(out, args.map, linker, names, &image.placement.sections)?;
    print_totals(out, args.generate, image)
}

// The lines of `-map`, where they are wanted.
fn print_wanted<O: Sink>(
    out: &mut O,
    wanted: bool,
    linker: &Linker,
    names: &FileNames,
    sections: &[PlacedSection],
) -> Result<(), SinkFault>
    requires { map id_of sections.now ≡ carried_of linker.now }
    ensures printed { IsPrinted (O.state out.old) (O.state out.new)
        (if wanted then flat_map (map_line linker.now (names_of names.now)) sections.now else []) result }
    ensures silent { wanted ≡ false → IsOk result × (out.new ≡ out.old) }
{
    if wanted {
        print_map(out, linker, names, sections)
    } else {
        Ok(())
    }
}
