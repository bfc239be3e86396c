//! The head of an image: its header and its load commands, at the front of the file.
ghost use Rattle.std.specs.Prelude.{◌≡◌, ℕ, ◌<◌, ◌≤◌, ◌^◌, ◌==◌, List, length, IfOk, OnOk};
ghost use Rattle.std.specs.List.{list_any};
ghost use Rattle.macho_model.specs.declared.placed.Counts.{Counts};
ghost use Rattle.macho_model.specs.Links.{Link};
ghost use Rattle.macho_layout.specs.Placements.{placed_of};
ghost use Rattle.macho_head.specs.Splits.{HeadersAreSplit};
ghost use Rattle.macho_head.specs.Heads.{AreHeadParts, TablesAreSmall, head_bytes, HeadIsPut};
ghost use Rattle.macho_model.specs.HeadCommands.{describes_thread_locals};

use crate::commands::{HeadParts, head_commands};
use macho_commands::{ImageKind, write_head};
use macho_layout::Placement;
use macho_records::S_THREAD_LOCAL_VARIABLES;
use std::alloc::{AllocError, Global};

/// Whether a section of an image describes thread-local variables.
fn describes_thread_locals(placement: &Placement) -> bool
    ensures { result ≡ describes_thread_locals (placed_of placement.now) }
{
    placement
        .output_sections
        .iter()
        .any(|header| header.flags % 256 == S_THREAD_LOCAL_VARIABLES)
}

/// Writes header and load commands to the front of a file; the other bytes stay.
///
/// # Errors
///
/// There is not enough memory; nothing is written then.
pub fn write_image_head(
    alloc: Global,
    placement: &Placement,
    parts: &HeadParts<'_>,
    out: &mut [u8],
) -> Result<(), AllocError>
    requires split { HeadersAreSplit (placed_of placement.now) }
    requires tables { TablesAreSmall placement.now.linkedit }
    requires small { head_bytes (placed_of placement.now) parts.now < 2 ^ 32 }
    requires room { head_bytes (placed_of placement.now) parts.now ≤ length out.old }
    ensures done { (l : Link) (counts : Counts) (uuid : List ℕ) → AreHeadParts l counts uuid (placed_of placement.now) parts.now
        → OnOk result (HeadIsPut l counts uuid (placed_of placement.now) parts.now out.old out.new) }
    ensures kept { length out.new ≡ length out.old }
{
    let commands = head_commands(alloc, placement, parts)?;
    let kind = ImageKind {
        executable: parts.executable,
        thread_locals: describes_thread_locals(placement),
    };
    write_head(kind, &commands, out);
    Ok(())
}
