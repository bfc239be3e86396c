//! The header of a file.
ghost use Rattle.std.specs.Prelude.{◌≡◌, ◌+◌, ◌≤◌, true, false, IfOk, IfErr, if◌then◌else◌, length};
ghost use Rattle.macho_model.specs.Commands.{header_of};
ghost use Rattle.macho_model.specs.ObjectRules.{head_fits};
ghost use Rattle.macho_model.specs.Grammar.{Breaks};
ghost use Rattle.macho_object.specs.steps.Scans.{filetype_of};

use crate::fault::ObjectFault;
use macho_model::ObjectRule;
use macho_records::{CPU_TYPE_ARM64, MH_DYLIB, MH_MAGIC_64, MH_OBJECT, MachHeader};

/// The header, if it is a whole one of a 64-bit arm64 file of the kind.
#[tactic(auto, unfolding(macho_model::specs::Commands::header_of))]
pub(crate) fn read_header(input: &[u8], is_dynamic: bool) -> Result<MachHeader, ObjectFault>
    ensures found { IfOk result (λ h. (h ≡ header_of input.now) × (head_fits (filetype_of is_dynamic) input.now ≡ true)) }
    ensures why { IfErr result (λ f. Breaks is_dynamic input.now f.rule f.place) }
{
    let fault = ObjectFault {
        place: 0,
        rule: ObjectRule::O1,
    };
    match header_of_type(input, file_type(is_dynamic)) {
        Some(header) => Ok(header),
        None => Err(fault),
    }
}

fn file_type(is_dynamic: bool) -> u32
    ensures { result ≡ filetype_of is_dynamic }
{
    if is_dynamic { MH_DYLIB } else { MH_OBJECT }
}

#[tactic(auto, unfolding(macho_model::specs::Commands::header_of))]
fn header_of_type(input: &[u8], filetype: u32) -> Option<MachHeader>
    ensures { result ≡ (if head_fits filetype input.now then Some (header_of input.now) else None) }
{
    if input.len() >= 1 << 32 {
        return None;
    }
    let header = MachHeader::read(input, 0)?;
    if header.magic == MH_MAGIC_64
        && header.cputype == CPU_TYPE_ARM64
        && header.filetype == filetype
    {
        Some(header)
    } else {
        None
    }
}
