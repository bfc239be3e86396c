//! The offsets of initializers, each a number of 4 bytes.
ghost use Rattle.std.specs.Prelude.{◌≡◌, ◌*◌, length, All, OnOk, IfErr, MatchOption};
ghost use Rattle.macho_model.specs.declared.placed.Counts.{Counts};
ghost use Rattle.macho_model.specs.Links.{Link};
ghost use Rattle.macho_model.specs.WrittenSum.{INITIALIZER_SIZE};
ghost use Rattle.macho_model.specs.Placement.{Placed};
ghost use Rattle.macho_consumed.specs.Rows.{initializer_rows};
ghost use Rattle.macho_fields.specs.Looks.{Tells};
ghost use Rattle.macho_synthetic.specs.Made.{IsToMake, IsOffsetsText, IsRefused};
ghost use Rattle.macho_synthetic.specs.steps.Offsets.{IsOffset, HasNoOffset, OffsetsStand, IsFarOrMemory};

use crate::fault::MadeFault;
use macho_consumed::Initializer;
use macho_fields::Places;
use macho_model::Target;
use macho_wire::put_little;

/// The bytes of an initializer's offset.
pub const INIT_OFFSET_SIZE: usize = 4;

/// How far an initializer stands behind the base; None where 32 bits don't tell it, or it is no place in a section.
fn offset_of<P: Places>(places: &P, target: Target) -> Option<u32>
    ensures { MatchOption result (HasNoOffset (P.look places.now) target) (IsOffset (P.look places.now) target) }
{
    let Target::Section {
        file,
        section,
        offset,
    } = target
    else {
        return None;
    };
    let address = places.section(file, section).checked_add(offset)?;
    let distance = address.checked_sub(places.base())?;
    if distance > u32::MAX as u64 {
        return None;
    }
    Some(distance as u32)
}

/// Writes the offset of each initializer, by what is looked up.
fn put_offsets<P: Places>(places: &P, rows: &[Initializer], out: &mut [u8]) -> Result<(), MadeFault>
    requires long { length out.old ≡ INITIALIZER_SIZE * length rows.now }
    requires symbols { All (λ row. P.has_symbol places.now row.file row.relocation.r_symbolnum) rows.now }
    ensures length { length out.new ≡ length out.old }
    ensures done { OnOk result (OffsetsStand (P.look places.now) rows.now (length rows.now) out.new) }
    ensures why { IfErr result (IsFarOrMemory (P.look places.now) rows.now) }
{
    for index in 0..rows.len() {
        let row = rows[index];
        let target = places.target(row.file, row.relocation.r_symbolnum);
        let Some(offset) = offset_of(places, target) else {
            return Err(MadeFault::TooLarge);
        };
        put_little(out, INIT_OFFSET_SIZE * index, offset);
    }
    Ok(())
}

/// Writes the offset of each initializer from the image's base, one behind the other: 4 bytes each, lowest byte first. `out` is just
/// their range of the file.
///
/// # Errors
///
/// `TooLarge` where an initializer stands 2^32 bytes or more behind the base.
pub fn write_initializers<P: Places>(
    places: &P,
    rows: &[Initializer],
    out: &mut [u8],
) -> Result<(), MadeFault>
    requires long { length out.old ≡ INITIALIZER_SIZE * length rows.now }
    requires symbols { All (λ row. P.has_symbol places.now row.file row.relocation.r_symbolnum) rows.now }
    ensures length { length out.new ≡ length out.old }
    ensures done { (l : Link) (counts : Counts) (p : Placed) → IsToMake l counts p → Tells l p (P.look places.now)
        → rows.now ≡ initializer_rows l
        → OnOk result (IsOffsetsText l p out.new) }
    ensures why { (l : Link) (counts : Counts) (p : Placed) → IsToMake l counts p → Tells l p (P.look places.now)
        → rows.now ≡ initializer_rows l
        → IfErr result (IsRefused l p) }
{
    put_offsets(places, rows, out)
}
