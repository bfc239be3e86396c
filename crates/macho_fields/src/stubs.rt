//! Stubs: each goes on to its import through its slot.
ghost use Rattle.std.specs.Prelude.{◌≡◌, ℕ, ◌*◌, ◌^◌, ◌<◌, length, OnOk, IfOk, IfErr};
ghost use Rattle.macho_model.specs.WrittenSum.{STUB_SIZE};
ghost use Rattle.macho_model.specs.Links.{Link};
ghost use Rattle.macho_model.specs.Placement.{Placed};
ghost use Rattle.macho_fields.specs.Looks.{TellsAddresses};
ghost use Rattle.macho_fields.specs.Faults.{FillStands};
ghost use Rattle.macho_fields.specs.Through.{StubsAreFound, StubsAreSet, NoStubIsFar};
ghost use Rattle.macho_fields.specs.steps.Stubs.{IsThrough, IsNoStub, StubsStand, IsSomeStub};

use crate::fault::FillFault;
use crate::places::Places;
use macho_arm64::write_plt_entry;
use macho_model::{Site, Stub, Target};
use macho_wire::put_text;

/// How many bytes a stub has: three instructions.
pub const STUB_BYTES: usize = 12;

/// The words of a stub.
fn stub_text<P: Places>(places: &P, stub: Stub, index: u32) -> Result<[u8; 12], FillFault>
    ensures done { IfOk result (IsThrough (P.look places.now) stub) }
    ensures why { IfErr result (IsNoStub (P.look places.now) stub index) }
{
    let mut text = [0; STUB_BYTES];
    let slot = places.slot(Target::Import { id: stub.import });
    if slot % 8 != 0 {
        return Err(FillFault::Unsupported);
    }
    match write_plt_entry(&mut text, slot, stub.address) {
        Ok(()) => Ok(text),
        Err(_) => Err(FillFault::Range {
            at: Site::Stub { index },
        }),
    }
}

/// Writes stubs one behind the other.
fn put_stubs<P: Places>(places: &P, stubs: &[Stub], out: &mut [u8]) -> Result<(), FillFault>
    requires room { length out.old ≡ STUB_SIZE * length stubs.now }
    requires few { length stubs.now < 2 ^ 32 }
    ensures done { OnOk result (StubsStand (P.look places.now) stubs.now (length stubs.now) out.new) }
    ensures why { IfErr result (IsSomeStub (P.look places.now) stubs.now) }
{
    for index in 0..stubs.len() {
        let text = stub_text(places, stubs[index], index as u32)?;
        put_text(out, STUB_BYTES * index, &text);
    }
    Ok(())
}

/// Writes the stubs of a placement, one behind the other, each to go on through the slot of its import.
///
/// # Errors
///
/// A slot is out of its stub's reach.
pub fn fill_stubs<P: Places>(places: &P, stubs: &[Stub], out: &mut [u8]) -> Result<(), FillFault>
    requires room { length out.old ≡ STUB_SIZE * length stubs.now }
    requires few { length stubs.now < 2 ^ 32 }
    ensures done { (p : Placed) → TellsAddresses p (P.look places.now) → StubsAreFound p → stubs.now ≡ p.stubs
        → OnOk result (StubsAreSet p stubs.now out.new) }
    ensures only { (l : Link) (p : Placed) → TellsAddresses p (P.look places.now) → StubsAreFound p → stubs.now ≡ p.stubs
        → OnOk result (NoStubIsFar l p) }
    ensures why { (l : Link) (p : Placed) → TellsAddresses p (P.look places.now) → StubsAreFound p → stubs.now ≡ p.stubs
        → IfErr result (FillStands l p) }
{
    put_stubs(places, stubs, out)
}
