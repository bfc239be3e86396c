//! Stubs: a call of an import goes to a stub, which goes on through the import's slot.
//!
//! The stub at 0x100004000 whose slot is at 0x100008010, 4 pages on:
//!
//!     30 00 00 90   adrp x16, 4 pages on
//!     10 0a 40 f9   ldr  x16, [x16, 0x10]
//!     00 02 1f d6   br   x16
ghost use Rattle.std.specs.Prelude.{◌≡◌, ◌↔◌, ◌+◌, ◌≤◌, ◌%◌, length, OnOk, OnErr, if◌then◌else◌};
ghost use Rattle.macho_bytes.specs.Numbers.{le_at, page};
ghost use Rattle.macho_model.specs.Meaning.{GoesThrough};
ghost use Rattle.macho_arm64.specs.Stubs.{STUB_SIZE, ADRP_REACH, start_address};

use crate::words::{PAGE_SIZE, with_imm12, with_imm21};
use macho_wire::put_little;

/// ADRP x16, LDR x16 from x16, and BR x16.
const ADRP_X16: u32 = 0x9000_0010;

const LDR_X16: u32 = 0xf940_0210;

const BR_X16: u32 = 0xd61f_0200;

/// How far an ADRP reaches forward, from the start of its page.
const REACH: u64 = 1 << 32;

/// Where an executable begins.
const START_MEMORY_ADDRESS: u64 = 1 << 32;

/// A stub that can't reach its slot.
#[derive(Clone, Copy)]
pub enum PltFault {
    /// The stub isn't below the slot.
    StubAfterSlot,
    /// The slot is 4 GiB or more above the stub's page.
    StubTooFar,
}

/// Writes the stub at an address that goes through the slot at another. The entry has the stub's 12 bytes, and a slot's
/// address is a multiple of 8.
///
/// # Errors
///
/// The slot is out of reach: not above the stub, or 4 GiB or more above the stub's page. Nothing is written then.
pub fn write_plt_entry(
    plt_entry: &mut [u8],
    got_address: u64,
    plt_address: u64,
) -> Result<(), PltFault>
    requires room { length plt_entry.old ≡ STUB_SIZE }
    requires aligned { got_address % 8 ≡ 0 }
    ensures after { (result ≡ Err PltFault.StubAfterSlot) ↔ (got_address ≤ plt_address) }
    ensures far { (result ≡ Err PltFault.StubTooFar) ↔ (page plt_address + ADRP_REACH ≤ got_address) }
    ensures kept { OnErr result (plt_entry.new ≡ plt_entry.old) }
    ensures done { OnOk result (GoesThrough plt_address got_address
        (le_at 4 plt_entry.new 0) (le_at 4 plt_entry.new 4) (le_at 4 plt_entry.new 8)) }
{
    if plt_address >= got_address {
        return Err(PltFault::StubAfterSlot);
    }
    let distance = got_address - (plt_address - plt_address % PAGE_SIZE);
    if distance >= REACH {
        return Err(PltFault::StubTooFar);
    }
    let pages = (distance / PAGE_SIZE) as u32;
    let offset = (distance % PAGE_SIZE) as u32;
    put_stub(
        plt_entry,
        with_imm21(ADRP_X16, pages),
        with_imm12(LDR_X16, offset / 8),
    );
    Ok(())
}

/// Writes the three words of a stub.
fn put_stub(plt_entry: &mut [u8], adrp: u32, ldr: u32)
    requires { length plt_entry.old ≡ STUB_SIZE }
    ensures adrp { le_at 4 plt_entry.new 0 ≡ adrp }
    ensures ldr { le_at 4 plt_entry.new 4 ≡ ldr }
    ensures br { le_at 4 plt_entry.new 8 ≡ BR_X16 }
{
    put_little(plt_entry, 0, adrp);
    put_little(plt_entry, 4, ldr);
    put_little(plt_entry, 8, BR_X16);
}

/// The address of an image's first byte before it slides: an executable leaves the first 4 GiB free.
pub fn start_memory_address(executable: bool) -> u64
    ensures { result ≡ start_address executable }
{
    if executable { START_MEMORY_ADDRESS } else { 0 }
}
