//! The stubs of an image: the first that doesn't go on through the slot of its import.
ghost use Rattle.std.specs.Prelude.{◌≡◌, ◌≤◌, true, None, length, All, Contains, IfSome};
ghost use Rattle.std.specs.Bool.{OnTrue};
ghost use Rattle.macho_model.specs.Loader.{IsAccepted};
ghost use Rattle.macho_model.specs.Segments.{TEXT};
ghost use Rattle.macho_model.specs.Placement.{is_segment_named};
ghost use Rattle.macho_layout.specs.Placements.{placed_of};
ghost use Rattle.macho_fields.specs.Looks.{TellsAddresses};
ghost use Rattle.macho_fields.specs.Through.{StubsAreFound};
ghost use Rattle.macho_verify_laws.specs.InFile.{StubSays};
ghost use Rattle.macho_image_rules.specs.StubWalk.{words_in, StubLies, StubsLie, PlacedStubsLie, IsWrongStub};

use crate::bytes::filed_bytes;
use crate::commons::segment_named;
use crate::stubs::{StubWords, stub_says};
use macho_fields::Places;
use macho_layout::Placement;
use macho_model::{PlacedSegment, Stub, Target};
use macho_wire::Number;

/// The stubs of a placed link lie in a segment that the image has mapped, where its segments are the placement's.
pub fn placed_stubs_lie()
    ensures { PlacedStubsLie }
{}

/// The words of a stub.
fn words_of(bytes: &[u8]) -> StubWords
    requires { 12 ≤ length bytes.now }
    ensures { result ≡ words_in bytes.now }
{
    StubWords {
        adrp: u32::read_little(bytes, 0),
        ldr: u32::read_little(bytes, 4),
        br: u32::read_little(bytes, 8),
    }
}

/// Whether a stub, which lies in a segment, goes on through the slot of its import.
fn is_right<P: Places>(
    places: &P,
    image: &[u8],
    placement: &Placement,
    segment: PlacedSegment,
    stub: Stub,
) -> bool
    requires accepted { IsAccepted image.now }
    requires lies { StubLies image.now (placed_of placement.now) stub }
    requires one { Contains placement.now.segments.items segment }
    requires named { is_segment_named TEXT segment ≡ true }
    ensures found { TellsAddresses (placed_of placement.now) (P.look places.now) → StubsAreFound (placed_of placement.now)
        → Contains placement.now.stubs.items stub → OnTrue result (StubSays image.now (placed_of placement.now) stub) }
    ensures only { TellsAddresses (placed_of placement.now) (P.look places.now) → StubsAreFound (placed_of placement.now)
        → Contains placement.now.stubs.items stub → StubSays image.now (placed_of placement.now) stub → result ≡ true }
{
    let words = words_of(filed_bytes(image, segment, stub.address, 12));
    let slot = places.slot(Target::Import { id: stub.import });
    stub_says(stub.address, slot, words)
}

/// The number of the first stub that doesn't go on through the slot of its import.
pub fn first_wrong_stub<P: Places>(places: &P, image: &[u8], placement: &Placement) -> Option<usize>
    requires accepted { IsAccepted image.now }
    requires lie { StubsLie image.now (placed_of placement.now) }
    ensures found { TellsAddresses (placed_of placement.now) (P.look places.now) → StubsAreFound (placed_of placement.now)
        → result ≡ None → All (StubSays image.now (placed_of placement.now)) placement.now.stubs.items }
    ensures why { TellsAddresses (placed_of placement.now) (P.look places.now) → StubsAreFound (placed_of placement.now)
        → IfSome result (IsWrongStub image.now (placed_of placement.now)) }
{
    let Some(segment) = segment_named(&placement.segments, b"__TEXT") else {
        return None;
    };
    for number in 0..placement.stubs.len() {
        let stub = placement.stubs[number];
        if !is_right(places, image, placement, segment, stub) {
            return Some(number);
        }
    }
    None
}
