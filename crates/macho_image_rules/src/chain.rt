//! The words on the chains of an image against those that its link needs.
//!
//! Both are lists by rising addresses, so one walk over both meets the first address that only one of them has:
//!
//!     chains   0x4000  0x4008  0x4010
//!     needed   0x4000  0x4000  0x4010          a word may be needed twice; 0x4008 is needed by nothing
ghost use Rattle.std.specs.Prelude.{◌≡◌, ◌<◌, ℕ, List, AllPairs, IsPermutation};
ghost use Rattle.std.specs.List.Sorted.{IsNonDecreasingBy};
ghost use Rattle.macho_model.specs.Loader.{IsAccepted};
ghost use Rattle.macho_loader.specs.Lists.{AreFixups};
ghost use Rattle.macho_image_rules.specs.Chain.{IsFirstDifference};
ghost use Rattle.macho_image_rules.specs.Words.{IsLineAt};

use macho_loader::FixupLine;
use macho_model::{Site, Target};

/// A word that the loader has to write, since a link needs it.
#[derive(Clone, Copy)]
pub struct Needed {
    /// Its address.
    pub address: u64,
    /// What it belongs to: a slot, or the field of a pointer.
    pub site: Site,
    /// What it leads to.
    pub target: Target,
    /// What is added to the target's address, modulo 2^64.
    pub addend: u64,
}

/// Puts words into the order of their addresses.
pub fn sort_by_address(needed: &mut [Needed])
    ensures sorted { IsNonDecreasingBy (λ n. n.address) needed.new }
    ensures kept { IsPermutation needed.old needed.new }
{
    needed.sort_unstable_by_key(
        |word: &Needed| -> u64
            ensures { result ≡ word.now.address }
        { word.address },
    );
}

/// The word on the chains of an image at an address, as its list of fixups has it, None where there is none.
pub fn line_at(lines: &[FixupLine], address: u64) -> Option<FixupLine>
    requires rising { AllPairs (λ x y. x.address < y.address) lines.now }
    ensures { (b : List ℕ) → IsAccepted b → AreFixups b lines.now → IsLineAt b address result }
{
    let place = lines.binary_search_by_key(
        &address,
        |line: &FixupLine| -> u64
            ensures { result ≡ line.now.address }
        { line.address },
    );
    match place {
        Ok(place) => Some(lines[place]),
        Err(_) => None,
    }
}

/// The first address at which an image has a word on its chains and its link needs none, or the other way round. The words
/// on the chains are all of the image.
pub fn first_difference(lines: &[FixupLine], needed: &[Needed]) -> Option<u64>
    requires rising { AllPairs (λ x y. x.address < y.address) lines.now }
    requires sorted { IsNonDecreasingBy (λ n. n.address) needed.now }
    ensures { (b : List ℕ) → AreFixups b lines.now → IsFirstDifference b needed.now result }
{
    let mut met = 0;
    for word in needed {
        if met == 0 || lines[met - 1].address != word.address {
            if met == lines.len() {
                return Some(word.address);
            }
            let address = lines[met].address;
            if address != word.address {
                return Some(address.min(word.address));
            }
            met += 1;
        }
    }
    if met == lines.len() {
        return None;
    }
    Some(lines[met].address)
}
