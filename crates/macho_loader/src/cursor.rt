//! A walk over the load commands of a list, from each to the next one: all of them together pass each command once.
ghost use Rattle.std.specs.Prelude.{◌≡◌, ◌≤◌, ℕ, List, length, Some, None};
ghost use Rattle.macho_image_walks.specs.Readings.{listed};
ghost use Rattle.macho_loader.specs.steps.Cursors.{IsAt, IsStep};
ghost use Rattle.macho_image_walks.specs.declared.walk.Listed.{Listed};
ghost use Rattle.macho_loader.specs.declared.cursor.Step.{Step};

use macho_image_walks::{Listed, count_of, is_listed, u32_from};

/// Where a walk stands: before the command with an index.
#[derive(Clone, Copy)]
pub(crate) struct Cursor {
    /// The index of the command among all, from 0.
    pub(crate) index: u32,
    /// Its place in the file.
    pub(crate) place: u64,
    /// How many commands of the list stand before it.
    pub(crate) number: u32,
}

/// A command of the list that a walk came to.
#[derive(Clone, Copy)]
pub(crate) struct Step {
    /// Its place in the file.
    pub(crate) place: u64,
    /// Where the walk stands behind it.
    pub(crate) next: Cursor,
}

/// A walk before the first command.
pub(crate) fn first() -> Cursor
    ensures at { (which : Listed) (b : List ℕ) → IsAt which b result }
    ensures none { result.number ≡ 0 }
{
    Cursor {
        index: 0,
        place: 32,
        number: 0,
    }
}

/// The next command of the list, None behind the last.
pub(crate) fn step_from(bytes: &[u8], list: Listed, from: Cursor) -> Option<Step>
    requires { IsAt list bytes.now from }
    ensures found { (s : Step) → result ≡ Some s → IsStep list bytes.now from s }
    ensures only { result ≡ None → length (listed list bytes.now) ≤ from.number }
{
    let mut place = from.place;
    for index in from.index..count_of(bytes) {
        let behind = place + u32_from(bytes, place, 4) as u64;
        if is_listed(bytes, list, place) {
            let next = Cursor {
                index: index + 1,
                place: behind,
                number: from.number + 1,
            };
            return Some(Step { place, next });
        }
        place = behind;
    }
    None
}

/// How many commands of a list there are.
pub(crate) fn count_listed(bytes: &[u8], list: Listed) -> u32
    ensures { result ≡ length (listed list bytes.now) }
{
    let mut at = first();
    while let Some(step) = step_from(bytes, list, at) {
        at = step.next;
    }
    at.number
}
