//! The rules that speak of one load command, or of a segment and the one behind it.
ghost use Rattle.std.specs.Prelude.{◌≡◌, ℕ, Some, None, true};
ghost use Rattle.macho_records.specs.declared.constants.TheConstants.{LC_SEGMENT_64};
ghost use Rattle.macho_model.specs.Grammar.{EachCommand};
ghost use Rattle.macho_model.specs.Loader.{segment_in};
ghost use Rattle.macho_model.specs.Lists.{EachNext};
ghost use Rattle.macho_model.specs.Commands.{command_at, numbered};
ghost use Rattle.macho_image_walks.specs.Readings.{listed};
ghost use Rattle.macho_image_walks.specs.Tests.{test_of, list_of};
ghost use Rattle.macho_image_walks.specs.steps.Asked.{AskedFails, BeginsBefore};
ghost use Rattle.macho_model.specs.SegmentRules.{begins_behind};

use crate::cursor::{first, step_from};
use crate::table_rules::table_is_right;
use macho_image_walks::{
    Asked, Listed, ends_below, file_bytes_are_inside, follows, holds_commands, is_paged, is_whole,
    protections_are_right,
};

/// Whether a command passes.
fn passes(bytes: &[u8], asked: Asked, place: u64) -> bool
    ensures { result ≡ test_of asked bytes.now (command_at bytes.now place) }
{
    match asked {
        Asked::Whole => is_whole(bytes, place),
        Asked::Protections => protections_are_right(bytes, place),
        Asked::FileBytes => file_bytes_are_inside(bytes, place),
        Asked::Pages => is_paged(bytes, place),
        Asked::End => ends_below(bytes, place),
        Asked::Commands => holds_commands(bytes, place),
        Asked::Table => table_is_right(bytes, place),
    }
}

/// The place of the first command of its list that fails what is asked.
pub(crate) fn first_failing(bytes: &[u8], asked: Asked) -> Option<u64>
    ensures found { (place : ℕ) → result ≡ Some place → AskedFails bytes.now asked place }
    ensures only { result ≡ None → EachCommand (listed (list_of asked) bytes.now) (test_of asked bytes.now) }
{
    let mut at = first();
    while let Some(step) = step_from(bytes, asked.list(), at) {
        if !passes(bytes, asked, step.place) {
            return Some(step.place);
        }
        at = step.next;
    }
    None
}

/// The place of the first segment that begins before the end of the one before it.
pub(crate) fn first_overlapping(bytes: &[u8]) -> Option<u64>
    ensures found { (place : ℕ) → result ≡ Some place → BeginsBefore bytes.now place }
    ensures only { result ≡ None
        → EachNext (λ c d. begins_behind (segment_in bytes.now c) (segment_in bytes.now d) ≡ true) (numbered LC_SEGMENT_64 bytes.now) }
{
    let mut at = first();
    let mut last = 0u64;
    while let Some(step) = step_from(bytes, Listed::Segments, at) {
        if at.number > 0 && !follows(bytes, last, step.place) {
            return Some(step.place);
        }
        last = step.place;
        at = step.next;
    }
    None
}
