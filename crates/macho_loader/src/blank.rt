//! Records of starts in which no page has a start, kept by their places.
//!
//! Segments of size 0 may stand at one address, and share a record. The pages of such a record aren't walked for each of them:
//! the last records without a start are known by their places.
ghost use Rattle.std.specs.Prelude.{◌≡◌, ◌+◌, ◌<◌, ℕ, true, false, length};
ghost use Rattle.macho_image_walks.specs.Readings.{IsNth, starts_of, table_there};
ghost use Rattle.macho_image_walks.specs.declared.walk.Listed.TheVariants as list;
ghost use Rattle.macho_model.specs.Images.{segment_starts_place};
ghost use Rattle.macho_loader.specs.steps.Blank.{AreBlank, HasNoStart};

use crate::word_rules::Chained;
use macho_image_walks::{pages_in, place_of_segment, u16_from};
use macho_model::NO_START;

/// How many records are known at a time.
const MOST: usize = 64;

/// The places of the last records without a start, 0 where there are fewer.
#[derive(Clone, Copy)]
pub(crate) struct Blank {
    places: [u64; MOST],
    /// Where the next one is put.
    next: usize,
}

/// Before any record was walked.
pub(crate) fn no_records(bytes: &[u8], table: u64) -> Blank
    requires { IsNth list.Tables bytes.now 0 table }
    ensures { AreBlank bytes.now table result }
{
    Blank {
        places: [0; MOST],
        next: 0,
    }
}

/// Whether no page of a segment has a start, by its record.
fn has_no_start(bytes: &[u8], segment: Chained, at: u64) -> bool
    requires table { IsNth list.Tables bytes.now 0 segment.table }
    requires at { at ≡ segment_starts_place bytes.now (table_there bytes.now segment.table) segment.number }
    ensures { result ≡ true → HasNoStart bytes.now segment.number }
{
    for page in 0..pages_in(bytes, segment.table, segment.number) {
        if u16_from(bytes, at, 22 + 2 * page as u64) != NO_START {
            return false;
        }
    }
    true
}

impl Blank {
    /// Whether no page of a segment has a start. Its record is known then.
    pub(crate) fn holds(&mut self, bytes: &[u8], segment: Chained) -> bool
        requires table { IsNth list.Tables bytes.now 0 segment.table }
        requires blank { AreBlank bytes.now segment.table self.old }
        ensures blank { AreBlank bytes.now segment.table self.new }
        ensures without { result ≡ true → HasNoStart bytes.now segment.number }
    {
        let at = place_of_segment(bytes, segment.table, segment.number);
        if self.places.contains(&at) {
            return true;
        }
        if !has_no_start(bytes, segment, at) {
            return false;
        }
        if pages_in(bytes, segment.table, segment.number) > 0 {
            self.places[self.next] = at;
            self.next = (self.next + 1) % MOST;
        }
        true
    }
}
