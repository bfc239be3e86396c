//! The rule of the chained fixup table: it stands inside the file, its parts inside it, and all are known.
ghost use Rattle.std.specs.Prelude.{◌≡◌, true};
ghost use Rattle.macho_model.specs.LoadRules.{table_fits};
ghost use Rattle.macho_image_walks.specs.Readings.{table_there};
ghost use Rattle.macho_image_walks.specs.Tests.{starts_all_fit, parts_inside};

use crate::cursor::{first, step_from};
use macho_image_walks::{
    Listed, base_address, count_of_starts, header_is_known, parts_are_inside, segment_at,
    starts_are_right, table_at,
};

/// Whether the starts of each segment are right.
fn all_starts_are_right(bytes: &[u8], place: u64) -> bool
    requires { parts_inside bytes.now (table_there bytes.now place) ≡ true }
    ensures { result ≡ starts_all_fit bytes.now (table_there bytes.now place) }
{
    let base = base_address(bytes);
    let mut at = first();
    for number in 0..count_of_starts(bytes, place) {
        match step_from(bytes, Listed::Segments, at) {
            Some(step) => {
                let address = segment_at(bytes, step.place).address;
                if !starts_are_right(bytes, place, number, base, address) {
                    return false;
                }
                at = step.next;
            }
            None => unreachable!(),
        }
    }
    true
}

/// Whether the fixup table of the command at a place is right.
pub(crate) fn table_is_right(bytes: &[u8], place: u64) -> bool
    ensures { result ≡ table_fits bytes.now (table_there bytes.now place) }
{
    let table = table_at(bytes, place);
    table.at + table.size <= bytes.len() as u64
        && header_is_known(bytes, place)
        && parts_are_inside(bytes, place)
        && all_starts_are_right(bytes, place)
}
