//! Which relocations of a section share a byte. Where their places rise or fall, as compilers list them, each stands outside
//! what those before it lie in; else a table tells for each byte which relocation has it.
ghost use Rattle.std.specs.Prelude.{◌≡◌, ℕ, List, ◌+◌, ◌^◌, ◌<◌, ◌&&◌, ◌||◌, ◌==◌, nat_le, nat_eq, true, false, if◌then◌else◌, IfOk, IfSome};
ghost use Rattle.std.specs.Bool.{OnTrue};
ghost use Rattle.indexmap.specs.IndexMap.{get};
ghost use Rattle.macho_wire.specs.Relocations.{BitsFit};
ghost use Rattle.macho_model.specs.Objects.{section_at, relocation_at};
ghost use Rattle.macho_relocation_scan.specs.steps.Windows.{ends, window_in};
ghost use Rattle.macho_relocation_scan.specs.steps.Overlaps.{field_end, excludes, hull_with, AreApart, IsOrder, IsFoundIn, PutsOrTaken};

use crate::pairs::Seen;
use indexmap::IndexMap;
use macho_object::RelocationList;
use macho_records::RelocationInfo;
use std::alloc::{AllocError, Global};

/// The places between which some fields lie.
#[derive(Clone, Copy)]
pub(crate) struct Hull {
    /// The least address of a field, in bytes from the section's start.
    pub(crate) low: u64,
    /// The greatest end of a field, one past its last byte.
    pub(crate) high: u64,
}

/// The end of a relocation's field.
fn field_end(rel: RelocationInfo) -> u64
    requires { rel.r_length < 4 }
    ensures end { result ≡ field_end rel }
    ensures small { result < 2 ^ 33 }
{
    u64::from(rel.r_address) + (1 << rel.r_length)
}

impl Hull {
    /// The hull of no fields: every field stands outside.
    const EMPTY: Hull = Hull {
        low: u64::MAX,
        high: 0,
    };

    /// Whether a field stands wholly before or behind the hull.
    fn excludes(self, rel: RelocationInfo) -> bool
        requires { rel.r_length < 4 }
        ensures { result ≡ excludes self rel }
    {
        self.high <= u64::from(rel.r_address) || field_end(rel) <= self.low
    }

    /// The hull with one field more.
    fn with(self, rel: RelocationInfo) -> Hull
        requires { rel.r_length < 4 }
        ensures { result ≡ hull_with self rel }
    {
        Hull {
            low: self.low.min(u64::from(rel.r_address)),
            high: self.high.max(field_end(rel)),
        }
    }
}

/// The fields of a section that were seen so far, as far as it shows that they are apart.
#[derive(Clone, Copy)]
pub(crate) struct Order {
    /// The hull of all but the last one.
    pub(crate) older: Hull,
    /// The hull of all.
    pub(crate) hull: Hull,
    /// Whether each stood outside the hull of those before it, but for the partner of a pair.
    pub(crate) are_apart: bool,
}

impl Order {
    /// No field was seen.
    pub(crate) fn new() -> Order
        ensures { (b : List ℕ) (k : ℕ) → IsOrder b k 0 result }
    {
        Order {
            older: Hull::EMPTY,
            hull: Hull::EMPTY,
            are_apart: true,
        }
    }

    /// Whether a field stands outside the hull of those before it; the second of a pair, of those before its partner.
    fn excludes(self, seen: Seen) -> bool
        requires { seen.this.r_length < 4 }
        ensures { result ≡ excludes (if ends seen then self.older else self.hull) seen.this }
    {
        if seen.ends_pair() {
            self.older.excludes(seen.this)
        } else {
            self.hull.excludes(seen.this)
        }
    }

    /// The same with one relocation more.
    pub(crate) fn followed_by(self, seen: Seen) -> Order
        requires { seen.this.r_length < 4 }
        ensures { (b : List ℕ) (k i : ℕ) → seen ≡ window_in b k i → IsOrder b k i self → IsOrder b k (i + 1) result }
    {
        let stands_outside = self.excludes(seen);
        Order {
            older: self.hull,
            hull: self.hull.with(seen.this),
            are_apart: self.are_apart && stands_outside,
        }
    }
}

/// Whether an earlier relocation is the one before, as the first of a pair is.
fn is_partner(earlier: u32, index: u32, paired: bool) -> bool
    ensures { result ≡ (paired && (earlier + 1 == index)) }
{
    match index.checked_sub(1) {
        Some(last) => paired && earlier == last,
        None => false,
    }
}

/// Puts a byte of a field into the table; the relocation that has it already is told, unless the two are a pair.
fn put_byte(
    table: &mut IndexMap<u64, u32>,
    place: u64,
    index: u32,
    paired: bool,
) -> Result<Option<u32>, AllocError>
    ensures { IfOk result (PutsOrTaken (λ p. get nat_eq table.old p) (λ p. get nat_eq table.new p) place (place + 1) index paired) }
{
    match table.get(&place).copied() {
        Some(earlier) => {
            if is_partner(earlier, index, paired) {
                Ok(None)
            } else {
                Ok(Some(earlier))
            }
        }
        None => {
            table.insert(place, index)?;
            Ok(None)
        }
    }
}

/// Puts the bytes of a field into the table; an earlier relocation that has one of them is told, unless the two are a pair.
fn put_field(
    table: &mut IndexMap<u64, u32>,
    seen: Seen,
    index: u32,
) -> Result<Option<u32>, AllocError>
    requires { seen.this.r_length < 4 }
    ensures { IfOk result (PutsOrTaken (λ p. get nat_eq table.old p) (λ p. get nat_eq table.new p) seen.this.r_address
        (field_end seen.this) index (ends seen)) }
{
    let paired = seen.ends_pair();
    for place in u64::from(seen.this.r_address)..field_end(seen.this) {
        if let Some(earlier) = put_byte(table, place, index, paired)? {
            return Ok(Some(earlier));
        }
    }
    Ok(None)
}

/// The first relocation of a section that shares a byte with an earlier one, and that one, but for pairs; by a table.
fn overlap_by_table(
    alloc: Global,
    list: &RelocationList<'_>,
) -> Result<Option<(u32, u32)>, AllocError>
    ensures { IfOk result (IsFoundIn list.now.bytes list.now.section) }
{
    let mut table = IndexMap::new(alloc);
    let mut last = None;
    for index in 0..list.num_relocations() {
        let seen = Seen::of(list, index, last);
        if let Some(earlier) = put_field(&mut table, seen, index)? {
            return Ok(Some((earlier, index)));
        }
        last = Some(seen);
    }
    Ok(None)
}

/// The first relocation of a section that shares a byte with an earlier one, and that one, but for pairs. It is sought where all
/// weren't seen to be apart.
pub(crate) fn first_overlap(
    alloc: Global,
    list: &RelocationList<'_>,
    are_apart: bool,
) -> Result<Option<(u32, u32)>, AllocError>
    requires { OnTrue are_apart (AreApart list.now.bytes list.now.section (section_at list.now.bytes list.now.section).nreloc) }
    ensures { IfOk result (IsFoundIn list.now.bytes list.now.section) }
{
    if are_apart {
        return Ok(None);
    }
    overlap_by_table(alloc, list)
}
