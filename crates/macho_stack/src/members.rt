//! Members of cells: each gets its offset in its cell, and each cell its size, its alignment and its joined flags.
//!
//! Three members of a cell, of sizes 6, 4 and 2, with alignments 2^1, 2^3 and 2^0:
//!
//!     0   6   the first
//!     8   4   the second, behind two bytes of padding
//!     12  2   the third; the cell has 14 bytes and the alignment 2^3
ghost use Rattle.std.specs.Prelude.{◌≡◌, ℕ, ◌+◌, ◌*◌, ◌^◌, ◌<◌, ◌≤◌, length, sum_by, All, IfOk, max, bit_or, slice_set};
ghost use Rattle.macho_bytes.specs.Numbers.{rounded_up};
ghost use Rattle.macho_stack.specs.Costs.{cost_of, MOST_EXPONENT};
ghost use Rattle.macho_stack.specs.Stacks.{AreStacked, begun, joined, extent_at};

use std::alloc::{AllocError, Global};

/// A member of a cell.
#[derive(Clone, Copy)]
pub struct Member {
    /// The number of its cell, from 0.
    pub cell: u32,
    /// Its alignment, as an exponent of 2.
    pub exponent: u8,
    /// Its flags.
    pub flags: u32,
    /// Its bytes.
    pub size: u64,
}

/// A member with its place.
#[derive(Clone, Copy)]
pub struct PlacedMember {
    /// The member.
    pub member: Member,
    /// Bytes from the start of its cell.
    pub offset: u64,
}

/// What a cell has in all.
#[derive(Clone, Copy)]
pub struct Extent {
    /// Its bytes, with the padding between its members.
    pub size: u64,
    /// The greatest alignment of its members, as an exponent of 2.
    pub exponent: u8,
    /// Its flags, joined.
    pub flags: u32,
}

/// Members in their cells.
#[derive(Drop)]
pub struct Stacked {
    /// What each cell has in all, by the number of the cell.
    pub extents: Vec<Extent>,
    /// The members, as they were given.
    pub placed: Vec<PlacedMember>,
}

/// The least multiple of a power of two that is not below a place.
pub fn aligned(place: u64, exponent: u8) -> u64
    requires small { exponent ≤ MOST_EXPONENT }
    requires room { place + 2 ^ MOST_EXPONENT ≤ 2 ^ 64 }
    ensures { result ≡ rounded_up (2 ^ exponent) place }
{
    place.next_multiple_of(1 << exponent)
}

/// Cells without members, each with the flags that it begins with.
fn begin(alloc: Global, flags: &[u32]) -> Result<Vec<Extent>, AllocError>
    ensures { IfOk result (λ extents. extents.items ≡ begun flags.now) }
{
    let mut extents = Vec::new(alloc);
    for flags in flags {
        extents.push(Extent {
            size: 0,
            exponent: 0,
            flags: *flags,
        })?;
    }
    Ok(extents)
}

/// Puts one member more into its cell, and gives its offset.
fn join(extents: &mut Vec<Extent>, member: Member) -> u64
    requires there { member.cell < length extents.old.items }
    requires small { member.exponent ≤ MOST_EXPONENT }
    requires room { (extent_at extents.old.items member.cell).size + cost_of member + 2 ^ MOST_EXPONENT ≤ 2 ^ 64 }
    ensures offset { result ≡ rounded_up (2 ^ member.exponent) (extent_at extents.old.items member.cell).size }
    ensures joined { extents.new.items ≡ slice_set extents.old.items member.cell (joined (extent_at extents.old.items member.cell) member) }
{
    let extent = &mut extents[member.cell as usize];
    let offset = aligned(extent.size, member.exponent);
    *extent = Extent {
        size: offset + member.size,
        exponent: extent.exponent.max(member.exponent),
        flags: extent.flags | member.flags,
    };
    offset
}

/// Stacks the members in their cells, each behind those before it.
pub fn stack(alloc: Global, flags: &[u32], members: &[Member]) -> Result<Stacked, AllocError>
    requires there { All (λ m. m.cell < length flags.now) members.now }
    requires small { All (λ m. m.exponent ≤ MOST_EXPONENT) members.now }
    requires room { sum_by cost_of members.now + 2 ^ MOST_EXPONENT ≤ 2 ^ 64 }
    ensures { IfOk result (λ s. AreStacked flags.now members.now s.extents.items s.placed.items) }
{
    let mut extents = begin(alloc, flags)?;
    let mut placed = Vec::new(alloc);
    for member in members {
        let offset = join(&mut extents, *member);
        placed.push(PlacedMember {
            member: *member,
            offset,
        })?;
    }
    Ok(Stacked { extents, placed })
}
