//! The parts of an image as ranges: whether each begins at a multiple of its alignment, and whether no two share a byte.
ghost use Rattle.std.specs.Prelude.{◌≡◌, ◌%◌, ◌^◌, ◌==◌, true, map, All, AllPairs, IsPermutation};
ghost use Rattle.std.specs.Bool.{OnTrue};
ghost use Rattle.std.specs.List.Sorted.{IsNonDecreasingBy};
ghost use Rattle.macho_model.specs.Placement.{Piece, AreApart};
ghost use Rattle.macho_placement_rules.specs.Parts.{piece_of};
ghost use Rattle.macho_placement_rules.specs.steps.Parts.{ArePartsApart};

/// A range of addresses, with its alignment as an exponent of 2. Addresses of a given placement may pass 64 bits.
#[derive(Clone, Copy)]
pub struct Part {
    /// The first address.
    pub start: u128,
    /// How many addresses there are.
    pub size: u128,
    /// The exponent of its alignment.
    pub exponent: u32,
}

/// Whether a part begins at a multiple of its alignment.
fn is_aligned(part: &Part) -> bool
    ensures { result ≡ (part.now.start % 2 ^ part.now.exponent == 0) }
{
    if part.exponent < 128 {
        part.start % (1u128 << part.exponent) == 0
    } else {
        part.start == 0
    }
}

/// Whether each part begins at a multiple of its alignment.
pub fn are_aligned(parts: &[Part]) -> bool
    ensures found { OnTrue result (All (λ c. c.start % 2 ^ c.exponent ≡ 0) (map piece_of parts.now)) }
    ensures only { All (λ c. c.start % 2 ^ c.exponent ≡ 0) (map piece_of parts.now) → result ≡ true }
{
    for part in parts {
        if !is_aligned(part) {
            return false;
        }
    }
    true
}

/// Whether no two parts share an address. It puts them into the order of their starts.
pub fn are_apart(parts: &mut [Part]) -> bool
    ensures found { OnTrue result (AllPairs AreApart (map piece_of parts.old)) }
    ensures only { AllPairs AreApart (map piece_of parts.old) → result ≡ true }
    ensures kept { IsPermutation parts.old parts.new }
{
    parts.sort_unstable_by_key(
        |part: &Part| -> u128
            ensures { result ≡ part.now.start }
        { part.start },
    );
    none_reaches_the_next(parts)
}

/// Whether none of the parts, which stand in the order of their starts, reaches into a later one.
fn none_reaches_the_next(parts: &[Part]) -> bool
    requires { IsNonDecreasingBy (λ p. p.start) parts.now }
    ensures found { OnTrue result (AllPairs ArePartsApart parts.now) }
    ensures only { AllPairs ArePartsApart parts.now → result ≡ true }
{
    let mut last = Part {
        start: 0,
        size: 0,
        exponent: 0,
    };
    for part in parts {
        if part.size != 0 {
            if part.start - last.start < last.size {
                return false;
            }
            last = *part;
        }
    }
    true
}
