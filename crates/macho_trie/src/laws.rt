//! A law of sizes: the contract of a function that does nothing.
ghost use Rattle.macho_trie.specs.Laws.{SizesAreOne};

/// A trie has one size for some symbols, so what `compute_byte_size` tells is the length of what `encode` gives.
pub fn sizes_are_one()
    ensures { SizesAreOne }
{}
