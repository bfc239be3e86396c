//! A law on sizes: the contract of a function that does nothing.
ghost use Rattle.macho_size_laws.specs.Laws.{SizesAreOne};

/// The sizes of a link are told by the link alone.
pub fn sizes_are_one()
    ensures { SizesAreOne }
{}
