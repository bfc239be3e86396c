//! Laws of rows: each is the contract of a function that does nothing.
ghost use Rattle.macho_consumed.specs.Laws.{InitializersAreRows, InitializersAreUsed, PersonalitiesAreUsed};

/// The initializers of a link are what its rows lead to, in order.
pub fn initializers_are_rows()
    ensures rows { InitializersAreRows }
{}

/// What the walk over consumed sections uses, the rows use, in order.
pub fn rows_are_used()
    ensures initializers { InitializersAreUsed }
    ensures personalities { PersonalitiesAreUsed }
{}
