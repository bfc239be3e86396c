//! Laws of plans and of ids: each is the contract of a function that does nothing.
ghost use Rattle.macho_unwind_pages.specs.Laws.{PlansAreOne, PlansAreShort, IdsAreNamed, IdsAreNumbers};

/// One entry or more have one plan at most.
pub fn plans_are_one()
    ensures { PlansAreOne }
{}

/// A plan has at most as many pages and bytes as `unwind_bound` tells.
pub fn plans_are_short()
    ensures { PlansAreShort }
{}

/// The ids of entries rise, and are those that entries name: the numbers from 0 on, where entries name all of these.
pub fn ids_are_named()
    ensures named { IdsAreNamed }
    ensures numbers { IdsAreNumbers }
{}
