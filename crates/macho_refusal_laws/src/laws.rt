//! Laws on answers of a link: each is the contract of a function that does nothing.
ghost use Rattle.macho_refusal_laws.specs.Inputs.{InputsAreRead, InputsAreBytes, InputsArePlain};
ghost use Rattle.macho_refusal_laws.specs.Kept.{PlacedIsKept, EarlyIsStanding, LateIsStanding};
ghost use Rattle.macho_refusal_laws.specs.Refusals.{StandingIsTold, ClearIsUnrefused};

/// Objects that are what their bytes are keep their rules, and the texts of stubs hold no NUL.
pub fn inputs_are_read()
    ensures objects { InputsAreRead }
    ensures bytes { InputsAreBytes }
    ensures stubs { InputsArePlain }
{}

/// A refusal that stands for the sizes of a link is told of the link; a valid link has none but want of memory.
pub fn standing_refusals_are_told()
    ensures { StandingIsTold }
{}

/// What stands by the sizes of a link stands as its refusal, alone or with a placement that is kept.
pub fn refusals_stand()
    ensures kept { PlacedIsKept }
    ensures early { EarlyIsStanding }
    ensures late { LateIsStanding }
{}

/// Where no pass of a link finds what it looks for, no refusal stands.
pub fn nothing_stands()
    ensures { ClearIsUnrefused }
{}
