//! Laws of links that are read: each is the contract of a function that does nothing.
ghost use Rattle.macho_reading.specs.Laws.{ReadIsNotRefused, PersonalitiesAreFit};

/// Of a link that is read no refusal stands of a kind that reading looks for.
pub fn what_is_read_is_not_refused()
    ensures { ReadIsNotRefused }
{}

/// Where unwind entries keep their rules, their personality functions are defined or imported.
pub fn personalities_fit()
    ensures { PersonalitiesAreFit }
{}
