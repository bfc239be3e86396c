//! Laws that check the definitions: each is the contract of a function that does nothing.
ghost use Rattle.macho_model_checks.specs.Laws.{BrokenIsRefused, ValidLinksKeepParts, KeepersAreValid};

/// A file that breaks a rule of the loader is not accepted.
pub fn what_breaks_a_rule_is_refused()
    ensures { BrokenIsRefused }
{}

/// A link is valid just where it keeps each part of validity: names are defined once, relocations are supported and apart, fields fit,
/// initializers and unwind entries keep their rules, and numbers are small.
pub fn valid_links_keep_each_part()
    ensures parts { ValidLinksKeepParts }
    ensures valid { KeepersAreValid }
{}
