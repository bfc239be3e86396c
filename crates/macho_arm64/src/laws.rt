//! Laws that join what is written here to what it means: each is the contract of a function that does nothing.
ghost use Rattle.macho_arm64.specs.Laws.{FieldsDenote, StubsMove, ReachesAgree, HoldsOnly, KindsAgree, SupportedIsKnown, SupportedFits};

/// A field that holds its value denotes its target at every slide of whole 16 KiB, and so does a stub go on through its
/// slot.
pub fn fields_denote()
    ensures fields { FieldsDenote }
    ensures stubs { StubsMove }
{}

/// A field can hold its value exactly where it reaches its target; no word holds a value that its field can't.
pub fn reaches_agree()
    ensures fields { ReachesAgree }
    ensures only { HoldsOnly }
{}

/// The kind of a relocation agrees with that of a field in a link; each relocation that a link supports is known, and
/// stands at a word that its field is part of.
pub fn kinds_agree()
    ensures kinds { KindsAgree }
    ensures known { SupportedIsKnown }
    ensures fits { SupportedFits }
{}
