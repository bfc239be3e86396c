//! What fields, slots and stubs say.
ghost use Rattle.macho_verify_laws.specs.Laws.{FieldsDecide, SlotsDecide, StubsDecide, FileDecides};

/// Fields, slots and stubs are decided by the bytes of the file; and an image that is right by its bytes stands.
pub fn words_are_decided()
    ensures fields { FieldsDecide }
    ensures slots { SlotsDecide }
    ensures stubs { StubsDecide }
    ensures file { FileDecides }
{}
