//! Laws of the definitions: each is the contract of a function that does nothing.
ghost use Rattle.macho_model.specs.SlideLaws.{FieldsMove, PointersMove, ImportPointersBind};
ghost use Rattle.macho_model.specs.Laws.{UnchainedIsEmpty, MemoryMoves, MemoryMovesBack, SegmentsAreApart};
ghost use Rattle.macho_model.specs.HeldLaws.{TextsAreHeld, ZerosAreHeld, NumbersAreHeld, SlotsMove, ImportSlotsBind, PlainPointersStay};
ghost use Rattle.macho_model.specs.LinkLaws.{DefinitionsAgree, NotedTargetsAgree, CommonsAgree, CarriedAgree, ImportsAgree, SlotsAgree, StubsAgree, AllAreNoted, SymbolsGrow, SectionsGrow, CommonsAreCounted};
ghost use Rattle.macho_model.specs.ObjectLaws.{ObjectsKeepRules, KeepersAreObjects, DylibsKeepRules, KeepersAreDylibs};

/// The chain of a file without fixup tables is empty; outside chain words memory at a slide is memory at slide 0, moved.
pub fn memory_moves_by_the_slide()
    ensures unchained { UnchainedIsEmpty }
    ensures there { MemoryMoves }
    ensures back { MemoryMovesBack }
{}

/// Two mapped segments of an accepted image share no address.
pub fn segments_are_apart()
    ensures { SegmentsAreApart }
{}

/// A field that denotes at slide 0 denotes at every slide of whole 16 KiB, by itself or by its chain word.
pub fn fields_denote_at_every_slide()
    ensures plain { FieldsMove }
    ensures moved { PointersMove }
    ensures bound { ImportPointersBind }
{}

/// Where no chain word has a byte, memory holds the texts and numbers of the file, and zeros behind a segment's file part.
pub fn what_no_word_covers_is_held()
    ensures texts { TextsAreHeld }
    ensures zeros { ZerosAreHeld }
    ensures numbers { NumbersAreHeld }
{}

/// A slot stands at every slide by its chain word: of a target that moves, or of an import.
pub fn slots_stand_at_every_slide()
    ensures moved { SlotsMove }
    ensures bound { ImportSlotsBind }
{}

/// A pointer that no fixup moves denotes at every slide where it does at slide 0.
pub fn plain_pointers_stay()
    ensures { PlainPointersStay }
{}

/// Links with the same inputs have the same definitions, commons, carried sections and targets.
pub fn equal_inputs_have_equal_definitions()
    ensures definitions { DefinitionsAgree }
    ensures targets { NotedTargetsAgree }
    ensures commons { CommonsAgree }
    ensures carried { CarriedAgree }
{}

/// Links with the same inputs and the same export lists need the same imports, slots and stubs.
pub fn equal_lists_have_equal_needs()
    ensures imports { ImportsAgree }
    ensures slots { SlotsAgree }
    ensures stubs { StubsAgree }
    ensures noted { AllAreNoted }
{}

/// One input more adds its symbols and its sections behind those of the others.
pub fn one_input_more_adds_its_own()
    ensures symbols { SymbolsGrow }
    ensures sections { SectionsGrow }
{}

/// A chosen common is numbered by how many of the symbols before it are chosen too.
pub fn chosen_commons_are_counted()
    ensures { CommonsAreCounted }
{}

/// An object, or a dynamic library, is what passes each test of its kind.
pub fn objects_pass_each_test()
    ensures objects { ObjectsKeepRules }
    ensures are_objects { KeepersAreObjects }
    ensures libraries { DylibsKeepRules }
    ensures are_libraries { KeepersAreDylibs }
{}
