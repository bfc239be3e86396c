//! Laws of what is made: each is the contract of a function that does nothing.
ghost use Rattle.macho_synthetic.specs.Laws.{EntriesMayBeBuilt, OffsetsAreSaid, UnwindIsSaid, TextsFitRanges, NothingWrittenPasses};

/// The entries of a link are such that unwind information can be made of them: what is asked of the caller of `unwind_section`.
pub fn entries_may_be_built()
    ensures { EntriesMayBeBuilt }
{}

/// A file in which the texts that were made stand at their ranges says the initializers and the unwind information.
pub fn texts_are_said()
    ensures offsets { OffsetsAreSaid }
    ensures unwind { UnwindIsSaid }
{}

/// The texts have the room of their ranges, which end in the file.
pub fn texts_fit_their_ranges()
    ensures { TextsFitRanges }
{}

/// Where both texts were made, no address passes whose offset from the base is written in 32 bits.
pub fn nothing_written_passes()
    ensures { NothingWrittenPasses }
{}
