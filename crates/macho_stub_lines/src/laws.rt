//! Laws of lines, and of what is read on them: each is the contract of a function that does nothing.

ghost use Rattle.macho_stub_lines.specs.Laws.{ScalarsAreTrees, NumbersAreTrees, EntriesAreTrees, ListsAreTrees, UnbarredIsPlain};

/// What is read on lines are trees, and every tree is read.
pub fn lines_are_trees()
    ensures scalars { ScalarsAreTrees }
    ensures numbers { NumbersAreTrees }
    ensures entries { EntriesAreTrees }
    ensures lists { ListsAreTrees }
{}

/// A line that may stand in a text holds no NUL.
pub fn lines_hold_no_nul()
    ensures { UnbarredIsPlain }
{}
