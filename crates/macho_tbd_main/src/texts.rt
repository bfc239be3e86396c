//! The rules of dynamic libraries in words.

use macho_tbd::ObjectRule;

/// A rule that a file breaks: its name, and what it asks of a dynamic library.
pub(crate) fn rule_text(rule: ObjectRule) -> &'static str {
    match rule {
        ObjectRule::O1 => "O1: its header has to be that of a 64-bit arm64 dynamic library",
        ObjectRule::O2 => "O2: its load commands have to stand in the file, each whole",
        ObjectRule::O3 => "O3: it has to have one install name and one symbol table",
        ObjectRule::O4 => "O4: its symbols and strings have to stand in the file",
        ObjectRule::O9 => "O9: a name has to end where its table ends, or before",
        ObjectRule::O13 => "O13: a global symbol has to have a name",
        // (the others are rules of objects)
        ObjectRule::O5 => "O5",
        ObjectRule::O6 => "O6",
        ObjectRule::O7 => "O7",
        ObjectRule::O8 => "O8",
        ObjectRule::O10 => "O10",
        ObjectRule::O11 => "O11",
        ObjectRule::O12 => "O12",
        ObjectRule::O14 => "O14",
    }
}
