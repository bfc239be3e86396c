//! What is wrong with a file.

use macho_model::ObjectRule;

/// A rule that a file breaks, and where.
#[derive(Clone, Copy, PartialEq, Eq)]
pub struct ObjectFault {
    /// The place of the record that breaks the rule; 0 for the header, and for a command that is not there.
    pub place: u64,
    /// The rule.
    pub rule: ObjectRule,
}
