//! The names of rules and of limits, as a line tells them.

ghost use Rattle.std.specs.Prelude.{◌≡◌};
ghost use Rattle.macho_report.specs.Lines.{object_rule, stub_rule, unwind_rule, limit_name};

use macho_model::{Limit, UnwindRule};
use macho_object::ObjectRule;
use macho_stub::StubRule;

/// The name of a rule of objects and libraries.
pub(crate) fn object_rule(of: ObjectRule) -> &'static [u8]
    ensures { result.now ≡ object_rule of }
{
    match of {
        ObjectRule::O1 => b"O1",
        ObjectRule::O2 => b"O2",
        ObjectRule::O3 => b"O3",
        ObjectRule::O4 => b"O4",
        ObjectRule::O5 => b"O5",
        ObjectRule::O6 => b"O6",
        ObjectRule::O7 => b"O7",
        ObjectRule::O8 => b"O8",
        ObjectRule::O9 => b"O9",
        ObjectRule::O10 => b"O10",
        ObjectRule::O11 => b"O11",
        ObjectRule::O12 => b"O12",
        ObjectRule::O13 => b"O13",
        ObjectRule::O14 => b"O14",
    }
}

/// The name of a rule of text stubs.
pub(crate) fn stub_rule(of: StubRule) -> &'static [u8]
    ensures { result.now ≡ stub_rule of }
{
    match of {
        StubRule::S1 => b"S1",
        StubRule::S2 => b"S2",
        StubRule::S3 => b"S3",
        StubRule::S4 => b"S4",
        StubRule::S5 => b"S5",
        StubRule::S6 => b"S6",
        StubRule::S7 => b"S7",
        StubRule::S8 => b"S8",
        StubRule::S9 => b"S9",
    }
}

/// The name of a rule of unwind entries.
pub(crate) fn unwind_rule(of: UnwindRule) -> &'static [u8]
    ensures { result.now ≡ unwind_rule of }
{
    match of {
        UnwindRule::U1 => b"U1",
        UnwindRule::U2 => b"U2",
        UnwindRule::U3 => b"U3",
        UnwindRule::U4 => b"U4",
        UnwindRule::U5 => b"U5",
        UnwindRule::U6 => b"U6",
        UnwindRule::U7 => b"U7",
        UnwindRule::U8 => b"U8",
    }
}

/// What there may be too much of.
pub(crate) fn limit_name(of: Limit) -> &'static [u8]
    ensures { result.now ≡ limit_name of }
{
    match of {
        Limit::Segments => b"segments",
        Limit::Libraries => b"libraries",
        Limit::Sections => b"sections",
        Limit::Personalities => b"personalities",
        Limit::Imports => b"imports",
        Limit::NameBytes => b"name bytes",
        Limit::Symbols => b"symbols",
        Limit::Pages => b"pages",
    }
}
