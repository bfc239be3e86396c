//! The loader's rules, one after the other, each asked of every record that it speaks of: plain and slow.
//!
//! Each function answers the place of a record that breaks its rule, or None where none does.
ghost use Rattle.std.specs.Prelude.{◌≡◌, ◌≤◌, ◌<◌, ℕ, length, Some, None};
ghost use Rattle.macho_model.specs.Loader.{text_commands, fixup_commands, TextIsNotOne, SecondTable};
ghost use Rattle.macho_image_walks.specs.Tests.{list_of};

use crate::walk::{Listed, nth};

/// What is asked of each command of a list.
#[derive(Clone, Copy)]
pub enum Asked {
    /// Of each: is it whole?
    Whole,
    /// Of a segment: has it the protections of its name?
    Protections,
    /// Of a segment: are its file bytes inside the file?
    FileBytes,
    /// Of a segment: is it made of whole pages?
    Pages,
    /// Of a segment: does it end at 2^64 at most?
    End,
    /// Of a `__TEXT`: does it hold the load commands?
    Commands,
    /// Of a fixup table: is it whole and known?
    Table,
}

impl Asked {
    /// The commands that are asked.
    pub fn list(self) -> Listed
        ensures { result ≡ list_of self }
    {
        match self {
            Asked::Whole => Listed::All,
            Asked::Commands => Listed::Texts,
            Asked::Table => Listed::Tables,
            _ => Listed::Segments,
        }
    }
}

/// The place that tells that there is not one `__TEXT`: 0 where there is none, else that of a second one.
pub fn other_text(bytes: &[u8]) -> Option<u64>
    ensures found { (place : ℕ) → result ≡ Some place → TextIsNotOne bytes.now place }
    ensures only { result ≡ None → length (text_commands bytes.now) ≡ 1 }
{
    match nth(bytes, Listed::Texts, 0) {
        Some(_first) => nth(bytes, Listed::Texts, 1),
        None => Some(0),
    }
}

/// The place of a second fixup table.
pub fn second_table(bytes: &[u8]) -> Option<u64>
    ensures found { (place : ℕ) → result ≡ Some place → SecondTable bytes.now place }
    ensures only { result ≡ None → length (fixup_commands bytes.now) ≤ 1 }
{
    nth(bytes, Listed::Tables, 1)
}
