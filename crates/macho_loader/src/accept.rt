//! The rules of the loader, asked one after the other.
ghost use Rattle.std.specs.Prelude.{◌≡◌, ℕ, OnOk, OnErr, IfErr, Some, None};
ghost use Rattle.macho_model.specs.Loader.{IsAccepted, ImageBreaks};
ghost use Rattle.macho_image_walks.specs.steps.Asked.{LoadKeeps};
ghost use Rattle.macho_loader.specs.steps.Words.{ReadyFor};

use crate::command_rules::{first_failing, first_overlapping};
use crate::import_rules::first_bad_import;
use crate::word_rules::first_unfit_word;
use macho_image_walks::{Asked, commands_end_inside, head_fits, other_text, second_table};
use macho_model::LoadRule;

/// A rule of the loader that an image breaks, and the file offset of what breaks it.
#[derive(Clone, Copy, Debug, PartialEq, Eq)]
pub struct LoadFault {
    /// The rule.
    pub rule: LoadRule,
    /// The place of the command, the import entry or the word that breaks it; 0 for the file as a whole.
    pub place: u64,
}

/// The place of the first record that breaks a rule, 0 for the file as a whole.
fn broken_at(bytes: &[u8], rule: LoadRule) -> Option<u64>
    requires { ReadyFor bytes.now rule }
    ensures found { (place : ℕ) → result ≡ Some place → ImageBreaks bytes.now rule place }
    ensures only { result ≡ None → LoadKeeps bytes.now rule }
{
    match rule {
        LoadRule::L1 if head_fits(bytes) => None,
        LoadRule::L1 => Some(0),
        LoadRule::L2 if commands_end_inside(bytes) => first_failing(bytes, Asked::Whole),
        LoadRule::L2 => Some(0),
        LoadRule::L3 => first_failing(bytes, Asked::Protections),
        LoadRule::L4 => first_failing(bytes, Asked::FileBytes),
        LoadRule::L5 => first_failing(bytes, Asked::Pages),
        LoadRule::L6 => match first_failing(bytes, Asked::End) {
            Some(place) => Some(place),
            None => first_overlapping(bytes),
        },
        LoadRule::L7 => match other_text(bytes) {
            Some(place) => Some(place),
            None => first_failing(bytes, Asked::Commands),
        },
        LoadRule::L8 => match second_table(bytes) {
            Some(place) => Some(place),
            None => first_failing(bytes, Asked::Table),
        },
        LoadRule::L9 => first_bad_import(bytes),
        LoadRule::L10 => first_unfit_word(bytes),
    }
}

/// Whether an image keeps a rule.
fn ask(bytes: &[u8], rule: LoadRule) -> Result<(), LoadFault>
    requires { ReadyFor bytes.now rule }
    ensures ok { OnOk result (LoadKeeps bytes.now rule) }
    ensures why { IfErr result (λ f. ImageBreaks bytes.now f.rule f.place) }
{
    match broken_at(bytes, rule) {
        Some(place) => Err(LoadFault { rule, place }),
        None => Ok(()),
    }
}

/// Whether an image keeps each rule, in order.
fn ask_all(bytes: &[u8]) -> Result<(), LoadFault>
    ensures found { OnOk result (IsAccepted bytes.now) }
    ensures why { IfErr result (λ f. ImageBreaks bytes.now f.rule f.place) }
{
    ask(bytes, LoadRule::L1)?;
    ask(bytes, LoadRule::L2)?;
    ask(bytes, LoadRule::L3)?;
    ask(bytes, LoadRule::L4)?;
    ask(bytes, LoadRule::L5)?;
    ask(bytes, LoadRule::L6)?;
    ask(bytes, LoadRule::L7)?;
    ask(bytes, LoadRule::L8)?;
    ask(bytes, LoadRule::L9)?;
    ask(bytes, LoadRule::L10)
}

/// Whether the loader accepts an image; if not, the first rule that it breaks, and where.
pub(crate) fn check_rules(bytes: &[u8]) -> Result<(), LoadFault>
    ensures found { OnOk result (IsAccepted bytes.now) }
    ensures only { OnErr result (IsAccepted bytes.now → ⊥) }
    ensures why { IfErr result (λ f. ImageBreaks bytes.now f.rule f.place) }
{
    match ask_all(bytes) {
        Ok(()) => Ok(()),
        Err(fault) => Err(fault),
    }
}
