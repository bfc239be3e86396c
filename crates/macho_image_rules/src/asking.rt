//! Whether the words that a link needs lead where they are to, each by the line of its address in the list of an image's fixups.
ghost use Rattle.std.specs.Prelude.{◌≡◌, ◌<◌, ℕ, List, AllPairs, length, map, true};
ghost use Rattle.std.specs.Bool.{OnTrue};
ghost use Rattle.macho_model.specs.Links.{Link};
ghost use Rattle.macho_model.specs.Placement.{Placed};
ghost use Rattle.macho_model.specs.Loader.{IsAccepted};
ghost use Rattle.macho_model.specs.declared.targets.Target.TheVariants as target;
ghost use Rattle.macho_loader.specs.Lists.{AreFixups, import_of};
ghost use Rattle.macho_image_laws.specs.Leads.{HasPlace};
ghost use Rattle.macho_verify_laws.specs.InFile.{WordLeads};
ghost use Rattle.macho_image_rules.specs.Words.{IsLineOf, AreImportsOf};
ghost use Rattle.macho_image_rules.specs.Asking.{AreNamesOf, IsCompared, IsFirstMisled};
ghost use Rattle.macho_image_rules.specs.Needing.{AreNeededBy};

use crate::chain::{Needed, line_at};
use crate::words::{ImportName, bind_leads, rebase_leads};
use macho_fields::{Places, address_of};
use macho_loader::{FixupLine, LoadedImport};
use macho_model::Target;

/// Whether a word binds the import of a number. `names` are the imports of the link.
fn import_leads(
    line: &FixupLine,
    imports: &[LoadedImport<'_>],
    libraries: &[&[u8]],
    names: &[ImportName<'_>],
    id: u32,
    addend: u64,
) -> bool
    ensures found { (l : Link) (b : List ℕ) (p : Placed) → IsLineOf b line.now
        → AreImportsOf b (map import_of imports.now) (map (λ n. n.now) libraries.now) → AreNamesOf l names.now
        → OnTrue result (WordLeads l b p line.now.address (target.Import id) addend) }
    ensures only { (l : Link) (b : List ℕ) (p : Placed) → IsLineOf b line.now
        → AreImportsOf b (map import_of imports.now) (map (λ n. n.now) libraries.now) → AreNamesOf l names.now
        → HasPlace l (target.Import id) → WordLeads l b p line.now.address (target.Import id) addend → result ≡ true }
{
    match names.get(id as usize) {
        Some(wanted) => bind_leads(line, imports, libraries, wanted, addend),
        None => false,
    }
}

/// Whether a line is that of a word that leads to the target of one that is needed.
fn target_leads<P: Places>(
    places: &P,
    line: &FixupLine,
    imports: &[LoadedImport<'_>],
    libraries: &[&[u8]],
    names: &[ImportName<'_>],
    word: &Needed,
) -> bool
    ensures found { (l : Link) (b : List ℕ) (p : Placed) → IsLineOf b line.now
        → IsCompared l b p (P.look places.now) (map import_of imports.now) (map (λ n. n.now) libraries.now) names.now
        → HasPlace l word.now.target
        → OnTrue result (WordLeads l b p line.now.address word.now.target word.now.addend) }
    ensures only { (l : Link) (b : List ℕ) (p : Placed) → IsLineOf b line.now
        → IsCompared l b p (P.look places.now) (map import_of imports.now) (map (λ n. n.now) libraries.now) names.now
        → HasPlace l word.now.target
        → WordLeads l b p line.now.address word.now.target word.now.addend → result ≡ true }
{
    match word.target {
        Target::Import { id } => import_leads(line, imports, libraries, names, id, word.addend),
        _ => rebase_leads(line, address_of(places, word.target), word.addend),
    }
}

/// Whether the word at the address of one that is needed leads to its target.
fn word_leads<P: Places>(
    places: &P,
    lines: &[FixupLine],
    imports: &[LoadedImport<'_>],
    libraries: &[&[u8]],
    names: &[ImportName<'_>],
    word: &Needed,
) -> bool
    requires rising { AllPairs (λ x y. x.address < y.address) lines.now }
    ensures found { (l : Link) (b : List ℕ) (p : Placed) → IsAccepted b → AreFixups b lines.now
        → IsCompared l b p (P.look places.now) (map import_of imports.now) (map (λ n. n.now) libraries.now) names.now
        → HasPlace l word.now.target
        → OnTrue result (WordLeads l b p word.now.address word.now.target word.now.addend) }
    ensures only { (l : Link) (b : List ℕ) (p : Placed) → IsAccepted b → AreFixups b lines.now
        → IsCompared l b p (P.look places.now) (map import_of imports.now) (map (λ n. n.now) libraries.now) names.now
        → HasPlace l word.now.target
        → WordLeads l b p word.now.address word.now.target word.now.addend → result ≡ true }
{
    match line_at(lines, word.address) {
        Some(line) => target_leads(places, &line, imports, libraries, names, word),
        None => false,
    }
}

/// The first of the words that a link needs whose word in an image doesn't lead to its target with its addend. `lines`,
/// `imports` and `libraries` are those of the image, `names` the imports of the link.
pub fn first_misled<P: Places>(
    places: &P,
    lines: &[FixupLine],
    imports: &[LoadedImport<'_>],
    libraries: &[&[u8]],
    names: &[ImportName<'_>],
    needed: &[Needed],
) -> Option<usize>
    requires rising { AllPairs (λ x y. x.address < y.address) lines.now }
    ensures { (l : Link) (b : List ℕ) (p : Placed) → IsAccepted b → AreFixups b lines.now
        → IsCompared l b p (P.look places.now) (map import_of imports.now) (map (λ n. n.now) libraries.now) names.now
        → AreNeededBy l p needed.now → IsFirstMisled l b p needed.now result }
{
    for index in 0..needed.len() {
        if !word_leads(places, lines, imports, libraries, names, &needed[index]) {
            return Some(index);
        }
    }
    None
}
