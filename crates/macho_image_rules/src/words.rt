//! Whether a word on the chains of an image leads to the target that a link needs there.
//!
//! At slide 0 the word holds its value, so a target that moves with the image is compared there; that of an import by the
//! names of its library and of itself, and by the addend.
ghost use Rattle.std.specs.Prelude.{◌≡◌, ◌-◌, ℕ, List, [], get_or, map, true};
ghost use Rattle.std.specs.Bool.{OnTrue};
ghost use Rattle.macho_model.specs.Links.{Link};
ghost use Rattle.macho_model.specs.Placement.{Placed};
ghost use Rattle.macho_model.specs.declared.targets.Target.{Target};
ghost use Rattle.macho_model.specs.declared.targets.Target.TheVariants as target;
ghost use Rattle.macho_loader.specs.Lists.{import_of};
ghost use Rattle.macho_verify_laws.specs.InFile.{WordLeads};
ghost use Rattle.macho_image_rules.specs.Words.{IsLineOf, AreImportsOf, IsPlacedAt, IsImportNamed};
ghost use Rattle.macho_image_rules.specs.steps.Entries.{IsEntry};

use macho_loader::{FixupLine, LineKind, LoadedImport};

/// Whether a word of an image leads to a target at an address, and an addend. The target is no symbol of a library.
pub fn rebase_leads(line: &FixupLine, x: u64, addend: u64) -> bool
    ensures found { (l : Link) (b : List ℕ) (p : Placed) (t : Target) → IsLineOf b line.now → IsPlacedAt l p t x
        → OnTrue result (WordLeads l b p line.now.address t addend) }
    ensures only { (l : Link) (b : List ℕ) (p : Placed) (t : Target) → IsLineOf b line.now → IsPlacedAt l p t x
        → WordLeads l b p line.now.address t addend → result ≡ true }
{
    match line.kind {
        LineKind::Rebase { value } => value == x.wrapping_add(addend),
        LineKind::Bind { .. } => false,
    }
}

/// An import by the name of its library and its own.
#[derive(Clone, Copy)]
pub struct ImportName<'a> {
    /// The install name of the library.
    pub library: &'a [u8],
    /// The name of the symbol.
    pub name: &'a [u8],
}

/// The name of the library of a number from 1. There is none before the first, so 0 is taken for it, too.
fn library_name<'a>(libraries: &[&'a [u8]], number: u8) -> &'a [u8]
    ensures { result.now ≡ get_or (map (λ n. n.now) libraries.now) (number - 1) [] }
{
    match libraries.get((number as usize).saturating_sub(1)) {
        Some(name) => name,
        None => &[],
    }
}

/// Whether the import of a number has the names of another.
fn is_entry(
    imports: &[LoadedImport<'_>],
    libraries: &[&[u8]],
    number: u32,
    wanted: &ImportName<'_>,
) -> bool
    ensures found { OnTrue result (IsEntry (map import_of imports.now) (map (λ n. n.now) libraries.now) number
        wanted.now.library.now wanted.now.name.now) }
    ensures only { IsEntry (map import_of imports.now) (map (λ n. n.now) libraries.now) number
        wanted.now.library.now wanted.now.name.now → result ≡ true }
{
    match imports.get(number as usize) {
        Some(entry) => {
            entry.name == wanted.name && library_name(libraries, entry.library) == wanted.library
        }
        None => false,
    }
}

/// Whether a word of an image binds an import of a link with an addend. The lists are the imports of the image and the
/// names of its libraries.
pub fn bind_leads(
    line: &FixupLine,
    imports: &[LoadedImport<'_>],
    libraries: &[&[u8]],
    wanted: &ImportName<'_>,
    addend: u64,
) -> bool
    ensures found { (l : Link) (b : List ℕ) (p : Placed) (id : ℕ) → IsLineOf b line.now
        → AreImportsOf b (map import_of imports.now) (map (λ n. n.now) libraries.now)
        → IsImportNamed l id wanted.now.library.now wanted.now.name.now
        → OnTrue result (WordLeads l b p line.now.address (target.Import id) addend) }
    ensures only { (l : Link) (b : List ℕ) (p : Placed) (id : ℕ) → IsLineOf b line.now
        → AreImportsOf b (map import_of imports.now) (map (λ n. n.now) libraries.now)
        → IsImportNamed l id wanted.now.library.now wanted.now.name.now
        → WordLeads l b p line.now.address (target.Import id) addend → result ≡ true }
{
    match line.kind {
        LineKind::Rebase { .. } => false,
        LineKind::Bind {
            import,
            addend: sum,
        } => sum.cast_unsigned() == addend && is_entry(imports, libraries, import, wanted),
    }
}
