//! Where the symbols of initializers and of personality functions lead.
ghost use Rattle.std.specs.Prelude.{◌≡◌, ℕ, List, ◌||◌, Some};
ghost use Rattle.macho_model.specs.Links.{Link};
ghost use Rattle.macho_symbols.specs.Kept.{IsResolved, HasSymbol};
ghost use Rattle.macho_model.specs.Targets.{is_defined, is_import};
ghost use Rattle.macho_model.specs.Consumed.{is_section_target};
ghost use Rattle.macho_consumed.specs.steps.Checked.{leads_into, leads_somewhere};

use crate::rows::{Initializer, PersonalityUse};
use macho_model::Target;
use macho_symbols::Resolved;

/// Whether a target is a place in a carried section.
pub fn is_section_target(target: Target) -> bool
    ensures { result ≡ is_section_target target }
{
    match target {
        Target::Section { .. } => true,
        Target::Common { .. }
        | Target::Import { .. }
        | Target::Base
        | Target::Absolute { .. }
        | Target::None => false,
    }
}

/// Whether a target moves with the image, or is a symbol of a library.
fn is_somewhere(target: Target) -> bool
    ensures { result ≡ is_defined target || is_import target }
{
    match target {
        Target::Section { .. } | Target::Common { .. } | Target::Import { .. } | Target::Base =>
            true,
        Target::Absolute { .. } | Target::None => false,
    }
}

/// Whether an initializer is a place in a carried section.
pub(crate) fn leads_into(symbols: &Resolved<'_>, row: Initializer) -> bool
    requires { HasSymbol symbols.now row.file row.relocation.r_symbolnum }
    ensures { (l : Link) (noted : List (List ℕ)) → IsResolved l noted symbols.now → result ≡ leads_into l noted row }
{
    is_section_target(symbols.target(row.file, row.relocation.r_symbolnum))
}

/// Whether a personality function is defined, or one of a library.
pub(crate) fn leads_somewhere(symbols: &Resolved<'_>, file: u32, used: PersonalityUse) -> bool
    requires { HasSymbol symbols.now file used.relocation.r_symbolnum }
    ensures { (l : Link) (noted : List (List ℕ)) → IsResolved l noted symbols.now → result ≡ leads_somewhere l noted file (Some used) }
{
    is_somewhere(symbols.target(file, used.relocation.r_symbolnum))
}
