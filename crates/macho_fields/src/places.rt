//! What filling looks up: what symbols lead to, and where things are. Each look-up is asked once or twice for a field, so
//! it is to take constant time.
ghost use Rattle.std.specs.Prelude.{◌≡◌, ℕ};
ghost use Rattle.macho_fields.specs.Looks.{Look};

use macho_model::{Range64, Target};

/// Where things are, and what symbols lead to. What has no place may be told at any.
pub trait Places {
    /// What is told.
    ghost look: { Self → Look };

    /// A file has a symbol.
    ghost has_symbol: { Self → ℕ → ℕ → Type 0 };

    /// The address of the image's first byte.
    fn base(&self) -> u64
        ensures { result ≡ (look self.now).base };

    /// The initial values of thread-local variables, in addresses, where there are any.
    fn template(&self) -> Option<Range64>
        ensures { result ≡ (look self.now).template };

    /// What a symbol of an object leads to.
    fn target(&self, file: u32, symbol: u32) -> Target
        requires { has_symbol self.now file symbol }
        ensures { result ≡ (look self.now).target file symbol };

    /// Whether a section of an object holds initial values of thread-local variables.
    fn is_in_template(&self, file: u32, section: u32) -> bool
        ensures { result ≡ (look self.now).in_template file section };

    /// The address of a carried section.
    fn section(&self, file: u32, section: u32) -> u64
        ensures { result ≡ (look self.now).section file section };

    /// The address of a chosen common, by its number.
    fn common(&self, id: u32) -> u64
        ensures { result ≡ (look self.now).common id };

    /// The address of the slot of a target.
    fn slot(&self, target: Target) -> u64
        ensures { result ≡ (look self.now).slot target };

    /// The address of the stub of an import, by its number.
    fn stub(&self, import: u32) -> u64
        ensures { result ≡ (look self.now).stub import };

    /// The number of the entry that an import has for an addend in the table of imports.
    fn own_entry(&self, import: u32, addend: u64) -> u32
        ensures { result ≡ (look self.now).own import addend };
}
