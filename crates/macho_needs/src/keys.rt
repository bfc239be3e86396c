//! The keys of the table of slots: a slot is found by its target.
ghost use Rattle.std.specs.Prelude.{◌≡◌};
ghost use Rattle.macho_needs.specs.Tables.{target_of};

use macho_model::Target;

/// The target of a slot, in a form that can be hashed; [`Target`] says what each case means.
#[derive(Clone, Copy, PartialEq, Eq, Hash)]
pub enum SlotKey {
    /// A place in a carried section: file, section, offset.
    Section(u32, u32, u64),
    /// A chosen common, by its number.
    Common(u32),
    /// An import, by its number.
    Import(u32),
    /// The first byte of the image.
    Base,
    /// An absolute value.
    Absolute(u64),
    /// No target.
    Nothing,
}

/// The key of a target, by which it is told apart from others.
pub fn key(target: Target) -> SlotKey
    ensures { target_of result ≡ target }
{
    match target {
        Target::Section {
            file,
            section,
            offset,
        } => SlotKey::Section(file, section, offset),
        Target::Common { id } => SlotKey::Common(id),
        Target::Import { id } => SlotKey::Import(id),
        Target::Base => SlotKey::Base,
        Target::Absolute { value } => SlotKey::Absolute(value),
        Target::None => SlotKey::Nothing,
    }
}

/// The target of a key.
pub(crate) fn target(key: SlotKey) -> Target
    ensures { result ≡ target_of key }
{
    match key {
        SlotKey::Section(file, section, offset) => Target::Section {
            file,
            section,
            offset,
        },
        SlotKey::Common(id) => Target::Common { id },
        SlotKey::Import(id) => Target::Import { id },
        SlotKey::Base => Target::Base,
        SlotKey::Absolute(value) => Target::Absolute { value },
        SlotKey::Nothing => Target::None,
    }
}
