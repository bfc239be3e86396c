//! Segments by their names.
ghost use Rattle.std.specs.Prelude.{◌≡◌};
ghost use Rattle.macho_model.specs.Segments.{may_hold_pointers};

/// Whether the loader may write pointers in a segment of this name.
pub fn may_hold_pointers(name: &[u8]) -> bool
    ensures { result ≡ may_hold_pointers name.now }
{
    name == b"__DATA".as_slice() || name == b"__DATA_CONST".as_slice()
}
