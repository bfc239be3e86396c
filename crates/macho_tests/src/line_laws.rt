//! Callers of the laws of lines: each says of its own values what the law says of all.
ghost use Rattle.std.specs.Prelude.{◌≡◌, ◌≢◌, true, false, All, Ok};
ghost use Rattle.macho_stub_lines.specs.Bytes.{has_barred};
ghost use Rattle.macho_stub_lines.specs.Slices.{Slice};
ghost use Rattle.macho_stub_lines.specs.Keys.{scalar_value};
ghost use Rattle.macho_stub_lines.specs.Spelling.{IsScalarValue};

use macho_stub_lines::bytes::has_barred;
use macho_stub_lines::laws::{lines_are_trees, lines_hold_no_nul};

/// Whether a line may stand in a text: then it holds no NUL.
fn may_stand(line: &[u8]) -> bool
    ensures is { result ≡ true → has_barred line.now ≡ false }
    ensures plain { result ≡ true → All (λ b. b ≢ 0) line.now }
{
    lines_hold_no_nul();
    !has_barred(line)
}

/// A value that is read as a scalar is spelled as one, with that text.
fn scalar_is_spelled(line: usize, at: usize, value: &[u8], text: &[u8])
    requires { scalar_value line value.now ≡ Ok text.now }
    ensures { (says : Slice) × IsScalarValue at value.now says × (says.text ≡ text.now) }
{
    lines_are_trees();
}
