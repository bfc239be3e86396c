//! The stub text of a library.
//!
//! ```text
//! --- !tapi-tbd
//! tbd-version: 4
//! targets: [ arm64e-macos ]
//! install-name: '/usr/lib/libq.dylib'
//! current-version: 1
//! exports:
//!   - targets: [ arm64e-macos ]
//!     symbols: [ '_a', '_c' ]
//!     weak-symbols: [ '_b' ]
//! ...
//! ```
ghost use Rattle.std.specs.Prelude.{◌≡◌, ◌++◌, OnOk, IfOk, codes, if◌then◌else◌};
ghost use Rattle.std.specs.String.{string_bytes};
ghost use Rattle.macho_stub_lines.specs.Lists.{texts};
ghost use Rattle.macho_tbd.specs.Text.{quoted, text_of};
ghost use Rattle.macho_tbd.specs.Writable.{has_single};
ghost use Rattle.macho_tbd.specs.steps.Pieces.{others_of, line_of, exports_of};
ghost use Rattle.macho_tbd.specs.steps.Gathered.{reading};

use crate::library::Library;
use crate::writable::has_single;
use std::alloc::{AllocError, Global};

/// What stands in front of the install name.
const HEAD: &str = "--- !tapi-tbd\ntbd-version: 4\ntargets: [ arm64e-macos ]\ninstall-name: ";

/// The quote in which a name stands.
fn quote_of(name: &str) -> &'static str
    ensures { result.now ≡ (if has_single name.now then codes "\"" else codes "'") }
{
    if has_single(name.as_bytes()) {
        "\""
    } else {
        "'"
    }
}

/// Adds a name in quotes.
fn push_quoted(text: &mut String, name: &str) -> Result<(), AllocError>
    ensures { OnOk result (string_bytes text.new ≡ string_bytes text.old ++ quoted name.now) }
{
    let quote = quote_of(name);
    text.push_str(quote)?;
    text.push_str(name)?;
    text.push_str(quote)?;
    Ok(())
}

/// Adds names in quotes, with a comma and a space before each.
fn push_others(text: &mut String, names: &[&str]) -> Result<(), AllocError>
    ensures { OnOk result (string_bytes text.new ≡ string_bytes text.old ++ others_of (texts names.now)) }
{
    for name in names {
        text.push_str(", ")?;
        push_quoted(text, name)?;
    }
    Ok(())
}

/// Adds the line of some names, which begins with this text, if there are any.
fn push_line(text: &mut String, begin: &str, names: &[&str]) -> Result<(), AllocError>
    ensures { OnOk result (string_bytes text.new ≡ string_bytes text.old ++ line_of begin.now (texts names.now)) }
{
    let Some((first, others)) = names.split_first() else {
        return Ok(());
    };
    text.push_str(begin)?;
    push_quoted(text, first)?;
    push_others(text, others)?;
    text.push_str(" ]\n")?;
    Ok(())
}

/// Adds the lines of what is exported, if there is anything.
fn push_exports(text: &mut String, library: &Library<'_>) -> Result<(), AllocError>
    ensures { OnOk result (string_bytes text.new ≡ string_bytes text.old ++ exports_of (texts library.now.names.items)
        (texts library.now.weak_names.items)) }
{
    if library.offers_nothing() {
        return Ok(());
    }
    text.push_str("exports:\n  - targets: [ arm64e-macos ]\n")?;
    push_line(text, "    symbols: [ ", &library.names)?;
    push_line(text, "    weak-symbols: [ ", &library.weak_names)?;
    Ok(())
}

/// The text that says what is known of a library.
///
/// # Errors
///
/// There is not enough memory.
pub(crate) fn text_of(alloc: Global, library: &Library<'_>) -> Result<String, AllocError>
    ensures { IfOk result (λ text. string_bytes text ≡ text_of (reading library.now)) }
{
    let mut text = String::new(alloc);
    text.push_str(HEAD)?;
    push_quoted(&mut text, library.install_name)?;
    text.push_str("\ncurrent-version: 1\n")?;
    push_exports(&mut text, library)?;
    text.push_str("...\n")?;
    Ok(text)
}
