//! Names of symbols, as the string table has them.
ghost use Rattle.std.specs.Prelude.{◌≡◌, true, None};
ghost use Rattle.macho_records.specs.Texts.{ascii_output};

use crate::names::write_bytes;
use std::fmt;

/// The name of a symbol. Mach-O names have no version.
#[derive(Clone, Copy)]
pub struct RawSymbolName<'data> {
    /// The bytes of the name, without the NUL behind it.
    pub name: &'data [u8],
}

impl<'data> RawSymbolName<'data> {
    /// The name of these bytes.
    pub fn parse(name: &'data [u8]) -> RawSymbolName<'data>
        ensures { result.name.now ≡ name.now }
    {
        RawSymbolName { name }
    }

    /// The bytes of the name.
    pub fn name(&self) -> &'data [u8]
        ensures { result.now ≡ self.now.name.now }
    {
        self.name
    }

    /// None: a name has no version.
    pub fn version_name(&self) -> Option<&'data [u8]>
        ensures { result ≡ None }
    {
        None
    }

    /// Each name is the default version of itself.
    pub fn is_default(&self) -> bool
        ensures { result ≡ true }
    {
        true
    }
}

/// Prints the bytes of the name.
impl fmt::Display for RawSymbolName<'_> {
    ghost output = { λ n. ascii_output n.name.now };

    fn fmt<W: fmt::Write>(&self, f: &mut fmt::Formatter<W>) -> fmt::Result {
        write_bytes(f, self.name)
    }
}
