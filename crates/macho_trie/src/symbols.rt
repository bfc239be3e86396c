//! The names to be exported, each with what stands for it.
ghost use Rattle.std.specs.Prelude.{◌<◌, List, length};
ghost use Rattle.std.specs.List.{All};
ghost use Rattle.macho_trie.specs.Says.{said_of};
ghost use Rattle.macho_trie.specs.steps.Says.{IsSound};

use std::alloc::{AllocError, Global};

/// Names with an address or a library for each, in the order in which they were pushed. The names are borrowed.
#[derive(Drop)]
pub struct Symbols<'a> {
    pub(crate) items: Vec<Symbol<'a>>,
    ghost sound: { All (λ s. IsSound (said_of s.says)) items.items },
}

/// A name, and what stands for it.
#[derive(Clone, Copy)]
pub(crate) struct Symbol<'a> {
    pub(crate) name: &'a [u8],
    pub(crate) says: Says<'a>,
}

/// What stands for a name.
#[derive(Clone, Copy)]
pub(crate) enum Says<'a> {
    Value { flags: u64, address: u64 },
    Reexport { ordinal: u64, name: &'a [u8] },
}

impl<'a> Symbols<'a> {
    ghost use Rattle.std.specs.Prelude.{◌≡◌, ℕ, [], IfOk, OnOk, OnErr, false};
    ghost use Rattle.macho_trie.specs.Exports.{REEXPORT, is_reexport, HasNoNul, as_value, as_reexport};
    ghost use Rattle.macho_trie.specs.Symbols.{symbols_of, names_of, with_name, with_symbol};
    ghost use Rattle.macho_trie.specs.Tables.{name_at};

    /// No names.
    pub fn new(alloc: Global) -> Symbols<'a>
        ensures none { symbols_of result ≡ [] }
        ensures names { names_of result ≡ [] }
    {
        Symbols {
            items: Vec::new(alloc),
        }
    }

    /// No names, and room for so many. `AllocError`: there is no memory for them.
    pub fn with_capacity(alloc: Global, count: usize) -> Result<Symbols<'a>, AllocError>
        ensures none { IfOk result (λ s. symbols_of s ≡ []) }
        ensures names { IfOk result (λ s. names_of s ≡ []) }
    {
        let items = Vec::with_capacity(alloc, count)?;
        Ok(Symbols { items })
    }

    /// Adds a name with its address, or its value. The flags are `EXPORT_SYMBOL_FLAGS_KIND_..` and
    /// `EXPORT_SYMBOL_FLAGS_WEAK_DEFINITION`. `AllocError`: there is no memory, and nothing is added.
    pub fn push(&mut self, name: &'a [u8], address: u64, flags: u64) -> Result<(), AllocError>
        requires { is_reexport flags ≡ false }
        ensures done { OnOk result (symbols_of self.new ≡ with_symbol (symbols_of self.old) name.now (as_value flags address)) }
        ensures names { OnOk result (names_of self.new ≡ with_name (names_of self.old) name.now) }
        ensures kept { OnErr result (symbols_of self.new ≡ symbols_of self.old) }
    {
        self.add(name, Says::Value { flags, address })
    }

    /// Adds a name of a library: the library's number from 1, and the name there, empty where it is the same.
    /// `AllocError`: there is no memory, and nothing is added.
    pub fn push_reexport(
        &mut self,
        name: &'a [u8],
        ordinal: u64,
        import_name: &'a [u8],
    ) -> Result<(), AllocError>
        requires { HasNoNul import_name.now }
        ensures done { OnOk result
            (symbols_of self.new ≡ with_symbol (symbols_of self.old) name.now (as_reexport REEXPORT ordinal import_name.now)) }
        ensures names { OnOk result (names_of self.new ≡ with_name (names_of self.old) name.now) }
        ensures kept { OnErr result (symbols_of self.new ≡ symbols_of self.old) }
    {
        self.add(
            name,
            Says::Reexport {
                ordinal,
                name: import_name,
            },
        )
    }

    /// How many names there are.
    pub fn len(&self) -> usize
        ensures { result ≡ length (names_of self.now) }
    {
        self.items.len()
    }

    /// A name by its number, in the order in which they were pushed.
    pub fn name(&self, number: usize) -> &'a [u8]
        requires { number < length (names_of self.now) }
        ensures { result.now ≡ name_at (names_of self.now) number }
    {
        self.items[number].name
    }

    fn add(&mut self, name: &'a [u8], says: Says<'a>) -> Result<(), AllocError>
        requires { IsSound (said_of says) }
        ensures done { OnOk result (symbols_of self.new ≡ with_symbol (symbols_of self.old) name.now (said_of says.entry)) }
        ensures names { OnOk result (names_of self.new ≡ with_name (names_of self.old) name.now) }
        ensures kept { OnErr result (symbols_of self.new ≡ symbols_of self.old) }
    {
        self.items.push(Symbol { name, says })?;
        Ok(())
    }
}
