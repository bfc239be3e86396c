//! The exports trie of a register of names.
ghost use Rattle.std.specs.Prelude.{◌≡◌, ℕ, ◌+◌, ◌<◌, ◌≤◌, [], List, IfOk, length, Contains};
ghost use Rattle.macho_trie.specs.Exports.{Exported};
ghost use Rattle.macho_trie.specs.Symbols.{names_of, symbols_of};
ghost use Rattle.macho_trie.specs.Sorting.{AreDistinct, HaveNoNul};
ghost use Rattle.macho_trie.specs.Lookup.{trie_finds};
ghost use Rattle.macho_trie.specs.Encoding.{IsExportsTrie};

use crate::build::table_of;
use crate::layout::Layout;
use crate::sort::sorted_names;
use crate::symbols::Symbols;
use crate::table::Row;
use std::alloc::{AllocError, Global};

/// The radix tree of the names of a register, without what stands for them. So it serves for any addresses.
#[derive(Drop)]
pub struct Trie {
    rows: Vec<Row>,
}

impl Trie {
    ghost use Rattle.macho_trie.specs.Tries.{IsTrieOf, IsSizeOf, IsLengthOfTrie, IsShortest, IsRoomFor, IsReservedFor, FindsAll, FindsOnly, IsWritten};

    /// The tree of a register's names, by one sort of them.
    pub fn new(alloc: Global, symbols: &Symbols<'_>) -> Result<Trie, AllocError>
        requires distinct { AreDistinct (names_of symbols.now) }
        requires plain { HaveNoNul (names_of symbols.now) }
        ensures { IfOk result (λ trie. IsTrieOf trie (names_of symbols.now)) }
    {
        let sorted = sorted_names(alloc, symbols)?;
        if sorted.is_empty() {
            return Ok(Trie {
                rows: Vec::new(alloc),
            });
        }
        let rows = table_of(alloc, symbols, &sorted)?;
        Ok(Trie { rows })
    }

    /// The number of bytes that `encode` gives. The register has the names that the trie was made of, in the same order.
    ///
    /// With the greatest addresses and flags 0, and reexports as they are, it is room enough for any addresses with
    /// flags below 128.
    pub fn compute_byte_size(
        &self,
        alloc: Global,
        symbols: &Symbols<'_>,
    ) -> Result<usize, AllocError>
        requires { IsTrieOf self.now (names_of symbols.now) }
        ensures size { IfOk result (λ n. IsSizeOf self.now (names_of symbols.now) (symbols_of symbols.now) n) }
        ensures only { IfOk result (λ n. (m : ℕ) → IsSizeOf self.now (names_of symbols.now) (symbols_of symbols.now) m → m ≡ n) }
        ensures exact { IfOk result (λ n. IsLengthOfTrie (symbols_of symbols.now) n) }
        ensures shortest { IfOk result (IsShortest self.now (names_of symbols.now) (symbols_of symbols.now)) }
        ensures covers { IfOk result (IsRoomFor self.now (names_of symbols.now) (symbols_of symbols.now)) }
        ensures reserves { IfOk result (IsReservedFor self.now (names_of symbols.now) (symbols_of symbols.now)) }
    {
        let layout = Layout {
            symbols,
            rows: &self.rows,
        };
        let places = layout.lay_out(alloc)?;
        Ok(places[self.rows.len()])
    }

    /// The bytes of the trie, none for no symbols. The register has the names that the trie was made of, in the same order.
    pub fn encode(&self, alloc: Global, symbols: &Symbols<'_>) -> Result<Vec<u8>, AllocError>
        requires { IsTrieOf self.now (names_of symbols.now) }
        ensures empty { symbols_of symbols.now ≡ [] → IfOk result (λ v. v.items ≡ []) }
        ensures tree { 1 ≤ length (symbols_of symbols.now) → IfOk result (λ v. IsExportsTrie (symbols_of symbols.now) v.items) }
        ensures length { IfOk result (λ v. IsSizeOf self.now (names_of symbols.now) (symbols_of symbols.now) (length v.items)) }
        ensures found { IfOk result (λ v. FindsAll (symbols_of symbols.now) v.items) }
        ensures only { IfOk result (λ v. FindsOnly (symbols_of symbols.now) v.items) }
    {
        let layout = Layout {
            symbols,
            rows: &self.rows,
        };
        let places = layout.lay_out(alloc)?;
        let mut bytes = vec![in alloc; 0u8; places[self.rows.len()]]?;
        layout.spell(alloc, &places, &mut bytes, 0)?;
        Ok(bytes)
    }

    /// Writes the trie from a place on, and returns how many bytes it has, none for no symbols. The other bytes stay. The register has
    /// the names that the trie was made of, in the same order.
    ///
    /// # Errors
    ///
    /// There is not enough memory.
    pub fn write(
        &self,
        alloc: Global,
        symbols: &Symbols<'_>,
        out: &mut [u8],
        at: usize,
    ) -> Result<usize, AllocError>
        requires trie { IsTrieOf self.now (names_of symbols.now) }
        requires room { (n : ℕ) → IsSizeOf self.now (names_of symbols.now) (symbols_of symbols.now) n → at + n ≤ length out.old }
        ensures length { length out.new ≡ length out.old }
        ensures done { IfOk result (λ n. IsWritten self.now (names_of symbols.now) (symbols_of symbols.now) at n out.old out.new) }
    {
        let layout = Layout {
            symbols,
            rows: &self.rows,
        };
        let places = layout.lay_out(alloc)?;
        let size = places[self.rows.len()];
        layout.spell(alloc, &places, out, at)?;
        Ok(size)
    }
}
