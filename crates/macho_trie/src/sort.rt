//! Names in order.
ghost use Rattle.std.specs.Prelude.{◌≡◌, IfOk, map};
ghost use Rattle.macho_trie.specs.Symbols.{names_of};
ghost use Rattle.macho_trie.specs.Sorting.{AreDistinct};
ghost use Rattle.macho_trie.specs.steps.Sorting.{AreSorted, AreShared};

use crate::symbols::Symbols;
use std::alloc::{AllocError, Global};

/// All names in rising order of their bytes, each with the number of its symbol.
pub(crate) fn sorted_names<'a>(
    alloc: Global,
    symbols: &Symbols<'a>,
) -> Result<Vec<(&'a [u8], usize)>, AllocError>
    requires { AreDistinct (names_of symbols.now) }
    ensures { IfOk result (λ v. AreSorted (names_of symbols.now) (map (λ p. (p.0.now, p.1)) v.items)) }
{
    let mut names = Vec::with_capacity(alloc, symbols.len())?;
    for (symbol, item) in symbols.items.iter().enumerate() {
        names.push((item.name, symbol))?;
    }
    names.sort()?;
    Ok(names)
}

/// How many first bytes two names share.
pub(crate) fn shared_length(first: &[u8], second: &[u8]) -> usize
    ensures { AreShared first.now second.now result }
{
    let mut shared = 0;
    while shared < first.len() && shared < second.len() && first[shared] == second[shared] {
        shared += 1;
    }
    shared
}
