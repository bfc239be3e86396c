//! The tables of `__LINKEDIT`, one behind the other in the file.
ghost use Rattle.std.specs.Prelude.{◌≡◌, ◌+◌, ◌*◌, ◌<◌, ◌≤◌, ◌^◌};
ghost use Rattle.macho_stack.specs.Tables.{tables_at, tables_cost};
ghost use Rattle.macho_model.specs.Rooms.{fixup_room};

use macho_model::{Counts, FIXUP_RECORDS, Linkedit, Range64, SIGNATURE_FIXED, SIGNED_PAGE};

fn range(start: u64, size: u64) -> Range64
    requires { start + size < 2 ^ 64 }
    ensures { result ≡ record { start = start; end = start + size } }
{
    Range64 {
        start,
        end: start + size,
    }
}

/// The room of the fixup table, for so many pages that fixups may reach.
fn fixup_room(counts: &Counts, pages: u64) -> u64
    requires { tables_cost counts.now 0 pages < 2 ^ 64 }
    ensures { result ≡ fixup_room counts.now pages }
{
    let entries = FIXUP_RECORDS + counts.import_size * counts.imports + counts.name_bytes;
    entries.next_multiple_of(8) + (2 * pages).next_multiple_of(8)
}

/// The tables from a file offset on.
pub fn tables(counts: &Counts, offset: u64, pages: u64) -> Linkedit
    requires { tables_cost counts.now offset pages < 2 ^ 64 }
    ensures { result ≡ tables_at counts.now offset pages }
{
    let fixups = range(offset, fixup_room(counts, pages));
    let trie = range(fixups.end, counts.trie);
    let symtab = range(trie.end.next_multiple_of(8), 16 * counts.symbols);
    let strtab = range(symtab.end, counts.strings);
    let limit = strtab.end.next_multiple_of(16);
    let digests = 32 * (limit.next_multiple_of(SIGNED_PAGE) / SIGNED_PAGE);
    let signature = range(limit, SIGNATURE_FIXED + counts.identifier + digests);
    Linkedit {
        fixups,
        trie,
        symtab,
        strtab,
        signature,
    }
}
