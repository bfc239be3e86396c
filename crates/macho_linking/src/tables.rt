//! The tables of `__LINKEDIT`: fixups and imports, the exports trie, symbols.
ghost use Rattle.std.specs.Prelude.{◌≡◌, map, length, IfOk, OnOk};
ghost use Rattle.macho_model.specs.Links.{Link};
ghost use Rattle.macho_symbols.specs.Entries.{entry_of};
ghost use Rattle.macho_linkedit.specs.Runs.{IsRunOf};
ghost use Rattle.macho_linking.specs.steps.Planned.{IsPlanned, IsLooked, KnowsAll, placement_of, counts_of};
ghost use Rattle.macho_linking.specs.steps.Written.{FixupsArePut, TrieIsPut, SymbolsArePut};

use crate::planned::Planned;
use macho_contents::write_fixup_table;
use macho_fields::Places;
use macho_fixups::Fixup;
use macho_linkedit::import_table;
use macho_symbol_tables::{said_exports, write_symbol_table};
use macho_symbols::OwnEntry;
use macho_synthetic::Tables;
use std::alloc::{AllocError, Global};

/// The entries of the import table that pointers need of their own.
fn own_entries(alloc: Global, tables: &Tables) -> Result<Vec<OwnEntry>, AllocError>
    ensures { IfOk result (λ own. map entry_of own.items ≡ tables.now.own) }
{
    let mut own = Vec::new(alloc);
    for number in 0..tables.num_own() {
        if let Some(entry) = tables.own_entry(number) {
            own.push(entry)?;
        }
    }
    Ok(own)
}

/// Writes the fixup table of a run.
pub(crate) fn write_imports(
    alloc: Global,
    b: &Planned<'_>,
    run: &[Fixup],
    out: &mut [u8],
) -> Result<(), AllocError>
    requires link { (l : Link) × IsPlanned l b.now × IsRunOf l (placement_of b.now) run.now }
    requires long { length out.old ≡ (placement_of b.now).linkedit.signature.end }
    ensures length { length out.new ≡ length out.old }
    ensures done { (l : Link) → IsPlanned l b.now → IsRunOf l (placement_of b.now) run.now
        → OnOk result (FixupsArePut l (placement_of b.now) run.now out.old out.new) }
{
    let own = own_entries(alloc, &b.read.needs.tables)?;
    let imports = b.read.needs.resolved.imports();
    let table = import_table(alloc, imports, &own, b.libraries)?;
    write_fixup_table(alloc, &b.sized.placement, run, &table, out)
}

/// Writes the exports trie, and answers its bytes.
pub(crate) fn write_trie<P: Places>(
    alloc: Global,
    b: &Planned<'_>,
    places: &P,
    out: &mut [u8],
) -> Result<usize, AllocError>
    requires link { (l : Link) × IsLooked l b.now (P.look places.now) }
    requires long { length out.old ≡ (placement_of b.now).linkedit.signature.end }
    ensures length { length out.new ≡ length out.old }
    ensures done { (l : Link) → IsLooked l b.now (P.look places.now)
        → IfOk result (λ size. TrieIsPut l (placement_of b.now) size out.old out.new) }
{
    let imports = b.read.needs.resolved.imports();
    let exports = said_exports(
        alloc,
        places,
        b.views,
        &b.read.exports,
        imports,
        b.libraries,
    )?;
    let start = b.sized.placement.linkedit.trie.start as usize;
    b.sized.trie.write(alloc, &exports, out, start)
}

/// Writes the symbol table and its strings.
pub(crate) fn write_symbols<P: Places>(
    alloc: Global,
    b: &Planned<'_>,
    places: &P,
    out: &mut [u8],
) -> Result<(), AllocError>
    requires known { KnowsAll b.now (P.has_symbol places.now) }
    requires link { (l : Link) × IsLooked l b.now (P.look places.now) }
    requires long { length out.old ≡ (placement_of b.now).linkedit.signature.end }
    ensures length { length out.new ≡ length out.old }
    ensures done { (l : Link) → IsLooked l b.now (P.look places.now)
        → OnOk result (SymbolsArePut l (counts_of b.now) (placement_of b.now) out.old out.new) }
{
    let placement = &b.sized.placement;
    let start = placement.linkedit.symtab.start as usize;
    let end = placement.linkedit.strtab.end as usize;
    write_symbol_table(
        alloc,
        places,
        placement,
        b.objects,
        &b.sized.symbols,
        b.list,
        &mut out[start..end],
    )
}
