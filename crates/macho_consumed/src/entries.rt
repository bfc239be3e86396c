//! Sections of compact unwind information: `__compact_unwind`, an entry for each function.
ghost use Rattle.std.specs.Prelude.{◌≡◌, ℕ, ◌/◌, ◌<◌, ◌++◌, true, false, not, IfErr, OnOk};
ghost use Rattle.macho_consumed.specs.declared.fault.ConsumedFault.TheVariants as ConsumedFault;
ghost use Rattle.macho_model.specs.declared.rules.UnwindRule.TheVariants as UnwindRule;
ghost use Rattle.macho_model.specs.Objects.{num_sections, section_at};
ghost use Rattle.macho_model.specs.Consumed.{whole_entries};
ghost use Rattle.macho_symbols.specs.Kept.{ResolvedRows};
ghost use Rattle.macho_consumed.specs.steps.Alone.{alone, own};
ghost use Rattle.macho_consumed.specs.steps.Checked.{AreNamed};
ghost use Rattle.macho_consumed.specs.steps.Entries.{rows_in, IsReadable, SectionKeeps, SectionBreaksRule, IsBadUnwind};

use crate::fault::ConsumedFault;
use crate::rows::UnwindEntry;
use crate::section::{Section, section_of};
use macho_model::UnwindRule;
use macho_object::File;
use macho_records::UnwindInfoEntry;
use macho_symbols::Resolved;
use std::alloc::Global;

/// The bytes of an entry.
const ENTRY_SIZE: u64 = UnwindInfoEntry::SIZE as u64;

impl Section<'_, '_> {
    /// Whether it has entries, and no bytes.
    fn lacks_bytes(&self) -> bool
        ensures none { (r : ResolvedRows) (file : ℕ) → result ≡ true
            → SectionBreaksRule r self.now.bytes file self.now.section 0 UnwindRule.U4 }
        ensures some { result ≡ false → IsReadable self.now.bytes self.now.section }
    {
        self.header.is_no_bits() && self.header.size >= ENTRY_SIZE
    }

    /// How many whole entries it has.
    fn num_entries(&self) -> u32
        requires { IsReadable self.now.bytes self.now.section }
        ensures { result ≡ (section_at self.now.bytes self.now.section).size / 32 }
    {
        (self.header.size / ENTRY_SIZE) as u32
    }

    /// Whether an entry is cut at its end.
    fn is_cut(&self) -> bool
        ensures { result ≡ not (whole_entries (alone self.now.bytes) (own self.now.section)) }
    {
        self.header.size % ENTRY_SIZE != 0
    }
}

/// An entry that breaks a rule.
fn bad_unwind(file: u32, section: u32, entry: u32, rule: UnwindRule) -> ConsumedFault
    ensures { result ≡ ConsumedFault.BadUnwind file section entry rule }
{
    ConsumedFault::BadUnwind {
        file,
        section,
        entry,
        rule,
    }
}

/// Adds the entries of a section, entry by entry: whether a relocation stands between places, then what the entry says. Whether the
/// last one is cut is looked at behind them.
pub(crate) fn add_entries(
    alloc: Global,
    symbols: &Resolved<'_>,
    file: &File<'_>,
    number: u32,
    section: u32,
    rows: &mut Vec<UnwindEntry>,
) -> Result<(), ConsumedFault>
    requires kind { file.now.is_dynamic ≡ false }
    requires among { section < num_sections file.now.bytes }
    requires named { AreNamed symbols.now number file.now.bytes }
    ensures added { OnOk result
        (rows.new.items ≡ rows.old.items ++ rows_in file.now.bytes number section ((section_at file.now.bytes section).size / 32)) }
    ensures found { OnOk result (SectionKeeps symbols.now file.now.bytes number section) }
    ensures why { IfErr result (IsBadUnwind symbols.now file.now.bytes number section) }
{
    let source = section_of(file, section);
    if source.lacks_bytes() {
        return Err(bad_unwind(number, section, 0, UnwindRule::U4));
    }
    let places = source.places(alloc)?;
    for entry in 0..source.num_entries() {
        if let Some(address) = places.between_below(ENTRY_SIZE * (u64::from(entry) + 1)) {
            return Err(bad_unwind(number, section, address / ENTRY_SIZE as u32, UnwindRule::U2));
        }
        match source.entry(symbols, number, entry, &places.cells) {
            Ok(row) => rows.push(row)?,
            Err(rule) => return Err(bad_unwind(number, section, entry, rule)),
        }
    }
    if source.is_cut() {
        return Err(bad_unwind(number, section, source.num_entries(), UnwindRule::U1));
    }
    Ok(())
}
