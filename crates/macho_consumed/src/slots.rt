//! Sections of initializers: `__mod_init_func`, a pointer of 8 bytes in each slot.
ghost use Rattle.std.specs.Prelude.{◌≡◌, ℕ, ◌+◌, ◌*◌, ◌/◌, ◌%◌, ◌<◌, ◌≤◌, ◌++◌, true, false, MatchOption, IfErr, OnOk};
ghost use Rattle.macho_model.specs.Objects.{num_sections, section_at};
ghost use Rattle.macho_model.specs.Consumed.{initializer_section_fits};
ghost use Rattle.macho_consumed.specs.steps.Alone.{alone, own};
ghost use Rattle.macho_consumed.specs.steps.Places.{CellTells};
ghost use Rattle.macho_consumed.specs.steps.Checked.{AreNamed};
ghost use Rattle.macho_consumed.specs.steps.Slots.{in_slot, is_symbol_pointer, SlotIs, SlotBreaks, SectionFits, IsBadSection, slot_rows};
ghost use Rattle.macho_consumed.specs.declared.fault.ConsumedFault.TheVariants as ConsumedFault;

use crate::fault::ConsumedFault;
use crate::places::{Cell, is_plain_pointer};
use crate::rows::Initializer;
use crate::section::{Section, section_of};
use crate::targets::leads_into;
use macho_object::File;
use macho_records::{RelocationInfo, S_MOD_INIT_FUNC_POINTERS, SectionFlags};
use macho_symbols::Resolved;
use macho_wire::little_at;
use std::alloc::Global;

/// The bytes of a slot.
const SLOT_SIZE: u64 = 8;

/// Whether a relocation is a pointer to a symbol.
fn is_symbol_pointer(relocation: RelocationInfo) -> bool
    ensures { result ≡ is_symbol_pointer relocation }
{
    is_plain_pointer(relocation) && relocation.r_extern
}

impl Section<'_, '_> {
    /// Whether it is one of initializers, and made of whole slots.
    fn has_slots(&self) -> bool
        ensures { result ≡ initializer_section_fits (alone self.now.bytes) (own self.now.section) }
    {
        SectionFlags(self.header.flags).typ() == S_MOD_INIT_FUNC_POINTERS
            && self.header.size % SLOT_SIZE == 0
    }

    /// The pointer of a slot with its number, None where the slot breaks its rules.
    fn pointer_in_slot(&self, cell: Cell, slot: usize) -> Option<(u32, RelocationInfo)>
        requires whole { initializer_section_fits (alone self.now.bytes) (own self.now.section) ≡ true }
        requires within { 8 * slot + 8 ≤ (section_at self.now.bytes self.now.section).size }
        requires cell { CellTells (in_slot self.now.bytes self.now.section slot) cell }
        ensures { MatchOption result (SlotBreaks self.now.bytes self.now.section slot) (SlotIs self.now.bytes self.now.section slot) }
    {
        let number = match cell {
            Cell::One(number) => number,
            Cell::Empty | Cell::Several => return None,
        };
        let relocation = self.relocation(number);
        if !is_symbol_pointer(relocation) {
            return None;
        }
        let content: u64 = little_at(self.bytes, 8 * slot, 0);
        if content != 0 {
            return None;
        }
        Some((number, relocation))
    }
}

/// A section that is broken at an offset.
fn bad_initializer(file: u32, section: u32, offset: u64) -> ConsumedFault
    ensures { result ≡ ConsumedFault.BadInitializer file section offset }
{
    ConsumedFault::BadInitializer {
        file,
        section,
        offset,
    }
}

/// Adds the initializers of a section, slot by slot: the form of a slot is looked at, then where its pointer leads, then whether a
/// relocation stands between it and the next.
pub(crate) fn add_initializers(
    alloc: Global,
    symbols: &Resolved<'_>,
    file: &File<'_>,
    number: u32,
    section: u32,
    rows: &mut Vec<Initializer>,
) -> Result<(), ConsumedFault>
    requires kind { file.now.is_dynamic ≡ false }
    requires among { section < num_sections file.now.bytes }
    requires named { AreNamed symbols.now number file.now.bytes }
    ensures added { OnOk result
        (rows.new.items ≡ rows.old.items ++ slot_rows file.now.bytes number section ((section_at file.now.bytes section).size / 8)) }
    ensures found { OnOk result (SectionFits symbols.now file.now.bytes number section) }
    ensures why { IfErr result (IsBadSection symbols.now file.now.bytes number section) }
{
    let source = section_of(file, section);
    if !source.has_slots() {
        return Err(bad_initializer(number, section, 0));
    }
    let places = source.places(alloc)?;
    for slot in 0..places.cells.len() {
        let start = SLOT_SIZE * slot as u64;
        let Some((index, relocation)) = source.pointer_in_slot(places.cells[slot], slot) else {
            return Err(bad_initializer(number, section, start));
        };
        let row = Initializer {
            file: number,
            section,
            number: index,
            relocation,
        };
        if !leads_into(symbols, row) {
            return Err(bad_initializer(number, section, start));
        }
        if let Some(address) = places.between_below(start + SLOT_SIZE) {
            return Err(bad_initializer(number, section, u64::from(address)));
        }
        rows.push(row)?;
    }
    Ok(())
}
