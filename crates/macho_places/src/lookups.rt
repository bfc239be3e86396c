//! The look-ups of a link, over its placement, its needs and the views of its objects.
ghost use Rattle.std.specs.Prelude.{◌≡◌, ℕ, ◌+◌, ◌^◌, ◌<◌, List, length, map, Some, IfOk};
ghost use Rattle.macho_model.specs.declared.placed.Counts.{Counts};
ghost use Rattle.macho_model.specs.Links.{Link, is_template};
ghost use Rattle.macho_layout.specs.Placements.{placed_of};
ghost use Rattle.macho_symbols.specs.Kept.{IsResolved, HasSymbol};
ghost use Rattle.macho_fields.specs.Looks.{Tells};
ghost use Rattle.macho_places.specs.Places.{AreOfLink};
ghost use Rattle.macho_places.specs.Looked.{template_in, numbered, entry_number};

use crate::addresses::Addresses;
use macho_fields::Places;
use macho_layout::{Placement, Slot, Stub};
use macho_model::{Range64, Target};
use macho_needs::{Needs, Tables};
use macho_object::{File, is_carried, view_of};
use macho_records::{S_THREAD_LOCAL_REGULAR, S_THREAD_LOCAL_ZEROFILL, SectionFlags, SectionHeader};
use macho_symbols::OwnEntry;
use std::alloc::{AllocError, Global};
use std::marker::Model;

/// The greatest number of an entry of the import table.
const GREATEST_NUMBER: usize = u32::MAX as usize;

/// The look-ups of a placed link.
#[derive(Drop)]
pub struct LinkPlaces<'a, 'data> {
    placement: &'a Placement,
    addresses: Addresses,
    needs: &'a Needs<'a>,
    /// How many imports are noted.
    imports: usize,
    views: &'a [Option<File<'data>>],
}

impl<'a, 'data> Model for LinkPlaces<'a, 'data> {
    ghost use Rattle.macho_layout.specs.Placements.{placed_of};
    ghost use Rattle.macho_places.specs.Places.{Known};
    ghost use Rattle.macho_places.specs.steps.Looked.{IsSetUp};

    ghost Value = { Known };

    ghost view = { λ s. record {
      placed = placed_of s.placement.now;
      rows = s.needs.now.resolved;
      imports = s.imports;
      tables = s.needs.now.tables;
      views = s.views.now;
    } };

    ghost invariant = { λ s. IsSetUp s.addresses (placed_of s.placement.now) s.imports s.needs.now.tables };
}

impl<'a, 'data> LinkPlaces<'a, 'data> {
    /// The look-ups of a link by its placement, its needs, and the views of its objects by the numbers of their files.
    ///
    /// # Errors
    ///
    /// There is not enough memory.
    pub fn new(
        alloc: Global,
        placement: &'a Placement,
        needs: &'a Needs<'a>,
        views: &'a [Option<File<'data>>],
    ) -> Result<LinkPlaces<'a, 'data>, AllocError>
        ensures tells { (l : Link) (counts : Counts) → AreOfLink l counts (placed_of placement.now) needs.now views.now
            → IfOk result (λ p. Tells l (placed_of placement.now) (⟦<LinkPlaces<'a, 'data> as Places>⟧.look p)) }
        ensures known { (l : Link) → IsResolved l needs.now.resolved.noted needs.now.resolved
            → IfOk result (λ p. (file symbol : ℕ) → HasSymbol needs.now.resolved file symbol
            → ⟦<LinkPlaces<'a, 'data> as Places>⟧.has_symbol p file symbol) }
    {
        let imports = needs.resolved.imports().len();
        // A link has fewer uses of symbols than that.
        if imports > GREATEST_NUMBER || needs.tables.num_own() > GREATEST_NUMBER - imports {
            return Err(AllocError);
        }
        Ok(LinkPlaces {
            placement,
            addresses: Addresses::new(alloc, placement)?,
            needs,
            imports,
            views,
        })
    }
}

/// The address of a slot by its number; 0 past the end.
fn slot_at(slots: &[Slot], number: Option<usize>) -> u64
    ensures { result ≡ numbered (map (λ s. s.address) slots.now) number }
{
    match number {
        Some(number) => match slots.get(number) {
            Some(slot) => slot.address,
            None => 0,
        },
        None => 0,
    }
}

/// The address of a stub by its number; 0 past the end.
fn stub_at(stubs: &[Stub], number: Option<usize>) -> u64
    ensures { result ≡ numbered (map (λ s. s.address) stubs.now) number }
{
    match number {
        Some(number) => match stubs.get(number) {
            Some(stub) => stub.address,
            None => 0,
        },
        None => 0,
    }
}

/// Whether a section lies in the thread-local template.
fn is_template(header: SectionHeader) -> bool
    ensures { result ≡ is_template header }
{
    let kind = SectionFlags(header.flags).typ();
    let initial = kind == S_THREAD_LOCAL_REGULAR || kind == S_THREAD_LOCAL_ZEROFILL;
    is_carried(header) && initial
}

/// Whether a section of a viewed object lies in the thread-local template.
fn template_in(file: &File<'_>, section: u32) -> bool
    ensures { result ≡ template_in (Some file.now) section }
{
    match file.section(section) {
        Some(header) => is_template(header),
        None => false,
    }
}

/// The number of an import's entry for an addend, where imports come first.
fn entry_number(imports: usize, tables: &Tables, import: u32, addend: u64) -> u32
    requires { imports + length tables.now.own < 2 ^ 32 }
    ensures { result ≡ entry_number imports tables.now.own import addend }
{
    if addend == 0 && (import as usize) < imports {
        return import;
    }
    let behind = match tables.own_number(OwnEntry { import, addend }) {
        Some(number) => number,
        None => tables.num_own(),
    };
    (imports + behind) as u32
}

impl<'a, 'data> Places for LinkPlaces<'a, 'data> {
    ghost use Rattle.macho_places.specs.Places.{IsKnown};
    ghost use Rattle.macho_places.specs.Looked.{look_of};

    ghost look = { look_of };

    ghost has_symbol = { λ p file symbol. IsKnown p.rows file symbol };

    fn base(&self) -> u64 {
        self.placement.base
    }

    fn template(&self) -> Option<Range64> {
        self.placement.template
    }

    #[inline(always)]
    fn target(&self, file: u32, symbol: u32) -> Target {
        self.needs.resolved.target(file, symbol)
    }

    fn is_in_template(&self, file: u32, section: u32) -> bool {
        match view_of(self.views, file) {
            Some(file) => template_in(file, section),
            None => false,
        }
    }

    fn section(&self, file: u32, section: u32) -> u64 {
        self.addresses.section(file, section)
    }

    fn common(&self, id: u32) -> u64 {
        self.addresses.common(id)
    }

    fn slot(&self, target: Target) -> u64 {
        slot_at(&self.placement.slots, self.needs.tables.slot_number(target))
    }

    fn stub(&self, import: u32) -> u64 {
        stub_at(&self.placement.stubs, self.needs.tables.stub_number(import))
    }

    fn own_entry(&self, import: u32, addend: u64) -> u32 {
        entry_number(self.imports, &self.needs.tables, import, addend)
    }
}
