//! Writes a plan as bytes.
ghost use Rattle.std.specs.Prelude.{◌≡◌, ◌+◌, ◌-◌, ◌*◌, ◌^◌, ◌<◌, ◌≤◌, length, All, MatchOption, count_by, nat_lt, sum_by};
ghost use Rattle.std.specs.List.{flat_map, AllPairs, range_with_len};
ghost use Rattle.macho_bytes.specs.Texts.{put};
ghost use Rattle.macho_unwind_pages.specs.Plans.{IsPlan, plan_list, page_list, page_size, size_of};
ghost use Rattle.macho_unwind.specs.Texts.{HasPlaces, page_place, entries_place, lsdas_place, pages_place, page_text, section_text};
ghost use Rattle.macho_unwind.specs.steps.Tables.{entry_text, lsda_text};
ghost use Rattle.macho_bytes.specs.Spellings.{spelling};
ghost use Rattle.macho_unwind.specs.Spellings.{page_entry_rows};
ghost use Rattle.macho_unwind.specs.steps.Records.{header_for, last_entry_for};
ghost use Rattle.macho_unwind.specs.steps.Texts.{last_place};

use crate::lookup::COMPRESSED;
use crate::records::{CompactUnwindInfoHeader, CompressedPage, LsdaEntry, PageEntry};
use macho_unwind_pages::{Lsda, Page, Plan};
use macho_wire::put_littles;

/// `UNWIND_SECTION_VERSION`.
const VERSION: u32 = 1;

/// The bytes of a page.
fn page_bytes(page: &Page) -> usize
    requires words { length page.now.words.items < 2 ^ 32 }
    requires locals { length page.now.locals.items < 2 ^ 32 }
    ensures { result ≡ page_size (page_list page.now) }
{
    12 + 4 * page.words.len() + 4 * page.locals.len()
}

/// Writes a page at a place; the other bytes stay.
#[tactic(auto, using(macho_bytes::proofs::Layouts::little_record), unfolding(crate::specs::Texts::page_text))]
fn write_page(out: &mut [u8], at: usize, page: &Page)
    requires room { at + page_size (page_list page.now) ≤ length out.old }
    requires words { length page.now.words.items < 2 ^ 10 }
    requires locals { length page.now.locals.items < 2 ^ 10 }
    ensures written { out.new ≡ put at (page_text (page_list page.now)) out.old }
    ensures long { length (page_text (page_list page.now)) ≡ page_size (page_list page.now) }
{
    let words = page.words.len() as u16;
    let head = CompressedPage {
        kind: COMPRESSED,
        functions_offset: CompressedPage::SIZE as u16,
        functions_len: words,
        local_opcodes_offset: CompressedPage::SIZE as u16 + 4 * words,
        local_opcodes_len: page.locals.len() as u16,
    };
    head.write(out, at);
    put_littles(out, at + 12, page.words.as_slice());
    put_littles(out, at + 12 + 4 * page.words.len(), page.locals.as_slice());
}

/// Writes the pages from a place on; the other bytes stay.
fn write_pages(out: &mut [u8], at: usize, pages: &[Page])
    requires room { at + sum_by (λ p. page_size (page_list p)) pages.now ≤ length out.old }
    requires words { All (λ p. length p.words.items < 2 ^ 10) pages.now }
    requires locals { All (λ p. length p.locals.items < 2 ^ 10) pages.now }
    ensures { out.new ≡ put at (flat_map (λ p. page_text (page_list p)) pages.now) out.old }
{
    let mut place = at;
    for page in pages {
        write_page(out, place, page);
        place += page_bytes(page);
    }
}

/// Writes the LSDA entries from a place on; the other bytes stay.
fn write_lsdas(out: &mut [u8], at: usize, lsdas: &[Lsda])
    requires { at + 8 * length lsdas.now ≤ length out.old }
    ensures { out.new ≡ put at (flat_map lsda_text lsdas.now) out.old }
{
    let mut place = at;
    for lsda in lsdas {
        let entry = LsdaEntry {
            function_offset: lsda.function,
            lsda_offset: lsda.lsda,
        };
        entry.write(out, place);
        place += LsdaEntry::SIZE;
    }
}

/// How many LSDAs, which stand by rising function, are of functions that start earlier.
fn lsdas_before(lsdas: &[Lsda], start: u32) -> usize
    requires { AllPairs (λ l m. l.function < m.function) lsdas.now }
    ensures is { result ≡ count_by (λ l. nat_lt l.function start) lsdas.now }
    ensures within { result ≤ length lsdas.now }
{
    lsdas.partition_point(|l| l.function < start)
}

/// The bytes of the section; None where the place of its last page doesn't fit 32 bits.
pub(crate) fn section_size(plan: &Plan) -> Option<usize>
    requires plan { IsPlan (plan_list plan.now) }
    requires some { 0 < length plan.now.pages.items }
    ensures { MatchOption result (2 ^ 32 ≤ last_place (plan_list plan.now))
        (λ n. (n ≡ size_of (plan_list plan.now)) × HasPlaces (plan_list plan.now)) }
{
    if plan.pages.len() >= 1 << 29 || plan.lsdas.len() >= 1 << 29 {
        return None;
    }
    let mut place = pages_start(plan);
    for page in &plan.pages {
        if place > u32::MAX as usize {
            return None;
        }
        place += page_bytes(page);
    }
    Some(place)
}

/// The place of the page entries.
fn entries_start(plan: &Plan) -> usize
    requires { IsPlan (plan_list plan.now) }
    ensures { result ≡ entries_place (plan_list plan.now) }
{
    CompactUnwindInfoHeader::SIZE + 4 * plan.globals.len() + 4 * plan.personalities.len()
}

/// The place of the LSDA entries.
fn lsdas_start(plan: &Plan) -> usize
    requires plan { IsPlan (plan_list plan.now) }
    requires pages { length plan.now.pages.items < 2 ^ 29 }
    ensures { result ≡ lsdas_place (plan_list plan.now) }
{
    entries_start(plan) + PageEntry::SIZE * (plan.pages.len() + 1)
}

/// The place of the first page.
fn pages_start(plan: &Plan) -> usize
    requires plan { IsPlan (plan_list plan.now) }
    requires pages { length plan.now.pages.items < 2 ^ 29 }
    requires lsdas { length plan.now.lsdas.items < 2 ^ 29 }
    ensures { result ≡ pages_place (plan_list plan.now) }
{
    lsdas_start(plan) + LsdaEntry::SIZE * plan.lsdas.len()
}

/// Writes a plan into bytes of its size.
pub(crate) fn write_plan(out: &mut [u8], plan: &Plan)
    requires plan { IsPlan (plan_list plan.now) }
    requires places { HasPlaces (plan_list plan.now) }
    requires room { size_of (plan_list plan.now) ≤ length out.old }
    ensures { out.new ≡ put 0 (section_text (plan_list plan.now)) out.old }
{
    header_of(plan).write(out, 0);
    put_littles(out, CompactUnwindInfoHeader::SIZE, plan.globals.as_slice());
    let personalities = CompactUnwindInfoHeader::SIZE + 4 * plan.globals.len();
    put_littles(out, personalities, plan.personalities.as_slice());
    write_entries(out, plan);
    write_last_entry(out, plan);
    write_lsdas(out, lsdas_start(plan), plan.lsdas.as_slice());
    write_pages(out, pages_start(plan), plan.pages.as_slice());
}

/// The header of a plan's section.
fn header_of(plan: &Plan) -> CompactUnwindInfoHeader
    requires plan { IsPlan (plan_list plan.now) }
    requires places { HasPlaces (plan_list plan.now) }
    ensures { result ≡ header_for (plan_list plan.now) }
{
    let encodings = CompactUnwindInfoHeader::SIZE;
    CompactUnwindInfoHeader {
        version: VERSION,
        global_opcodes_offset: encodings as u32,
        global_opcodes_len: plan.globals.len() as u32,
        personalities_offset: (encodings + 4 * plan.globals.len()) as u32,
        personalities_len: plan.personalities.len() as u32,
        pages_offset: entries_start(plan) as u32,
        pages_len: plan.pages.len() as u32 + 1,
    }
}

/// Writes the entries of the pages; the other bytes stay.
fn write_entries(out: &mut [u8], plan: &Plan)
    requires plan { IsPlan (plan_list plan.now) }
    requires places { HasPlaces (plan_list plan.now) }
    requires room { lsdas_place (plan_list plan.now) ≤ length out.old }
    ensures { out.new
        ≡ put (entries_place (plan_list plan.now))
        (flat_map (entry_text (plan_list plan.now)) (range_with_len 0 (length plan.now.pages.items))) out.old }
{
    let lsdas = lsdas_start(plan);
    let mut at = entries_start(plan);
    let mut place = pages_start(plan);
    for page in &plan.pages {
        let before = lsdas_before(plan.lsdas.as_slice(), page.first);
        let entry = PageEntry {
            first_address: page.first,
            page_offset: place as u32,
            lsda_index_offset: (lsdas + LsdaEntry::SIZE * before) as u32,
        };
        entry.write(out, at);
        at += PageEntry::SIZE;
        place += page_bytes(page);
    }
}

/// Writes the last entry, which has no page and says where the last function ends; the other bytes stay.
fn write_last_entry(out: &mut [u8], plan: &Plan)
    requires plan { IsPlan (plan_list plan.now) }
    requires places { HasPlaces (plan_list plan.now) }
    requires room { lsdas_place (plan_list plan.now) ≤ length out.old }
    ensures { out.new
        ≡ put (entries_place (plan_list plan.now) + 12 * length plan.now.pages.items)
        (spelling page_entry_rows (last_entry_for (plan_list plan.now))) out.old }
{
    let entry = PageEntry {
        first_address: plan.end,
        page_offset: 0,
        lsda_index_offset: pages_start(plan) as u32,
    };
    entry.write(
        out,
        entries_start(plan) + PageEntry::SIZE * plan.pages.len(),
    );
}
