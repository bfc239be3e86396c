//! Functions are put on pages in order of their starts. A page is closed before a function that it can't take:
//! one 2^24 or more behind its first function, one whose code would be its 33rd own, or one that would take it past
//! 1,021 words and codes.
ghost use Rattle.std.specs.Prelude.{◌≡◌, ◌==◌, ◌++◌, ◌∷◌, [], ◌<◌, ◌≤◌, true, false, length, map, is_some, All, IfSome, IfOk, OnOk};
ghost use Rattle.std.specs.Bool.{OnTrue, OnFalse};
ghost use Rattle.std.specs.List.{AllPairs, list_any};
ghost use Rattle.indexmap.specs.IndexMap.{keys};
ghost use Rattle.macho_unwind_pages.specs.Bounds.{MOST_LOCALS};
ghost use Rattle.macho_unwind_pages.specs.steps.Ranks.{IsNumberOf};
ghost use Rattle.macho_unwind_pages.specs.Plans.{page_list};
ghost use Rattle.macho_unwind_pages.specs.steps.Words.{IsNamed, IsClosedTo};
ghost use Rattle.macho_unwind_pages.specs.steps.Paging.{globals_in, empty_page, IsFull, IsOpenTo, Names, Adds, ArePages};

use crate::plans::Page;
use crate::ranking::{MOST_GLOBALS, global_number};
use indexmap::IndexMap;
use std::alloc::{AllocError, Global};
use std::mem;

/// The offsets that a word of a page can tell.
const PAGE_SPAN: u32 = 0x100_0000;

/// The most encodings that one page names alone.
const MOST_LOCALS: usize = 32;

/// The most words and encodings that stand on one page.
const MOST_WORDS: usize = 1021;

/// One function: its start, counted from the text's, and its code.
#[derive(Clone, Copy)]
pub struct Row {
    /// The offset of its first byte.
    pub start: u32,
    /// Its encoding, with the number of its personality function.
    pub code: u32,
}

/// The number of a code in a list.
fn number_in(codes: &[u32], code: u32) -> Option<usize>
    ensures number { IfSome result (λ n. IsNumberOf codes.now code n) }
    ensures found { is_some result ≡ list_any (λ other. code == other) codes.now }
{
    for number in 0..codes.len() {
        if codes[number] == code {
            return Some(number);
        }
    }
    None
}

impl Page {
    /// The number of a code among those that every page may name and the page's own.
    fn number_of(&self, ranks: &IndexMap<u64, u64>, code: u32) -> Option<usize>
        requires { IsFull (globals_in ranks.now) (page_list self.now) }
        ensures number { IfSome result (λ n. IsNumberOf (globals_in ranks.now ++ self.now.locals.items) code n) }
        ensures found { is_some result ≡ list_any (λ other. code == other) (globals_in ranks.now ++ self.now.locals.items) }
    {
        if let Some(number) = global_number(ranks, code as u64) {
            return Some(number);
        }
        match number_in(self.locals.as_slice(), code) {
            Some(number) => Some(MOST_GLOBALS + number),
            None => None,
        }
    }

    /// Whether the page can't take a function.
    fn is_closed_to(&self, ranks: &IndexMap<u64, u64>, row: Row) -> bool
        requires full { IsFull (globals_in ranks.now) (page_list self.now) }
        requires behind { self.now.first ≤ row.start }
        requires locals { length self.now.locals.items ≤ MOST_LOCALS }
        requires words { length self.now.words.items ≤ 1021 }
        ensures closed { OnTrue result (IsClosedTo (globals_in ranks.now) (page_list self.now) row) }
        ensures open { OnFalse result (IsOpenTo (globals_in ranks.now) (page_list self.now) row) }
    {
        let taken = self.words.len() + self.locals.len();
        if row.start - self.first >= PAGE_SPAN {
            return true;
        }
        if taken + 1 > MOST_WORDS {
            return true;
        }
        if self.number_of(ranks, row.code).is_some() {
            return false;
        }
        self.locals.len() == MOST_LOCALS || taken + 2 > MOST_WORDS
    }

    /// Gives a code a number: the one that it has, or that of one code more.
    fn name(&mut self, ranks: &IndexMap<u64, u64>, code: u32) -> Result<usize, AllocError>
        requires full { IsFull (globals_in ranks.now) (page_list self.old) }
        requires ranked { list_any (λ other. code == other) (keys ranks.now) ≡ true }
        requires locals { ¬ IsNamed (globals_in ranks.now) (page_list self.old) code → length self.old.locals.items < MOST_LOCALS }
        ensures { IfOk result (λ number. Names (globals_in ranks.now) (page_list self.old) (page_list self.new) code number) }
    {
        if let Some(number) = self.number_of(ranks, code) {
            return Ok(number);
        }
        let place = self.locals.len();
        self.locals.push(code)?;
        Ok(MOST_GLOBALS + place)
    }

    /// Takes a function.
    fn add(&mut self, ranks: &IndexMap<u64, u64>, row: Row) -> Result<(), AllocError>
        requires full { IsFull (globals_in ranks.now) (page_list self.old) }
        requires ranked { list_any (λ other. row.code == other) (keys ranks.now) ≡ true }
        requires locals { length self.old.locals.items ≤ MOST_LOCALS }
        requires open { IsOpenTo (globals_in ranks.now) (page_list self.old) row }
        ensures { OnOk result (Adds (globals_in ranks.now) (page_list self.old) (page_list self.new) row) }
    {
        let number = self.name(ranks, row.code)?;
        let place = row.start - self.first;
        self.words.push(number as u32 * PAGE_SPAN + place)?;
        Ok(())
    }
}

/// A page that begins with a function.
fn begun(alloc: Global, ranks: &IndexMap<u64, u64>, row: Row) -> Result<Page, AllocError>
    requires { list_any (λ other. row.code == other) (keys ranks.now) ≡ true }
    ensures { IfOk result (λ page. Adds (globals_in ranks.now) (empty_page row.start) (page_list page) row) }
{
    let mut page = Page {
        first: row.start,
        words: Vec::new(alloc),
        locals: Vec::new(alloc),
    };
    page.add(ranks, row)?;
    Ok(page)
}

/// The pages of functions in order of their starts, one or more.
pub(crate) fn paged(
    alloc: Global,
    ranks: &IndexMap<u64, u64>,
    rows: &[Row],
) -> Result<Vec<Page>, AllocError>
    requires some { 0 < length rows.now }
    requires rising { AllPairs (λ r s. r.start < s.start) rows.now }
    requires ranked { All (λ r. list_any (λ other. r.code == other) (keys ranks.now) ≡ true) rows.now }
    ensures { IfOk result (λ pages. ArePages (globals_in ranks.now) rows.now (map page_list pages.items)) }
{
    let mut pages = Vec::new(alloc);
    let mut page = begun(alloc, ranks, rows[0])?;
    for index in 1..rows.len() {
        let row = rows[index];
        if page.is_closed_to(ranks, row) {
            let next = begun(alloc, ranks, row)?;
            pages.push(mem::replace(&mut page, next))?;
        } else {
            page.add(ranks, row)?;
        }
    }
    pages.push(page)?;
    Ok(pages)
}
