//! The table of names: for each name that some row mentions, the best row so far.
//!
//! It holds no name of its own: an entry leads to a row, whose file holds the name. Names are found by a hash: its low bits
//! tell the bucket, which chains its entries from the newest to the oldest. An entry keeps the high half of its name's hash,
//! so that names which only share a bucket are told apart without a look at them:
//!
//!     heads     0  2  0  1             of four buckets, two hold one entry each
//!     entries   { next 0, file 0, row 3, tag .. }  { next 0, file 1, row 0, tag .. }
ghost use Rattle.std.specs.Prelude.{◌≡◌, ℕ, ◌+◌, ◌-◌, ◌/◌, ◌^◌, ◌<◌, ◌≤◌, bit_and, length, IfSome, IfNone, IsSomeAnd, IfErr, IfOk, OnOk, get_or, true, false, [], ◌∷◌};
ghost use Rattle.macho_symbol_names.specs.Kept.{no_file};
ghost use Rattle.macho_symbol_names.specs.Events.{row_at, row_count, event_at, beats};
ghost use Rattle.macho_symbol_names.specs.steps.Tables.{HaveGrown, IsPlaceOfName, IsAdded, TakesIn, Refuses, both_strong};
ghost use Rattle.macho_symbol_names.specs.Hashing.{hash_of};
ghost use Rattle.macho_symbol_names.specs.Notes.{named_row, CommonFits};
ghost use Rattle.macho_symbol_names.specs.Tables.{heads_of, IsEmptyTable, IsTagged, entry_name, IsTable, IsEntryOf, IsNowhere, IsThere, no_entry, names_of};

use crate::fault::SymbolFault;
use crate::files::FileNames;
use crate::hashing::hash;
use crate::notes::Note;
use std::alloc::{AllocError, Global};

/// What is known of a name.
#[derive(Clone, Copy)]
pub struct Entry {
    /// One more than the number of the entry before in its bucket, 0 for none.
    pub next: u32,
    /// The best row of the name.
    pub row: u32,
    /// The file of that row.
    pub file: u32,
    /// The high half of the name's hash.
    pub tag: u32,
}

/// The most buckets that a table has: no table has more entries.
const MOST_BUCKETS: usize = 1 << 32;

/// The table of names.
#[derive(Drop)]
pub struct Table {
    /// What the hashes of names begin with.
    pub seed: u64,
    /// For each bucket, one more than the number of its newest entry, 0 for none.
    pub heads: Vec<u32>,
    /// For each name its entry, in the order in which rows first brought them.
    pub entries: Vec<Entry>,
}

/// The part of a hash that entries keep.
fn tag(hash: u64) -> u32
    ensures { result ≡ hash / 2 ^ 32 }
{
    (hash >> 32) as u32
}

/// How many rows a file has.
pub fn rows_in(files: &[FileNames<'_>], file: u32) -> usize
    requires { file < length files.now }
    ensures { result ≡ row_count files.now file }
{
    files[file as usize].len()
}

/// The name of a row of some files.
pub fn name_in<'a>(files: &'a [FileNames<'_>], file: u32, row: usize) -> &'a [u8]
    requires file { file < length files.now }
    requires row { row < row_count files.now file }
    ensures { result.now ≡ (row_at files.now file row).name }
{
    files[file as usize].name(row)
}

/// The note of a row of some files.
pub fn note_in(files: &[FileNames<'_>], file: u32, row: usize) -> Note
    requires file { file < length files.now }
    requires row { row < row_count files.now file }
    ensures row { named_row (row_at files.now file row).name result ≡ row_at files.now file row }
    ensures small { CommonFits result.sort result.number result.value }
{
    files[file as usize].note(row)
}

/// A row of a file.
#[derive(Clone, Copy)]
struct Place {
    file: u32,
    row: usize,
}

/// Whether a row is of the file of an entry's row, and its name stands where that one's does.
fn is_at(files: &[FileNames<'_>], entry: Entry, place: Option<Place>) -> bool
    requires entry { IsThere files.now entry }
    requires place { IfSome place (λ p. (p.file < length files.now) × (p.row < row_count files.now p.file)) }
    ensures { result ≡ true → IsSomeAnd place (λ p. (row_at files.now p.file p.row).name ≡ entry_name files.now entry) }
{
    match place {
        Some(place) => {
            place.file == entry.file
                && files[place.file as usize].is_same_place(place.row, entry.row as usize)
        }
        None => false,
    }
}

/// How many buckets a table of so many names has: a power of two.
fn buckets_for(names: usize) -> usize
    ensures { 1 ≤ result }
{
    names.clamp(1, MOST_BUCKETS).next_power_of_two()
}

/// How many rows of some files bring a name. Only the number of buckets depends on it.
fn named_rows(files: &[FileNames<'_>]) -> usize {
    let mut rows = 0usize;
    for file in files {
        rows = rows.saturating_add(file.count_global());
    }
    rows
}

impl Table {
    /// A table without names, with room for those of some files, and the seed of their hashes.
    ///
    /// # Errors
    ///
    /// There is not enough memory.
    pub fn new(alloc: Global, files: &[FileNames<'_>], seed: u64) -> Result<Table, AllocError>
        ensures { IfOk result (λ t. IsEmptyTable (heads_of t) t.entries.items) }
    {
        let names = named_rows(files);
        Ok(Table {
            seed,
            heads: vec![in alloc; 0u32; buckets_for(names)]?,
            entries: Vec::with_capacity(alloc, names)?,
        })
    }

    /// The bucket of a name's hash, by its low bits.
    #[tactic(auto, using(std::proofs::lemmas::Nat::and_le_r))]
    fn bucket(&self, hash: u64) -> usize
        requires { 1 ≤ length self.now.heads.items }
        ensures bucket { result ≡ bit_and hash (length self.now.heads.items - 1) }
        ensures within { result < length self.now.heads.items }
    {
        (hash & (self.heads.len() as u64 - 1)) as usize
    }

    /// The hash of the name of a row of some files.
    pub(crate) fn hash_of_row(&self, files: &[FileNames<'_>], file: u32, row: usize) -> u64
        requires file { file < length files.now }
        requires row { row < row_count files.now file }
        ensures { result ≡ hash_of self.now.seed (row_at files.now file row).name }
    {
        hash(self.seed, name_in(files, file, row))
    }

    /// Whether an entry is of a name: by its tag, and then by where it stands, or by its bytes.
    fn is_named(
        &self,
        files: &[FileNames<'_>],
        entry: Entry,
        name: &[u8],
        hash: u64,
        place: Option<Place>,
    ) -> bool
        requires entry { IsThere files.now entry }
        requires tagged { IsTagged self.now.seed files.now entry }
        requires hash { hash ≡ hash_of self.now.seed name.now }
        requires place { IfSome place (IsPlaceOfName files.now name.now) }
        ensures yes { result ≡ true → entry_name files.now entry ≡ name.now }
        ensures no { result ≡ false → entry_name files.now entry ≡ name.now → ⊥ }
    {
        if entry.tag != tag(hash) {
            return false;
        }
        is_at(files, entry, place) || name_in(files, entry.file, entry.row as usize) == name
    }

    /// The number of the entry of a name, of which the hash is given, and the row that brings it, if one does.
    fn find_from(
        &self,
        files: &[FileNames<'_>],
        name: &[u8],
        hash: u64,
        place: Option<Place>,
    ) -> Option<u32>
        requires table { IsTable files.now (heads_of self.now) self.now.entries.items }
        requires hash { hash ≡ hash_of self.now.seed name.now }
        requires place { IfSome place (IsPlaceOfName files.now name.now) }
        ensures found { IfSome result (λ j. IsEntryOf files.now self.now.entries.items name.now j) }
        ensures none { IfNone result (IsNowhere name.now (names_of files.now self.now.entries.items)) }
    {
        let mut at = self.heads[self.bucket(hash)];
        while at != 0 {
            let number = at - 1;
            let entry = self.entries[number as usize];
            if self.is_named(files, entry, name, hash, place) {
                return Some(number);
            }
            at = entry.next;
        }
        None
    }

    /// The number of a name's entry.
    pub fn find(&self, files: &[FileNames<'_>], name: &[u8]) -> Option<usize>
        requires { IsTable files.now (heads_of self.now) self.now.entries.items }
        ensures found { IfSome result (λ j. IsEntryOf files.now self.now.entries.items name.now j) }
        ensures none { IfNone result (IsNowhere name.now (names_of files.now self.now.entries.items)) }
    {
        match self.find_from(files, name, hash(self.seed, name), None) {
            Some(number) => Some(number as usize),
            None => None,
        }
    }

    /// The number of the entry of a row's name, of which the hash is given.
    pub(crate) fn find_row(
        &self,
        files: &[FileNames<'_>],
        file: u32,
        row: usize,
        hash: u64,
    ) -> Option<u32>
        requires file { file < length files.now }
        requires row { row < row_count files.now file }
        requires table { IsTable files.now (heads_of self.now) self.now.entries.items }
        requires hash { hash ≡ hash_of self.now.seed (row_at files.now file row).name }
        ensures found { IfSome result (λ j. IsEntryOf files.now self.now.entries.items (row_at files.now file row).name j) }
        ensures none { IfNone result (IsNowhere (row_at files.now file row).name (names_of files.now self.now.entries.items)) }
    {
        let name = name_in(files, file, row);
        self.find_from(files, name, hash, Some(Place { file, row }))
    }
}

impl Table {
    /// Adds a name, which a row brings, and answers the number of its entry.
    pub(crate) fn add(
        &mut self,
        files: &[FileNames<'_>],
        file: u32,
        row: usize,
        hash: u64,
    ) -> Result<u32, AllocError>
        requires hash { hash ≡ hash_of self.old.seed (row_at files.now file row).name }
        requires file { file < length files.now }
        requires row { row < row_count files.now file }
        requires table { IsTable files.now (heads_of self.old) self.old.entries.items }
        requires new { IsNowhere (row_at files.now file row).name (names_of files.now self.old.entries.items) }
        ensures table { OnOk result (IsTable files.now (heads_of self.new) self.new.entries.items) }
        ensures added { OnOk result (IsAdded self.old.entries.items self.new.entries.items file row) }
        ensures number { IfOk result (λ number. number ≡ length self.old.entries.items) }
    {
        let bucket = self.bucket(hash);
        let next = self.heads[bucket];
        let number = self.entries.len();
        // Objects have fewer symbols than that together.
        if number >= u32::MAX as usize || row > u32::MAX as usize {
            return Err(AllocError);
        }
        let row = row as u32;
        self.entries.push(Entry {
            next,
            row,
            file,
            tag: tag(hash),
        })?;
        let number = number as u32;
        self.heads[bucket] = number + 1;
        Ok(number)
    }
}

/// Whether the row of a file is a better definition than an entry's: a stronger one, or a greater common.
fn beats(files: &[FileNames<'_>], file: u32, row: usize, old: Entry) -> bool
    requires file { file < length files.now }
    requires row { row < row_count files.now file }
    requires old { IsThere files.now old }
    ensures { result ≡ beats (row_at files.now file row) (row_at files.now old.file old.row) }
{
    let new = note_in(files, file, row);
    let old = note_in(files, old.file, old.row as usize);
    let (stronger, strong) = (new.strength(), old.strength());
    stronger > strong || stronger == strong && new.common_size() > old.common_size()
}

/// Whether an entry's row and the row of a file are strong definitions.
fn are_strong(files: &[FileNames<'_>], file: u32, row: usize, old: Entry) -> bool
    requires file { file < length files.now }
    requires row { row < row_count files.now file }
    requires old { IsThere files.now old }
    ensures { result ≡ both_strong (row_at files.now old.file old.row) (row_at files.now file row) }
{
    let new = note_in(files, file, row);
    let old = note_in(files, old.file, old.row as usize);
    old.is_strong() && new.is_strong()
}

impl Table {
    /// How many entries there are.
    pub fn len(&self) -> usize
        ensures { result ≡ length self.now.entries.items }
    {
        self.entries.len()
    }

    /// An entry.
    #[tactic(auto, using(std::proofs::lemmas::List::get_or_default))]
    pub fn entry(&self, number: usize) -> Entry
        requires { number < length self.now.entries.items }
        ensures { result ≡ get_or self.now.entries.items number no_entry }
    {
        self.entries[number]
    }
}

impl Table {
    /// Takes the row of a file for the best one of its name, where it is.
    pub(crate) fn improve(
        &mut self,
        files: &[FileNames<'_>],
        number: usize,
        file: u32,
        row: usize,
    ) -> Result<(), SymbolFault>
        requires file { file < length files.now }
        requires row { row < row_count files.now file }
        requires table { IsTable files.now (heads_of self.old) self.old.entries.items }
        requires global { (row_at files.now file row).global ≡ true }
        requires entry { IsEntryOf files.now self.old.entries.items (row_at files.now file row).name number }
        ensures table { OnOk result (IsTable files.now (heads_of self.new) self.new.entries.items) }
        ensures grown { OnOk result (HaveGrown files.now self.old.entries.items self.new.entries.items) }
        ensures done { OnOk result
            (TakesIn files.now (heads_of self.old) self.old.entries.items (heads_of self.new) self.new.entries.items
            (event_at files.now file row ∷ [])) }
        ensures why { IfErr result (Refuses files.now (heads_of self.old) self.old.entries.items (event_at files.now file row ∷ [])) }
    {
        let entry = self.entry(number);
        if are_strong(files, file, row, entry) {
            return Err(SymbolFault::DuplicateSymbol {
                name: Vec::from_slice(*self.heads.allocator(), name_in(files, file, row))?,
                first: entry.file,
                second: file,
            });
        }
        if !beats(files, file, row, entry) {
            return Ok(());
        }
        // Objects have fewer symbols than that.
        if row > u32::MAX as usize {
            return Err(SymbolFault::OutOfMemory);
        }
        let row = row as u32;
        self.entries[number] = Entry { row, file, ..entry };
        Ok(())
    }
}
