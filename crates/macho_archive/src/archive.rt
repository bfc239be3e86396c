//! An archive as a list of its members.
ghost use Rattle.std.specs.Prelude.{◌≡◌, ℕ, ◌+◌, ◌^◌, ◌||◌, ◌<◌, ◌≤◌, ◌++◌, [], ◌∷◌, cond, length, map, nat_eq, true, IfOk, IfErr, OnOk};
ghost use Rattle.std.specs.List.{starts_with};
ghost use Rattle.macho_archive.specs.Entries.{MAGIC, is_special, is_symbol_table, is_table_of_names};
ghost use Rattle.macho_archive.specs.Archives.{IsArchive, HasMembers, IsRefused};
ghost use Rattle.macho_archive.specs.declared.fault.ArchiveFault.TheVariants.{OutOfMemory};
ghost use Rattle.macho_archive.specs.steps.Reads.{HasRead, IsStopped, content_in};
ghost use Rattle.macho_archive.specs.Views.{content_of};

use crate::entries::{Entry, entry_at};
use crate::fault::{ArchiveFault, ArchiveRule};
use crate::names::{is_passed, is_table_of_names};
use std::alloc::{AllocError, Global};
use std::marker::Model;

/// What an archive begins with.
const BEGIN: &[u8] = b"!<arch>\n";

/// How many bytes the names of all entries may have together, beside as many as the file has. A larger sum is want of memory, told at once:
/// names may share their ends in the table of names, so that looking for these ends would take time without bound. Names that share no
/// bytes have fewer than the file.
const MOST_BYTES: usize = 1 << 28;

/// A member of an archive.
#[derive(Clone, Copy)]
pub struct Member<'data> {
    /// Its name.
    pub name: &'data [u8],
    /// The file offset of its bytes.
    pub place: usize,
    /// Its bytes.
    pub bytes: &'data [u8],
}

/// A view of an archive: the list of its members.
#[derive(Drop)]
pub struct Archive<'data> {
    members: Vec<Member<'data>>,
}

impl<'data> Model for Archive<'data> {
    ghost use Rattle.std.specs.Prelude.{List, map};
    ghost use Rattle.macho_archive.specs.Entries.{Content};
    ghost use Rattle.macho_archive.specs.Views.{content_of};

    ghost Value = { List Content };

    ghost view = { λ a. map content_of a.members.items };
}

/// What is read so far of an archive.
#[derive(Drop)]
struct Reading<'data> {
    /// Where the next entry begins.
    at: usize,
    /// The table of names.
    table: &'data [u8],
    /// The members.
    members: Vec<Member<'data>>,
    /// The bytes of all names.
    length: usize,
    /// The most that they may be.
    most: usize,
}

/// The table of names behind an entry.
fn table_behind<'data>(entry: Entry<'data>, table: &'data [u8]) -> &'data [u8]
    ensures { result.now ≡ cond (is_table_of_names entry.entry.stem.now) entry.entry.contents.now table.now }
{
    if is_table_of_names(entry.stem) {
        entry.contents
    } else {
        table
    }
}

/// Adds an entry to the members, if it is one.
fn push_member<'data>(
    members: &mut Vec<Member<'data>>,
    entry: Entry<'data>,
    at: usize,
) -> Result<(), AllocError>
    requires room { at + 60 + length entry.contents.now < 2 ^ 64 }
    requires fits { entry.width ≤ length entry.contents.now }
    ensures { OnOk result (map content_of members.new.items ≡ map content_of members.old.items
        ++ cond (is_special entry.entry.stem.now || is_symbol_table entry.entry.name.now) [] (content_in at entry.entry ∷ [])) }
{
    if !is_passed(entry.stem, entry.name) {
        members.push(Member {
            name: entry.name,
            place: at + 60 + entry.width,
            bytes: &entry.contents[entry.width..],
        })?;
    }
    Ok(())
}

impl<'data> Reading<'data> {
    /// Reads the next entry.
    fn take_entry(&mut self, bytes: &'data [u8]) -> Result<(), ArchiveFault>
        requires within { self.old.at < length bytes.now }
        requires magic { starts_with nat_eq bytes.now MAGIC ≡ true }
        ensures found { HasRead bytes.now self.old → OnOk result (HasRead bytes.now self.new) }
        ensures further { OnOk result (self.old.at < self.new.at) }
        ensures why { IfErr result (IsStopped bytes.now self.old.table.now self.old.at) }
    {
        let place = self.at as u64;
        let entry = match entry_at(bytes, self.at, self.table) {
            Ok(entry) => entry,
            Err(rule) => return Err(ArchiveFault::Broken { rule, place }),
        };
        self.length = self.length.saturating_add(entry.name.len());
        if self.length > self.most {
            return Err(ArchiveFault::OutOfMemory);
        }
        push_member(&mut self.members, entry, self.at)?;
        self.table = table_behind(entry, self.table);
        self.at = entry.next;
        Ok(())
    }
}

impl<'data> Archive<'data> {
    /// Views bytes as an archive.
    ///
    /// # Errors
    ///
    /// A rule that the bytes break, and the place of the entry that breaks it; or there is not enough memory. Where the names of all
    /// entries have over 2^28 bytes more together than the file has, the answer is want of memory.
    pub fn read(alloc: Global, bytes: &'data [u8]) -> Result<Archive<'data>, ArchiveFault>
        // The bytes are an archive, and these are its members.
        ensures found { IfOk result (HasMembers bytes.now) }
        // An archive is taken, unless memory runs out.
        ensures only { (count : ℕ) → IsArchive bytes.now count → IfErr result (λ fault. fault ≡ OutOfMemory) }
        // The rule that is told is broken there.
        ensures why { IfErr result (IsRefused bytes.now) }
    {
        if !bytes.starts_with(BEGIN) {
            return Err(ArchiveFault::Broken {
                rule: ArchiveRule::A1,
                place: 0,
            });
        }
        let mut reading = Reading {
            at: 8,
            table: &[],
            members: Vec::new(alloc),
            length: 0,
            most: MOST_BYTES.saturating_add(bytes.len()),
        };
        while reading.at < bytes.len() {
            if let Err(fault) = reading.take_entry(bytes) {
                return Err(fault);
            }
        }
        Ok(Archive {
            members: reading.members,
        })
    }

    /// The members, in order.
    pub fn members(&self) -> &[Member<'data>]
        ensures { map content_of result.now ≡ self.now }
    {
        &self.members
    }
}
