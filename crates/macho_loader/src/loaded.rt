//! An image that the loader accepts, and what stands in it.
ghost use Rattle.std.specs.Prelude.{◌≡◌, length, map, IfOk, IfErr, OnOk, OnErr};
ghost use Rattle.std.specs.List.{slice_get};
ghost use Rattle.macho_model.specs.Commands.{numbered};
ghost use Rattle.macho_model.specs.Images.{base_of, segments_of, libraries_of};
ghost use Rattle.macho_model.specs.Loader.{IsAccepted, ImageBreaks};
ghost use Rattle.macho_model.specs.ReadBack.{IsLoadedFixup};
ghost use Rattle.macho_loader.specs.Fixups.{found_of};
ghost use Rattle.macho_loader.specs.Lists.{import_of, imports_of_image, range_of, AreFixups};

use crate::accept::{LoadFault, check_rules};
use crate::chain_list::{FixupLine, list_fixups};
use crate::commands::{LinkeditRange, list_ranges, list_segments};
use crate::cursor::count_listed;
use crate::fixups::{LoadedFixup, fixup_in};
use crate::imports::{LoadedImport, imports_of, libraries_of};
use macho_image_walks::{Listed, base_address, nth};
use macho_records::SegmentCommand;
use std::alloc::{AllocError, Global};
use std::marker::Model;

/// A view of an image that the loader accepts. It holds no list: what is asked is looked up in the bytes.
#[derive(Drop)]
pub struct Loaded<'a> {
    bytes: &'a [u8],
    base: u64,
    num_segments: u32,
}

impl<'a> Model for Loaded<'a> {
    ghost use Rattle.std.specs.Prelude.{ℕ, List};

    ghost Value = { List ℕ };

    ghost view = { λ l. l.bytes.now };

    ghost use Rattle.std.specs.Prelude.{◌≡◌, length};
    ghost use Rattle.macho_model.specs.Images.{base_of, segments_of};
    ghost use Rattle.macho_model.specs.Loader.{IsAccepted};

    ghost invariant = { λ l. IsAccepted l.bytes.now × (l.base ≡ base_of l.bytes.now)
        × (l.num_segments ≡ length (segments_of l.bytes.now)) };
}

/// How many segments an image has.
#[tactic(auto, using(macho_image_walks::proofs::ListedLaws::count_of_segments))]
fn count_of_segments(bytes: &[u8]) -> u32
    ensures { result ≡ length (segments_of bytes.now) }
{
    count_listed(bytes, Listed::Segments)
}

impl<'a> Loaded<'a> {
    /// Views bytes as an image, where the loader accepts it.
    ///
    /// # Errors
    ///
    /// The first rule that is broken, and the file offset of what breaks it: a chain word, an import's entry, a load
    /// command; 0 for the header, or for a command that isn't there.
    pub fn accept(bytes: &'a [u8]) -> Result<Loaded<'a>, LoadFault>
        ensures view { IfOk result (λ l. l ≡ bytes.now) }
        ensures found { OnOk result (IsAccepted bytes.now) }
        ensures only { OnErr result (IsAccepted bytes.now → ⊥) }
        ensures why { IfErr result (λ f. ImageBreaks bytes.now f.rule f.place) }
    {
        check_rules(bytes)?;
        Ok(Loaded {
            bytes,
            base: base_address(bytes),
            num_segments: count_of_segments(bytes),
        })
    }

    /// The address of the image's first byte: that of `__TEXT`.
    pub fn base(&self) -> u64
        ensures done { result ≡ base_of self.now }
        ensures kept { IsAccepted self.now }
    {
        self.base
    }

    /// How many segments there are.
    pub fn num_segments(&self) -> u32
        ensures { result ≡ length (segments_of self.now) }
    {
        self.num_segments
    }

    /// A segment by its number, counted from 0 in the order of the load commands; None where the number is too large.
    pub fn segment(&self, index: u32) -> Option<SegmentCommand>
        ensures { result ≡ slice_get (segments_of self.now) index }
    {
        match nth(self.bytes, Listed::Segments, index) {
            Some(place) => SegmentCommand::read(self.bytes, place as usize),
            None => None,
        }
    }

    /// What the loader makes of the word at an address of the image's own; None exactly where no word of a chain stands
    /// there.
    pub fn fixup_at(&self, address: u64) -> Option<LoadedFixup<'a>>
        ensures { IsLoadedFixup self.now address (found_of result) }
    {
        fixup_in(self.bytes, self.base, address)
    }
}

/// Whole lists, each made by one walk. Want of memory is their only failure.
impl<'a> Loaded<'a> {
    /// The segments, in the order of their load commands.
    pub fn segments(&self, alloc: Global) -> Result<Vec<SegmentCommand>, AllocError>
        ensures { IfOk result (λ v. v.items ≡ segments_of self.now) }
    {
        list_segments(alloc, self.bytes)
    }

    /// The names of the libraries that the image needs, in the order of their load commands. Imports count them from 1.
    pub fn libraries(&self, alloc: Global) -> Result<Vec<&'a [u8]>, AllocError>
        ensures { IfOk result (λ v. map (λ n. n.now) v.items ≡ libraries_of self.now) }
    {
        libraries_of(alloc, self.bytes)
    }

    /// The imports, in the order of the fixup table's entries. The answer is want of memory where all names together have
    /// more than four gigabytes: a table has fewer bytes, but entries may share names.
    pub fn imports(&self, alloc: Global) -> Result<Vec<LoadedImport<'a>>, AllocError>
        ensures { IfOk result (λ v. map import_of v.items ≡ imports_of_image self.now) }
    {
        imports_of(alloc, self.bytes)
    }

    /// The ranges of the file that the load commands of a number give, in order: for a table of `__LINKEDIT`, as an exports
    /// trie. Of commands with another record the places are right, and what is called a range is their third and fourth
    /// words.
    pub fn ranges(&self, alloc: Global, number: u32) -> Result<Vec<LinkeditRange>, AllocError>
        ensures { IfOk result (λ v. v.items ≡ map (range_of self.now) (numbered number self.now)) }
    {
        list_ranges(alloc, self.bytes, number)
    }

    /// What the loader makes of each word on the chains, by rising addresses: a value at the image's own address, or the
    /// number of an import and what is added to its address. The answer is want of memory where there are more than a
    /// quarter of the bytes of the file: words begin at least 4 bytes apart, so only segments that share bytes of the file
    /// have more.
    pub fn fixups(&self, alloc: Global) -> Result<Vec<FixupLine>, AllocError>
        ensures { IfOk result (λ v. AreFixups self.now v.items) }
    {
        list_fixups(alloc, self.bytes, self.base)
    }
}
