//! What the sizes and the placement of a link are made from, and what they are.

use macho_consumed::{Initializer, UnwindEntry};
use macho_layout::{Counts, Placement, Plan};
use macho_linkedit::{LinkedObject, NamedExport, ReservedTrie, SizeArguments, TableSymbols};
use macho_needs::Needs;
use macho_object::File;

/// What the sizes and the placement of a link are made from.
#[derive(Clone, Copy)]
pub struct SizesOf<'a> {
    /// What the arguments of the link say of sizes: its kind, names and paths.
    pub arguments: SizeArguments<'a>,
    /// The install names of the libraries that the image needs, in order.
    pub libraries: &'a [Vec<u8>],
    /// The views of the objects by the numbers of their files, None of another input.
    pub views: &'a [Option<File<'a>>],
    /// The objects, each with its number.
    pub objects: &'a [LinkedObject<'a>],
    /// What the objects ask for.
    pub needs: &'a Needs<'a>,
    /// The initializers, by file, section and slot.
    pub initializers: &'a [Initializer],
    /// The entries of unwind information, by file, section and entry.
    pub entries: &'a [UnwindEntry],
    /// The exported names, each once.
    pub exports: &'a [NamedExport<'a>],
}

/// The sizes of a link, with what was listed and reserved for them.
#[derive(Drop)]
pub struct LinkSizes {
    /// How many of each thing there are, and how many bytes they take.
    pub counts: Counts,
    /// The symbols of the symbol table.
    pub symbols: TableSymbols,
    /// The trie of the exported names, and the bytes that are kept for it.
    pub trie: ReservedTrie,
}

/// A link with its plan and its sizes, before its parts are placed.
#[derive(Drop)]
pub struct PlannedLink {
    /// The parts that are placed, in order.
    pub plan: Plan,
    /// The sizes, with what was listed and reserved for them.
    pub sizes: LinkSizes,
}

/// A link with its sizes and its placement.
#[derive(Drop)]
pub struct SizedLink {
    /// How many of each thing there are, and how many bytes they take.
    pub counts: Counts,
    /// Where each part stands.
    pub placement: Placement,
    /// The symbols of the symbol table.
    pub symbols: TableSymbols,
    /// The trie of the exported names, and the bytes that are kept for it.
    pub trie: ReservedTrie,
}
