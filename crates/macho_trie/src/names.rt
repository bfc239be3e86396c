//! The list of the names of an exports trie.
//!
//! The walk visits nodes in rising order of their names. In the trie of `a` and `ab`
//!
//!     00 01  61 00 05         the first node, with an edge `a` to 5
//!     02 00 10  01  62 00 0c  the node of `a`: flags 0, address 0x10, and an edge `b` to 12
//!     02 00 20  00            the node of `ab`: flags 0, address 0x20
//!
//! it visits 0, 5 and 12. A stack holds the children that are still to be visited, the greatest deepest, and a mark for each
//! byte says which nodes were visited. So a trie of nodes in a row takes no more stack than any other, and each node costs
//! no more than its bytes.
ghost use Rattle.std.specs.Prelude.{◌≡◌, ◌⊎◌, ℕ, ◌+◌, ◌<◌, ◌≤◌, ◌++◌, List, [], IfOk, OnOk, Ok, Some, None, true, false, length, map, MatchOption};
ghost use Rattle.std.specs.Prelude.{slice_index, slice_index_or, slice_set, if◌then◌else◌};
ghost use Rattle.std.specs.Bool.{OnTrue, OnFalse};
ghost use Rattle.std.specs.List.Sorted.{IsPermutation, IsNonDecreasingBy};
ghost use Rattle.std.specs.Option.{option_map};
ghost use Rattle.macho_trie.specs.Exports.{exported_of};
ghost use Rattle.macho_trie.specs.Nodes.{edges_at, node_at};
ghost use Rattle.macho_trie.specs.Walks.{AreApart, IsMalformedAt};
ghost use Rattle.macho_trie.specs.Lists.{IsListOf, line_of, AreExports};
ghost use Rattle.macho_trie.specs.steps.Walking.{last_first, DoRise, line_if};
ghost use Rattle.macho_trie.specs.steps.Stacks.{edges_of, byte_of, pending_at, IsBad, IsVisit, IsFollowed, IsWhole};

use crate::lookup::{Export, read_edge, read_terminal};
use std::alloc::{AllocError, Global};

/// The most bytes that the names of a list may have together: no image has names of four gigabytes, and a trie of some
/// megabytes can have names of terabytes.
const MOST_BYTES: u64 = 1 << 32;

/// A name of a trie, and what stands for it.
#[derive(Drop)]
pub struct NamedExport<'a> {
    pub name: Vec<u8>,
    pub export: Export<'a>,
}

/// The names of a trie, or a place at which it is malformed, counted from its first byte.
#[derive(Drop)]
pub enum TrieNames<'a> {
    Listed(Vec<NamedExport<'a>>),
    Malformed { place: u64 },
}

/// An edge: its label, and the place of its child.
type Edge<'a> = (&'a [u8], u64);

/// A node that is still to be visited. Its name is so much of the last one, and a label.
#[derive(Clone, Copy)]
struct Pending<'a> {
    place: u64,
    kept: usize,
    label: &'a [u8],
}

/// The walk over a trie.
#[derive(Drop)]
struct Walk<'a> {
    bytes: &'a [u8],
    /// The places that were visited.
    met: Vec<bool>,
    pending: Vec<Pending<'a>>,
    /// The name of the last node.
    name: Vec<u8>,
    /// The edges of the last node.
    edges: Vec<Edge<'a>>,
}

/// The lines so far; or, where none are kept, how many bytes their names have.
#[derive(Drop)]
struct Lines<'a> {
    are_kept: bool,
    size: u64,
    items: Vec<NamedExport<'a>>,
}

/// All names of a trie in rising order, each with its answer, or a place at which the trie is malformed.
///
/// It is malformed where the walk along all edges meets bytes that are no node, an empty label, two edges of one node that
/// begin with the same byte, or a node for the second time. The first such place in the order of names is told. No bytes at
/// all are a trie without names. The time is that of reading the trie and writing the names. Where all names together
/// would have more than four gigabytes, no memory is taken for them, and the answer is want of memory; so it is where more
/// nodes are pending than the trie has bytes, as they can be only in a malformed trie.
pub fn list_exports<'a>(alloc: Global, bytes: &'a [u8]) -> Result<TrieNames<'a>, AllocError>
    ensures { IfOk result (IsListOf bytes.now) }
{
    if bytes.is_empty() {
        return Ok(TrieNames::Listed(Vec::new(alloc)));
    }
    let mut lines = Lines {
        are_kept: false,
        size: 0,
        items: Vec::new(alloc),
    };
    if let Some(place) = visit_all(alloc, bytes, &mut lines)? {
        return Ok(TrieNames::Malformed { place });
    }
    let mut lines = Lines {
        are_kept: true,
        size: 0,
        items: Vec::new(alloc),
    };
    match visit_all(alloc, bytes, &mut lines)? {
        Some(place) => Ok(TrieNames::Malformed { place }),
        None => Ok(TrieNames::Listed(lines.items)),
    }
}

/// Walks over a trie, and adds its lines; answers a place at which it is malformed, if there is one.
fn visit_all<'a>(
    alloc: Global,
    bytes: &'a [u8],
    lines: &mut Lines<'a>,
) -> Result<Option<u64>, AllocError>
    requires some { 0 < length bytes.now }
    requires empty { lines.old.items.items ≡ [] }
    ensures whole { IfOk result (λ r. MatchOption r (IsWhole bytes.now lines.old.are_kept lines.new) (IsMalformedAt bytes.now)) }
{
    let mut pending = Vec::new(alloc);
    pending.push(Pending {
        place: 0,
        kept: 0,
        label: &[],
    })?;
    let mut walk = Walk {
        bytes,
        met: vec![in alloc; false; bytes.len()]?,
        pending,
        name: Vec::new(alloc),
        edges: Vec::new(alloc),
    };
    walk.follow(alloc, lines)
}

impl<'a> Walk<'a> {
    /// Visits all nodes that are pending, and those below them.
    fn follow(&mut self, alloc: Global, lines: &mut Lines<'a>) -> Result<Option<u64>, AllocError>
        requires { IsFollowed self.old.bytes.now lines.old.are_kept self.old lines.old }
        ensures whole { IfOk result
            (λ r. MatchOption r (IsWhole self.old.bytes.now lines.old.are_kept lines.new) (IsMalformedAt self.old.bytes.now)) }
    {
        while let Some(next) = self.pending.pop() {
            let Some(export) = self.visit(next)? else {
                return Ok(Some(next.place));
            };
            lines.add(alloc, &self.name, export)?;
        }
        Ok(None)
    }

    /// What a node exports. Its children are pending then. None where something is wrong at its place.
    fn visit(&mut self, next: Pending<'a>) -> Result<Option<Option<Export<'a>>>, AllocError>
        ensures seen { IfOk result (λ r. MatchOption r (IsBad self.old.bytes.now self.old.met.items next.entry.place)
            (λ x. IsVisit self.old next.entry (option_map exported_of x) self.new)) }
    {
        let place = next.place as usize;
        self.name.truncate(next.kept);
        self.name.extend_from_slice(next.label)?;
        let Some(export) = read_node(self.bytes, place, &mut self.edges)? else {
            return Ok(None);
        };
        if !are_ordered(&mut self.edges) || !mark(&mut self.met, place) {
            return Ok(None);
        }
        // where nothing is malformed, pending nodes have places of their own
        if self.pending.len() > self.bytes.len() {
            return Err(AllocError);
        }
        push_children(&mut self.pending, &self.edges, self.name.len())?;
        Ok(Some(export))
    }
}

/// Marks a place that wasn't visited before; answers whether it is one.
fn mark(met: &mut [bool], place: usize) -> bool
    ensures fresh { OnTrue result ((place < length met.old) × (slice_index_or met.old place false ≡ false)) }
    ensures marked { OnTrue result (met.new ≡ slice_set met.old place true) }
    ensures bad { OnFalse result ((length met.old ≤ place) ⊎ (slice_index_or met.old place false ≡ true)) }
{
    if place >= met.len() || met[place] {
        return false;
    }
    met[place] = true;
    true
}

/// Puts the children of a node on the stack, the last one first.
fn push_children<'a>(
    pending: &mut Vec<Pending<'a>>,
    edges: &[Edge<'a>],
    kept: usize,
) -> Result<(), AllocError>
    ensures { OnOk result (pending.new.items ≡ pending.old.items ++ last_first (map (pending_at kept) edges.now)) }
{
    let mut left = edges.len();
    while left > 0 {
        left -= 1;
        let (label, place) = edges[left];
        pending.push(Pending { place, kept, label })?;
    }
    Ok(())
}

impl<'a> Lines<'a> {
    /// Adds the line of a name that is exported, or the size of the name.
    fn add(
        &mut self,
        alloc: Global,
        name: &[u8],
        export: Option<Export<'a>>,
    ) -> Result<(), AllocError>
        ensures flag { self.new.are_kept ≡ self.old.are_kept }
        ensures done { OnOk result (self.old.are_kept ≡ true
            → map line_of self.new.items.items
            ≡ map line_of self.old.items.items ++ line_if name.now (option_map exported_of export.entry)) }
    {
        let Some(export) = export else {
            return Ok(());
        };
        if self.are_kept {
            let name = name.to_vec(alloc)?;
            self.items.push(NamedExport { name, export })?;
        } else {
            self.size = self.size.saturating_add(name.len() as u64);
            if self.size > MOST_BYTES {
                return Err(AllocError);
            }
        }
        Ok(())
    }
}

/// What the node at a place exports, and its edges; None where there is no node.
fn read_node<'a>(
    bytes: &'a [u8],
    at: usize,
    edges: &mut Vec<Edge<'a>>,
) -> Result<Option<Option<Export<'a>>>, AllocError>
    ensures read { IfOk result (λ r. option_map (λ x. record { export = option_map exported_of x; edges = edges_of edges.new.items }) r
        ≡ node_at bytes.now at) }
    ensures few { OnOk result (length edges.new.items ≤ 255) }
{
    edges.clear();
    let Some((export, end)) = read_terminal(bytes, at) else {
        return Ok(None);
    };
    if !read_edges(bytes, end + 1, bytes[end], edges)? {
        return Ok(None);
    }
    Ok(Some(export))
}

/// Reads so many edges; answers whether they are whole.
fn read_edges<'a>(
    bytes: &'a [u8],
    at: usize,
    count: u8,
    edges: &mut Vec<Edge<'a>>,
) -> Result<bool, AllocError>
    requires within { at ≤ length bytes.now }
    requires empty { edges.old.items ≡ [] }
    ensures read { IfOk result (λ r. (if r then Some (edges_of edges.new.items) else None) ≡ edges_at count bytes.now at) }
    ensures few { OnOk result (length edges.new.items ≤ count) }
{
    let mut place = at;
    for edge in 0..count {
        let Some((label, child, next)) = read_edge(bytes, place) else {
            return Ok(false);
        };
        edges.push((label, child))?;
        place = next;
    }
    Ok(true)
}

/// Puts edges in the order of their first bytes; answers whether no label is empty and no two begin with the same byte.
fn are_ordered(edges: &mut Vec<Edge<'_>>) -> bool
    ensures moved { IsPermutation (edges_of edges.old.items) (edges_of edges.new.items) }
    ensures long { length edges.new.items ≡ length edges.old.items }
    ensures rise { OnTrue result (DoRise (edges_of edges.new.items)) }
    ensures joined { OnFalse result (AreApart (edges_of edges.old.items) → ⊥) }
{
    edges.sort_unstable_by_key(|edge| first_byte(edge.0));
    first_bytes_rise(edges)
}

/// Whether no label is empty, and each begins with a greater byte than the one before.
fn first_bytes_rise(edges: &[Edge<'_>]) -> bool
    requires { IsNonDecreasingBy byte_of edges.now }
    ensures rise { OnTrue result (DoRise (edges_of edges.now)) }
    ensures joined { OnFalse result (AreApart (edges_of edges.now) → ⊥) }
{
    let mut least = 0;
    for (label, _) in edges {
        let first = u16::from(first_byte(label));
        if label.is_empty() || first < least {
            return false;
        }
        least = first + 1;
    }
    true
}

/// The first byte of a label, 0 where it is empty.
fn first_byte(label: &[u8]) -> u8
    ensures { result ≡ slice_index label.now 0 }
{
    if label.is_empty() { 0 } else { label[0] }
}
