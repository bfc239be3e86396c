//! The sizes and places of a trie's nodes, and their bytes.
ghost use Rattle.std.specs.Prelude.{◌≡◌, ℕ, ◌+◌, ◌<◌, ◌≤◌, ◌++◌, ◌-◌, List, [], OnOk, IfOk, length, slice_index, sum};
ghost use Rattle.macho_trie.specs.Symbols.{names_of};
ghost use Rattle.macho_trie.specs.Tables.{symbol_at};
ghost use Rattle.macho_trie.specs.steps.Layouts.{names_at, size_at, children_of, IsLaid, AreSizes, AreParents, AreNamed, AreSums, tree_at, ArePlaces, AreLaidOut, IsNarrow, NoneNarrow, AreListed, AreLowWidths, AreGrown, FirstGrows, IsLookedAt};
ghost use Rattle.macho_trie.specs.Encoding.{edges_size, export_bytes};
ghost use Rattle.macho_trie.specs.steps.Trees.{IsOneTree};
ghost use Rattle.macho_trie.specs.Says.{said_of};
ghost use Rattle.std.specs.List.{All};

use crate::lookup::REEXPORT;
use crate::symbols::{Says, Symbols};
use crate::table::Row;
use macho_records::uleb_size;
use std::alloc::{AllocError, Global};

/// A table with the symbols that its rows name.
#[derive(Clone, Copy)]
pub(crate) struct Layout<'a> {
    pub(crate) symbols: &'a Symbols<'a>,
    pub(crate) rows: &'a [Row],
}

/// A sum of sizes. Bytes that pass the address space find no memory.
fn added(first: usize, second: usize) -> Result<usize, AllocError>
    ensures { IfOk result (λ n. n ≡ first + second) }
{
    first.checked_add(second).ok_or(AllocError)
}

impl<'a> Layout<'a> {
    /// The bytes of a node's edges, where the places of children have these widths. The node is named as the parent of each
    /// child.
    fn edges_size(
        &self,
        row: usize,
        widths: &[usize],
        parents: &mut [usize],
    ) -> Result<usize, AllocError>
        requires sound { IsLaid self.now }
        requires here { row < length self.now.rows.now }
        requires widths { length widths.now ≡ length self.now.rows.now }
        requires parents { length parents.old ≡ length self.now.rows.now }
        ensures size { IfOk result (λ n. n ≡ edges_size (slice_index widths.now) (row + 1) (children_of self.now row)) }
        ensures named { OnOk result (AreNamed self.now row parents.old parents.new) }
    {
        let mut size = 0;
        let mut child = row + 1;
        for edge in 0..self.rows[row].children {
            let at = self.rows[child];
            let label = added(at.length, 1)?;
            size = added(size, added(label, widths[child])?)?;
            parents[child] = row;
            child = at.after;
        }
        Ok(size)
    }

    /// The bytes of a node's terminal part and its size.
    fn terminal_size(&self, row: Row) -> Result<usize, AllocError>
        requires { row.symbol < length (names_at self.now) }
        ensures { IfOk result (λ n. n ≡ size_at self.now (symbol_at row)) }
    {
        if !row.is_terminal {
            return Ok(1);
        }
        let part = export_size(&self.symbols.items[row.symbol].says)?;
        added(uleb_size(part as u64), part)
    }

    /// The bytes of all nodes. The parent of each child is named by its row.
    fn sizes(
        &self,
        alloc: Global,
        widths: &[usize],
        parents: &mut [usize],
    ) -> Result<Vec<usize>, AllocError>
        requires sound { IsLaid self.now }
        requires root { IsOneTree (tree_at self.now) }
        requires widths { length widths.now ≡ length self.now.rows.now }
        requires parents { length parents.old ≡ length self.now.rows.now }
        ensures sizes { IfOk result (λ v. AreSizes self.now (slice_index widths.now) v.items) }
        ensures parents { OnOk result (AreParents self.now parents.new) }
    {
        let mut sizes = Vec::with_capacity(alloc, self.rows.len())?;
        for row in 0..self.rows.len() {
            let front = added(self.terminal_size(self.rows[row])?, 1)?;
            let edges = self.edges_size(row, widths, parents)?;
            sizes.push(added(front, edges)?)?;
        }
        Ok(sizes)
    }

    /// The places of all nodes under the least widths, and the place after the last one.
    ///
    /// Each width begins at 1. One look goes over all edges. Those that it finds too narrow go on a list, which is worked off,
    /// and another look follows, until one finds no edge. The rows are read once: the sizes of the nodes are kept beside the
    /// widths.
    pub(crate) fn lay_out(&self, alloc: Global) -> Result<Vec<usize>, AllocError>
        requires sound { IsLaid self.now }
        requires root { IsOneTree (tree_at self.now) }
        ensures { IfOk result (λ v. AreLaidOut self.now v.items) }
    {
        let mut widths = vec![in alloc; 1; self.rows.len()]?;
        let mut parents = vec![in alloc; 0; self.rows.len()]?;
        let mut sizes = self.sizes(alloc, &widths, &mut parents)?;
        'looks: loop {
            let places = places_of(alloc, &sizes)?;
            let list = narrow_edges(alloc, &places, &widths)?;
            if list.is_empty() {
                return Ok(places);
            }
            self.work_off(alloc, &parents, places, list, &mut sizes, &mut widths)?;
        }
    }

    /// Works off a list of edges to look at. Wider edges move the nodes after theirs, and the edges whose child lies there
    /// are looked at again.
    fn work_off(
        &self,
        alloc: Global,
        parents: &[usize],
        before: Vec<usize>,
        narrow: Vec<usize>,
        sizes: &mut [usize],
        widths: &mut [usize],
    ) -> Result<(), AllocError>
        requires sound { IsLaid self.now }
        requires root { IsOneTree (tree_at self.now) }
        requires parents { AreParents self.now parents.now }
        requires places { ArePlaces self.now (slice_index widths.old) before.items }
        requires sizes { AreSizes self.now (slice_index widths.old) sizes.old }
        requires low { AreLowWidths self.now widths.old }
        requires list { AreListed (length self.now.rows.now) narrow.items }
        requires some { IsNarrow before.items widths.old (slice_index narrow.items 0) }
        requires length { 1 ≤ length narrow.items }
        ensures sizes { OnOk result (AreSizes self.now (slice_index widths.new) sizes.new) }
        ensures low { OnOk result (AreLowWidths self.now widths.new) }
        ensures grown { OnOk result (sum widths.old < sum widths.new) }
    {
        let mut places = before;
        let mut list = narrow;
        'list: while !list.is_empty() {
            self.widen(parents, &places, &list, sizes, widths)?;
            let moved = places_of(alloc, sizes)?;
            list = moved_edges(alloc, &places, &moved)?;
            places = moved;
        }
        Ok(())
    }

    /// Looks at the edges of a list, from the first child on. One that is too narrow gets the width that the place of its
    /// child needs under the present widths: as many bytes behind its former place as edges in front of it have grown. The
    /// node that it leaves grows with it.
    fn widen(
        &self,
        parents: &[usize],
        places: &[usize],
        list: &[usize],
        sizes: &mut [usize],
        widths: &mut [usize],
    ) -> Result<(), AllocError>
        requires sound { IsLaid self.now }
        requires root { IsOneTree (tree_at self.now) }
        requires parents { AreParents self.now parents.now }
        requires places { ArePlaces self.now (slice_index widths.old) places.now }
        requires sizes { AreSizes self.now (slice_index widths.old) sizes.old }
        requires low { AreLowWidths self.now widths.old }
        requires list { AreListed (length self.now.rows.now) list.now }
        ensures sizes { OnOk result (AreSizes self.now (slice_index widths.new) sizes.new) }
        ensures low { OnOk result (AreLowWidths self.now widths.new) }
        ensures grown { OnOk result (AreGrown widths.old widths.new) }
        ensures first { OnOk result (FirstGrows places.now list.now widths.old widths.new) }
    {
        let mut growth = 0;
        for child in list {
            let place = added(places[*child], growth)?;
            let more = widen_edge(widths, *child, place);
            let parent = parents[*child];
            sizes[parent] = added(sizes[parent], more)?;
            growth = added(growth, more)?;
        }
        Ok(())
    }
}

/// The places of nodes of these sizes, one after the other, and the place after the last one.
fn places_of(alloc: Global, sizes: &[usize]) -> Result<Vec<usize>, AllocError>
    ensures { IfOk result (λ v. AreSums sizes.now v.items) }
{
    let mut places = Vec::with_capacity(alloc, sizes.len() + 1)?;
    let mut place = 0;
    for size in sizes {
        places.push(place)?;
        place = added(place, *size)?;
    }
    places.push(place)?;
    Ok(places)
}

/// Looks at an edge whose child has a place. Where it is too narrow, it gets the width that the place needs.
/// Answers by how many bytes it has grown.
fn widen_edge(widths: &mut [usize], child: usize, place: usize) -> usize
    requires { child < length widths.old }
    ensures { IsLookedAt place child result widths.old widths.new }
{
    let width = widths[child];
    let needed = uleb_size(place as u64);
    if needed <= width {
        return 0;
    }
    widths[child] = needed;
    needed - width
}

/// The edges, by the rows of their children, whose width is less than their child's place needs.
fn narrow_edges(alloc: Global, places: &[usize], widths: &[usize]) -> Result<Vec<usize>, AllocError>
    requires { length widths.now ≤ length places.now }
    ensures all { IfOk result (λ v. All (IsNarrow places.now widths.now) v.items) }
    ensures list { IfOk result (λ v. AreListed (length widths.now) v.items) }
    ensures none { IfOk result (λ v. v.items ≡ [] → NoneNarrow places.now widths.now) }
{
    let mut narrow = Vec::new(alloc);
    for child in 1..widths.len() {
        if widths[child] < uleb_size(places[child] as u64) {
            narrow.push(child)?;
        }
    }
    Ok(narrow)
}

/// The edges, by the rows of their children, whose child has another place than before. The last place is behind all nodes.
fn moved_edges(alloc: Global, before: &[usize], places: &[usize]) -> Result<Vec<usize>, AllocError>
    requires same { length before.now ≡ length places.now }
    requires some { 1 ≤ length places.now }
    ensures list { IfOk result (λ v. AreListed (length places.now - 1) v.items) }
    ensures none { before.now ≡ places.now → IfOk result (λ v. v.items ≡ []) }
{
    let mut moved = Vec::new(alloc);
    for child in 1..places.len() - 1 {
        if places[child] != before[child] {
            moved.push(child)?;
        }
    }
    Ok(moved)
}

/// The bytes of a terminal part.
pub(crate) fn export_size(says: &Says<'_>) -> Result<usize, AllocError>
    ensures { IfOk result (λ n. n ≡ length (export_bytes (said_of says.now))) }
{
    match says {
        Says::Value { flags, address } => added(uleb_size(*flags), uleb_size(*address)),
        Says::Reexport { ordinal, name } => {
            let library = added(uleb_size(REEXPORT), uleb_size(*ordinal))?;
            added(library, added(name.len(), 1)?)
        }
    }
}
