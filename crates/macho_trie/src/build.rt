//! The table of a trie from sorted names, from the last name to the first.
//!
//! The nodes on the way to the least name so far are open. With `_foobar` and `_fop` in the tree, these are the root, the
//! node `_fo` and the node `_foobar`. The next name `_foo` leaves that way at `_foo`: the node `_foobar` is closed, its row is
//! put in front of the others, and it hangs at a new node `_foo`, where the name ends.
ghost use Rattle.std.specs.Prelude.{◌≡◌, ℕ, ◌+◌, ◌<◌, ◌≤◌, ◌++◌, [], ◌∷◌, List, ◌^◌, OnOk, IfOk, length, map, false, true, reverse};
ghost use Rattle.macho_trie.specs.Symbols.{names_of};
ghost use Rattle.macho_trie.specs.steps.Symbols.{IsPlain};
ghost use Rattle.macho_trie.specs.Exports.{HasNoNul};
ghost use Rattle.macho_trie.specs.Tables.{name_at, IsTable};
ghost use Rattle.macho_trie.specs.steps.Sorting.{AreSorted};
ghost use Rattle.macho_trie.specs.Sorting.{HaveNoNul};
ghost use Rattle.std.specs.Cmp.Lexicographic.{slice_cmp};
ghost use Rattle.std.specs.List.{All};
ghost use Rattle.std.specs.Ordering.{nat_cmp};
ghost use Rattle.std.specs.declared.cmp.Ordering.TheVariants.{Less};
ghost use Rattle.macho_trie.specs.steps.Building.{numbered_rows, names_in, rows_in, open_in, root_node, deepest, adopted, MayClose, Closes, IsAt, IsReadyFor, Arrives, Steps, IsAtRoot, IsRooted};

use crate::sort::shared_length;
use crate::symbols::Symbols;
use crate::table::Row;
use std::alloc::{AllocError, Global};

/// A node on the way to the least name so far. Its children that are closed have their rows.
#[derive(Clone, Copy)]
pub(crate) struct Open {
    /// The length of the way to the node.
    pub(crate) depth: usize,
    pub(crate) children: usize,
    /// The rows that were there when the first of its children was closed.
    pub(crate) opened: usize,
}

/// The rows of closed nodes, the last first, and the open nodes, the root first. The end isn't known yet, so each row has in
/// place of the row after its subtree the number of rows from there to the end.
#[derive(Drop)]
pub(crate) struct Builder<'s> {
    pub(crate) symbols: &'s Symbols<'s>,
    pub(crate) rows: Vec<Row>,
    pub(crate) nodes: Vec<Open>,
}

impl<'s> Builder<'s> {
    /// The root alone.
    pub(crate) fn new(alloc: Global, symbols: &'s Symbols<'s>) -> Result<Builder<'s>, AllocError>
        ensures empty { IfOk result (λ b. (rows_in b ≡ []) × (open_in b ≡ root_node ∷ [])) }
        ensures names { IfOk result (λ b. names_in b ≡ names_of symbols.now) }
    {
        let mut nodes = Vec::new(alloc);
        nodes.push(Open {
            depth: 0,
            children: 0,
            opened: 0,
        })?;
        Ok(Builder {
            symbols,
            rows: Vec::new(alloc),
            nodes,
        })
    }

    /// Closes the deepest node. It hangs at the next open node, or at a new one of the least depth where that is deeper.
    /// Answers that depth.
    fn close(&mut self, symbol: usize, is_terminal: bool, least: usize) -> Result<usize, AllocError>
        requires closing { MayClose symbol is_terminal least self.old }
        requires plain { IsPlain (name_at (names_in self.old) symbol) }
        ensures closed { OnOk result (Closes symbol is_terminal least self.old self.new) }
        ensures names { OnOk result (names_in self.new ≡ names_in self.old) }
        ensures depth { IfOk result (λ d. (d ≡ deepest (open_in self.new)) × (d < deepest (open_in self.old))) }
    {
        let Some(node) = self.nodes.pop() else {
            unreachable!()
        };
        let Some(next) = self.nodes.pop() else {
            unreachable!()
        };
        let start = next.depth.max(least);
        self.rows.push(Row {
            symbol,
            is_terminal,
            children: node.children as u8,
            start,
            length: node.depth - start,
            after: node.opened,
        })?;
        self.adopt(next, least, node.opened)?;
        Ok(start)
    }

    /// Puts a closed child at an open node, or at a new one below it.
    fn adopt(&mut self, next: Open, least: usize, opened: usize) -> Result<(), AllocError>
        requires { next.children < 256 }
        ensures done { OnOk result (open_in self.new ≡ adopted least opened (next ∷ open_in self.old)) }
        ensures same { (self.new.rows ≡ self.old.rows) × (self.new.symbols ≡ self.old.symbols) }
    {
        if next.depth < least {
            self.nodes.push(next)?;
            self.nodes.push(Open {
                depth: least,
                children: 1,
                opened,
            })?;
        } else {
            self.nodes.push(Open {
                children: next.children + 1,
                ..next
            })?;
        }
        Ok(())
    }

    /// Closes all nodes below a depth, from a name's own node on, so that a node of that depth is the deepest.
    pub(crate) fn close_to(&mut self, symbol: usize, least: usize) -> Result<(), AllocError>
        requires opened { IsAt symbol self.old }
        requires plain { IsPlain (name_at (names_in self.old) symbol) }
        requires above { least < length (name_at (names_in self.old) symbol) }
        ensures closed { OnOk result (Closes symbol true least self.old self.new) }
        ensures depth { OnOk result (deepest (open_in self.new) ≡ least) }
        ensures names { OnOk result (names_in self.new ≡ names_in self.old) }
    {
        let mut depth = self.close(symbol, true, least)?;
        while depth > least {
            depth = self.close(symbol, false, least)?;
        }
        Ok(())
    }

    /// Goes on to the node of a name, which is a new one where the deepest node lies above it.
    pub(crate) fn arrive(
        &mut self,
        symbol: usize,
        depth: usize,
        size: usize,
    ) -> Result<(), AllocError>
        requires here { symbol < length (names_in self.old) }
        requires ready { IsReadyFor symbol self.old }
        requires depth { depth ≡ deepest (open_in self.old) }
        requires long { size ≡ length (name_at (names_in self.old) symbol) }
        ensures done { OnOk result (Arrives symbol self.old self.new) }
        ensures names { OnOk result (names_in self.new ≡ names_in self.old) }
    {
        if depth < size {
            let opened = self.rows.len();
            self.nodes.push(Open {
                depth: size,
                children: 0,
                opened,
            })?;
        }
        Ok(())
    }

    /// Goes on from a name's node to that of the lesser name before it.
    fn step(
        &mut self,
        next: &[u8],
        above: usize,
        name: &[u8],
        symbol: usize,
    ) -> Result<(), AllocError>
        requires opened { IsAt above self.old }
        requires next { next.now ≡ name_at (names_in self.old) above }
        requires plain { HasNoNul next.now }
        requires name { name.now ≡ name_at (names_in self.old) symbol }
        requires here { symbol < length (names_in self.old) }
        requires less { slice_cmp nat_cmp name.now next.now ≡ Less }
        ensures done { OnOk result (Steps above symbol self.old self.new) }
        ensures names { OnOk result (names_in self.new ≡ names_in self.old) }
    {
        let shared = shared_length(name, next);
        self.close_to(above, shared)?;
        self.arrive(symbol, shared, name.len())
    }

    /// Closes all nodes. Answers the rows, the root first.
    fn finish(mut self, name: &[u8], symbol: usize) -> Result<Vec<Row>, AllocError>
        requires opened { IsAt symbol self }
        requires name { name.now ≡ name_at (names_in self) symbol }
        requires plain { HasNoNul name.now }
        ensures { IfOk result (λ rows. IsRooted symbol true self.entry rows.items) }
    {
        if name.is_empty() {
            return self.close_root(symbol, true);
        }
        self.close_to(symbol, 0)?;
        self.close_root(symbol, false)
    }

    /// Closes the root, and answers all rows from the first on.
    fn close_root(mut self, symbol: usize, is_terminal: bool) -> Result<Vec<Row>, AllocError>
        requires { IsAtRoot symbol is_terminal self }
        ensures { IfOk result (λ rows. IsRooted symbol is_terminal self.entry rows.items) }
    {
        let Some(root) = self.nodes.pop() else {
            unreachable!()
        };
        let Builder {
            symbols: _,
            mut rows,
            nodes: _,
        } = self;
        rows.push(Row {
            symbol,
            is_terminal,
            children: root.children as u8,
            start: 0,
            length: 0,
            after: root.opened,
        })?;
        rows.reverse();
        number_ends(&mut rows);
        Ok(rows)
    }
}

/// Tells the row after each subtree by its number, where the rows from there to the end were counted.
fn number_ends(rows: &mut [Row])
    requires { All (λ row. row.after ≤ length rows.old) rows.old }
    ensures { rows.new ≡ numbered_rows (length rows.old) rows.old }
{
    let count = rows.len();
    for place in 0..count {
        rows[place].after = count - rows[place].after;
    }
}

/// The rows of the radix tree of sorted names, the root first.
pub(crate) fn table_of(
    alloc: Global,
    symbols: &Symbols<'_>,
    sorted: &[(&[u8], usize)],
) -> Result<Vec<Row>, AllocError>
    requires sorted { AreSorted (names_of symbols.now) (map (λ p. (p.0.now, p.1)) sorted.now) }
    requires plain { HaveNoNul (names_of symbols.now) }
    requires some { 1 ≤ length sorted.now }
    ensures { IfOk result (λ rows. IsTable (names_of symbols.now) rows.items) }
{
    let mut builder = Builder::new(alloc, symbols)?;
    let mut left = sorted.len() - 1;
    let (name, symbol) = sorted[left];
    builder.arrive(symbol, 0, name.len())?;
    while left != 0 {
        let (next, above) = sorted[left];
        left -= 1;
        let (name, symbol) = sorted[left];
        builder.step(next, above, name, symbol)?;
    }
    let (name, symbol) = sorted[0];
    builder.finish(name, symbol)
}
