//! The bytes of a trie.
//!
//! The trie of `_foo` at 2 and `_fop` at 3, node by node:
//!
//!     00   01   5f 66 6f 00 07               0: one edge, `_fo` to 7
//!     00   02   6f 00 0f   70 00 13          7: two edges, `o` to 15 and `p` to 19
//!     02 00 02   00                         15: flags 0, address 2, no edge
//!     02 00 03   00                         19: flags 0, address 3, no edge
ghost use Rattle.std.specs.Prelude.{◌≡◌, ℕ, ◌+◌, ◌<◌, ◌≤◌, ◌++◌, ◌∷◌, List, OnOk, IfOk, length, slice_index};
ghost use Rattle.std.specs.Option.{option_map};
ghost use Rattle.macho_bytes.specs.Texts.{put};
ghost use Rattle.macho_trie.specs.Tables.{symbol_at, row_at, name_at, label_of};
ghost use Rattle.macho_bytes.specs.Uleb.{uleb_of};
ghost use Rattle.macho_trie.specs.steps.Layouts.{names_at, says_at, tree_at, children_of, IsLaid};
ghost use Rattle.macho_trie.specs.Encoding.{edges_bytes, export_bytes, node_bytes, terminal_bytes, tree_bytes};
ghost use Rattle.macho_trie.specs.Says.{said_of};

use crate::layout::{Layout, export_size};
use crate::lookup::REEXPORT;
use crate::symbols::Says;
use crate::table::Row;
use macho_records::write_uleb;
use std::alloc::{AllocError, Global};

impl<'a> Layout<'a> {
    /// Writes the bytes of all nodes from a place on, in preorder, where edges tell these places. Each node is made apart, in memory
    /// that the next one takes over; the other bytes stay.
    pub(crate) fn spell(
        &self,
        alloc: Global,
        places: &[usize],
        out: &mut [u8],
        at: usize,
    ) -> Result<(), AllocError>
        requires sound { IsLaid self.now }
        requires places { length self.now.rows.now < length places.now }
        requires room { at + length (tree_bytes (says_at self.now) (slice_index places.now) 0 (tree_at self.now)) ≤ length out.old }
        ensures length { length out.new ≡ length out.old }
        ensures done { OnOk result
            (out.new ≡ put at (tree_bytes (says_at self.now) (slice_index places.now) 0 (tree_at self.now)) out.old) }
    {
        let mut node = Vec::new(alloc);
        let mut place = at;
        for row in 0..self.rows.len() {
            node.clear();
            self.write_node(&mut node, row, places)?;
            out[place..place + node.len()].copy_from_slice(&node);
            place += node.len();
        }
        Ok(())
    }

    /// Appends a node: its terminal part, the number of its children, and its edges.
    fn write_node(&self, out: &mut Vec<u8>, row: usize, places: &[usize]) -> Result<(), AllocError>
        requires sound { IsLaid self.now }
        requires here { row < length self.now.rows.now }
        requires places { length self.now.rows.now ≤ length places.now }
        ensures { OnOk result (out.new.items ≡ out.old.items
            ++ node_bytes (says_at self.now) (slice_index places.now) row (symbol_at (row_at self.now.rows.now row))
            (children_of self.now row)) }
    {
        let node = self.rows[row];
        self.write_terminal(out, node)?;
        out.push(node.children)?;
        self.write_edges(out, row, places)
    }

    /// Appends a terminal part behind its size.
    fn write_terminal(&self, out: &mut Vec<u8>, row: Row) -> Result<(), AllocError>
        requires { row.symbol < length (names_at self.now) }
        ensures { OnOk result (out.new.items ≡ out.old.items ++ terminal_bytes (option_map (says_at self.now) (symbol_at row))) }
    {
        if !row.is_terminal {
            out.push(0)?;
            return Ok(());
        }
        let says = &self.symbols.items[row.symbol].says;
        let part = export_size(says)?;
        write_uleb(out, part as u64)?;
        write_export(out, says)
    }

    /// Appends the edges of a node.
    fn write_edges(&self, out: &mut Vec<u8>, row: usize, places: &[usize]) -> Result<(), AllocError>
        requires sound { IsLaid self.now }
        requires here { row < length self.now.rows.now }
        requires places { length self.now.rows.now ≤ length places.now }
        ensures { OnOk result (out.new.items ≡ out.old.items ++ edges_bytes (slice_index places.now) (row + 1) (children_of self.now row)) }
    {
        let mut child = row + 1;
        for edge in 0..self.rows[row].children {
            let at = self.rows[child];
            self.write_edge(out, at, places[child])?;
            child = at.after;
        }
        Ok(())
    }

    /// Appends the label of a row's edge, a NUL and the place of the row.
    fn write_edge(&self, out: &mut Vec<u8>, row: Row, place: usize) -> Result<(), AllocError>
        requires symbol { row.symbol < length (names_at self.now) }
        requires label { row.start + row.length ≤ length (name_at (names_at self.now) row.symbol) }
        ensures { OnOk result (out.new.items ≡ out.old.items ++ (label_of (names_at self.now) row ++ (0 ∷ uleb_of place))) }
    {
        let name = self.symbols.items[row.symbol].name;
        out.extend_from_slice(&name[row.start..row.start + row.length])?;
        out.push(0)?;
        write_uleb(out, place as u64)
    }
}

/// Appends what a terminal part says.
fn write_export(out: &mut Vec<u8>, says: &Says<'_>) -> Result<(), AllocError>
    ensures { OnOk result (out.new.items ≡ out.old.items ++ export_bytes (said_of says.now)) }
{
    match says {
        Says::Value { flags, address } => {
            write_uleb(out, *flags)?;
            write_uleb(out, *address)
        }
        Says::Reexport { ordinal, name } => {
            write_uleb(out, REEXPORT)?;
            write_uleb(out, *ordinal)?;
            out.extend_from_slice(name)?;
            out.push(0)?;
            Ok(())
        }
    }
}
