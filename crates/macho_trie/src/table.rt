//! The table of a trie: its nodes in preorder.

/// A node. Its edge's label is a part of the name of a symbol below it.
#[derive(Clone, Copy)]
pub(crate) struct Row {
    /// The first symbol whose name goes through the node.
    pub(crate) symbol: usize,
    /// Whether that name ends here.
    pub(crate) is_terminal: bool,
    pub(crate) children: u8,
    /// Where the label begins in the name.
    pub(crate) start: usize,
    pub(crate) length: usize,
    /// The row after its subtree.
    pub(crate) after: usize,
}
