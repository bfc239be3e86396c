//! Where the reading of a text stands between two lines.

use crate::document::{Document, Item, OpenDocument, OpenItem};
use macho_stub_lines::keys::{ItemKey, ItemKind};
use macho_stub_lines::list::OpenList;

/// A list of items that is being read.
#[derive(Drop)]
pub struct ItemList<'data> {
    pub kind: ItemKind,
    /// The items before the last.
    pub items: Vec<Item<'data>>,
    /// The column of the list's dashes.
    pub dash: usize,
    /// The column of the keys of the last item.
    pub column: usize,
    /// The last item.
    pub item: OpenItem<'data>,
}

/// A flow list that is being read.
#[derive(Drop)]
pub struct NameList<'data> {
    /// The line where it began.
    pub began: u64,
    /// The key that it belongs to.
    pub key: ItemKey,
    /// What was read of it.
    pub part: OpenList<'data>,
}

/// What the next line may be.
#[derive(Drop)]
pub enum Mode<'data> {
    /// A key.
    Keys,
    /// A line of a skipped value.
    Skipped,
    /// A line of a flow list.
    Names(NameList<'data>),
    /// The first item of a list whose key stands at the line.
    NoItem(ItemKind, u64),
}

/// Inside a document.
#[derive(Drop)]
pub struct Inside<'data> {
    pub document: OpenDocument<'data>,
    /// The list of items that is being read, if one is.
    pub list: Option<ItemList<'data>>,
    pub mode: Mode<'data>,
}

#[derive(Drop)]
pub enum Place<'data> {
    Outside,
    Within(Inside<'data>),
}

/// The documents before, and where the reading is.
#[derive(Drop)]
pub struct State<'data> {
    pub documents: Vec<Document<'data>>,
    pub place: Place<'data>,
}
