//! What items and documents say: as far as they were read, and whole.

ghost use Rattle.std.specs.Prelude.{◌≡◌, ℕ, [], Some, None, is_some, unwrap_or};
ghost use Rattle.std.specs.Option.{option_map};
ghost use Rattle.macho_stub_lines.specs.Faults.{Gives};
ghost use Rattle.macho_stub_lines.specs.Lists.{texts};
ghost use Rattle.macho_stub.specs.steps.Opened.{item_of, open_item_of, items_of, document_of, open_document_of, no_item, head_at, has_key, with_key, with_top_key, has_items, with_items};
ghost use Rattle.macho_stub.specs.steps.Whole.{wanted, wanted_names, whole_item, whole_document};

use macho_stub_lines::fault::{StubFault, StubRule};
use macho_stub_lines::keys::{ItemKey, ItemKind};
use std::alloc::Global;

/// An item of a list: its targets, its libraries or symbols, and its weak symbols.
#[derive(Drop)]
pub struct Item<'data> {
    pub targets: Vec<&'data str>,
    pub names: Vec<&'data str>,
    pub weak_names: Vec<&'data str>,
}

/// An item that is being read, where a key may not have come.
#[derive(Drop)]
pub struct OpenItem<'data> {
    pub targets: Option<Vec<&'data str>>,
    pub names: Option<Vec<&'data str>>,
    pub weak_names: Option<Vec<&'data str>>,
}

/// A document, and the line of its head.
#[derive(Drop)]
pub struct Document<'data> {
    pub line: u64,
    /// The digits, without zeros in front.
    pub version: &'data str,
    pub targets: Vec<&'data str>,
    pub install_name: &'data str,
    /// Empty where none stands.
    pub current_version: &'data str,
    pub libraries: Vec<Item<'data>>,
    pub exports: Vec<Item<'data>>,
    pub reexports: Vec<Item<'data>>,
}

/// A document that is being read, where a key may not have come.
#[derive(Drop)]
pub struct OpenDocument<'data> {
    pub line: u64,
    pub version: Option<&'data str>,
    pub targets: Option<Vec<&'data str>>,
    pub install_name: Option<&'data str>,
    pub current_version: Option<&'data str>,
    pub libraries: Option<Vec<Item<'data>>>,
    pub exports: Option<Vec<Item<'data>>>,
    pub reexports: Option<Vec<Item<'data>>>,
}

/// The document at this line lacks a key.
fn lacks(line: u64) -> StubFault
    ensures { result ≡ StubFault.Rule line StubRule.S2 }
{
    StubFault::Rule {
        line,
        rule: StubRule::S2,
    }
}

/// An item of which nothing was read.
pub fn no_item<'data>() -> OpenItem<'data>
    ensures { open_item_of result ≡ no_item }
{
    OpenItem {
        targets: None,
        names: None,
        weak_names: None,
    }
}

/// A document of which the head was read.
pub fn head_at<'data>(line: u64) -> OpenDocument<'data>
    ensures { open_document_of result ≡ head_at line }
{
    OpenDocument {
        line,
        version: None,
        targets: None,
        install_name: None,
        current_version: None,
        libraries: None,
        exports: None,
        reexports: None,
    }
}

/// The names, or none.
fn names_or_none<'data>(alloc: Global, names: Option<Vec<&'data str>>) -> Vec<&'data str>
    ensures { texts result.items ≡ unwrap_or (option_map (λ v. texts v.items) names.entry) [] }
{
    match names {
        Some(names) => names,
        None => Vec::new(alloc),
    }
}

/// The items, or none.
fn items_or_none<'data>(alloc: Global, items: Option<Vec<Item<'data>>>) -> Vec<Item<'data>>
    ensures { items_of result.items ≡ unwrap_or (option_map (λ v. items_of v.items) items.entry) [] }
{
    match items {
        Some(items) => items,
        None => Vec::new(alloc),
    }
}

impl<'data> OpenItem<'data> {
    /// Whether the key has come.
    pub fn has_key(&self, key: ItemKey) -> bool
        ensures { result ≡ has_key key (open_item_of self.now) }
    {
        match key {
            ItemKey::Targets => self.targets.is_some(),
            ItemKey::Names => self.names.is_some(),
            ItemKey::WeakNames => self.weak_names.is_some(),
            ItemKey::Unread => false,
        }
    }

    /// The item with the names under the key.
    pub fn with_key(self, key: ItemKey, names: Vec<&'data str>) -> OpenItem<'data>
        ensures { open_item_of result ≡ with_key key (texts names.entry.items) (open_item_of self.entry) }
    {
        match key {
            ItemKey::Targets => OpenItem {
                targets: Some(names),
                names: self.names,
                weak_names: self.weak_names,
            },
            ItemKey::Names => OpenItem {
                targets: self.targets,
                names: Some(names),
                weak_names: self.weak_names,
            },
            ItemKey::WeakNames => OpenItem {
                targets: self.targets,
                names: self.names,
                weak_names: Some(names),
            },
            ItemKey::Unread => self,
        }
    }

    /// The whole item, in a document at this line.
    #[tactic(auto, unfolding(crate::specs::steps::Whole::whole_item))]
    pub fn whole(self, alloc: Global, line: u64, kind: ItemKind) -> Result<Item<'data>, StubFault>
        ensures { Gives item_of result (whole_item line kind (open_item_of self.entry)) }
    {
        let OpenItem {
            targets,
            names,
            weak_names,
        } = self;
        let Some(targets) = targets else {
            return Err(lacks(line));
        };
        let names = wanted_names(alloc, line, kind, names)?;
        Ok(Item {
            targets,
            names,
            weak_names: names_or_none(alloc, weak_names),
        })
    }
}

/// The names of a whole item.
fn wanted_names<'data>(
    alloc: Global,
    line: u64,
    kind: ItemKind,
    names: Option<Vec<&'data str>>,
) -> Result<Vec<&'data str>, StubFault>
    ensures { Gives (λ v. texts v.items) result
        (wanted_names line kind (option_map (λ v. texts v.items) names.entry)) }
{
    match kind {
        ItemKind::Libraries => match names {
            Some(names) => Ok(names),
            None => Err(lacks(line)),
        },
        ItemKind::Exports | ItemKind::Reexports => Ok(names_or_none(alloc, names)),
    }
}

impl<'data> OpenDocument<'data> {
    /// Whether the list of items has come.
    pub fn has_items(&self, kind: ItemKind) -> bool
        ensures { result ≡ has_items kind (open_document_of self.now) }
    {
        match kind {
            ItemKind::Libraries => self.libraries.is_some(),
            ItemKind::Exports => self.exports.is_some(),
            ItemKind::Reexports => self.reexports.is_some(),
        }
    }

    /// The document with the list of items.
    pub fn with_items(mut self, kind: ItemKind, items: Vec<Item<'data>>) -> OpenDocument<'data>
        ensures { open_document_of result
            ≡ with_items kind (items_of items.entry.items) (open_document_of self.entry) }
    {
        match kind {
            ItemKind::Libraries => self.libraries = Some(items),
            ItemKind::Exports => self.exports = Some(items),
            ItemKind::Reexports => self.reexports = Some(items),
        }
        self
    }

    /// The document with its targets, where that is the key.
    pub fn with_key(mut self, key: ItemKey, names: Vec<&'data str>) -> OpenDocument<'data>
        ensures { open_document_of result ≡ with_top_key key (texts names.entry.items) (open_document_of self.entry) }
    {
        if let ItemKey::Targets = key {
            self.targets = Some(names);
        }
        self
    }

    /// The whole document.
    #[tactic(auto, unfolding(crate::specs::steps::Whole::whole_document))]
    pub fn whole(self, alloc: Global) -> Result<Document<'data>, StubFault>
        ensures { Gives document_of result (whole_document (open_document_of self.entry)) }
    {
        let OpenDocument {
            line,
            version,
            targets,
            install_name,
            current_version,
            libraries,
            exports,
            reexports,
        } = self;
        let Some(version) = version else {
            return Err(lacks(line));
        };
        let Some(targets) = targets else {
            return Err(lacks(line));
        };
        let Some(install_name) = install_name else {
            return Err(lacks(line));
        };
        Ok(Document {
            line,
            version,
            targets,
            install_name,
            current_version: current_version.unwrap_or(""),
            libraries: items_or_none(alloc, libraries),
            exports: items_or_none(alloc, exports),
            reexports: items_or_none(alloc, reexports),
        })
    }
}
