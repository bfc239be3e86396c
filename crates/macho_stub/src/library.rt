//! What a library's documents must say beside the grammar, and the library that they make.

ghost use Rattle.std.specs.Prelude.{◌≡◌, if◌then◌else◌, [], ◌≤◌, ◌<◌, ◌+◌, ◌++◌, ◌||◌, ℕ, length, map, vec_len, List, IfOk, IfErr, Ok};
ghost use Rattle.std.specs.List.{list_any, flat_map};
ghost use Rattle.std.specs.Str.{bytes_eq};
ghost use Rattle.macho_stub_lines.specs.declared.fault.StubFault.TheVariants.{OutOfMemory};
ghost use Rattle.macho_stub_lines.specs.Faults.{Gives};
ghost use Rattle.macho_stub_lines.specs.Lists.{texts};
ghost use Rattle.macho_stub.specs.steps.Opened.{item_of, items_of, document_of};
ghost use Rattle.macho_stub.specs.Library.{has_target, library_fields};
ghost use Rattle.macho_stub.specs.steps.Checks.{picked, texts_for_target, texts_of_document, is_listed, holds, gathered_texts, same_names, same_item, same_items, same_document, checked_libraries, checked_main, checked_document, checked_documents, library_of};

use crate::document::{Document, Item};
use macho_stub_lines::fault::{StubFault, StubRule};
use std::alloc::Global;
use std::collections::BTreeSet;

/// The target that is linked for.
const TARGET: &str = "arm64e-macos";

/// What a stub text says of a library, in slices of that text.
#[derive(Drop)]
pub struct DefinedStubLibrary<'data> {
    /// The install name of the library.
    pub install_name: &'data str,
    /// Its current version, as the text spells it.
    pub current_version: &'data str,
    /// The symbols that it and the libraries that it reexports define.
    pub symbols: Vec<&'data str>,
    /// Those that they define weakly.
    pub weak_symbols: Vec<&'data str>,
}

/// Whether the name is among the names.
fn is_among(name: &str, names: &[&str]) -> bool
    ensures { result ≡ list_any (λ other. bytes_eq other name.now) (texts names.now) }
{
    for other in names {
        if *other == name {
            return true;
        }
    }
    false
}

/// Whether the targets hold the one that is linked for.
#[tactic(auto, unfolding(crate::specs::Library::has_target))]
fn has_target(targets: &[&str]) -> bool
    ensures { result ≡ has_target (texts targets.now) }
{
    is_among(TARGET, targets)
}

/// Whether the names are the same.
#[tactic(auto, unfolding(crate::specs::steps::Checks::same_names))]
fn same_names(left: &[&str], right: &[&str]) -> bool
    ensures { result ≡ same_names (texts left.now) (texts right.now) }
{
    if left.len() != right.len() {
        return false;
    }
    for i in 0..left.len() {
        if left[i] != right[i] {
            return false;
        }
    }
    true
}

/// Whether the items say the same.
#[tactic(auto, unfolding(crate::specs::steps::Checks::same_item))]
fn same_item(left: &Item<'_>, right: &Item<'_>) -> bool
    ensures { result ≡ same_item (item_of left.now) (item_of right.now) }
{
    same_names(left.targets.as_slice(), right.targets.as_slice())
        && same_names(left.names.as_slice(), right.names.as_slice())
        && same_names(left.weak_names.as_slice(), right.weak_names.as_slice())
}

/// Whether the lists of items say the same.
#[tactic(auto, unfolding(crate::specs::steps::Checks::same_items))]
fn same_items(left: &[Item<'_>], right: &[Item<'_>]) -> bool
    ensures { result ≡ same_items (items_of left.now) (items_of right.now) }
{
    if left.len() != right.len() {
        return false;
    }
    for i in 0..left.len() {
        if !same_item(&left[i], &right[i]) {
            return false;
        }
    }
    true
}

/// Whether the documents say the same.
#[tactic(auto, unfolding(crate::specs::steps::Checks::same_document))]
fn same_document(left: &Document<'_>, right: &Document<'_>) -> bool
    ensures { result ≡ same_document (document_of left.now) (document_of right.now) }
{
    left.version == right.version
        && same_names(left.targets.as_slice(), right.targets.as_slice())
        && left.install_name == right.install_name
        && left.current_version == right.current_version
        && same_items(left.libraries.as_slice(), right.libraries.as_slice())
        && same_items(left.exports.as_slice(), right.exports.as_slice())
        && same_items(left.reexports.as_slice(), right.reexports.as_slice())
}

/// The rule is broken in the document at the line.
fn broken(line: u64, rule: StubRule) -> StubFault
    ensures { result ≡ StubFault.Rule line rule }
{
    StubFault::Rule { line, rule }
}

/// Checks the one group of reexported libraries, if there is one.
fn checked_libraries(line: u64, items: &[Item<'_>]) -> Result<(), StubFault>
    ensures { Gives (λ u. u) result (checked_libraries line (items_of items.now)) }
{
    match items {
        [] => Ok(()),
        [item] => {
            if has_target(item.targets.as_slice()) {
                Ok(())
            } else {
                Err(broken(line, StubRule::S8))
            }
        }
        _ => Err(broken(line, StubRule::S7)),
    }
}

/// Checks the main library.
#[tactic(auto, unfolding(crate::specs::steps::Checks::checked_main))]
fn checked_main(main: &Document<'_>) -> Result<(), StubFault>
    ensures { Gives (λ u. u) result (checked_main (document_of main.now)) }
{
    if !has_target(main.targets.as_slice()) {
        return Err(broken(main.line, StubRule::S5));
    }
    if main.current_version.is_empty() {
        return Err(broken(main.line, StubRule::S6));
    }
    checked_libraries(main.line, main.libraries.as_slice())
}

/// The libraries with those that the item lists.
fn with_listed<'data>(
    mut listed: BTreeSet<&'data str>,
    names: &[&'data str],
) -> Result<BTreeSet<&'data str>, StubFault>
    ensures done { IfOk result (λ new. (name : List ℕ) → holds new name
        ≡ (holds listed.entry name || list_any (λ other. bytes_eq other name) (texts names.now))) }
    ensures why { IfErr result (λ fault. fault ≡ OutOfMemory) }
{
    for name in names {
        let name = *name;
        listed.insert(name)?;
    }
    Ok(listed)
}

/// The libraries that the items list, so that each is looked up without a walk over all.
#[tactic(auto, unfolding(crate::specs::steps::Checks::is_listed))]
fn listed_of<'data>(alloc: Global, items: &[Item<'data>]) -> Result<BTreeSet<&'data str>, StubFault>
    ensures done { IfOk result (λ new. (name : List ℕ) → holds new name ≡ is_listed name (items_of items.now)) }
    ensures why { IfErr result (λ fault. fault ≡ OutOfMemory) }
{
    let mut listed = BTreeSet::new(alloc);
    for item in items {
        listed = with_listed(listed, item.names.as_slice())?;
    }
    Ok(listed)
}

/// Checks a document against the main one and the libraries that it lists.
#[tactic(auto, unfolding(crate::specs::steps::Checks::checked_document))]
fn checked_document(
    main: &Document<'_>,
    listed: &BTreeSet<&str>,
    document: &Document<'_>,
) -> Result<(), StubFault>
    requires { (name : List ℕ) → holds listed.now name ≡ is_listed name (items_of main.now.libraries.items) }
    ensures { Gives (λ u. u) result (checked_document (document_of main.now) (document_of document.now)) }
{
    if document.version != "4" {
        return Err(broken(document.line, StubRule::S4));
    }
    if same_document(document, main) || listed.contains(document.install_name) {
        return Ok(());
    }
    Err(broken(document.line, StubRule::S9))
}

/// Checks each document against the main one.
fn checked_documents(
    alloc: Global,
    main: &Document<'_>,
    documents: &[Document<'_>],
) -> Result<(), StubFault>
    ensures { Gives (λ u. u) result (checked_documents (document_of main.now) (map document_of documents.now)) }
{
    let listed = listed_of(alloc, main.libraries.as_slice())?;
    for document in documents {
        checked_document(main, &listed, document)?;
    }
    Ok(())
}

/// The names with those of the item behind them, if it is for the target.
fn with_item<'data>(
    mut names: Vec<&'data str>,
    item: &Item<'data>,
    weak: bool,
) -> Result<Vec<&'data str>, StubFault>
    ensures { Gives (λ v. texts v.items) result
        (Ok (texts names.entry.items ++ texts_for_target weak (item_of item.now))) }
{
    let wanted = has_target(item.targets.as_slice());
    if wanted {
        if weak {
            names.extend_from_slice(item.weak_names.as_slice())?;
        } else {
            names.extend_from_slice(item.names.as_slice())?;
        }
    }
    Ok(names)
}

/// The names with those of the items behind them.
fn with_items<'data>(
    mut names: Vec<&'data str>,
    items: &[Item<'data>],
    weak: bool,
) -> Result<Vec<&'data str>, StubFault>
    ensures { Gives (λ v. texts v.items) result
        (Ok (texts names.entry.items ++ flat_map (texts_for_target weak) (items_of items.now))) }
{
    for item in items {
        names = with_item(names, item, weak)?;
    }
    Ok(names)
}

/// The names with those of the document behind them.
fn with_document<'data>(
    names: Vec<&'data str>,
    document: &Document<'data>,
    weak: bool,
) -> Result<Vec<&'data str>, StubFault>
    ensures { Gives (λ v. texts v.items) result
        (Ok (texts names.entry.items ++ texts_of_document weak (document_of document.now))) }
{
    let names = with_items(names, document.exports.as_slice(), weak)?;
    with_items(names, document.reexports.as_slice(), weak)
}

/// The symbols of all documents, or the weak ones.
#[tactic(auto, unfolding(crate::specs::steps::Checks::gathered_texts))]
fn gathered<'data>(
    alloc: Global,
    documents: &[Document<'data>],
    weak: bool,
) -> Result<Vec<&'data str>, StubFault>
    ensures { Gives (λ v. texts v.items) result (Ok (gathered_texts weak (map document_of documents.now))) }
{
    let mut names = Vec::new(alloc);
    for document in documents {
        names = with_document(names, document, weak)?;
    }
    Ok(names)
}

/// The library that the documents make.
#[tactic(auto, unfolding(crate::specs::steps::Checks::library_of))]
pub fn library_of<'data>(
    alloc: Global,
    documents: &[Document<'data>],
) -> Result<DefinedStubLibrary<'data>, StubFault>
    ensures { Gives library_fields result (library_of (map document_of documents.now)) }
{
    let Some(main) = documents.first() else {
        return Err(broken(1, StubRule::S2));
    };
    checked_main(main)?;
    checked_documents(alloc, main, documents)?;
    let symbols = gathered(alloc, documents, false)?;
    let weak_symbols = gathered(alloc, documents, true)?;
    Ok(DefinedStubLibrary {
        install_name: main.install_name,
        current_version: main.current_version,
        symbols,
        weak_symbols,
    })
}

impl DefinedStubLibrary<'_> {
    /// How many symbols there are, weak ones too.
    pub fn total_symbols(&self) -> usize
        ensures { result ≡ vec_len self.now.symbols + vec_len self.now.weak_symbols }
    {
        self.symbols.len() + self.weak_symbols.len()
    }
}
