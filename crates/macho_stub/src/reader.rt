//! Reads a stub text line by line. Each line is a step from one state of the reading to the next:
//!
//! ```text
//! outside ── head ──> inside a document, where a key may stand
//!   key with a scalar                     the same, with the key
//!   key with a flow list                  in the list, until its bracket closes
//!   key that is skipped                   in its value, as long as lines belong to it
//!   key with items ── dash ──>            inside an item, where its keys may stand
//! ```

ghost use Rattle.std.specs.Prelude.{◌≡◌, ◌≤◌, ◌<◌, ◌+◌, ◌-◌, ◌++◌, ◌∷◌, [], ℕ, true, length, drop, map, slice_index, Some, None, Ok, is_some};
ghost use Rattle.std.specs.Option.{option_map};
ghost use Rattle.macho_stub_lines.specs.Bytes.{indent, is_passed, has_barred, head, end, has_dash, belongs_to_top};
ghost use Rattle.macho_stub_lines.specs.Faults.{Gives};
ghost use Rattle.macho_stub_lines.specs.Lists.{texts, part_of};
ghost use Rattle.macho_stub.specs.steps.Opened.{items_of, item_of, document_of, open_document_of, open_item_of, no_item, head_at};
ghost use Rattle.macho_stub.specs.steps.Whole.{whole_item, whole_document};
ghost use Rattle.macho_stub.specs.steps.Reader.{Keys, Skipped, Within, item_list_of, name_list_of, mode_of, inside_of, place_of, state_of, stays, with_names, behind_part, names_line, opened, names_value, skipped_value, once, item_entry, item_key_line, key_column, first_line, top_entry, within, with_whole, top_line, items_with_last, item_line, key_line, belongs, inside_line, content_line, line_step, ended_document, ended_inside, ended, lines_from, start, documents_of};

use crate::document::{Document, Item, OpenDocument, head_at, no_item};
use crate::state::{Inside, ItemList, Mode, NameList, Place, State};
use macho_stub_lines::bytes::{after, byte_at, has_barred, indent, is_passed};
use macho_stub_lines::fault::{StubFault, StubRule};
use macho_stub_lines::keys::{
    ItemKey, ItemKind, TopKey, item_key, key_line as entry_at, scalar_value, top_key, unspaced,
    version_value,
};
use macho_stub_lines::list::{Expect, OpenList, list_part, outside};
use std::alloc::Global;

/// What begins a document.
const HEAD: &str = "--- !tapi-tbd";

/// What ends a document.
const END: &str = "...";

/// Whether a dash and a space stand behind the line's first spaces.
#[tactic(auto, unfolding(macho_stub_lines::specs::Bytes::has_dash))]
fn has_dash(line: &str) -> bool
    ensures { result ≡ has_dash line.now }
{
    let front = indent(line.as_bytes());
    byte_at(line, front) == b'-' && front < line.len() && byte_at(line, front + 1) == b' '
}

/// Whether a line belongs to the skipped value of a key of a document.
#[tactic(auto, unfolding(macho_stub_lines::specs::Bytes::belongs_to_top))]
fn belongs_to_top(line: &str) -> bool
    ensures { result ≡ belongs_to_top line.now }
{
    byte_at(line, 0) == b' ' || (byte_at(line, 0) == b'-' && byte_at(line, 1) == b' ')
}

/// The document or the item with the names of a flow list that has ended.
fn with_names<'data>(
    document: OpenDocument<'data>,
    list: Option<ItemList<'data>>,
    key: ItemKey,
    names: Vec<&'data str>,
) -> Inside<'data>
    ensures { inside_of result ≡ with_names (open_document_of document.entry) (option_map item_list_of list.entry) key
        (texts names.entry.items) }
{
    match list {
        None => Inside {
            document: document.with_key(key, names),
            list: None,
            mode: Mode::Keys,
        },
        Some(
            ItemList {
                kind,
                items,
                dash,
                column,
                item,
            },
        ) => Inside {
            document,
            list: Some(ItemList {
                kind,
                items,
                dash,
                column,
                item: item.with_key(key, names),
            }),
            mode: Mode::Keys,
        },
    }
}

/// Where the reading is behind a line of a flow list.
fn behind_part<'data>(
    document: OpenDocument<'data>,
    list: Option<ItemList<'data>>,
    began: u64,
    key: ItemKey,
    part: OpenList<'data>,
) -> Inside<'data>
    ensures { inside_of result ≡ behind_part (open_document_of document.entry) (option_map item_list_of list.entry)
        began key (part_of part.entry) }
{
    match part.expect {
        Expect::Closed => with_names(document, list, key, part.names),
        Expect::AfterOpen | Expect::AfterComma | Expect::AfterName => Inside {
            document,
            list,
            mode: Mode::Names(NameList { began, key, part }),
        },
    }
}

/// Reads a line of a flow list.
#[tactic(auto, unfolding(crate::specs::steps::Reader::names_line))]
fn names_line<'data>(
    document: OpenDocument<'data>,
    list: Option<ItemList<'data>>,
    line: u64,
    names: NameList<'data>,
    text: &'data str,
) -> Result<Inside<'data>, StubFault>
    ensures { Gives inside_of result
        (names_line (open_document_of document.entry) (option_map item_list_of list.entry) line
        (name_list_of names.entry) text.now) }
{
    let NameList { began, key, part } = names;
    let part = list_part(line, part, text)?;
    Ok(behind_part(document, list, began, key, part))
}

/// A flow list that begins at the line, behind its bracket.
fn opened<'data>(alloc: Global, line: u64, key: ItemKey) -> NameList<'data>
    ensures { name_list_of result ≡ opened line key }
{
    NameList {
        began: line,
        key,
        part: OpenList {
            names: Vec::new(alloc),
            expect: Expect::AfterOpen,
        },
    }
}

/// Reads the value of a key as a flow list.
#[tactic(auto, unfolding(crate::specs::steps::Reader::names_value))]
fn names_value<'data>(
    alloc: Global,
    document: OpenDocument<'data>,
    list: Option<ItemList<'data>>,
    line: u64,
    key: ItemKey,
    value: &'data str,
) -> Result<Inside<'data>, StubFault>
    ensures { Gives inside_of result
        (names_value (open_document_of document.entry) (option_map item_list_of list.entry) line key value.now) }
{
    if byte_at(value, 0) != b'[' {
        return Err(outside(line));
    }
    names_line(
        document,
        list,
        line,
        opened(alloc, line, key),
        after(value, 1),
    )
}

/// Skips the value of a key.
#[tactic(auto, unfolding(crate::specs::steps::Reader::skipped_value))]
fn skipped_value<'data>(
    alloc: Global,
    document: OpenDocument<'data>,
    list: Option<ItemList<'data>>,
    line: u64,
    value: &'data str,
) -> Result<Inside<'data>, StubFault>
    ensures { Gives inside_of result
        (skipped_value (open_document_of document.entry) (option_map item_list_of list.entry) line value.now) }
{
    if byte_at(value, 0) == b'[' {
        return names_line(
            document,
            list,
            line,
            opened(alloc, line, ItemKey::Unread),
            after(value, 1),
        );
    }
    Ok(Inside {
        document,
        list,
        mode: Mode::Skipped,
    })
}

/// The key stands twice.
fn twice(line: u64) -> StubFault
    ensures { result ≡ StubFault.Rule line StubRule.S3 }
{
    StubFault::Rule {
        line,
        rule: StubRule::S3,
    }
}

/// Reads a key of an item.
fn item_entry<'data>(
    alloc: Global,
    document: OpenDocument<'data>,
    list: ItemList<'data>,
    line: u64,
    key: ItemKey,
    value: &'data str,
) -> Result<Inside<'data>, StubFault>
    ensures { Gives inside_of result
        (item_entry (open_document_of document.entry) (item_list_of list.entry) line key value.now) }
{
    if let ItemKey::Unread = key {
        return skipped_value(alloc, document, Some(list), line, value);
    }
    if list.item.has_key(key) {
        return Err(twice(line));
    }
    names_value(alloc, document, Some(list), line, key, value)
}

/// Reads a key of an item, from the key on.
#[tactic(auto, unfolding(crate::specs::steps::Reader::item_key_line))]
fn item_key_line<'data>(
    alloc: Global,
    document: OpenDocument<'data>,
    list: ItemList<'data>,
    line: u64,
    text: &'data str,
) -> Result<Inside<'data>, StubFault>
    ensures { Gives inside_of result
        (item_key_line (open_document_of document.entry) (item_list_of list.entry) line text.now) }
{
    let entry = entry_at(line, text)?;
    let key = item_key(list.kind, entry.key);
    item_entry(alloc, document, list, line, key, entry.value)
}

/// The column of the key behind a line's dash.
#[tactic(auto, unfolding(crate::specs::steps::Reader::key_column, macho_stub_lines::specs::Bytes::has_dash))]
fn key_column(line: &str) -> usize
    requires { has_dash line.now ≡ true }
    ensures { result ≡ key_column line.now }
{
    let front = indent(line.as_bytes());
    front + 1 + indent(after(line, front + 1).as_bytes())
}

/// Reads the first line of an item, behind other items.
#[tactic(auto, unfolding(crate::specs::steps::Reader::first_line))]
fn first_line<'data>(
    alloc: Global,
    document: OpenDocument<'data>,
    kind: ItemKind,
    items: Vec<Item<'data>>,
    line: u64,
    text: &'data str,
) -> Result<Inside<'data>, StubFault>
    ensures { Gives inside_of result
        (first_line (open_document_of document.entry) kind (items_of items.entry.items) line text.now) }
{
    if !has_dash(text) {
        return Err(outside(line));
    }
    let column = key_column(text);
    let list = ItemList {
        kind,
        items,
        dash: indent(text.as_bytes()),
        column,
        item: no_item(),
    };
    item_key_line(alloc, document, list, line, after(text, column))
}

/// Reads a key of a document.
fn top_entry<'data>(
    alloc: Global,
    document: OpenDocument<'data>,
    line: u64,
    key: TopKey,
    value: &'data str,
) -> Result<Inside<'data>, StubFault>
    ensures { Gives inside_of result (top_entry (open_document_of document.entry) line key value.now) }
{
    match key {
        TopKey::Version => version_entry(document, line, value),
        TopKey::Targets => {
            if document.targets.is_some() {
                return Err(twice(line));
            }
            names_value(alloc, document, None, line, ItemKey::Targets, value)
        }
        TopKey::InstallName => install_name_entry(document, line, value),
        TopKey::CurrentVersion => current_version_entry(document, line, value),
        TopKey::Items(kind) => items_entry(document, line, kind, value),
        TopKey::Unread => skipped_value(alloc, document, None, line, value),
    }
}

/// A document whose next line is a key of its own.
fn at_keys<'data>(document: OpenDocument<'data>) -> Inside<'data>
    ensures { inside_of result ≡ stays (open_document_of document.entry) None Keys }
{
    Inside {
        document,
        list: None,
        mode: Mode::Keys,
    }
}

/// Reads `tbd-version`.
fn version_entry<'data>(
    mut document: OpenDocument<'data>,
    line: u64,
    value: &'data str,
) -> Result<Inside<'data>, StubFault>
    ensures { Gives inside_of result (top_entry (open_document_of document.entry) line TopKey.Version value.now) }
{
    if document.version.is_some() {
        return Err(twice(line));
    }
    match version_value(line, value) {
        Err(fault) => Err(fault),
        Ok(version) => {
            document.version = Some(version);
            Ok(at_keys(document))
        }
    }
}

/// Reads `install-name`.
fn install_name_entry<'data>(
    mut document: OpenDocument<'data>,
    line: u64,
    value: &'data str,
) -> Result<Inside<'data>, StubFault>
    ensures { Gives inside_of result (top_entry (open_document_of document.entry) line TopKey.InstallName value.now) }
{
    if document.install_name.is_some() {
        return Err(twice(line));
    }
    match scalar_value(line, value) {
        Err(fault) => Err(fault),
        Ok(text) => {
            document.install_name = Some(text);
            Ok(at_keys(document))
        }
    }
}

/// Reads `current-version`.
fn current_version_entry<'data>(
    mut document: OpenDocument<'data>,
    line: u64,
    value: &'data str,
) -> Result<Inside<'data>, StubFault>
    ensures { Gives inside_of result
        (top_entry (open_document_of document.entry) line TopKey.CurrentVersion value.now) }
{
    if document.current_version.is_some() {
        return Err(twice(line));
    }
    match scalar_value(line, value) {
        Err(fault) => Err(fault),
        Ok(text) => {
            document.current_version = Some(text);
            Ok(at_keys(document))
        }
    }
}

/// Reads a key whose items stand on the next lines.
fn items_entry<'data>(
    document: OpenDocument<'data>,
    line: u64,
    kind: ItemKind,
    value: &'data str,
) -> Result<Inside<'data>, StubFault>
    ensures { Gives inside_of result
        (top_entry (open_document_of document.entry) line (TopKey.Items kind) value.now) }
{
    if document.has_items(kind) {
        return Err(twice(line));
    }
    if !value.is_empty() {
        return Err(outside(line));
    }
    Ok(Inside {
        document,
        list: None,
        mode: Mode::NoItem(kind, line),
    })
}

/// The documents with this one behind them, as a whole.
#[tactic(auto, unfolding(crate::specs::steps::Reader::with_whole))]
fn with_whole<'data>(
    alloc: Global,
    mut documents: Vec<Document<'data>>,
    document: OpenDocument<'data>,
) -> Result<Vec<Document<'data>>, StubFault>
    ensures { Gives (λ v. map document_of v.items) result
        (with_whole (map document_of documents.entry.items) (open_document_of document.entry)) }
{
    documents.push(document.whole(alloc)?)?;
    Ok(documents)
}

/// Where the reading is inside a document, behind other documents.
fn within<'data>(documents: Vec<Document<'data>>, inside: Inside<'data>) -> State<'data>
    ensures { state_of result ≡ record
        { documents = map document_of documents.entry.items; place = Within (inside_of inside.entry) } }
{
    State {
        documents,
        place: Place::Within(inside),
    }
}

/// Reads a line behind the keys of a document.
#[tactic(auto, unfolding(crate::specs::steps::Reader::top_line))]
fn top_line<'data>(
    alloc: Global,
    documents: Vec<Document<'data>>,
    document: OpenDocument<'data>,
    line: u64,
    text: &'data str,
) -> Result<State<'data>, StubFault>
    ensures { Gives state_of result
        (top_line (map document_of documents.entry.items) (open_document_of document.entry) line text.now) }
{
    if text == HEAD {
        let documents = with_whole(alloc, documents, document)?;
        return Ok(within(documents, at_keys(head_at(line))));
    }
    if text == END {
        let documents = with_whole(alloc, documents, document)?;
        return Ok(State {
            documents,
            place: Place::Outside,
        });
    }
    let entry = entry_at(line, text)?;
    let inside = top_entry(alloc, document, line, top_key(entry.key), entry.value)?;
    Ok(within(documents, inside))
}

/// The items with the last as a whole.
#[tactic(auto, unfolding(crate::specs::steps::Reader::items_with_last))]
fn items_with_last<'data>(
    alloc: Global,
    line: u64,
    list: ItemList<'data>,
) -> Result<Vec<Item<'data>>, StubFault>
    ensures { Gives (λ v. items_of v.items) result (items_with_last line (item_list_of list.entry)) }
{
    let ItemList {
        kind,
        mut items,
        dash: _,
        column: _,
        item,
    } = list;
    items.push(item.whole(alloc, line, kind)?)?;
    Ok(items)
}

/// Reads a line behind the keys of an item.
#[tactic(auto, unfolding(crate::specs::steps::Reader::item_line))]
fn item_line<'data>(
    alloc: Global,
    documents: Vec<Document<'data>>,
    document: OpenDocument<'data>,
    list: ItemList<'data>,
    line: u64,
    text: &'data str,
) -> Result<State<'data>, StubFault>
    ensures { Gives state_of result
        (item_line (map document_of documents.entry.items) (open_document_of document.entry) (item_list_of list.entry)
        line text.now) }
{
    let front = indent(text.as_bytes());
    let kind = list.kind;
    if has_dash(text) && front == list.dash {
        let items = items_with_last(alloc, document.line, list)?;
        let inside = first_line(alloc, document, kind, items, line, text)?;
        return Ok(within(documents, inside));
    }
    if front == 0 {
        let items = items_with_last(alloc, document.line, list)?;
        return top_line(
            alloc,
            documents,
            document.with_items(kind, items),
            line,
            text,
        );
    }
    if front != list.column {
        return Err(outside(line));
    }
    let inside = item_key_line(alloc, document, list, line, unspaced(text))?;
    Ok(within(documents, inside))
}

/// Reads a line where a key may stand.
fn key_line<'data>(
    alloc: Global,
    documents: Vec<Document<'data>>,
    document: OpenDocument<'data>,
    list: Option<ItemList<'data>>,
    line: u64,
    text: &'data str,
) -> Result<State<'data>, StubFault>
    ensures { Gives state_of result
        (key_line (map document_of documents.entry.items) (open_document_of document.entry)
        (option_map item_list_of list.entry) line text.now) }
{
    match list {
        None => top_line(alloc, documents, document, line, text),
        Some(list) => item_line(alloc, documents, document, list, line, text),
    }
}

/// Whether a line belongs to the skipped value of a key.
fn belongs<'data>(list: &Option<ItemList<'data>>, text: &str) -> bool
    ensures { result ≡ belongs (option_map item_list_of list.now) text.now }
{
    match list {
        None => belongs_to_top(text),
        Some(list) => list.column < indent(text.as_bytes()),
    }
}

/// Reads a line under a skipped value: it belongs to the value, or a key may stand there.
fn skipped_line<'data>(
    alloc: Global,
    documents: Vec<Document<'data>>,
    document: OpenDocument<'data>,
    list: Option<ItemList<'data>>,
    line: u64,
    text: &'data str,
) -> Result<State<'data>, StubFault>
    ensures { Gives state_of result
        (inside_line (map document_of documents.entry.items) (open_document_of document.entry)
        (option_map item_list_of list.entry) Skipped line text.now) }
{
    if belongs(&list, text) {
        let mode = Mode::Skipped;
        let inside = Inside {
            document,
            list,
            mode,
        };
        return Ok(within(documents, inside));
    }
    key_line(alloc, documents, document, list, line, text)
}

/// Reads a line inside a document.
fn inside_line<'data>(
    alloc: Global,
    documents: Vec<Document<'data>>,
    inside: Inside<'data>,
    line: u64,
    text: &'data str,
) -> Result<State<'data>, StubFault>
    ensures { Gives state_of result
        (content_line (map document_of documents.entry.items) (Within (inside_of inside.entry)) line text.now) }
{
    let Inside {
        document,
        list,
        mode,
    } = inside;
    match mode {
        Mode::Keys => key_line(alloc, documents, document, list, line, text),
        Mode::Skipped => skipped_line(alloc, documents, document, list, line, text),
        Mode::Names(names) => {
            if text == END {
                return Err(outside(line));
            }
            let inside = names_line(document, list, line, names, text)?;
            Ok(within(documents, inside))
        }
        Mode::NoItem(kind, _) => {
            let inside = first_line(alloc, document, kind, Vec::new(alloc), line, text)?;
            Ok(within(documents, inside))
        }
    }
}

/// Reads a line that has content.
fn content_line<'data>(
    alloc: Global,
    state: State<'data>,
    line: u64,
    text: &'data str,
) -> Result<State<'data>, StubFault>
    ensures { Gives state_of result
        (content_line (map document_of state.entry.documents.items) (place_of state.entry.place) line text.now) }
{
    let State { documents, place } = state;
    match place {
        Place::Within(inside) => inside_line(alloc, documents, inside, line, text),
        Place::Outside => {
            if text == HEAD {
                Ok(within(documents, at_keys(head_at(line))))
            } else {
                Err(outside(line))
            }
        }
    }
}

/// Reads a line.
#[tactic(auto, unfolding(crate::specs::steps::Reader::line_step))]
fn line_step<'data>(
    alloc: Global,
    state: State<'data>,
    line: u64,
    text: &'data str,
) -> Result<State<'data>, StubFault>
    ensures { Gives state_of result (line_step (state_of state.entry) line text.now) }
{
    if has_barred(text.as_bytes()) {
        return Err(outside(line));
    }
    if is_passed(text.as_bytes()) {
        return Ok(state);
    }
    content_line(alloc, state, line, text)
}

/// The documents, where the text ends behind the keys of one.
fn ended_document<'data>(
    alloc: Global,
    documents: Vec<Document<'data>>,
    document: OpenDocument<'data>,
    list: Option<ItemList<'data>>,
) -> Result<Vec<Document<'data>>, StubFault>
    ensures { Gives (λ v. map document_of v.items) result
        (ended_document (map document_of documents.entry.items) (open_document_of document.entry)
        (option_map item_list_of list.entry)) }
{
    match list {
        None => with_whole(alloc, documents, document),
        Some(list) => {
            let kind = list.kind;
            let items = items_with_last(alloc, document.line, list)?;
            with_whole(alloc, documents, document.with_items(kind, items))
        }
    }
}

/// The text ends inside the flow list.
fn cut_short<'data>(names: NameList<'data>) -> StubFault
    ensures { result ≡ StubFault.Rule names.entry.began StubRule.S1 }
{
    let NameList {
        began,
        key: _,
        part: _,
    } = names;
    outside(began)
}

/// The documents, where the text ends inside one.
fn ended_inside<'data>(
    alloc: Global,
    documents: Vec<Document<'data>>,
    inside: Inside<'data>,
) -> Result<Vec<Document<'data>>, StubFault>
    ensures { Gives (λ v. map document_of v.items) result
        (ended (map document_of documents.entry.items) (Within (inside_of inside.entry))) }
{
    let Inside {
        document,
        list,
        mode,
    } = inside;
    match mode {
        Mode::Keys | Mode::Skipped => ended_document(alloc, documents, document, list),
        Mode::Names(names) => Err(cut_short(names)),
        Mode::NoItem(_, line) => Err(outside(line)),
    }
}

/// The documents, where the text ends.
fn ended<'data>(alloc: Global, state: State<'data>) -> Result<Vec<Document<'data>>, StubFault>
    ensures { Gives (λ v. map document_of v.items) result
        (ended (map document_of state.entry.documents.items) (place_of state.entry.place)) }
{
    let State { documents, place } = state;
    match place {
        Place::Outside => Ok(documents),
        Place::Within(inside) => ended_inside(alloc, documents, inside),
    }
}

/// The documents of a text.
#[tactic(auto, unfolding(crate::specs::steps::Reader::documents_of))]
pub fn documents_of<'data>(
    alloc: Global,
    text: &'data str,
) -> Result<Vec<Document<'data>>, StubFault>
    ensures { Gives (λ v. map document_of v.items) result (documents_of text.now) }
{
    let mut state = State {
        documents: Vec::new(alloc),
        place: Place::Outside,
    };
    let mut number = 0u64;
    for line in text.lines() {
        number += 1;
        state = line_step(alloc, state, number, line)?;
    }
    ended(alloc, state)
}
