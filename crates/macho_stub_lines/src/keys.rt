//! Keys and their values on a line.
//!
//! ```text
//! install-name:    '/usr/lib/libMain.dylib'   # a comment
//! ```

ghost use Rattle.std.specs.Prelude.{◌≡◌, ◌≤◌, ◌<◌, ◌+◌, ◌-◌, ℕ, length, drop, slice_index, IfOk};
ghost use Rattle.std.specs.List.{prefix_len};
ghost use Rattle.std.specs.Char.{is_ascii_digit};
ghost use Rattle.macho_stub_lines.specs.Bytes.{unspaced};
ghost use Rattle.macho_stub_lines.specs.Faults.{Gives};
ghost use Rattle.macho_stub_lines.specs.Keys.{entry_of, entry_behind, entry_at, scalar_value, number_of, version_value, is_zero, top_key, names_key, has_weak, item_key};

use crate::bytes::{after, byte_at, indent, is_tail, key_len};
use crate::fault::StubFault;
use crate::list::outside;
use crate::scalar::scalar_front;

/// The keys of a document whose value is a list of items.
#[derive(Clone, Copy)]
pub enum ItemKind {
    /// `reexported-libraries`
    Libraries,
    /// `exports`
    Exports,
    /// `reexports`
    Reexports,
}

/// The keys of an item.
#[derive(Clone, Copy)]
pub enum ItemKey {
    /// `targets`
    Targets,
    /// `libraries` or `symbols`
    Names,
    /// `weak-symbols`
    WeakNames,
    /// A key that is skipped with its value.
    Unread,
}

/// The keys of a document.
#[derive(Clone, Copy)]
pub enum TopKey {
    /// `tbd-version`
    Version,
    /// `targets`
    Targets,
    /// `install-name`
    InstallName,
    /// `current-version`
    CurrentVersion,
    /// A key whose value is a list of items.
    Items(ItemKind),
    /// A key that is skipped with its value.
    Unread,
}

/// A key, and the value that stands behind it on its line, if one does.
#[derive(Clone, Copy)]
pub struct KeyLine<'data> {
    pub key: &'data str,
    pub value: &'data str,
}

/// The text from its first byte that is no space.
#[tactic(auto, unfolding(crate::specs::Bytes::unspaced))]
pub fn unspaced(text: &str) -> &str
    ensures { result.now ≡ unspaced text.now }
{
    after(text, indent(text.as_bytes()))
}

/// The key with what stands behind its colon.
fn behind_key<'data>(
    line: u64,
    key: &'data str,
    rest: &'data str,
) -> Result<KeyLine<'data>, StubFault>
    ensures { Gives entry_of result (entry_behind line key.now rest.now) }
{
    if is_tail(rest.as_bytes()) {
        return Ok(KeyLine { key, value: "" });
    }
    if byte_at(rest, 0) == b' ' {
        return Ok(KeyLine {
            key,
            value: unspaced(rest),
        });
    }
    Err(outside(line))
}

/// The key at the front of the text, with its value.
#[tactic(auto, unfolding(crate::specs::Keys::entry_at))]
pub fn key_line<'data>(line: u64, text: &'data str) -> Result<KeyLine<'data>, StubFault>
    ensures { Gives entry_of result (entry_at line text.now) }
{
    let len = key_len(text.as_bytes());
    if len == 0 || byte_at(text, len) != b':' {
        return Err(outside(line));
    }
    let (key, _rest) = text.split_at(len);
    behind_key(line, key, after(text, len + 1))
}

/// The scalar that the value is.
#[tactic(auto, unfolding(crate::specs::Keys::scalar_value))]
pub fn scalar_value<'data>(line: u64, value: &'data str) -> Result<&'data str, StubFault>
    ensures { Gives (λ text. text.now) result (scalar_value line value.now) }
{
    match scalar_front(value) {
        None => Err(outside(line)),
        Some(scalar) => {
            if is_tail(after(value, scalar.width).as_bytes()) {
                Ok(scalar.text)
            } else {
                Err(outside(line))
            }
        }
    }
}

fn digits_len(bytes: &[u8]) -> usize
    ensures { result ≡ prefix_len is_ascii_digit bytes.now }
{
    bytes
        .iter()
        .take_while(|byte| byte.is_ascii_digit())
        .count()
}

fn zeros_len(bytes: &[u8]) -> usize
    ensures { result ≡ prefix_len is_zero bytes.now }
{
    bytes.iter().take_while(|byte| **byte == b'0').count()
}

/// The number that the value is, as its digits without zeros in front.
#[tactic(auto, unfolding(crate::specs::Keys::version_value, crate::specs::Keys::number_of))]
pub fn version_value<'data>(line: u64, value: &'data str) -> Result<&'data str, StubFault>
    ensures { Gives (λ text. text.now) result (version_value line value.now) }
{
    let len = digits_len(value.as_bytes());
    if len == 0 {
        return Err(outside(line));
    }
    let (digits, rest) = value.split_at(len);
    if !is_tail(rest.as_bytes()) {
        return Err(outside(line));
    }
    Ok(after(digits, zeros_len(digits.as_bytes())))
}

/// Which key of a document it is.
#[tactic(auto, unfolding(crate::specs::Keys::top_key))]
pub fn top_key(key: &str) -> TopKey
    ensures { result ≡ top_key key.now }
{
    match key {
        "tbd-version" => TopKey::Version,
        "targets" => TopKey::Targets,
        "install-name" => TopKey::InstallName,
        "current-version" => TopKey::CurrentVersion,
        "reexported-libraries" => TopKey::Items(ItemKind::Libraries),
        "exports" => TopKey::Items(ItemKind::Exports),
        "reexports" => TopKey::Items(ItemKind::Reexports),
        _ => TopKey::Unread,
    }
}

fn names_key(kind: ItemKind) -> &'static str
    ensures { result.now ≡ names_key kind }
{
    match kind {
        ItemKind::Libraries => "libraries",
        ItemKind::Exports | ItemKind::Reexports => "symbols",
    }
}

fn has_weak(kind: ItemKind) -> bool
    ensures { result ≡ has_weak kind }
{
    match kind {
        ItemKind::Libraries => false,
        ItemKind::Exports | ItemKind::Reexports => true,
    }
}

/// Which key of an item in such a list it is.
#[tactic(auto, unfolding(crate::specs::Keys::item_key))]
pub fn item_key(kind: ItemKind, key: &str) -> ItemKey
    ensures { result ≡ item_key kind key.now }
{
    if key == "targets" {
        return ItemKey::Targets;
    }
    if key == names_key(kind) {
        return ItemKey::Names;
    }
    if has_weak(kind) && key == "weak-symbols" {
        return ItemKey::WeakNames;
    }
    ItemKey::Unread
}
