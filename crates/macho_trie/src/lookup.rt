//! Look-up of a name in an exports trie.
//!
//! A node is its terminal size, so many bytes of terminal part, the number of its edges, and per edge a label, a NUL and the
//! place of the child. The trie of `_main` at 0x1234:
//!
//!     00              no terminal part
//!     01              one edge
//!     5f 6d 61 69 6e 00   `_main`
//!     09              its child at 9
//!     03              three bytes of terminal part
//!     00 b4 24        flags 0, address 0x1234
//!     00              no edge
ghost use Rattle.std.specs.Prelude.{◌≡◌, ℕ, ◌+◌, ◌<◌, ◌≤◌, ◌-◌, IfSome, option_copied, Some, List, length, drop, MatchOption, None, slice_range};
ghost use Rattle.std.specs.Option.{option_map};
ghost use Rattle.macho_trie.specs.Exports.{exported_of, Exported};
ghost use Rattle.macho_trie.specs.Nodes.{export_in, ended_name, edge_at, edges_at, terminal_at, node_at};
ghost use Rattle.macho_trie.specs.Lookup.{trie_finds};
ghost use Rattle.macho_trie.specs.steps.Lookup.{Visits, IsStep, step_among, noted};

use macho_records::read_uleb;
use memchr::memchr;

/// The bit of the flags that makes an export a reexport (`EXPORT_SYMBOL_FLAGS_REEXPORT`).
pub(crate) const REEXPORT: u64 = 8;

/// What an exports trie says of a name.
#[derive(Clone, Copy)]
pub enum Export<'a> {
    /// An offset from the image's base, or a value.
    Value {
        flags: u64,
        address: u64,
    },
    /// A name of a library, by the library's number from 1. An empty name is the same name there.
    Reexport {
        flags: u64,
        ordinal: u64,
        name: &'a [u8],
    },
}

/// What stands for a name in a trie.
///
/// None where the name isn't there, or where the way meets bytes that are no node. Any bytes and any name are taken; a
/// step takes at least one byte of the name, so the way ends.
pub fn trie_lookup<'a>(bytes: &'a [u8], name: &[u8]) -> Option<Export<'a>>
    ensures found { IfSome result (λ x. trie_finds bytes.now name.now (exported_of x)) }
    ensures only { (x : Exported) → trie_finds bytes.now name.now x → option_map exported_of result ≡ Some x }
{
    let mut at = 0;
    let mut rest = name;
    'nodes: loop {
        let (export, step) = visit(bytes, at, rest)?;
        if rest.is_empty() {
            return export;
        }
        let (child, length) = step?;
        at = child as usize;
        rest = &rest[length..];
    }
}

/// What a node exports, and the child to go on to with the length of the label that is taken; None where there is no node.
fn visit<'a>(
    bytes: &'a [u8],
    at: usize,
    rest: &[u8],
) -> Option<(Option<Export<'a>>, Option<(u64, usize)>)>
    ensures seen { MatchOption result (node_at bytes.now at ≡ None) (λ v. Visits bytes.now at rest.now (option_map exported_of v.0) v.1) }
    ensures part { IfSome result (λ v. IfSome v.1 (IsStep rest.now)) }
{
    let (export, end) = read_terminal(bytes, at)?;
    let step = first_step(bytes, end + 1, bytes[end], rest)?;
    Some((export, step))
}

/// What a node exports, and the place after its terminal part.
pub(crate) fn read_terminal(bytes: &[u8], at: usize) -> Option<(Option<Export<'_>>, usize)>
    ensures is { option_map (λ t. (option_map exported_of t.0, t.1)) result ≡ terminal_at bytes.now at }
    ensures within { IfSome result (λ t. t.1 < length bytes.now) }
{
    let (size, start) = read_uleb(bytes, at)?;
    let size = size as usize;
    if size >= bytes.len() - start {
        return None;
    }
    let end = start + size;
    if size == 0 {
        return Some((None, end));
    }
    let export = read_export(&bytes[start..end])?;
    Some((Some(export), end))
}

/// The step along the first of so many edges that may be taken; None where one of them isn't whole.
fn first_step(bytes: &[u8], at: usize, count: u8, rest: &[u8]) -> Option<Option<(u64, usize)>>
    requires { at ≤ length bytes.now }
    ensures is { result ≡ option_map (step_among rest.now) (edges_at count bytes.now at) }
    ensures part { IfSome result (λ s. IfSome s (IsStep rest.now)) }
{
    let mut step = None;
    let mut place = at;
    for edge in 0..count {
        let (label, child, next) = read_edge(bytes, place)?;
        step = note(step, label, child, rest);
        place = next;
    }
    Some(step)
}

/// The step that is known, or the one along this edge.
fn note(known: Option<(u64, usize)>, label: &[u8], child: u64, rest: &[u8]) -> Option<(u64, usize)>
    ensures is { result ≡ noted rest.now known (record { label = label.now; child = child }) }
    ensures part { IfSome known (IsStep rest.now) → IfSome result (IsStep rest.now) }
{
    if known.is_none() && !label.is_empty() && rest.starts_with(label) {
        Some((child, label.len()))
    } else {
        known
    }
}

/// An edge's label, the place of its child, and the place after the edge.
pub(crate) fn read_edge(bytes: &[u8], at: usize) -> Option<(&[u8], u64, usize)>
    requires { at ≤ length bytes.now }
    ensures is { option_map (λ e. (record { label = e.0.now; child = e.1 }, e.2)) result ≡ edge_at bytes.now at }
    ensures within { IfSome result (λ e. e.2 ≤ length bytes.now) }
{
    let label = read_name(&bytes[at..])?;
    let (child, next) = read_uleb(bytes, at + label.len() + 1)?;
    Some((label, child, next))
}

/// What a terminal part says; None where it isn't whole.
fn read_export(part: &[u8]) -> Option<Export<'_>>
    ensures { option_map exported_of result ≡ export_in part.now }
{
    let (flags, at) = read_uleb(part, 0)?;
    let (number, at) = read_uleb(part, at)?;
    if flags / REEXPORT % 2 == 0 {
        return Some(Export::Value {
            flags,
            address: number,
        });
    }
    let name = read_name(&part[at..])?;
    Some(Export::Reexport {
        flags,
        ordinal: number,
        name,
    })
}

/// The bytes before the first NUL; None where there is none.
fn read_name(bytes: &[u8]) -> Option<&[u8]>
    ensures { option_copied result ≡ ended_name bytes.now }
{
    let end = memchr(0, bytes)?;
    Some(&bytes[..end])
}
