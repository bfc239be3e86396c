//! The entry of a line: what stands in front of a `#`, without the blanks at both ends.
ghost use Rattle.std.specs.Prelude.{◌≡◌};
ghost use Rattle.std.specs.List.{before_first};
ghost use Rattle.macho_model.specs.ExportLists.{without_front};
ghost use Rattle.macho_export_lists.specs.steps.Lines.{without_back, is_hash, HASH, is_blank, entry_of, is_pattern};

use memchr::memchr;

/// Whether a byte is a space, a tab or a carriage return.
fn is_blank(byte: u8) -> bool
    ensures { result ≡ is_blank byte }
{
    byte == b' ' || byte == b'\t' || byte == b'\r'
}

/// A text without the blanks at its front.
fn without_front(text: &[u8]) -> &[u8]
    ensures { result.now ≡ without_front text.now }
{
    for at in 0..text.len() {
        if !is_blank(text[at]) {
            return &text[at..];
        }
    }
    &[]
}

/// A text without the blanks at its end.
fn without_back(text: &[u8]) -> &[u8]
    ensures { result.now ≡ without_back text.now }
{
    for skipped in 0..text.len() {
        let end = text.len() - skipped;
        if !is_blank(text[end - 1]) {
            return &text[..end];
        }
    }
    &[]
}

/// What stands in front of the first `#` of a line, all of it where there is none.
fn without_comment(line: &[u8]) -> &[u8]
    ensures { result.now ≡ before_first is_hash line.now }
{
    match memchr(b'#', line) {
        Some(at) => &line[..at],
        None => line,
    }
}

/// The entry of a line, empty where the line has none.
pub(crate) fn entry_of(line: &[u8]) -> &[u8]
    ensures { result.now ≡ entry_of line.now }
{
    without_back(without_front(without_comment(line)))
}

/// Whether an entry is a pattern: it has a star.
pub(crate) fn is_pattern(entry: &[u8]) -> bool
    ensures { result ≡ is_pattern entry.now }
{
    memchr(b'*', entry).is_some()
}
