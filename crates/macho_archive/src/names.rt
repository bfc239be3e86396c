//! The names of entries.
ghost use Rattle.std.specs.Prelude.{◌≡◌, ◌≤◌, ◌||◌, true, length, drop, IfOk, IfErr, option_copied};
ghost use Rattle.macho_archive.specs.Entries.{is_special, is_symbol_table, is_table_of_names, is_bsd, is_gnu, bsd_name, gnu_name, first_line, without_slash};
ghost use Rattle.macho_archive.specs.steps.Names.{IsWide, IsNamed, IsUnnamed};

use crate::fault::ArchiveRule;
use crate::fields::{decimal, trimmed};
use memchr::memchr;

/// What BSD's long names begin with.
const BSD: &[u8] = b"#1/";

/// What ends the names of GNU's `ar`, and begins their offsets.
const SLASH: &[u8] = b"/";

/// The name of the table of names.
const NAMES: &[u8] = b"//";

/// The name of GNU's table of symbols, of 64 bits.
const WIDE_SYMBOLS: &[u8] = b"/SYM64/";

/// The names of BSD's tables of symbols, of 32 and of 64 bits, as they come or sorted by their names.
const SYMBOLS: &[u8] = b"__.SYMDEF";

const SORTED: &[u8] = b"__.SYMDEF SORTED";

const SYMBOLS_64: &[u8] = b"__.SYMDEF_64";

const SORTED_64: &[u8] = b"__.SYMDEF_64 SORTED";

/// The name of an entry, and how many bytes of its contents it takes.
#[derive(Clone, Copy)]
pub(crate) struct Named<'data> {
    pub(crate) name: &'data [u8],
    pub(crate) width: usize,
}

/// Whether an entry is the table of names.
pub(crate) fn is_table_of_names(stem: &[u8]) -> bool
    ensures { result ≡ is_table_of_names stem.now }
{
    stem == NAMES
}

/// Whether an entry has no name of its own.
#[tactic(auto, unfolding(crate::specs::Entries::is_special))]
fn is_special(stem: &[u8]) -> bool
    ensures { result ≡ is_special stem.now }
{
    stem == SLASH || is_table_of_names(stem) || stem == WIDE_SYMBOLS
}

/// Whether a name is that of a table of symbols.
#[tactic(auto, unfolding(crate::specs::Entries::is_symbol_table))]
fn is_symbol_table(name: &[u8]) -> bool
    ensures { result ≡ is_symbol_table name.now }
{
    name == SYMBOLS || name == SORTED || name == SYMBOLS_64 || name == SORTED_64
}

/// Whether an entry is no member, by the field of its name and its name.
pub(crate) fn is_passed(stem: &[u8], name: &[u8]) -> bool
    ensures { result ≡ (is_special stem.now || is_symbol_table name.now) }
{
    is_special(stem) || is_symbol_table(name)
}

/// Whether a name stands in the contents.
#[tactic(auto, unfolding(crate::specs::Entries::is_bsd))]
fn is_bsd(stem: &[u8]) -> bool
    ensures found { result ≡ is_bsd stem.now }
    ensures long { result ≡ true → 3 ≤ length stem.now }
{
    stem.starts_with(BSD)
}

/// Whether a name stands in the table of names.
#[tactic(auto, unfolding(crate::specs::Entries::is_gnu))]
fn is_gnu(stem: &[u8]) -> bool
    ensures found { result ≡ is_gnu stem.now }
    ensures long { result ≡ true → 1 ≤ length stem.now }
{
    stem.starts_with(SLASH) && !is_special(stem)
}

/// A text without the `/` that it ends with.
#[tactic(auto, unfolding(crate::specs::Entries::without_slash))]
fn without_slash(text: &[u8]) -> Option<&[u8]>
    ensures { option_copied result ≡ without_slash text.now }
{
    text.strip_suffix(SLASH)
}

/// The line that a text begins with.
#[tactic(auto, unfolding(crate::specs::Entries::first_line))]
fn first_line(text: &[u8]) -> Option<&[u8]>
    ensures { option_copied result ≡ first_line text.now }
{
    let end = memchr(b'\n', text)?;
    Some(&text[..end])
}

/// The line that begins at an offset of a text.
fn line_at(text: &[u8], offset: u64) -> Option<&[u8]>
    ensures { option_copied result ≡ first_line (drop offset text.now) }
{
    if offset > text.len() as u64 {
        return None;
    }
    first_line(&text[offset as usize..])
}

/// The name that stands in the contents.
#[tactic(auto, unfolding(crate::specs::Entries::bsd_name, crate::specs::Entries::bsd_width))]
fn bsd_name<'data>(stem: &[u8], contents: &'data [u8]) -> Option<Named<'data>>
    requires long { 3 ≤ length stem.now }
    requires short { length stem.now ≤ 16 }
    ensures { IsWide stem.now contents.now result }
{
    let width = decimal(&stem[3..])?;
    if width > contents.len() as u64 {
        return None;
    }
    let width = width as usize;
    Some(Named {
        name: trimmed(&contents[..width], 0),
        width,
    })
}

/// The name that stands in the table of names.
#[tactic(auto, unfolding(crate::specs::Entries::gnu_name))]
fn gnu_name<'data>(stem: &[u8], table: &'data [u8]) -> Option<&'data [u8]>
    requires long { 1 ≤ length stem.now }
    requires short { length stem.now ≤ 16 }
    ensures { option_copied result ≡ gnu_name stem.now table.now }
{
    let offset = decimal(&stem[1..])?;
    let line = line_at(table, offset)?;
    without_slash(line)
}

/// The name of an entry, by the field of its name, its contents, and the table of names in front of it.
///
/// # Errors
///
/// The rule on long names that is broken.
#[tactic(auto, unfolding(crate::specs::Entries::name_in, crate::specs::Entries::width_in))]
pub(crate) fn name_in<'data>(
    stem: &'data [u8],
    contents: &'data [u8],
    table: &'data [u8],
) -> Result<Named<'data>, ArchiveRule>
    requires { length stem.now ≤ 16 }
    ensures found { IfOk result (IsNamed stem.now contents.now table.now) }
    ensures why { IfErr result (IsUnnamed stem.now contents.now table.now) }
{
    if is_bsd(stem) {
        return match bsd_name(stem, contents) {
            Some(named) => Ok(named),
            None => Err(ArchiveRule::A5),
        };
    }
    if is_gnu(stem) {
        return match gnu_name(stem, table) {
            Some(name) => Ok(Named { name, width: 0 }),
            None => Err(ArchiveRule::A6),
        };
    }
    let name = match without_slash(stem) {
        Some(name) => name,
        None => stem,
    };
    Ok(Named { name, width: 0 })
}
