//! Paths and names that are written into the image: the last part of a path, and whether they can be written.
ghost use Rattle.std.specs.Prelude.{◌≡◌, length, ◌==◌, ◌||◌, codes};
ghost use Rattle.std.specs.Str.{bytes_eq};
ghost use Rattle.macho_model.specs.Faults.{last_part, has_zero};
ghost use Rattle.macho_linker.specs.steps.Paths.{IsBehindLast};

/// What separates the parts of a path.
const SLASH: u8 = b'/';

/// The place behind the last byte that is a slash, or behind the last that is none.
fn behind_last(path: &[u8], slash: bool) -> usize
    ensures { IsBehindLast path.now (length path.now) slash result }
{
    let mut end = 0;
    for place in 0..path.len() {
        if (path[place] == SLASH) == slash {
            end = place + 1;
        }
    }
    end
}

/// The last part of a path, without the slashes at its end.
pub fn last_part(path: &[u8]) -> &[u8]
    ensures { result.now ≡ last_part path.now }
{
    let named = &path[..behind_last(path, false)];
    &named[behind_last(named, true)..]
}

/// Whether a NUL stands in a text.
pub(crate) fn has_nul(text: &[u8]) -> bool
    ensures { result ≡ has_zero text.now }
{
    text.contains(&0)
}

/// Whether a path has no file name: an empty last part, or one that is a directory's own name.
pub(crate) fn has_no_file_name(path: &[u8]) -> bool
    ensures { result ≡ ((length (last_part path.now) == 0) || bytes_eq (last_part path.now) (codes ".")
        || bytes_eq (last_part path.now) (codes "..")) }
{
    let name = last_part(path);
    name.is_empty() || name == b".".as_slice() || name == b"..".as_slice()
}
