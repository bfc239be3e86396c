//! What the loader says of a file, and what it finds in it.

use macho_case_files::{Line, Unread, note, number, number_of, rest_of};
use macho_loader::{Loaded, LoadedFixup};
use std::alloc::{AllocError, Global};
use std::fmt::Write;

// By which rule the loader refuses a file, and at which place; empty where it accepts the file.
fn refusal_of(alloc: Global, bytes: &[u8]) -> Result<String, AllocError> {
    match Loaded::accept(bytes) {
        Ok(_loaded) => Ok(String::new(alloc)),
        Err(fault) => {
            let (rule, place) = (fault.rule, fault.place);
            format!(in alloc; "{rule:?} at {place}")
        }
    }
}

// What the loader makes of the word at an address, as a text.
fn fixup_text(alloc: Global, fixup: Option<LoadedFixup<'_>>) -> Result<String, AllocError> {
    match fixup {
        Some(LoadedFixup::Rebase { value }) => format!(in alloc; "moves with 0x{value:x}"),
        Some(
            LoadedFixup::Bind {
                library,
                name,
                addend,
            },
        ) => {
            let name = std::str::from_utf8(name).unwrap_or("?");
            format!(in alloc; "{name} of {library}, plus {addend}")
        }
        None => String::from_str(alloc, "nothing"),
    }
}

// Where the segments begin: each with its address and its file offset.
fn segments_text(alloc: Global, loaded: &Loaded<'_>) -> Result<String, AllocError> {
    let mut text = String::new(alloc);
    let mut lead = "";
    for number in 0..loaded.num_segments() {
        if let Some(segment) = loaded.segment(number) {
            let (address, offset) = (segment.vmaddr, segment.fileoff);
            write!(text, "{lead}0x{address:x}:0x{offset:x}")?;
            lead = " ";
        }
    }
    Ok(text)
}

// What the loader finds under a word: its base, its segments, or what it makes of the word at an address.
fn text_under(alloc: Global, loaded: &Loaded<'_>, word: &str) -> Result<String, Unread> {
    match word {
        "base" => Ok(format!(in alloc; "0x{:x}", loaded.base())?),
        "segments" => Ok(segments_text(alloc, loaded)?),
        _ => {
            let address = number(word, u64::MAX)?;
            Ok(fixup_text(alloc, loaded.fixup_at(address))?)
        }
    }
}

// Notes what the loader finds, where it finds something else than is wanted.
fn check_found(
    alloc: Global,
    found: &mut String,
    case: &[Line<'_>],
    loaded: &Loaded<'_>,
) -> Result<(), Unread> {
    for line in case {
        if line.key == "finds" {
            let (word, want) = line.rest.split_once(' ').unwrap_or((line.rest, ""));
            let came = text_under(alloc, loaded, word)?;
            note(alloc, found, word, want.as_bytes(), came.as_bytes())?;
        }
    }
    Ok(())
}

// The same of a file, which is accepted where the case wants that something is found.
fn check_finds(
    alloc: Global,
    found: &mut String,
    case: &[Line<'_>],
    bytes: &[u8],
) -> Result<(), Unread> {
    if rest_of(case, "finds").is_none() {
        return Ok(());
    }
    match Loaded::accept(bytes) {
        Ok(loaded) => check_found(alloc, found, case, &loaded),
        Err(_fault) => Ok(found.push_str("the loader finds nothing in what it refuses\n")?),
    }
}

// Notes what the loader says of a file, where it says something else than is wanted.
fn check_loaded(
    alloc: Global,
    found: &mut String,
    want: &str,
    bytes: &[u8],
) -> Result<(), AllocError> {
    let came = refusal_of(alloc, bytes)?;
    note(alloc, found, "loader", want.as_bytes(), came.as_bytes())
}

// What the loader is to say.
fn said<'a>(case: &[Line<'a>]) -> &'a str {
    rest_of(case, "loader_says").unwrap_or("")
}

/// Notes what the loader says of a file that it reads instead of a run's image, and finds in it, where that isn't as wanted.
pub(crate) fn check_read(
    alloc: Global,
    found: &mut String,
    case: &[Line<'_>],
    bytes: &[u8],
) -> Result<(), Unread> {
    check_loaded(alloc, found, said(case), bytes)?;
    check_finds(alloc, found, case, bytes)
}

/// Notes it of the image, which is to be accepted, and of its first bytes, where the case cuts it.
pub(crate) fn check_loads(
    alloc: Global,
    found: &mut String,
    case: &[Line<'_>],
    image: &[u8],
) -> Result<(), Unread> {
    check_loaded(alloc, found, "", image)?;
    check_finds(alloc, found, case, image)?;
    if let Some(length) = number_of(case, "cut_to")? {
        let cut = image.get(..length as usize).unwrap_or(image);
        check_loaded(alloc, found, said(case), cut)?;
    }
    Ok(())
}
