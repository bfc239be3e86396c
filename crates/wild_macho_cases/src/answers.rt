//! What a run answers, as texts.

use std::alloc::{AllocError, Global};
use wild_macho::{Fault, InputKind, LinkError, LinkedImage};

// A number behind a word.
fn numbered(alloc: Global, word: &str, number: u64) -> Result<String, AllocError> {
    format!(in alloc; "{word} {number}")
}

// The name of what a file begins as.
fn kind_name(kind: InputKind) -> &'static str {
    match kind {
        InputKind::Archive => ", archive",
        InputKind::Universal => ", universal",
        InputKind::Other => ", other",
    }
}

// Whether a refusal keeps a placement, as a text.
fn placement_text(is_kept: bool) -> &'static str {
    if is_kept {
        "a placement"
    } else {
        "no placement"
    }
}

// What a refusal of a link keeps beside its line.
fn kept_of_link(alloc: Global, error: &LinkError) -> Result<String, AllocError> {
    match error {
        LinkError::BadUnwind { section, .. } => numbered(alloc, "section", *section as u64),
        LinkError::FixupPlace { placement, .. } | LinkError::ImageTooLarge { placement } => {
            String::from_str(alloc, placement_text(placement.is_some()))
        }
        _ => Ok(String::new(alloc)),
    }
}

// What a word of no input keeps.
fn kept_of_kind(alloc: Global, word: u64, kind: InputKind) -> Result<String, AllocError> {
    let mut text = numbered(alloc, "word", word)?;
    text.push_str(kind_name(kind))?;
    Ok(text)
}

/// What a fault keeps beside its line.
pub(crate) fn kept_of(alloc: Global, fault: Option<&Fault>) -> Result<String, AllocError> {
    match fault {
        Some(Fault::MissingFile { word }) | Some(Fault::Read { word }) => {
            numbered(alloc, "word", *word as u64)
        }
        Some(Fault::UnknownKind { word, kind }) => kept_of_kind(alloc, *word as u64, *kind),
        Some(Fault::Link { error }) => kept_of_link(alloc, error),
        _ => Ok(String::new(alloc)),
    }
}

// Adds a line of a text and a name.
fn add_line(text: &mut Vec<u8>, lead: &str, name: &[u8]) -> Result<(), AllocError> {
    text.extend_from_slice(lead.as_bytes())?;
    text.extend_from_slice(b" ")?;
    text.extend_from_slice(name)?;
    text.extend_from_slice(b"\n")
}

// Adds the libraries of an image.
fn add_libraries(text: &mut Vec<u8>, image: &LinkedImage) -> Result<(), AllocError> {
    for name in &image.libraries {
        add_line(text, "library", name)?;
    }
    Ok(())
}

// Adds an import of the library of that number.
fn add_import(
    alloc: Global,
    text: &mut Vec<u8>,
    library: u64,
    name: &[u8],
) -> Result<(), AllocError> {
    let lead = numbered(alloc, "import", library)?;
    add_line(text, lead.as_str(), name)
}

// Adds the imports of an image.
fn add_imports(alloc: Global, text: &mut Vec<u8>, image: &LinkedImage) -> Result<(), AllocError> {
    for import in &image.imports {
        add_import(alloc, text, import.library as u64, &import.name)?;
    }
    Ok(())
}

// Adds the exports of an image.
fn add_exports(text: &mut Vec<u8>, image: &LinkedImage) -> Result<(), AllocError> {
    for export in &image.exports {
        add_line(text, "export", &export.name)?;
    }
    Ok(())
}

// Adds how many words the loader fixes up.
fn add_fixups(alloc: Global, text: &mut Vec<u8>, fixups: u64) -> Result<(), AllocError> {
    let last = format!(in alloc; "{fixups}")?;
    add_line(text, "fixups", last.as_bytes())
}

// Adds what is told of an image.
fn add_told(alloc: Global, text: &mut Vec<u8>, image: &LinkedImage) -> Result<(), AllocError> {
    add_libraries(text, image)?;
    add_imports(alloc, text, image)?;
    add_exports(text, image)?;
    add_fixups(alloc, text, image.fixups)
}

/// What is told of an image.
pub(crate) fn told_of(alloc: Global, image: &LinkedImage) -> Result<Vec<u8>, AllocError> {
    let mut text = Vec::new(alloc);
    add_told(alloc, &mut text, image)?;
    Ok(text)
}
