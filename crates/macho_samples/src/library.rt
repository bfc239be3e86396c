//! Libraries: dynamic ones, and text stubs.

use crate::numbers::{length, pad, put_words};
use crate::object::{HEADER_SIZE, SYMTAB_SIZE, put_header, put_symtab, symbols_of};
use crate::tables::Symbol;
use std::alloc::{AllocError, Global};

/// A library and the names that it offers.
#[derive(Clone, Copy)]
pub struct Library<'a> {
    /// The name under which the loader finds it.
    pub install_name: &'a str,
    /// The names that it offers.
    pub names: &'a [&'a str],
    /// Those whose definitions are weak.
    pub weak: &'a [&'a str],
}

/// `MH_DYLIB`.
const DYLIB: u64 = 6;

/// `LC_ID_DYLIB` and the bytes of its record.
const ID: u64 = 0xd;

const ID_SIZE: u64 = 24;

// The global symbols of the names, each at the start of the first section.
fn add_symbols<'a>(
    symbols: &mut Vec<Symbol<'a>>,
    names: &[&'a str],
    description: u16,
) -> Result<(), AllocError> {
    for name in names {
        symbols.push(Symbol {
            name: name.as_bytes(),
            kind: 0x0f,
            section: 1,
            description,
            value: 0,
        })?;
    }
    Ok(())
}

// The command of the install name.
fn id_bytes(alloc: Global, name: &str) -> Result<Vec<u8>, AllocError> {
    let mut path = Vec::from_slice(alloc, name.as_bytes())?;
    path.push(0)?;
    pad(&mut path, 8)?;
    let mut out = Vec::new(alloc);
    let size = ID_SIZE.saturating_add(length(&path));
    put_words(&mut out, &[ID, size, ID_SIZE, 1, 0x1_0000, 0x1_0000])?;
    out.extend_from_slice(&path)?;
    Ok(out)
}

// The bytes of a dynamic library with some symbols: a header, its install name and its symbol table.
fn dylib_with(
    alloc: Global,
    install_name: &str,
    symbols: &[Symbol<'_>],
) -> Result<Vec<u8>, AllocError> {
    let symbols = symbols_of(alloc, symbols)?;
    let id = id_bytes(alloc, install_name)?;
    let commands = length(&id).saturating_add(SYMTAB_SIZE);
    let mut out = Vec::new(alloc);
    put_header(&mut out, DYLIB, 2, commands)?;
    out.extend_from_slice(&id)?;
    let table = HEADER_SIZE.saturating_add(commands);
    put_symtab(&mut out, table, &symbols.rows, &symbols.names)?;
    out.extend_from_slice(&symbols.rows)?;
    out.extend_from_slice(&symbols.names)?;
    Ok(out)
}

/// The bytes of a dynamic library that offers its names.
pub fn dylib_bytes(alloc: Global, library: &Library<'_>) -> Result<Vec<u8>, AllocError> {
    let mut offered = Vec::new(alloc);
    add_symbols(&mut offered, library.names, 0)?;
    add_symbols(&mut offered, library.weak, 0x80)?;
    dylib_with(alloc, library.install_name, &offered)
}

// A list of names on a line, under a key; no line where there is none.
fn put_names(out: &mut Vec<u8>, key: &[u8], names: &[&str]) -> Result<(), AllocError> {
    let mut lead = key;
    for name in names {
        out.extend_from_slice(lead)?;
        out.extend_from_slice(name.as_bytes())?;
        lead = b", ";
    }
    if !names.is_empty() {
        out.extend_from_slice(b" ]\n")?;
    }
    Ok(())
}

/// The text of a library's stub, for `arm64e-macos` alone.
pub fn stub_bytes(alloc: Global, library: &Library<'_>) -> Result<Vec<u8>, AllocError> {
    let mut out = Vec::from_slice(alloc, STUB_HEAD)?;
    out.extend_from_slice(library.install_name.as_bytes())?;
    out.extend_from_slice(b"'\ncurrent-version: 1\n")?;
    if !library.names.is_empty() || !library.weak.is_empty() {
        out.extend_from_slice(b"exports:\n  - targets: [ arm64e-macos ]\n")?;
        put_names(&mut out, b"    symbols: [ ", library.names)?;
        put_names(&mut out, b"    weak-symbols: [ ", library.weak)?;
    }
    out.extend_from_slice(b"...\n")?;
    Ok(out)
}

/// A stub's text up to its install name.
const STUB_HEAD: &[u8] =
    b"--- !tapi-tbd\ntbd-version: 4\ntargets: [ arm64e-macos ]\ninstall-name: '";
