//! Inputs of a link for tests, written out from tables, and two images.
//!
//! [`object_bytes`] writes a relocatable object, [`dylib_bytes`] a dynamic library, [`stub_bytes`] a text stub. They follow the headers
//! `mach-o/loader.h`, `mach-o/nlist.h` and `mach-o/reloc.h` and share nothing with the linker, so that what a test expects of
//! the linker doesn't come from the linker. Nothing is checked: a table may say what no linker takes.
//! [`smallest_image`] and [`chained_image`] are finished images. All are public since tests of other crates, and the files of cases,
//! call them.
#![tactic(auto)]

mod images;
mod library;
mod numbers;
mod object;
mod tables;

pub use crate::images::{chained_image, smallest_image};
pub use crate::library::{Library, dylib_bytes, stub_bytes};
pub use crate::object::object_bytes;
pub use crate::tables::{Content, Object, Relocation, Section, Symbol, kinds};
