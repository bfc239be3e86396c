//! A linked image.

use macho_layout::Placement;
use macho_symbols::ExportName;

/// An imported name.
#[derive(Drop)]
pub struct ImportName {
    /// The number of its library among those that the image needs, from 1.
    pub library: u32,
    /// The name, without the NUL behind it.
    pub name: Vec<u8>,
}

/// A linked image, and what is told beside its bytes: what a map, a report or a test asks for.
#[derive(Drop)]
pub struct LinkedImage {
    /// The bytes of the file.
    pub bytes: Vec<u8>,
    /// Where each part stands.
    pub placement: Placement,
    /// The install names of the libraries that the image needs, in order.
    pub libraries: Vec<Vec<u8>>,
    /// The imported names, in the order of their first need.
    pub imports: Vec<ImportName>,
    /// The exported names, in rising order.
    pub exports: Vec<ExportName>,
    /// How many words the loader fixes up.
    pub fixups: u64,
}
