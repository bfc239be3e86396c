//! A link with its sizes and its placement: what its image is written from.
use macho_export_lists::ExportList;
use macho_linkedit::LinkedObject;
use macho_linker::Linker;
use macho_object::File;
use macho_refusal_laws::ReadLink;
use macho_sizing::SizedLink;

/// A link that is read, sized and placed.
#[derive(Clone, Copy)]
pub(crate) struct Planned<'a> {
    /// What is linked.
    pub(crate) linker: &'a Linker,
    /// Views of the objects by the numbers of their files, None of another input.
    pub(crate) views: &'a [Option<File<'a>>],
    /// The objects, each with its number.
    pub(crate) objects: &'a [LinkedObject<'a>],
    /// The entries of the export lists, where there are any.
    pub(crate) list: Option<&'a ExportList>,
    /// What the objects ask for.
    pub(crate) read: &'a ReadLink<'a>,
    /// The libraries that the image needs.
    pub(crate) libraries: &'a [Vec<u8>],
    /// Sizes and placement.
    pub(crate) sized: &'a SizedLink,
}
