//! The link as a list of passes: each takes what the passes before it made, and the first that refuses ends the link.
//!
//!      1  view_inputs, list_objects    the objects, as they lie in the bytes of the inputs
//!      2  read_lists                   the export lists, as one
//!      3  resolve_inputs               which definition each name has           (`planning` reads and plans)
//!      4  read_link                    what the objects need: imports, slots, import jumps, initializers, unwind entries, exports
//!      5  needed_libraries             the libraries of the image
//!      6  kept_exports                 the exported names of the trie
//!      7  plan_link, place_link        all sizes, the limits, and a place for each part
//!      8  told_imports                 the imports, as they are told
//!      9  write_image                  the bytes: contents, tables, head, signature
//!     10  answer                       the image, with what is told beside it
ghost use Rattle.std.specs.Prelude.{◌≡◌, ℕ, ◌+◌, ◌<◌, ◌^◌, false, List, map, length, All, IfOk, OnOk, IfErr};
ghost use Rattle.std.specs.Option.{option_copied};
ghost use Rattle.macho_model.specs.Links.{Link};
ghost use Rattle.macho_model.specs.Told.{imports_told};
ghost use Rattle.macho_promise.specs.Views.{views_of, ViewsObject};
ghost use Rattle.macho_symbols.specs.Exported.{AreLists};
ghost use Rattle.macho_linkedit.specs.Listing.{AreObjects};
ghost use Rattle.macho_answer.specs.declared.fault.LinkError.TheVariants.{OutOfMemory};
ghost use Rattle.macho_refusal_laws.specs.Inputs.{HasBytes};
ghost use Rattle.macho_answer.specs.Linked.{import_of, IsImageOf, IsRefused, RefusalStands};
ghost use Rattle.macho_model.specs.declared.placed.Counts.{Counts};
ghost use Rattle.macho_model.specs.Valid.{IsValid};
ghost use Rattle.macho_promise.specs.Sizes.{AreCounts};
ghost use Rattle.macho_linker.specs.Held.{IsHeld};
ghost use Rattle.macho_linking.specs.Planning.{IsSingle, StandsAlways, IsToSize};
ghost use Rattle.macho_linking.specs.steps.Imaged.{HasSizes, IsMade, IsToAnswer};

use crate::fault::refusal;
use crate::lists::read_lists;
use crate::planned::Planned;
use crate::planning::{plan_inputs, read_inputs};
use crate::write::{Written, write_image};
use macho_answer::{ImportName, LinkError, LinkedImage};
use macho_export_lists::ExportList;
use macho_inputs::{list_objects, needed_libraries, view_inputs};
use macho_linkedit::LinkedObject;
use macho_linker::Linker;
use macho_object::File;
use macho_refusal_laws::ReadLink;
use macho_sizing::{SizedLink, place_link};
use macho_symbol_tables::told_imports;
use std::alloc::Global;

/// What the hashes of names begin with: the first bytes of the UUID. It is a digest of the inputs, unless the user gives one, so no
/// object can be made against it.
fn seed_of(uuid: [u8; 16]) -> u64 {
    u64::from_le_bytes([
        uuid[0], uuid[1], uuid[2], uuid[3], uuid[4], uuid[5], uuid[6], uuid[7],
    ])
}

/// Sizes and places what was read.
fn size_inputs<'a>(
    alloc: Global,
    linker: &'a Linker,
    views: &'a [Option<File<'a>>],
    objects: &'a [LinkedObject<'a>],
    list: Option<&'a ExportList>,
    read: &'a ReadLink<'a>,
    libraries: &'a [Vec<u8>],
) -> Result<SizedLink, LinkError>
    requires { IsToSize linker.now views.now objects.now (option_copied list) read.now (map (λ n. n.items) libraries.now) }
    ensures done { IfOk result (λ sized. HasSizes linker.now read.now sized) }
    ensures why { IfErr result (StandsAlways linker.now) }
{
    let planned = plan_inputs(alloc, linker, views, objects, list, read, libraries)?;
    place_link(alloc, planned)
}

/// What was viewed of a link.
#[derive(Clone, Copy)]
struct Viewed<'a> {
    /// What is linked.
    linker: &'a Linker,
    /// Views of the objects by the numbers of their files, None of another input.
    views: &'a [Option<File<'a>>],
    /// The objects, each with its number.
    objects: &'a [LinkedObject<'a>],
    /// The entries of the export lists, where there are any.
    list: Option<&'a ExportList>,
}

/// The image of a link, with its sizes and its placement, and what is told of its imports.
#[derive(Drop)]
struct Made {
    written: Written,
    sized: SizedLink,
    imports: Vec<ImportName>,
}

/// Sizes and places a link that was read, and writes its image.
fn make_image(
    alloc: Global,
    viewed: &Viewed<'_>,
    read: &ReadLink<'_>,
    libraries: &[Vec<u8>],
    uuid: [u8; 16],
) -> Result<Made, LinkError>
    requires { IsToSize viewed.now.linker.now viewed.now.views.now viewed.now.objects.now (option_copied viewed.now.list)
        read.now (map (λ n. n.items) libraries.now) }
    ensures done { IfOk result (λ made. IsMade viewed.now.linker.now uuid read.now made.written made.sized) }
    ensures told { IfOk result (λ made. map import_of made.imports.items ≡ imports_told viewed.now.linker.now) }
    ensures why { IfErr result (StandsAlways viewed.now.linker.now) }
{
    let Viewed {
        linker,
        views,
        objects,
        list,
    } = *viewed;
    let sized = size_inputs(
        alloc,
        &*linker,
        &*views,
        &*objects,
        list,
        &*read,
        &*libraries,
    )?;
    let imports = told_imports(alloc, read.needs.resolved.imports(), &*libraries)?;
    let planned = Planned {
        linker,
        views,
        objects,
        list,
        read,
        libraries,
        sized: &sized,
    };
    match write_image(alloc, &planned, uuid) {
        Ok(written) => Ok(Made {
            written,
            sized,
            imports,
        }),
        Err(fault) => Err(refusal(fault, sized.placement)),
    }
}

/// The image with what is told beside its bytes.
fn answer(made: Made, read: ReadLink<'_>, libraries: Vec<Vec<u8>>) -> LinkedImage
    ensures { (l : Link) (uuid : List ℕ) → IsToAnswer l uuid made.written made.sized read.entry (map (λ n. n.items) libraries.items)
        → map import_of made.imports.items ≡ imports_told l → IsImageOf l uuid result }
{
    let Made {
        written,
        sized,
        imports,
    } = made;
    LinkedImage {
        bytes: written.bytes,
        placement: sized.placement,
        libraries,
        imports,
        exports: read.exports,
        fixups: written.fixups,
    }
}

/// Makes the image of a link that was read, and answers it.
fn link_read(
    alloc: Global,
    viewed: &Viewed<'_>,
    read: ReadLink<'_>,
    libraries: Vec<Vec<u8>>,
    uuid: [u8; 16],
) -> Result<LinkedImage, LinkError>
    requires held { IsHeld viewed.now.linker.now }
    requires bytes { All HasBytes viewed.now.linker.now.inputs }
    requires read_is { IsToSize viewed.now.linker.now viewed.now.views.now viewed.now.objects.now
        (option_copied viewed.now.list) read (map (λ n. n.items) libraries.items) }
    requires single { IsSingle viewed.now.linker.now }
    ensures done { IfOk result (IsImageOf viewed.now.linker.now uuid) }
    ensures why { IfErr result (IsRefused viewed.now.linker.now) }
{
    let made = make_image(alloc, viewed, &read, &libraries, uuid)?;
    Ok(answer(made, read, libraries))
}

/// Reads a link that was viewed, and answers its image.
fn link_viewed(alloc: Global, viewed: &Viewed<'_>, uuid: [u8; 16]) -> Result<LinkedImage, LinkError>
    requires held { IsHeld viewed.now.linker.now }
    requires bytes { All HasBytes viewed.now.linker.now.inputs }
    requires views { (viewed.now.views.now ≡ views_of viewed.now.linker.now) × All ViewsObject viewed.now.views.now }
    requires objects { AreObjects viewed.now.linker.now viewed.now.objects.now
        × All (λ o. o.file.is_dynamic ≡ false) viewed.now.objects.now }
    requires lists { AreLists viewed.now.linker.now (option_copied viewed.now.list) }
    ensures done { IfOk result (IsImageOf viewed.now.linker.now uuid) }
    ensures why { IfErr result (IsRefused viewed.now.linker.now) }
{
    let linker = viewed.linker;
    let seed = seed_of(uuid);
    let read = read_inputs(alloc, linker, viewed.views, viewed.list, seed)?;
    let symbols = &read.needs.resolved;
    let libraries = needed_libraries(alloc, symbols, linker.dead_strip_dylibs())?;
    link_read(alloc, viewed, read, libraries, uuid)
}

/// Links what is held, pass by pass.
fn link_held(alloc: Global, linker: &Linker, uuid: [u8; 16]) -> Result<LinkedImage, LinkError>
    ensures done { IfOk result (IsImageOf linker.now uuid) }
    ensures why { IfErr result (IsRefused linker.now) }
{
    let inputs = linker.inputs();
    let views = view_inputs(alloc, inputs)?;
    let objects = list_objects(alloc, inputs)?;
    let list = read_lists(alloc, linker.export_lists())?;
    let list = list.as_ref();
    let viewed = Viewed {
        linker: &*linker,
        views: &views,
        objects: &objects,
        list,
    };
    link_viewed(alloc, &viewed, uuid)
}

/// The refusal of a link. No link is refused for its paths or its inputs, which were looked at when they were taken: `BadName` and
/// `BadInput`, which don't come, would be told as `OutOfMemory`.
fn refusal_of(error: LinkError) -> LinkError
    ensures { (l : Link) → IsRefused l error → RefusalStands l result }
{
    match error {
        LinkError::BadName => LinkError::OutOfMemory,
        LinkError::BadInput { .. } => LinkError::OutOfMemory,
        error => error,
    }
}

/// Links what a linker holds, and answers its image, with `uuid` as its identifier.
///
/// # Errors
///
/// `DuplicateSymbol` where two objects define a name strongly; then a refusal of what the objects ask for (`UndefinedSymbol` to
/// `FixupPlace` without a placement); then one of numbers and sizes (`TooMany`, `ImageTooLarge`); last, with the placement, one
/// of a value that can't be written (`FixupPlace`, `RebaseTarget`, `RelocationRange`, `ImageTooLarge`). `OutOfMemory` may come at
/// any time, and is the only refusal of a valid link.
pub fn link(alloc: Global, linker: &Linker, uuid: [u8; 16]) -> Result<LinkedImage, LinkError>
    // The image is as promised, and nothing stands that it is refused for.
    ensures done { IfOk result (IsImageOf linker.now uuid) }
    // A refusal stands.
    ensures why { IfErr result (RefusalStands linker.now) }
    // A valid link is refused for want of memory alone.
    ensures complete { (counts : Counts) → AreCounts linker.now counts → IsValid linker.now counts → IfErr result (λ e. e ≡ OutOfMemory) }
{
    match link_held(alloc, linker, uuid) {
        Ok(image) => Ok(image),
        Err(error) => Err(refusal_of(error)),
    }
}
