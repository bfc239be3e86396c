//! A link before a placement: its objects are read, and its parts are planned. The link goes on from here; so does whoever asks whether a
//! given placement is one of the link.
ghost use Rattle.std.specs.Prelude.{◌≡◌, ◌≤◌, map, IfOk, OnOk, IfErr};
ghost use Rattle.std.specs.Option.{option_copied};
ghost use Rattle.macho_promise.specs.Views.{views_of};
ghost use Rattle.macho_symbols.specs.Exported.{AreLists};
ghost use Rattle.macho_linkedit.specs.Counting.{AreArguments};
ghost use Rattle.macho_refusal_laws.specs.Read.{IsReadOf, AreKnown, entry_of};
ghost use Rattle.macho_linker.specs.Held.{IsHeld};
ghost use Rattle.macho_linking.specs.Planning.{IsSingle, StandsAlways, IsToSize, HasPlan};

use macho_answer::LinkError;
use macho_export_lists::ExportList;
use macho_inputs::resolve_inputs;
use macho_linkedit::{LinkedObject, SizeArguments};
use macho_linker::{Linker, last_part};
use macho_model::Limit;
use macho_object::File;
use macho_refusal_laws::{ReadLink, read_link};
use macho_sizing::{PlannedLink, SizesOf, plan_link};
use macho_symbol_tables::kept_exports;
use std::alloc::Global;

/// The name at which an executable begins, None for a dynamic library.
fn entry_name(linker: &Linker) -> Option<&[u8]>
    ensures { option_copied result ≡ entry_of linker.now }
{
    if linker.is_executable() {
        Some(linker.entry())
    } else {
        None
    }
}

/// Resolves the symbols of the inputs, and reads what the objects ask for. `seed` is what the hashes of names begin with.
///
/// # Errors
///
/// `DuplicateSymbol` where two objects define a name strongly; then the first refusal of what the objects ask for, `UndefinedSymbol` to
/// `FixupPlace` without a placement; or `OutOfMemory`.
pub fn read_inputs<'a>(
    alloc: Global,
    linker: &'a Linker,
    views: &[Option<File<'_>>],
    list: Option<&ExportList>,
    seed: u64,
) -> Result<ReadLink<'a>, LinkError>
    requires held { IsHeld linker.now }
    requires views { views.now ≡ views_of linker.now }
    requires lists { AreLists linker.now (option_copied list) }
    ensures done { IfOk result (IsReadOf linker.now) }
    ensures known { IfOk result (AreKnown views.now) }
    ensures single { OnOk result (IsSingle linker.now) }
    ensures why { IfErr result (StandsAlways linker.now) }
{
    let resolved = resolve_inputs(alloc, linker.inputs(), seed)?;
    read_link(alloc, resolved, views, entry_name(linker), list)
}

/// The arguments that sizes depend on.
fn size_arguments(linker: &Linker) -> SizeArguments<'_>
    ensures { AreArguments linker.now result }
{
    SizeArguments {
        executable: linker.is_executable(),
        install_name: linker.install_name(),
        has_versions: linker.versions().is_some(),
        rpaths: linker.rpaths(),
        headerpad: linker.headerpad(),
        name: last_part(linker.output()),
    }
}

/// The plan and the sizes of a link that was read: all that is known of it before a place.
///
/// # Errors
///
/// `TooMany` where a number passes a limit of the format, `ImageTooLarge` where the unwind information alone comes near 2^64, both
/// without a placement; `OutOfMemory`.
pub fn plan_inputs<'a>(
    alloc: Global,
    linker: &'a Linker,
    views: &'a [Option<File<'a>>],
    objects: &'a [LinkedObject<'a>],
    list: Option<&'a ExportList>,
    read: &'a ReadLink<'a>,
    libraries: &'a [Vec<u8>],
) -> Result<PlannedLink, LinkError>
    requires { IsToSize linker.now views.now objects.now (option_copied list) read.now (map (λ n. n.items) libraries.now) }
    ensures small { IfOk result (λ planned. planned.sizes.counts.import_size ≤ 8) }
    ensures done { IfOk result (HasPlan linker.now read.now) }
    ensures why { IfErr result (StandsAlways linker.now) }
{
    if libraries.len() >= u32::MAX as usize {
        return Err(LinkError::TooMany {
            what: Limit::Libraries,
            number: libraries.len() as u64,
            placement: None,
        });
    }
    let exports = kept_exports(
        alloc,
        &read.exports,
        read.needs.resolved.imports(),
        libraries,
    )?;
    let sizes = SizesOf {
        arguments: size_arguments(linker),
        libraries,
        views,
        objects,
        needs: &read.needs,
        initializers: &read.initializers,
        entries: &read.entries,
        exports: &exports,
    };
    plan_link(alloc, &sizes, list)
}
