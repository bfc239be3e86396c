//! Where an input is sought.
//!
//! `-lc` with the library paths `/a` and `/b` tries `/a/libc.tbd`, `/a/libc.dylib`, `/b/libc.tbd` and `/b/libc.dylib`;
//! `-framework X` with the framework path `/f` tries `/f/X.framework/X.tbd` and `/f/X.framework/X`. The first that
//! holds a file is taken.

ghost use Rattle.std.specs.Prelude.{◌≡◌, ◌++◌, [], ◌∷◌, codes, map, IfOk, IfErr};
ghost use Rattle.std.specs.List.{flat_map};
ghost use Rattle.std.specs.String.{string_bytes};
ghost use Rattle.macho_args.specs.Effects.{joined as joined_path};
ghost use Rattle.macho_args.specs.Settings.{settings_of, input_of};
ghost use Rattle.macho_devices.specs.Devices.{OnlyReads};
ghost use Rattle.macho_job.specs.Search.{library_files, framework_files, candidates_of};
ghost use Rattle.macho_job.specs.steps.Found.{IsSearched, FailedSince};

use macho_args::{InputSpec, MachOArgs};
use macho_devices::{FileFault, Files};
use std::alloc::{AllocError, Global};

/// A file that was found: its path, and its bytes.
#[derive(Drop)]
pub(crate) struct FoundFile {
    pub(crate) path: String,
    pub(crate) bytes: Vec<u8>,
}

// A path below a folder: one `/` stands between.
#[tactic(auto, unfolding(macho_args::specs::Effects::joined))]
fn joined(alloc: Global, folder: &str, file: &str) -> Result<String, AllocError>
    ensures { IfOk result (λ path. string_bytes path ≡ joined_path folder.now file.now) }
{
    if folder.as_bytes().ends_with(b"/") {
        format!(in alloc; "{folder}{file}")
    } else {
        format!(in alloc; "{folder}/{file}")
    }
}

// The files of a library in each of the folders.
fn library_files(alloc: Global, folders: &[String], name: &str) -> Result<Vec<String>, AllocError>
    ensures { IfOk result (λ paths. map string_bytes paths.items ≡ flat_map (library_files name.now) (map string_bytes folders.now)) }
{
    let stub = format!(in alloc; "lib{name}.tbd")?;
    let library = format!(in alloc; "lib{name}.dylib")?;
    two_files(alloc, folders, &stub, &library)
}

// The files of a framework in each of the folders.
fn framework_files(alloc: Global, folders: &[String], name: &str) -> Result<Vec<String>, AllocError>
    ensures { IfOk result (λ paths. map string_bytes paths.items ≡ flat_map (framework_files name.now) (map string_bytes folders.now)) }
{
    let stub = framework_stub(alloc, name)?;
    let library = framework_library(alloc, name)?;
    two_files(alloc, folders, &stub, &library)
}

fn framework_stub(alloc: Global, name: &str) -> Result<String, AllocError>
    ensures { IfOk result (λ file. string_bytes file ≡ name.now ++ (codes ".framework/" ++ (name.now ++ codes ".tbd"))) }
{
    format!(in alloc; "{name}.framework/{name}.tbd")
}

fn framework_library(alloc: Global, name: &str) -> Result<String, AllocError>
    ensures { IfOk result (λ file. string_bytes file ≡ name.now ++ (codes ".framework/" ++ name.now)) }
{
    format!(in alloc; "{name}.framework/{name}")
}

// Two files in each of the folders.
fn two_files(
    alloc: Global,
    folders: &[String],
    first: &str,
    second: &str,
) -> Result<Vec<String>, AllocError>
    ensures { IfOk result (λ paths. map string_bytes paths.items
        ≡ flat_map (λ folder. joined_path folder first.now ∷ joined_path folder second.now ∷ []) (map string_bytes folders.now)) }
{
    let mut paths = Vec::new(alloc);
    for folder in folders {
        paths.push(joined(alloc, folder, first)?)?;
        paths.push(joined(alloc, folder, second)?)?;
    }
    Ok(paths)
}

// The path of a file.
fn one_file(alloc: Global, path: &str) -> Result<Vec<String>, AllocError>
    ensures { IfOk result (λ paths. map string_bytes paths.items ≡ path.now ∷ []) }
{
    let mut paths = Vec::new(alloc);
    paths.push(String::from_str(alloc, path)?)?;
    Ok(paths)
}

/// The paths at which an input is sought, in order.
pub(crate) fn candidates_of(
    alloc: Global,
    args: &MachOArgs,
    spec: &InputSpec,
) -> Result<Vec<String>, AllocError>
    ensures { IfOk result (λ paths. map string_bytes paths.items
        ≡ candidates_of (settings_of args.now) (input_of spec.now).kind (input_of spec.now).name) }
{
    match spec {
        InputSpec::File { path, .. } => one_file(alloc, path.as_str()),
        InputSpec::Lib { name, .. } => library_files(alloc, &args.lib_search_path, name.as_str()),
        InputSpec::Framework { name, .. } => {
            framework_files(alloc, &args.framework_search_path, name.as_str())
        }
    }
}

/// The first of the paths that holds a file, with its bytes.
pub(crate) fn first_held<F: Files>(
    alloc: Global,
    files: &mut F,
    paths: &[String],
) -> Result<Option<FoundFile>, FileFault>
    ensures found { IfOk result (IsSearched (F.state files.old).files (map string_bytes paths.now)) }
    ensures why { IfErr result (λ fault. FailedSince (F.state files.old).failed_reads (F.state files.new).failed_reads fault) }
    ensures kept { OnlyReads (F.state files.old) (F.state files.new) }
{
    for path in paths {
        if let Some(bytes) = files.read(alloc, path.as_str())? {
            let path = String::from_str(alloc, path.as_str())?;
            return Ok(Some(FoundFile { path, bytes }));
        }
    }
    Ok(None)
}
