//! What each option does to the fields.

ghost use Rattle.std.specs.Prelude.{◌≡◌, ◌+◌, ◌<◌, ◌^◌, ◌∷◌, ◌++◌, [], map, Some, Ok, Err, OnOk, IfErr, MatchBool, MatchResult};
ghost use Rattle.std.specs.Option.{option_map};
ghost use Rattle.std.specs.String.{string_bytes};
ghost use Rattle.macho_args.specs.declared.fault.ArgsFault.TheVariants.{OutOfMemory};
ghost use Rattle.macho_args.specs.steps.Effects.{uuid_of, count_of};

use crate::fault::ArgsFault;
use crate::fields::{InputSpec, MachOArgs, PlatformVersion};
use crate::numbers::number_up_to;
use crate::options::{Flag, Valued};
use crate::version::SemanticVersion;
use crate::words::{begins_with, contains_text};
use hex::FromHex;
use std::alloc::Global;

/// The one architecture.
const ARM64: &str = "arm64";

/// The one platform.
const MACOS: &str = "macos";

/// The one option of LLVM that is taken. It does nothing.
const OUTLINING: &str = "-enable-linkonceodr-outlining";

/// The greatest number of objects that are made.
const MAX_GENERATED: u32 = 10_000;

impl MachOArgs {
    ghost use Rattle.macho_args.specs.Settings.{settings_of, framework};
    ghost use Rattle.macho_args.specs.steps.Effects.{HasCause, with_once};
    ghost use Rattle.macho_args.specs.Effects.{with_flag, with_value, with_platform};
    ghost use Rattle.macho_args.specs.steps.KeptRoot.{keep_root};

    /// Sets a flag.
    pub(crate) fn set_flag(&mut self, flag: Flag)
        ensures { settings_of self.new ≡ with_flag flag (settings_of self.old) }
    {
        match flag {
            Flag::Dylib => self.dylib = true,
            Flag::DeadStripDylibs => self.dead_strip_dylibs = true,
            Flag::HeaderpadMaxInstallNames => self.headerpad_max_install_names = true,
            Flag::Map => self.map = true,
        }
    }

    /// Takes the value of an option, which stands in the word with this index.
    #[tactic(auto, unfolding(crate::specs::Effects::with_value))]
    pub(crate) fn set_value(
        &mut self,
        alloc: Global,
        option: Valued,
        word: u32,
        value: &str,
    ) -> Result<(), ArgsFault>
        ensures done { OnOk result
            (with_value keep_root option word value.now (settings_of self.old) ≡ Ok (settings_of self.new)) }
        ensures why { IfErr result (HasCause (with_value keep_root option word value.now (settings_of self.old))) }
    {
        match option {
            Valued::Output => set_text(alloc, &mut self.output, value),
            Valued::Entry => set_text(alloc, &mut self.entry, value),
            Valued::InstallName => set_optional_text(alloc, &mut self.install_name, value),
            Valued::LtoLibrary => set_optional_text(alloc, &mut self.plugin_path, value),
            Valued::ExportedSymbolsList => self.add_export_list(alloc, word, value),
            Valued::Rpath => self.add_rpath(alloc, value),
            Valued::LibraryPath => add_text(alloc, &mut self.lib_search_path, value),
            Valued::FrameworkPath => add_text(alloc, &mut self.framework_search_path, value),
            Valued::Root => self.keep_root(alloc, value),
            Valued::Library => self.add_library(alloc, word, value),
            Valued::Framework => self.add_framework(alloc, word, value),
            Valued::Arch => check(value == ARM64, ArgsFault::BadArch { word }),
            Valued::Mllvm => check(value == OUTLINING, ArgsFault::Unsupported { word }),
            Valued::Uuid => self.set_uuid(word, value),
            Valued::Generate => self.set_object_count(word, value),
        }
    }

    // Adds a list of exported names, by its path.
    fn add_export_list(&mut self, alloc: Global, word: u32, path: &str) -> Result<(), ArgsFault>
        ensures done { OnOk result (settings_of self.new ≡ record (settings_of self.old) {
          export_list_paths = (settings_of self.old).export_list_paths ++ (word, path.now) ∷ [];
        }) }
        ensures why { IfErr result (λ fault. fault ≡ OutOfMemory) }
    {
        self.export_list_paths
            .push((word, String::from_str(alloc, path)?))?;
        Ok(())
    }

    // Adds a run path, if it isn't there.
    fn add_rpath(&mut self, alloc: Global, path: &str) -> Result<(), ArgsFault>
        ensures done { OnOk result (settings_of self.new ≡ record (settings_of self.old) {
          rpaths = with_once path.now (settings_of self.old).rpaths;
        }) }
        ensures why { IfErr result (λ fault. fault ≡ OutOfMemory) }
    {
        if contains_text(&self.rpaths, path) {
            return Ok(());
        }
        add_text(alloc, &mut self.rpaths, path)
    }

    // Keeps the path of the root as it is given, and drops the library paths before it.
    fn keep_root(&mut self, alloc: Global, path: &str) -> Result<(), ArgsFault>
        ensures done { OnOk result (settings_of self.new ≡ keep_root path.now (settings_of self.old)) }
        ensures why { IfErr result (λ fault. fault ≡ OutOfMemory) }
    {
        self.sysroot = Some(String::from_str(alloc, path)?);
        self.lib_search_path.clear();
        Ok(())
    }

    // Adds a library by its name. A name that begins with a colon would name a file, which isn't supported.
    #[tactic(auto, unfolding(crate::specs::Effects::with_value))]
    fn add_library(&mut self, alloc: Global, word: u32, name: &str) -> Result<(), ArgsFault>
        ensures done { OnOk result
            (with_value keep_root Valued.Library word name.now (settings_of self.old) ≡ Ok (settings_of self.new)) }
        ensures why { IfErr result (HasCause (with_value keep_root Valued.Library word name.now (settings_of self.old))) }
    {
        if begins_with(name, ":") {
            return Err(ArgsFault::Unsupported { word });
        }
        let name = String::from_str(alloc, name)?;
        self.inputs.push(InputSpec::Lib { word, name })?;
        Ok(())
    }

    // Adds a framework by its name.
    fn add_framework(&mut self, alloc: Global, word: u32, name: &str) -> Result<(), ArgsFault>
        ensures done { OnOk result (settings_of self.new ≡ record (settings_of self.old) {
          inputs = (settings_of self.old).inputs ++ record { kind = framework; word = word; name = name.now } ∷ [];
        }) }
        ensures why { IfErr result (λ fault. fault ≡ OutOfMemory) }
    {
        let name = String::from_str(alloc, name)?;
        self.inputs.push(InputSpec::Framework { word, name })?;
        Ok(())
    }

    // Sets the UUID.
    #[tactic(auto, unfolding(crate::specs::Effects::with_value))]
    fn set_uuid(&mut self, word: u32, text: &str) -> Result<(), ArgsFault>
        ensures { MatchResult result
            (λ _. with_value keep_root Valued.Uuid word text.now (settings_of self.old) ≡ Ok (settings_of self.new))
            (λ fault. with_value keep_root Valued.Uuid word text.now (settings_of self.old) ≡ Err fault) }
    {
        self.uuid = Some(uuid(text).ok_or(ArgsFault::BadUuid { word })?);
        Ok(())
    }

    // Sets how many objects are made.
    #[tactic(auto, unfolding(crate::specs::Effects::with_value))]
    fn set_object_count(&mut self, word: u32, text: &str) -> Result<(), ArgsFault>
        ensures { MatchResult result
            (λ _. with_value keep_root Valued.Generate word text.now (settings_of self.old) ≡ Ok (settings_of self.new))
            (λ fault. with_value keep_root Valued.Generate word text.now (settings_of self.old) ≡ Err fault) }
    {
        self.generate = Some(object_count(text).ok_or(ArgsFault::BadNumber { word })?);
        Ok(())
    }

    /// Takes the three values of `-platform_version`, which is the word with this index.
    #[tactic(auto, unfolding(crate::specs::Effects::with_platform))]
    pub(crate) fn set_platform(
        &mut self,
        alloc: Global,
        word: u32,
        platform: &str,
        minimum: &str,
        sdk: &str,
    ) -> Result<(), ArgsFault>
        requires { word + 3 < 2 ^ 32 }
        ensures done { OnOk result
            (with_platform word platform.now minimum.now sdk.now (settings_of self.old) ≡ Ok (settings_of self.new)) }
        ensures why { IfErr result
            (HasCause (with_platform word platform.now minimum.now sdk.now (settings_of self.old))) }
    {
        check(platform == MACOS, ArgsFault::BadPlatform { word: word + 1 })?;
        let Ok(minimum_version) = SemanticVersion::try_from(minimum) else {
            return Err(ArgsFault::BadVersion { word: word + 2 });
        };
        let Ok(sdk_version) = SemanticVersion::try_from(sdk) else {
            return Err(ArgsFault::BadVersion { word: word + 3 });
        };
        let platform = String::from_str(alloc, platform)?;
        self.platform_version = Some(PlatformVersion {
            platform,
            minimum_version,
            sdk_version,
        });
        Ok(())
    }
}

// Puts a text into a field.
fn set_text(alloc: Global, field: &mut String, text: &str) -> Result<(), ArgsFault>
    ensures done { OnOk result (string_bytes field.new ≡ text.now) }
    ensures why { IfErr result (λ fault. fault ≡ OutOfMemory) }
{
    *field = String::from_str(alloc, text)?;
    Ok(())
}

// Puts a text into a field that may have none.
fn set_optional_text(alloc: Global, field: &mut Option<String>, text: &str) -> Result<(), ArgsFault>
    ensures done { OnOk result (option_map string_bytes field.new ≡ Some text.now) }
    ensures why { IfErr result (λ fault. fault ≡ OutOfMemory) }
{
    *field = Some(String::from_str(alloc, text)?);
    Ok(())
}

// Adds a text behind others.
fn add_text(alloc: Global, texts: &mut Vec<String>, text: &str) -> Result<(), ArgsFault>
    ensures done { OnOk result (map string_bytes texts.new.items ≡ map string_bytes texts.old.items ++ text.now ∷ []) }
    ensures why { IfErr result (λ fault. fault ≡ OutOfMemory) }
{
    texts.push(String::from_str(alloc, text)?)?;
    Ok(())
}

// Refuses what doesn't hold.
fn check(holds: bool, fault: ArgsFault) -> Result<(), ArgsFault>
    ensures { MatchBool holds (result ≡ Ok tt) (result ≡ Err fault) }
{
    if holds { Ok(()) } else { Err(fault) }
}

// 16 bytes in 32 hexadecimal digits.
fn uuid(text: &str) -> Option<[u8; 16]>
    ensures { result ≡ uuid_of text.now }
{
    <[u8; 16] as FromHex>::from_hex(text).ok()
}

// How many objects are made.
fn object_count(text: &str) -> Option<u32>
    ensures { result ≡ count_of text.now }
{
    match number_up_to(MAX_GENERATED, text) {
        Some(0) | None => None,
        Some(count) => Some(count),
    }
}
