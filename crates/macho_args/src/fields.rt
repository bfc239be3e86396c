//! What a command line says, as a struct of fields.

ghost use Rattle.std.specs.Prelude.{◌≡◌, ◌↔◌, IfOk, IsTrue, false};
ghost use Rattle.std.specs.List.{list_any};
ghost use Rattle.std.specs.Str.{bytes_eq};
ghost use Rattle.std.specs.Option.{option_map, option_copied};
ghost use Rattle.std.specs.String.{string_bytes};

use crate::version::SemanticVersion;
use std::alloc::{AllocError, Global};

/// The platform that the output is for, as `-platform_version` gives it.
#[derive(PartialEq, Eq, Drop)]
pub struct PlatformVersion {
    /// The platform's name, `macos`.
    pub platform: String,
    /// The lowest version of the system that the output is to run on.
    pub minimum_version: SemanticVersion,
    /// The version of the SDK that it is linked against.
    pub sdk_version: SemanticVersion,
}

/// An input of the link. `word` is the index of the word in which the path or the name stands.
#[derive(Drop)]
pub enum InputSpec {
    /// A file, by its path.
    File { word: u32, path: String },
    /// A library, by its name without `lib` and without an ending, as `-l` gives it.
    Lib { word: u32, name: String },
    /// A framework, by its name.
    Framework { word: u32, name: String },
}

impl InputSpec {
    ghost use Rattle.macho_args.specs.Settings.{input_of};

    /// The index of the word in which the path or the name stands.
    pub fn word(&self) -> u32
        ensures { result ≡ (input_of self.now).word }
    {
        match self {
            InputSpec::File { word, .. }
            | InputSpec::Lib { word, .. }
            | InputSpec::Framework { word, .. } => *word,
        }
    }
}

/// What the words of a command line say.
#[derive(Drop)]
pub struct MachOArgs {
    /// The path of the output (`-o`).
    pub output: String,
    /// The inputs, in the order of their words.
    pub inputs: Vec<InputSpec>,
    /// The platform and its versions (`-platform_version`).
    pub platform_version: Option<PlatformVersion>,
    /// The root below which libraries are sought (`-syslibroot`).
    pub sysroot: Option<String>,
    /// Where libraries are sought, in order (`-L`).
    pub lib_search_path: Vec<String>,
    /// Where frameworks are sought, in order (`-F`).
    pub framework_search_path: Vec<String>,
    /// A plugin's path (`-lto_library`), which isn't loaded.
    pub plugin_path: Option<String>,
    /// Whether only the libraries that are used are named in the output.
    pub dead_strip_dylibs: bool,
    /// Whether room is kept for longer install names.
    pub headerpad_max_install_names: bool,
    /// The name of the entry function (`-e`).
    pub entry: String,
    /// Whether the output is a dynamic library.
    pub dylib: bool,
    /// The install name of a dynamic library (`-install_name`).
    pub install_name: Option<String>,
    /// The run paths, without repeats (`-rpath`).
    pub rpaths: Vec<String>,
    /// The files that list the exported names, each with the index of the word in which its path stands.
    pub export_list_paths: Vec<(u32, String)>,
    /// The UUID (`-uuid`).
    pub uuid: Option<[u8; 16]>,
    /// Whether the placed sections are printed (`-map`).
    pub map: bool,
    /// How many objects are made in place of inputs (`-generate`).
    pub generate: Option<u32>,
}

/// The output's path before `-o` gives another.
const DEFAULT_OUTPUT: &str = "a.out";

/// The entry function's name before `-e` gives another.
const DEFAULT_ENTRY: &str = "_main";

/// The flags, without their `-`, that are taken and ignored.
const IGNORED_FLAGS: [&str; 5] = ["export_dynamic", "O0", "O1", "O2", "O3"];

/// The alignment of segments in memory and in the file, a page of 16 KiB.
const SEGMENT_ALIGNMENT: u64 = 16_384;

impl MachOArgs {
    ghost use Rattle.macho_args.specs.Settings.{settings_of, fresh, install_name_of, entry_of, ignored_flags};

    /// The fields before any word is read: output `a.out`, entry `_main`, all else empty, false or `None`.
    pub fn new(alloc: Global) -> Result<MachOArgs, AllocError>
        ensures { IfOk result (λ args. settings_of args ≡ fresh) }
    {
        Ok(MachOArgs {
            output: String::from_str(alloc, DEFAULT_OUTPUT)?,
            inputs: Vec::new(alloc),
            platform_version: None,
            sysroot: None,
            lib_search_path: Vec::new(alloc),
            framework_search_path: Vec::new(alloc),
            plugin_path: None,
            dead_strip_dylibs: false,
            headerpad_max_install_names: false,
            entry: String::from_str(alloc, DEFAULT_ENTRY)?,
            dylib: false,
            install_name: None,
            rpaths: Vec::new(alloc),
            export_list_paths: Vec::new(alloc),
            uuid: None,
            map: false,
            generate: None,
        })
    }

    /// The install name of the output as a dynamic library: the one given, else the output path as given.
    pub fn dylib_install_name(&self) -> &[u8]
        ensures { result.now ≡ install_name_of (settings_of self.now) }
    {
        match &self.install_name {
            Some(name) => name.as_bytes(),
            None => self.output.as_bytes(),
        }
    }

    /// The name of the entry function, or `None` for a dynamic library.
    pub fn entry_point(&self) -> Option<&[u8]>
        ensures { option_copied result ≡ entry_of (settings_of self.now) }
    {
        if self.dylib {
            None
        } else {
            Some(self.entry.as_bytes())
        }
    }

    /// Whether the output is an executable, and no dynamic library.
    pub fn should_output_executable(&self) -> bool
        ensures { IsTrue result ↔ (self.now.dylib ≡ false) }
    {
        !self.dylib
    }

    /// Where libraries are sought, in order.
    pub fn lib_search_path(&self) -> &[String]
        ensures { result.now ≡ self.now.lib_search_path.items }
    {
        &self.lib_search_path
    }

    /// Where frameworks are sought, in order.
    pub fn framework_search_path(&self) -> &[String]
        ensures { result.now ≡ self.now.framework_search_path.items }
    {
        &self.framework_search_path
    }

    /// The root below which libraries are sought.
    pub fn sysroot(&self) -> Option<&str>
        ensures { option_copied result ≡ option_map string_bytes self.now.sysroot }
    {
        match &self.sysroot {
            Some(root) => Some(root.as_str()),
            None => None,
        }
    }

    /// The files that list the exported names, in the order of their words, each with its word's index.
    pub fn export_list_paths(&self) -> &[(u32, String)]
        ensures { result.now ≡ self.now.export_list_paths.items }
    {
        &self.export_list_paths
    }

    /// Whether all symbols are stripped: never.
    pub fn should_strip_all(&self) -> bool
        ensures { ¬ IsTrue result }
    {
        false
    }

    /// Whether unused sections are dropped: never.
    pub fn should_gc_sections(&self) -> bool
        ensures { ¬ IsTrue result }
    {
        false
    }

    /// Whether all dynamic symbols are exported: always.
    pub fn should_export_all_dynamic_symbols(&self) -> bool
        ensures { IsTrue result }
    {
        true
    }

    /// Whether dynamic symbols are exported: always.
    pub fn should_export_dynamic(&self) -> bool
        ensures { IsTrue result }
    {
        true
    }

    /// Whether sections of one name are merged: always.
    pub fn should_merge_sections(&self) -> bool
        ensures { IsTrue result }
    {
        true
    }

    /// The alignment of segments, 16,384 bytes.
    pub fn loadable_segment_alignment(&self) -> u64
        ensures { result ≡ 16384 }
    {
        SEGMENT_ALIGNMENT
    }

    /// Whether the flag, without its `-`, is taken and ignored: `export_dynamic`, `O0`, `O1`, `O2` or `O3`.
    pub fn is_ignored_flag(flag: &str) -> bool
        ensures { result ≡ list_any (λ name. bytes_eq name flag.now) ignored_flags }
    {
        IGNORED_FLAGS.contains(&flag)
    }
}
