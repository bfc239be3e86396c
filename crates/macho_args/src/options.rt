//! The options, and the names by which words choose them (the manual page ld(1) describes Apple's).
//!
//! ```text
//! -dylib                        a flag: no value
//! -o out                        a value: the next word, whatever it is
//! -platform_version macos 14 15 three values
//! -L/lib, -L /lib               the value behind the two letters, or the next word
//! main.o                        no option: an input
//! ```

ghost use Rattle.std.specs.Prelude.{◌≡◌, map};
ghost use Rattle.std.specs.Map.{lookup};
ghost use Rattle.std.specs.Str.{bytes_eq};
ghost use Rattle.macho_args.specs.Options.{option_named as option_of};
ghost use Rattle.macho_args.specs.steps.Options.{plain_row};

/// What a word that is an option's name stands for.
#[derive(Clone, Copy)]
pub(crate) enum LinkOption {
    /// It sets a flag, and takes no value.
    Sets(Flag),
    /// It takes the next word as its value.
    Takes(Valued),
    /// It takes a platform, the lowest version of the system, and the version of the SDK.
    PlatformVersion,
    /// It takes no value, and does nothing.
    Ignored,
    /// It isn't supported.
    Refused,
}

/// A field that an option sets to true.
#[derive(Clone, Copy)]
pub(crate) enum Flag {
    Dylib,
    DeadStripDylibs,
    HeaderpadMaxInstallNames,
    Map,
}

/// An option with one value.
#[derive(Clone, Copy)]
pub(crate) enum Valued {
    Output,
    Entry,
    InstallName,
    LtoLibrary,
    ExportedSymbolsList,
    Rpath,
    LibraryPath,
    FrameworkPath,
    Root,
    Library,
    Framework,
    Arch,
    Mllvm,
    Uuid,
    Generate,
}

/// The names, and the option that each stands for.
const OPTIONS: [(&str, LinkOption); 36] = [
    ("-dylib", LinkOption::Sets(Flag::Dylib)),
    (
        "-dead_strip_dylibs",
        LinkOption::Sets(Flag::DeadStripDylibs),
    ),
    (
        "-headerpad_max_install_names",
        LinkOption::Sets(Flag::HeaderpadMaxInstallNames),
    ),
    ("-map", LinkOption::Sets(Flag::Map)),
    ("-o", LinkOption::Takes(Valued::Output)),
    ("-output", LinkOption::Takes(Valued::Output)),
    ("-e", LinkOption::Takes(Valued::Entry)),
    ("-install_name", LinkOption::Takes(Valued::InstallName)),
    ("-lto_library", LinkOption::Takes(Valued::LtoLibrary)),
    (
        "-exported_symbols_list",
        LinkOption::Takes(Valued::ExportedSymbolsList),
    ),
    ("-rpath", LinkOption::Takes(Valued::Rpath)),
    ("-L", LinkOption::Takes(Valued::LibraryPath)),
    ("-F", LinkOption::Takes(Valued::FrameworkPath)),
    ("-syslibroot", LinkOption::Takes(Valued::Root)),
    ("-l", LinkOption::Takes(Valued::Library)),
    ("-framework", LinkOption::Takes(Valued::Framework)),
    ("-arch", LinkOption::Takes(Valued::Arch)),
    ("-mllvm", LinkOption::Takes(Valued::Mllvm)),
    ("-uuid", LinkOption::Takes(Valued::Uuid)),
    ("-generate", LinkOption::Takes(Valued::Generate)),
    ("-platform_version", LinkOption::PlatformVersion),
    ("-no_deduplicate", LinkOption::Ignored),
    ("-search_paths_first", LinkOption::Ignored),
    ("-no_warn_duplicate_libraries", LinkOption::Ignored),
    ("-demangle", LinkOption::Ignored),
    ("-dynamic", LinkOption::Ignored),
    ("-init_offsets", LinkOption::Ignored),
    ("-dead_strip", LinkOption::Ignored),
    ("-export_dynamic", LinkOption::Ignored),
    ("-O0", LinkOption::Ignored),
    ("-O1", LinkOption::Ignored),
    ("-O2", LinkOption::Ignored),
    ("-O3", LinkOption::Ignored),
    ("-sectcreate", LinkOption::Refused),
    ("-help", LinkOption::Refused),
    ("-version", LinkOption::Refused),
];

/// The option whose name is the word.
pub(crate) fn option_named(word: &str) -> Option<LinkOption>
    ensures { result ≡ option_of word.now }
{
    named(&OPTIONS, word)
}

// The option at the first row whose name is the word.
fn named(rows: &[(&str, LinkOption)], word: &str) -> Option<LinkOption>
    ensures { result ≡ lookup (λ name. bytes_eq name word.now) (map plain_row rows.now) }
{
    for row in rows {
        if row.0 == word {
            return Some(row.1);
        }
    }
    None
}
