//! The options by name, as the manual pages ld(1) of ld64 and of LLVM's lld describe them.
//!
//! ```text
//! -dylib                 an option without operands
//! -o out                 one operand: the next word, whatever it is
//! -arch arm64            a row of its own for this operand; a later row holds for any other
//! -weak-lz               the operand `z` follows the name in the same word
//! ```

ghost use Rattle.std.specs.Prelude.{◌≡◌, map, drop, length, nat_eq, if◌then◌else◌, Some, None};
ghost use Rattle.std.specs.List.{find, starts_with};
ghost use Rattle.std.specs.Option.{option_map, option_copied};
ghost use Rattle.std.specs.String.{string_bytes};
ghost use Rattle.ld64_words.specs.Rows.{TAKEN as taken_rows, OTHERS as other_rows, fits, row_for as row_of, count_of, first_of, operand_of, row_said};
ghost use Rattle.ld64_words.specs.steps.Rows.{plain_row};

use crate::effects::Effect::{
    First, Ignored, Kept, Lowest, Marked, Noted, Path, Refused, Renamed, Unread,
};
use crate::effects::{CoreName, Effect, Note, Why};
use crate::table::Operands::{Behind, Joined};

/// Where the operands of an option stand.
#[derive(Clone, Copy)]
pub enum Operands {
    /// So many words behind the option are its operands. (For an option that is refused they aren't counted.)
    Behind(usize),
    /// What follows the name in the same word is its operand.
    Joined,
}

impl Operands {
    /// How many words behind the option are its operands.
    pub fn count(self) -> usize
        ensures { result ≡ count_of self }
    {
        match self {
            Operands::Behind(count) => count,
            Operands::Joined => 0,
        }
    }
}

/// An option: its name, its operands, and what it does.
#[derive(Clone, Copy)]
pub struct Row {
    /// The name: the whole word, or what the word begins with if the operand is joined. That of an input is empty.
    pub name: &'static str,
    /// The text that the first operand has to be; any, where this is empty.
    pub first: &'static str,
    /// The operands.
    pub operands: Operands,
    /// What it does.
    pub effect: Effect,
}

// The name, the first operand, the operands, and what the option does.
type TableRow = (&'static str, &'static str, Operands, Effect);

/// A word that is no option: the path of an input.
const INPUT: Row = Row {
    name: "",
    first: "",
    operands: Behind(0),
    effect: Kept,
};

/// The options that are taken, by their whole names. The first row that fits counts.
const TAKEN: [TableRow; 130] = [
    ("-arch", "arm64", Behind(1), Kept),
    ("-platform_version", "macos", Behind(3), Kept),
    ("-undefined", "error", Behind(1), Ignored(Why::Default)),
    (
        "-commons",
        "ignore_dylibs",
        Behind(1),
        Ignored(Why::Default),
    ),
    (
        "-weak_reference_mismatches",
        "non-weak",
        Behind(1),
        Ignored(Why::Default),
    ),
    ("-dylib", "", Behind(0), Kept),
    ("-dead_strip_dylibs", "", Behind(0), Kept),
    ("-headerpad_max_install_names", "", Behind(0), Kept),
    ("-o", "", Behind(1), Kept),
    ("-e", "", Behind(1), Kept),
    ("-install_name", "", Behind(1), Kept),
    ("-exported_symbols_list", "", Behind(1), Kept),
    ("-rpath", "", Behind(1), Kept),
    ("-L", "", Behind(1), Kept),
    ("-F", "", Behind(1), Kept),
    ("-l", "", Behind(1), Kept),
    ("-framework", "", Behind(1), Kept),
    (
        "-dylib_install_name",
        "",
        Behind(1),
        Renamed(CoreName::InstallName),
    ),
    ("-syslibroot", "", Behind(1), First(CoreName::Root)),
    ("-final_output", "", Behind(1), First(CoreName::InstallName)),
    ("-macos_version_min", "", Behind(1), Lowest),
    ("-macosx_version_min", "", Behind(1), Lowest),
    ("-v", "", Behind(0), Noted(Note::Version)),
    ("-version_details", "", Behind(0), Noted(Note::Version)),
    ("--version", "", Behind(0), Noted(Note::Version)),
    ("-fatal_warnings", "", Behind(0), Noted(Note::FatalWarnings)),
    ("-all_load", "", Behind(0), Noted(Note::AllMembers)),
    ("-ObjC", "", Behind(0), Noted(Note::ObjcMembers)),
    ("-map", "", Behind(1), Noted(Note::MapFile)),
    (
        "-current_version",
        "",
        Behind(1),
        Noted(Note::CurrentVersion),
    ),
    (
        "-dylib_current_version",
        "",
        Behind(1),
        Noted(Note::CurrentVersion),
    ),
    (
        "-compatibility_version",
        "",
        Behind(1),
        Noted(Note::CompatibilityVersion),
    ),
    (
        "-dylib_compatibility_version",
        "",
        Behind(1),
        Noted(Note::CompatibilityVersion),
    ),
    ("-headerpad", "", Behind(1), Noted(Note::HeaderRoom)),
    ("-u", "", Behind(1), Noted(Note::WantedSymbol)),
    ("-force_load", "", Behind(1), Path(Note::AllMembersOf)),
    ("-weak_library", "", Behind(1), Path(Note::WeakFile)),
    ("-needed_library", "", Behind(1), Path(Note::NeededFile)),
    (
        "-weak_framework",
        "",
        Behind(1),
        Marked(CoreName::Framework, Note::WeakFramework),
    ),
    (
        "-needed_framework",
        "",
        Behind(1),
        Marked(CoreName::Framework, Note::NeededFramework),
    ),
    ("-filelist", "", Behind(1), Unread),
    ("-execute", "", Behind(0), Ignored(Why::Default)),
    ("-dynamic", "", Behind(0), Ignored(Why::Default)),
    ("-search_paths_first", "", Behind(0), Ignored(Why::Default)),
    ("-twolevel_namespace", "", Behind(0), Ignored(Why::Default)),
    ("-noall_load", "", Behind(0), Ignored(Why::Default)),
    ("-fixup_chains", "", Behind(0), Ignored(Why::Default)),
    ("-init_offsets", "", Behind(0), Ignored(Why::Default)),
    (
        "-no_application_extension",
        "",
        Behind(0),
        Ignored(Why::Default),
    ),
    ("-no_encryption", "", Behind(0), Ignored(Why::Default)),
    (
        "-version_load_command",
        "",
        Behind(0),
        Ignored(Why::Default),
    ),
    ("-pie", "", Behind(0), Ignored(Why::Slides)),
    ("-no_pie", "", Behind(0), Ignored(Why::Slides)),
    ("-adhoc_codesign", "", Behind(0), Ignored(Why::Signed)),
    ("-bind_at_load", "", Behind(0), Ignored(Why::Bound)),
    ("-x", "", Behind(0), Ignored(Why::StripsNothing)),
    ("-S", "", Behind(0), Ignored(Why::StripsNothing)),
    ("-dead_strip", "", Behind(0), Ignored(Why::StripsNothing)),
    (
        "-no_dead_strip_inits_and_terms",
        "",
        Behind(0),
        Ignored(Why::StripsNothing),
    ),
    (
        "-no_deduplicate",
        "",
        Behind(0),
        Ignored(Why::MergesNothing),
    ),
    (
        "-no_objc_category_merging",
        "",
        Behind(0),
        Ignored(Why::MergesNothing),
    ),
    (
        "-no_objc_relative_method_lists",
        "",
        Behind(0),
        Ignored(Why::MergesNothing),
    ),
    (
        "-allow_dead_duplicates",
        "",
        Behind(0),
        Ignored(Why::MergesNothing),
    ),
    ("-export_dynamic", "", Behind(0), Ignored(Why::ExportsAll)),
    ("-no_function_starts", "", Behind(0), Ignored(Why::NoTables)),
    (
        "-no_data_in_code_info",
        "",
        Behind(0),
        Ignored(Why::NoTables),
    ),
    ("-no_source_version", "", Behind(0), Ignored(Why::NoTables)),
    ("-no_branch_islands", "", Behind(0), Ignored(Why::NoIslands)),
    (
        "-ignore_optimization_hints",
        "",
        Behind(0),
        Ignored(Why::NoIslands),
    ),
    ("-ignore_auto_link", "", Behind(0), Ignored(Why::NoOptions)),
    (
        "-ignore_auto_link_option",
        "",
        Behind(1),
        Ignored(Why::NoOptions),
    ),
    ("-w", "", Behind(0), Ignored(Why::NoWarnings)),
    ("-t", "", Behind(0), Ignored(Why::NoWarnings)),
    ("-whyload", "", Behind(0), Ignored(Why::NoWarnings)),
    ("-why_load", "", Behind(0), Ignored(Why::NoWarnings)),
    ("-demangle", "", Behind(0), Ignored(Why::NoWarnings)),
    ("-print_statistics", "", Behind(0), Ignored(Why::NoWarnings)),
    (
        "-arch_errors_fatal",
        "",
        Behind(0),
        Ignored(Why::NoWarnings),
    ),
    ("-no_arch_warnings", "", Behind(0), Ignored(Why::NoWarnings)),
    ("-warn_commons", "", Behind(0), Ignored(Why::NoWarnings)),
    (
        "-warn_weak_exports",
        "",
        Behind(0),
        Ignored(Why::NoWarnings),
    ),
    (
        "-warn_compact_unwind",
        "",
        Behind(0),
        Ignored(Why::NoWarnings),
    ),
    (
        "-warn_unused_dylibs",
        "",
        Behind(0),
        Ignored(Why::NoWarnings),
    ),
    (
        "-no_warn_unused_dylibs",
        "",
        Behind(0),
        Ignored(Why::NoWarnings),
    ),
    (
        "-warn_duplicate_libraries",
        "",
        Behind(0),
        Ignored(Why::NoWarnings),
    ),
    (
        "-no_warn_duplicate_libraries",
        "",
        Behind(0),
        Ignored(Why::NoWarnings),
    ),
    ("-no_warn_inits", "", Behind(0), Ignored(Why::NoWarnings)),
    ("-whatsloaded", "", Behind(0), Ignored(Why::NoWarnings)),
    ("-debug_variant", "", Behind(0), Ignored(Why::NoWarnings)),
    (
        "--color-diagnostics",
        "",
        Behind(0),
        Ignored(Why::NoWarnings),
    ),
    (
        "-color-diagnostics",
        "",
        Behind(0),
        Ignored(Why::NoWarnings),
    ),
    ("-why_live", "", Behind(1), Ignored(Why::NoWarnings)),
    ("-single_module", "", Behind(0), Ignored(Why::Obsolete)),
    ("-multi_module", "", Behind(0), Ignored(Why::Obsolete)),
    (
        "-twolevel_namespace_hints",
        "",
        Behind(0),
        Ignored(Why::Obsolete),
    ),
    ("-prebind", "", Behind(0), Ignored(Why::Obsolete)),
    ("-noprebind", "", Behind(0), Ignored(Why::Obsolete)),
    ("-nofixprebinding", "", Behind(0), Ignored(Why::Obsolete)),
    (
        "-prebind_all_twolevel_modules",
        "",
        Behind(0),
        Ignored(Why::Obsolete),
    ),
    (
        "-noprebind_all_twolevel_modules",
        "",
        Behind(0),
        Ignored(Why::Obsolete),
    ),
    ("-no_eh_labels", "", Behind(0), Ignored(Why::Obsolete)),
    (
        "-keep_private_externs",
        "",
        Behind(0),
        Ignored(Why::Obsolete),
    ),
    ("-d", "", Behind(0), Ignored(Why::Obsolete)),
    ("-arch_multiple", "", Behind(0), Ignored(Why::Obsolete)),
    (
        "-force_cpusubtype_ALL",
        "",
        Behind(0),
        Ignored(Why::Obsolete),
    ),
    ("-nomultidefs", "", Behind(0), Ignored(Why::Obsolete)),
    ("-noseglinkedit", "", Behind(0), Ignored(Why::Obsolete)),
    ("-ld_classic", "", Behind(0), Ignored(Why::Obsolete)),
    ("-ld_new", "", Behind(0), Ignored(Why::Obsolete)),
    ("-multiply_defined", "", Behind(1), Ignored(Why::Obsolete)),
    (
        "-multiply_defined_unused",
        "",
        Behind(1),
        Ignored(Why::Obsolete),
    ),
    ("-reproducible", "", Behind(0), Ignored(Why::SameBytes)),
    ("-O0", "", Behind(0), Ignored(Why::SameBytes)),
    ("-O1", "", Behind(0), Ignored(Why::SameBytes)),
    ("-O2", "", Behind(0), Ignored(Why::SameBytes)),
    ("-O3", "", Behind(0), Ignored(Why::SameBytes)),
    ("-lto_library", "", Behind(1), Ignored(Why::NoLto)),
    ("-object_path_lto", "", Behind(1), Ignored(Why::NoLto)),
    ("-cache_path_lto", "", Behind(1), Ignored(Why::NoLto)),
    ("-prune_interval_lto", "", Behind(1), Ignored(Why::NoLto)),
    ("-prune_after_lto", "", Behind(1), Ignored(Why::NoLto)),
    (
        "-max_relative_cache_size_lto",
        "",
        Behind(1),
        Ignored(Why::NoLto),
    ),
    ("-mcpu", "", Behind(1), Ignored(Why::NoLto)),
    ("-mllvm", "", Behind(1), Ignored(Why::NoLto)),
    ("-oso_prefix", "", Behind(1), Ignored(Why::NoDebugMap)),
    ("-add_ast_path", "", Behind(1), Ignored(Why::NoDebugMap)),
    (
        "-executable_path",
        "",
        Behind(1),
        Ignored(Why::NoDependents),
    ),
    ("-dylib_file", "", Behind(1), Ignored(Why::NoDependents)),
    ("-client_name", "", Behind(1), Ignored(Why::NoDependents)),
    (
        "-dependency_info",
        "",
        Behind(1),
        Ignored(Why::NoDependencyFile),
    ),
];

/// The options that are refused, and behind them those whose operand is joined. They count where none is taken by its whole name.
const OTHERS: [TableRow; 129] = [
    ("-r", "", Behind(0), Refused(Why::OtherOutput)),
    ("-bundle", "", Behind(0), Refused(Why::OtherOutput)),
    ("-private_bundle", "", Behind(0), Refused(Why::OtherOutput)),
    ("-static", "", Behind(0), Refused(Why::OtherOutput)),
    ("-preload", "", Behind(0), Refused(Why::OtherOutput)),
    ("-kext", "", Behind(0), Refused(Why::OtherOutput)),
    ("-dylinker", "", Behind(0), Refused(Why::OtherOutput)),
    ("-bundle_loader", "", Behind(0), Refused(Why::OtherOutput)),
    (
        "-dylinker_install_name",
        "",
        Behind(0),
        Refused(Why::OtherOutput),
    ),
    ("-arch", "", Behind(0), Refused(Why::OtherTarget)),
    (
        "-platform_version",
        "",
        Behind(0),
        Refused(Why::OtherTarget),
    ),
    ("-ios_version_min", "", Behind(0), Refused(Why::OtherTarget)),
    (
        "-iphoneos_version_min",
        "",
        Behind(0),
        Refused(Why::OtherTarget),
    ),
    (
        "-ios_simulator_version_min",
        "",
        Behind(0),
        Refused(Why::OtherTarget),
    ),
    (
        "-maccatalyst_version_min",
        "",
        Behind(0),
        Refused(Why::OtherTarget),
    ),
    (
        "-tvos_version_min",
        "",
        Behind(0),
        Refused(Why::OtherTarget),
    ),
    (
        "-watchos_version_min",
        "",
        Behind(0),
        Refused(Why::OtherTarget),
    ),
    ("-sdk_version", "", Behind(0), Refused(Why::SdkVersion)),
    ("-undefined", "", Behind(0), Refused(Why::LooksUp)),
    ("-U", "", Behind(0), Refused(Why::LooksUp)),
    ("-flat_namespace", "", Behind(0), Refused(Why::LooksUp)),
    (
        "-force_flat_namespace",
        "",
        Behind(0),
        Refused(Why::LooksUp),
    ),
    ("-commons", "", Behind(0), Refused(Why::OneDefinition)),
    (
        "-weak_reference_mismatches",
        "",
        Behind(0),
        Refused(Why::OneDefinition),
    ),
    ("-interposable", "", Behind(0), Refused(Why::OneDefinition)),
    (
        "-interposable_list",
        "",
        Behind(0),
        Refused(Why::OneDefinition),
    ),
    ("-order_file", "", Behind(0), Refused(Why::Order)),
    ("-order_file_statistics", "", Behind(0), Refused(Why::Order)),
    ("-sectorder", "", Behind(0), Refused(Why::Order)),
    ("-sectcreate", "", Behind(0), Refused(Why::FromFile)),
    ("-sectalign", "", Behind(0), Refused(Why::FromFile)),
    ("-sectobjectsymbols", "", Behind(0), Refused(Why::FromFile)),
    ("-segcreate", "", Behind(0), Refused(Why::FromFile)),
    ("-image_base", "", Behind(0), Refused(Why::Placed)),
    ("-seg1addr", "", Behind(0), Refused(Why::Placed)),
    ("-segaddr", "", Behind(0), Refused(Why::Placed)),
    ("-segprot", "", Behind(0), Refused(Why::Placed)),
    ("-segalign", "", Behind(0), Refused(Why::Placed)),
    ("-seg_page_size", "", Behind(0), Refused(Why::Placed)),
    ("-seg_addr_table", "", Behind(0), Refused(Why::Placed)),
    (
        "-seg_addr_table_filename",
        "",
        Behind(0),
        Refused(Why::Placed),
    ),
    ("-segs_read_only_addr", "", Behind(0), Refused(Why::Placed)),
    ("-segs_read_write_addr", "", Behind(0), Refused(Why::Placed)),
    ("-read_only_relocs", "", Behind(0), Refused(Why::Placed)),
    ("-pagezero_size", "", Behind(0), Refused(Why::Placed)),
    ("-rename_section", "", Behind(0), Refused(Why::Placed)),
    ("-rename_segment", "", Behind(0), Refused(Why::Placed)),
    ("-move_to_rw_segment", "", Behind(0), Refused(Why::Placed)),
    ("-move_to_ro_segment", "", Behind(0), Refused(Why::Placed)),
    ("-no_data_const", "", Behind(0), Refused(Why::Placed)),
    ("-data_const", "", Behind(0), Refused(Why::Placed)),
    ("-stack_size", "", Behind(0), Refused(Why::Stack)),
    ("-stack_addr", "", Behind(0), Refused(Why::Stack)),
    ("-allow_stack_execute", "", Behind(0), Refused(Why::Stack)),
    ("-allow_heap_execute", "", Behind(0), Refused(Why::Stack)),
    ("-exported_symbol", "", Behind(0), Refused(Why::Exports)),
    ("-unexported_symbol", "", Behind(0), Refused(Why::Exports)),
    (
        "-unexported_symbols_list",
        "",
        Behind(0),
        Refused(Why::Exports),
    ),
    (
        "-reexported_symbols_list",
        "",
        Behind(0),
        Refused(Why::Exports),
    ),
    ("-no_exported_symbols", "", Behind(0), Refused(Why::Exports)),
    ("-no_weak_exports", "", Behind(0), Refused(Why::Exports)),
    ("-no_weak_imports", "", Behind(0), Refused(Why::Exports)),
    ("-alias", "", Behind(0), Refused(Why::Exports)),
    ("-alias_list", "", Behind(0), Refused(Why::Exports)),
    (
        "-exported_symbols_order",
        "",
        Behind(0),
        Refused(Why::Exports),
    ),
    ("-reexport_library", "", Behind(0), Refused(Why::Reexports)),
    (
        "-reexport_framework",
        "",
        Behind(0),
        Refused(Why::Reexports),
    ),
    ("-sub_library", "", Behind(0), Refused(Why::Reexports)),
    ("-sub_umbrella", "", Behind(0), Refused(Why::Reexports)),
    ("-umbrella", "", Behind(0), Refused(Why::Reexports)),
    ("-allowable_client", "", Behind(0), Refused(Why::Reexports)),
    ("-upward_library", "", Behind(0), Refused(Why::Reexports)),
    ("-upward_framework", "", Behind(0), Refused(Why::Reexports)),
    ("-merge_library", "", Behind(0), Refused(Why::Reexports)),
    ("-merge_framework", "", Behind(0), Refused(Why::Reexports)),
    ("-lazy_library", "", Behind(0), Refused(Why::Lazy)),
    ("-lazy_framework", "", Behind(0), Refused(Why::Lazy)),
    ("-delay_library", "", Behind(0), Refused(Why::Lazy)),
    ("-delay_framework", "", Behind(0), Refused(Why::Lazy)),
    ("-load_hidden", "", Behind(0), Refused(Why::Hides)),
    ("-s", "", Behind(0), Refused(Why::Strips)),
    (
        "-non_global_symbols_no_strip_list",
        "",
        Behind(0),
        Refused(Why::Strips),
    ),
    (
        "-non_global_symbols_strip_list",
        "",
        Behind(0),
        Refused(Why::Strips),
    ),
    (
        "-no_adhoc_codesign",
        "",
        Behind(0),
        Refused(Why::SignatureStands),
    ),
    ("-no_uuid", "", Behind(0), Refused(Why::UuidStands)),
    ("-random_uuid", "", Behind(0), Refused(Why::UuidStands)),
    (
        "-no_version_load_command",
        "",
        Behind(0),
        Refused(Why::Commands),
    ),
    ("-source_version", "", Behind(0), Refused(Why::Commands)),
    ("-add_source_version", "", Behind(0), Refused(Why::Commands)),
    ("-function_starts", "", Behind(0), Refused(Why::Commands)),
    ("-data_in_code_info", "", Behind(0), Refused(Why::Commands)),
    (
        "-mark_dead_strippable_dylib",
        "",
        Behind(0),
        Refused(Why::Commands),
    ),
    (
        "-application_extension",
        "",
        Behind(0),
        Refused(Why::Commands),
    ),
    ("-encryptable", "", Behind(0), Refused(Why::Commands)),
    ("-no_fixup_chains", "", Behind(0), Refused(Why::Chains)),
    ("-fixup_chains_section", "", Behind(0), Refused(Why::Chains)),
    ("-no_init_offsets", "", Behind(0), Refused(Why::Chains)),
    ("-no_compact_unwind", "", Behind(0), Refused(Why::Unwind)),
    ("-keep_dwarf_unwind", "", Behind(0), Refused(Why::Unwind)),
    ("-no_keep_dwarf_unwind", "", Behind(0), Refused(Why::Unwind)),
    ("-objc_stubs_fast", "", Behind(0), Refused(Why::ObjcStubs)),
    ("-objc_stubs_small", "", Behind(0), Refused(Why::ObjcStubs)),
    (
        "-objc_relative_method_lists",
        "",
        Behind(0),
        Refused(Why::ObjcStubs),
    ),
    ("-init", "", Behind(0), Refused(Why::Initializers)),
    ("-no_inits", "", Behind(0), Refused(Why::Initializers)),
    ("-Z", "", Behind(0), Refused(Why::Searches)),
    (
        "-search_dylibs_first",
        "",
        Behind(0),
        Refused(Why::Searches),
    ),
    ("-no_implicit_dylibs", "", Behind(0), Refused(Why::Searches)),
    ("-bitcode_bundle", "", Behind(0), Refused(Why::Bitcode)),
    (
        "-bitcode_hide_symbols",
        "",
        Behind(0),
        Refused(Why::Bitcode),
    ),
    ("-bitcode_symbol_map", "", Behind(0), Refused(Why::Bitcode)),
    ("-flto", "", Behind(0), Refused(Why::Bitcode)),
    (
        "-weak-l",
        "",
        Joined,
        Marked(CoreName::Library, Note::WeakLibrary),
    ),
    (
        "-needed-l",
        "",
        Joined,
        Marked(CoreName::Library, Note::NeededLibrary),
    ),
    ("-reexport-l", "", Joined, Refused(Why::Reexports)),
    ("-upward-l", "", Joined, Refused(Why::Reexports)),
    ("-merge-l", "", Joined, Refused(Why::Reexports)),
    ("-lazy-l", "", Joined, Refused(Why::Lazy)),
    ("-delay-l", "", Joined, Refused(Why::Lazy)),
    ("-hidden-l", "", Joined, Refused(Why::Hides)),
    ("-l", "", Joined, Kept),
    ("-L", "", Joined, Kept),
    ("-F", "", Joined, Kept),
    ("--threads=", "", Joined, Ignored(Why::SameBytes)),
    ("--color-diagnostics=", "", Joined, Ignored(Why::NoWarnings)),
    ("--error-limit=", "", Joined, Ignored(Why::NoWarnings)),
    ("--icf=", "", Joined, Ignored(Why::MergesNothing)),
    ("@", "", Joined, Unread),
    ("-", "", Joined, Refused(Why::Unknown)),
];

/// The row of a word, where these words stand behind it.
#[tactic(auto, unfolding(crate::specs::Rows::row_for))]
pub fn row_for(word: &str, behind: &[String]) -> Row
    ensures { row_said result ≡ row_of word.now (map string_bytes behind.now) }
{
    let first = first_operand(behind);
    if let Some(row) = taken_row(word, first) {
        return row;
    }
    match other_row(word, first) {
        Some(row) => row,
        None => INPUT,
    }
}

// The first row of a taken option that fits a word with this first operand.
fn taken_row(word: &str, first: &str) -> Option<Row>
    ensures { option_map row_said result ≡ find (fits word.now first.now) taken_rows }
{
    first_row(&TAKEN, word, first)
}

// The first other row that fits a word with this first operand.
fn other_row(word: &str, first: &str) -> Option<Row>
    ensures { option_map row_said result ≡ find (fits word.now first.now) other_rows }
{
    first_row(&OTHERS, word, first)
}

// The first word, or an empty text where there is none.
fn first_operand(behind: &[String]) -> &str
    ensures { result.now ≡ first_of (map string_bytes behind.now) }
{
    match behind {
        [first, ..] => first.as_str(),
        [] => "",
    }
}

/// The operand of an option: what follows its name in the same word, or the first word behind it.
pub(crate) fn operand<'a>(row: Row, word: &'a str, behind: &'a [String]) -> &'a str
    ensures { result.now ≡ operand_of (row_said row) word.now (map string_bytes behind.now) }
{
    match row.operands {
        Operands::Behind(_) => first_operand(behind),
        Operands::Joined => match after_prefix(word, row.name) {
            Some(text) => text,
            None => "",
        },
    }
}

// What follows this text in the word, if the word begins with it.
fn after_prefix<'a>(word: &'a str, prefix: &str) -> Option<&'a str>
    ensures { option_copied result
        ≡ (if starts_with nat_eq word.now prefix.now then Some (drop (length prefix.now) word.now) else None) }
{
    word.strip_prefix(prefix)
}

// The first row that fits a word with this first operand.
fn first_row(rows: &[TableRow], word: &str, first: &str) -> Option<Row>
    ensures { option_map row_said result ≡ find (fits word.now first.now) (map plain_row rows.now) }
{
    for row in rows {
        if row_fits(row, word, first) {
            return Some(Row {
                name: row.0,
                first: row.1,
                operands: row.2,
                effect: row.3,
            });
        }
    }
    None
}

// Whether a row fits a word with this first operand.
#[tactic(auto, unfolding(crate::specs::Rows::fits))]
fn row_fits(row: &TableRow, word: &str, first: &str) -> bool
    ensures { result ≡ fits word.now first.now (plain_row row.now) }
{
    let named = match row.2 {
        Operands::Behind(_) => row.0 == word,
        Operands::Joined => begins_with(word, row.0),
    };
    named && (row.1.is_empty() || row.1 == first)
}

/// Whether the word begins with this text.
pub(crate) fn begins_with(word: &str, text: &str) -> bool
    ensures { result ≡ starts_with nat_eq word.now text.now }
{
    word.starts_with(text)
}
