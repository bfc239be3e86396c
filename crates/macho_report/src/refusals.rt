//! The line of a refusal of the linker, by what it is of.

ghost use Rattle.std.specs.Prelude.{◌≡◌, true};
ghost use Rattle.macho_answer.specs.declared.fault.LinkError.TheVariants.{BadInput};
ghost use Rattle.macho_job.specs.Names.{names_of};
ghost use Rattle.macho_report.specs.Lines.{line_of, error_text, site_text};
ghost use Rattle.macho_printing.specs.Printing.{IsPrinted};
ghost use Rattle.macho_report.specs.steps.Groups.{is_of_name, is_of_section, is_of_relocation};

use crate::rules::{limit_name, object_rule, stub_rule, unwind_rule};
use crate::shapes::{
    print_duplicate, print_initializer, print_many, print_named, print_numbered, print_overlap,
    print_relocation, print_rule, print_text, print_undefined, print_unwind,
};
use macho_devices::{Sink, SinkFault};
use macho_job::{FileNames, InputFault, LinkError};
use macho_model::Site;

/// The refusal of a linker, by what it is of.
pub(crate) fn print_error<E: Sink>(
    err: &mut E,
    names: &FileNames,
    error: &LinkError,
) -> Result<(), SinkFault>
    ensures { IsPrinted (E.state err.old) (E.state err.new)
        (line_of (error_text (names_of names.now) error.now)) result }
{
    match error {
        LinkError::DuplicateSymbol { .. }
        | LinkError::UndefinedSymbol { .. }
        | LinkError::EntryNotDefined { .. }
        | LinkError::ExportListMissing { .. } => print_of_name(err, names, error),
        LinkError::BadInitializer { .. }
        | LinkError::BadUnwind { .. }
        | LinkError::OverlappingFields { .. } => print_of_section(err, names, error),
        LinkError::UnsupportedRelocation { .. }
        | LinkError::BindAddend { .. }
        | LinkError::FixupPlace { .. } => print_of_relocation(err, names, error),
        LinkError::TooMany { what, number, .. } => print_many(err, limit_name(*what), *number),
        LinkError::ImageTooLarge { .. } => print_text(err, b"image too large"),
        LinkError::RebaseTarget { at, .. } => print_site(err, names, *at, b"bad target"),
        LinkError::RelocationRange { at, .. } => print_site(err, names, *at, b"out of range"),
        LinkError::BadName => print_text(err, b"bad name"),
        LinkError::BadInput { fault } => print_broken(err, names, fault),
        LinkError::OutOfMemory => print_text(err, b"out of memory"),
    }
}

// A name that has two definitions, or none.
fn print_of_name<E: Sink>(
    err: &mut E,
    names: &FileNames,
    error: &LinkError,
) -> Result<(), SinkFault>
    requires { is_of_name error.now ≡ true }
    ensures { IsPrinted (E.state err.old) (E.state err.new)
        (line_of (error_text (names_of names.now) error.now)) result }
{
    match error {
        LinkError::DuplicateSymbol {
            name,
            first,
            second,
        } => { print_duplicate(err, name, names.path(*first), names.path(*second)) }
        LinkError::UndefinedSymbol { name, file } => {
            print_undefined(err, name, names.path(*file))
        }
        LinkError::EntryNotDefined { name } => {
            print_named(err, b"entry symbol ", name, b" is not defined")
        }
        LinkError::ExportListMissing { name } => {
            print_named(err, b"exported symbol not defined: ", name, b"")
        }
        _ => unreachable!(),
    }
}

// A part of a section that breaks its rule.
fn print_of_section<E: Sink>(
    err: &mut E,
    names: &FileNames,
    error: &LinkError,
) -> Result<(), SinkFault>
    requires { is_of_section error.now ≡ true }
    ensures { IsPrinted (E.state err.old) (E.state err.new)
        (line_of (error_text (names_of names.now) error.now)) result }
{
    match error {
        LinkError::BadInitializer {
            file,
            section,
            offset,
        } => { print_initializer(err, names.path(*file), *section, *offset) }
        LinkError::BadUnwind {
            file,
            entry,
            rule,
            ..
        } => { print_unwind(err, names.path(*file), *entry, unwind_rule(*rule)) }
        LinkError::OverlappingFields {
            file,
            section,
            first,
            second,
        } => { print_overlap(err, names.path(*file), *section, *first, *second) }
        _ => unreachable!(),
    }
}

// A relocation that cannot be met, whatever the addresses are.
fn print_of_relocation<E: Sink>(
    err: &mut E,
    names: &FileNames,
    error: &LinkError,
) -> Result<(), SinkFault>
    requires { is_of_relocation error.now ≡ true }
    ensures { IsPrinted (E.state err.old) (E.state err.new)
        (line_of (error_text (names_of names.now) error.now)) result }
{
    match error {
        LinkError::UnsupportedRelocation {
            file,
            section,
            relocation,
        } => {
            print_relocation(
                err,
                names.path(*file),
                *section,
                *relocation,
                b"unsupported",
            )
        }
        LinkError::BindAddend {
            file,
            section,
            relocation,
            ..
        } => { print_relocation(err, names.path(*file), *section, *relocation, b"bad addend") }
        LinkError::FixupPlace {
            file,
            section,
            relocation,
            ..
        } => { print_relocation(err, names.path(*file), *section, *relocation, b"bad place") }
        _ => unreachable!(),
    }
}

// The rule that an input breaks: that of the last file that was read.
fn print_broken<E: Sink>(
    err: &mut E,
    names: &FileNames,
    fault: &InputFault,
) -> Result<(), SinkFault>
    ensures { IsPrinted (E.state err.old) (E.state err.new)
        (line_of (error_text (names_of names.now) (BadInput fault.now))) result }
{
    match fault {
        InputFault::Object(fault) => {
            print_rule(err, names.last(), object_rule(fault.rule), fault.place)
        }
        InputFault::Stub { line, rule } => print_rule(err, names.last(), stub_rule(*rule), *line),
    }
}

// A place in the image, and what is wrong there.
fn print_site<E: Sink>(
    err: &mut E,
    names: &FileNames,
    at: Site,
    text: &'static [u8],
) -> Result<(), SinkFault>
    ensures { IsPrinted (E.state err.old) (E.state err.new)
        (line_of (site_text (names_of names.now) at text.now)) result }
{
    match at {
        Site::Field {
            file,
            section,
            relocation,
        } => { print_relocation(err, names.path(file), section, relocation, text) }
        Site::Slot { index } => print_numbered(err, b"slot ", u64::from(index), b": ", text),
        Site::Stub { index } => print_numbered(err, b"stub ", u64::from(index), b": ", text),
    }
}
