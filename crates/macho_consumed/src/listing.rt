//! The consumed sections of a link, in order.
ghost use Rattle.std.specs.Prelude.{◌≡◌, ℕ, ◌^◌, ◌<◌, ◌++◌, false, length, get_or, None, Some, IfOk, OnOk};
ghost use Rattle.macho_object.specs.Views.{FileBytes};
ghost use Rattle.macho_model.specs.Objects.{num_sections};
ghost use Rattle.macho_consumed.specs.Kinds.{is_of_kind};
ghost use Rattle.macho_consumed.specs.steps.Listed.{refs_in, refs_of};

use macho_object::{File, view_of};
use macho_records::{SectionHeader, name_bytes};
use std::alloc::{AllocError, Global};

/// A section of an object, by the numbers of both.
#[derive(Clone, Copy)]
pub(crate) struct SectionRef {
    pub(crate) file: u32,
    pub(crate) section: u32,
}

/// What a consumed section holds.
#[derive(Clone, Copy)]
pub enum Kind {
    /// Pointers to functions, in `__mod_init_func`.
    Initializers,
    /// Entries of `__compact_unwind`, some with a personality function.
    Entries,
}

/// Whether a section is consumed, and holds this.
pub fn is_of_kind(kind: Kind, header: SectionHeader) -> bool
    ensures { result ≡ is_of_kind kind header }
{
    let name = name_bytes(&header.sectname);
    let initializers = name == b"__mod_init_func".as_slice();
    let entries = name == b"__compact_unwind".as_slice();
    let consumed = !header.should_exclude() && (initializers || entries);
    match kind {
        Kind::Initializers => consumed && initializers,
        Kind::Entries => consumed && entries,
    }
}

/// Adds the sections of an object.
fn add_sections(
    kind: Kind,
    number: u32,
    file: &File<'_>,
    refs: &mut Vec<SectionRef>,
) -> Result<(), AllocError>
    requires { file.now.is_dynamic ≡ false }
    ensures { OnOk result (refs.new.items ≡ refs.old.items ++ refs_in kind number file.now.bytes (num_sections file.now.bytes)) }
{
    for section in 0..file.num_sections() {
        let Some(header) = file.section(section) else {
            unreachable!()
        };
        if !is_of_kind(kind, header) {
            continue;
        }
        refs.push(SectionRef {
            file: number,
            section,
        })?;
    }
    Ok(())
}

/// The sections of a kind, by file, then section.
pub(crate) fn sections(
    alloc: Global,
    files: &[Option<File<'_>>],
    kind: Kind,
) -> Result<Vec<SectionRef>, AllocError>
    requires few { length files.now < 2 ^ 32 }
    requires objects { (k : ℕ) (f : FileBytes) → k < length files.now → get_or files.now k None ≡ Some f → f.is_dynamic ≡ false }
    ensures { IfOk result (λ v. v.items ≡ refs_of kind files.now (length files.now)) }
{
    let mut refs = Vec::new(alloc);
    for number in 0..files.len() as u32 {
        match view_of(files, number) {
            Some(file) => add_sections(kind, number, file, &mut refs)?,
            None => {}
        }
    }
    Ok(refs)
}
