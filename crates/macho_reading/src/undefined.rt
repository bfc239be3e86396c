//! Names of initializers and of personality functions that nothing defines. They are looked for where a section of either is broken:
//! such a name is told before the section. A section that keeps its rules has none.
//!
//!     __mod_init_func     0: a pointer to _gone    8: no relocation     _gone is told, and not the slot at 8
//!     __compact_unwind   16: a pointer to _gone   32: a cut entry       the same
ghost use Rattle.std.specs.Prelude.{◌≡◌, ℕ, ◌^◌, ◌<◌, false, List, length, Contains, IfErr};
ghost use Rattle.macho_model.specs.declared.placed.Counts.{Counts};
ghost use Rattle.macho_model.specs.Objects.{num_sections};
ghost use Rattle.macho_model.specs.Links.{Input, Link, SectionId};
ghost use Rattle.macho_model.specs.Needs.{relocation_in};
ghost use Rattle.macho_model.specs.Uses.{uses_of};
ghost use Rattle.macho_symbol_names.specs.Kept.{Keeps};
ghost use Rattle.macho_answer.specs.Standing.{Stands};
ghost use Rattle.macho_promise.specs.Views.{views_of};
ghost use Rattle.macho_relocation_scan.specs.Surveys.{AreOfInputs};
ghost use Rattle.macho_relocation_scan.specs.steps.Sections.{HasRows, HasObject};
ghost use Rattle.macho_reading.specs.steps.Rows.{IsSymbolPointer};
ghost use Rattle.macho_reading.specs.steps.Uses.{is_placed, is_use, use_of, IsSection};

use macho_answer::LinkError;
use macho_consumed::{Kind, is_of_kind, is_plain_pointer};
use macho_needs::Needs;
use macho_object::{File, RelocationList};
use macho_records::RelocationInfo;

/// Whether a place in a section of so many bytes is that of an initializer, or of an entry's personality function.
fn is_placed(kind: Kind, size: u64, place: u64) -> bool
    ensures { result ≡ is_placed kind size place }
{
    match kind {
        Kind::Initializers => place % 8 == 0 && place / 8 < size / 8,
        Kind::Entries => place % 32 == 16 && place / 32 < size / 32,
    }
}

/// Whether a relocation of a section of so many bytes names an initializer or a personality function.
fn is_use(kind: Kind, size: u64, relocation: RelocationInfo) -> bool
    ensures { result ≡ is_use kind size relocation }
{
    is_placed(kind, size, u64::from(relocation.r_address))
        && relocation.r_extern
        && is_plain_pointer(relocation)
}

/// Notes the use of a symbol.
fn use_symbol(
    needs: &mut Needs<'_>,
    kind: Kind,
    file: u32,
    relocation: RelocationInfo,
) -> Result<(), LinkError>
    requires { IsSymbolPointer needs.old.resolved file relocation }
    ensures why { (l : Link) (counts : Counts) (s : SectionId) (r : ℕ) → Keeps l.inputs needs.old.resolved.files
        → Contains (uses_of l) (use_of kind s r) → relocation ≡ relocation_in l s r → s.file ≡ file → IfErr result (Stands l counts) }
    ensures kept { (inputs : List Input) → Keeps inputs needs.old.resolved.files → Keeps inputs needs.new.resolved.files }
{
    match kind {
        Kind::Initializers => needs.use_initializer(file, relocation)?,
        Kind::Entries => needs.use_personality(file, relocation)?,
    };
    Ok(())
}

/// Notes what a section of a kind and of so many bytes uses, in the order of its relocations.
fn use_relocations(
    needs: &mut Needs<'_>,
    list: &RelocationList<'_>,
    kind: Kind,
    size: u64,
    file: u32,
) -> Result<(), LinkError>
    requires section { IsSection needs.old.resolved.files file list.now kind size }
    ensures why { (l : Link) (counts : Counts) → HasObject l file list.now.bytes → Keeps l.inputs needs.old.resolved.files
        → IfErr result (Stands l counts) }
    ensures kept { (inputs : List Input) → Keeps inputs needs.old.resolved.files → Keeps inputs needs.new.resolved.files }
{
    for index in 0..list.num_relocations() {
        let Some(relocation) = list.get(index) else {
            unreachable!()
        };
        if !is_use(kind, size, relocation) {
            continue;
        }
        use_symbol(needs, kind, file, relocation)?;
    }
    Ok(())
}

/// Notes what a section of an object uses, if it is of a kind.
fn use_section(
    needs: &mut Needs<'_>,
    object: &File<'_>,
    kind: Kind,
    file: u32,
    section: u32,
) -> Result<(), LinkError>
    requires kind { object.now.is_dynamic ≡ false }
    requires there { section < num_sections object.now.bytes }
    requires rows { HasRows needs.old.resolved.files file object.now.bytes }
    ensures why { (l : Link) (counts : Counts) → HasObject l file object.now.bytes → Keeps l.inputs needs.old.resolved.files
        → IfErr result (Stands l counts) }
    ensures kept { (inputs : List Input) → Keeps inputs needs.old.resolved.files → Keeps inputs needs.new.resolved.files }
{
    // (the contract of this call says that the file keeps the rules of objects)
    let _whole = object.is_dynamic();
    let Some(header) = object.section(section) else {
        unreachable!()
    };
    let Some(list) = object.relocations(section) else {
        unreachable!()
    };
    if !is_of_kind(kind, header) {
        return Ok(());
    }
    use_relocations(needs, &list, kind, header.size, file)
}

/// Notes what the sections of a kind use, in the order of an object's headers.
fn use_object(
    needs: &mut Needs<'_>,
    object: &File<'_>,
    kind: Kind,
    file: u32,
) -> Result<(), LinkError>
    requires kind { object.now.is_dynamic ≡ false }
    requires rows { HasRows needs.old.resolved.files file object.now.bytes }
    ensures why { (l : Link) (counts : Counts) → HasObject l file object.now.bytes → Keeps l.inputs needs.old.resolved.files
        → IfErr result (Stands l counts) }
    ensures kept { (inputs : List Input) → Keeps inputs needs.old.resolved.files → Keeps inputs needs.new.resolved.files }
{
    for section in 0..object.num_sections() {
        use_section(needs, object, kind, file, section)?;
    }
    Ok(())
}

/// Notes what the sections of a kind use, if a file is an object.
fn use_file(
    needs: &mut Needs<'_>,
    views: &[Option<File<'_>>],
    kind: Kind,
    file: u32,
) -> Result<(), LinkError>
    requires there { file < length views.now }
    requires same { AreOfInputs views.now needs.old.resolved.files }
    ensures why { (l : Link) (counts : Counts) → views.now ≡ views_of l → Keeps l.inputs needs.old.resolved.files
        → IfErr result (Stands l counts) }
    ensures kept { (inputs : List Input) → Keeps inputs needs.old.resolved.files → Keeps inputs needs.new.resolved.files }
{
    match &views[file as usize] {
        Some(object) => use_object(needs, object, kind, file),
        None => Ok(()),
    }
}

/// Notes what the sections of a kind use, by file, section and relocation.
fn use_kind(needs: &mut Needs<'_>, views: &[Option<File<'_>>], kind: Kind) -> Result<(), LinkError>
    requires few { length views.now < 2 ^ 32 }
    requires same { AreOfInputs views.now needs.old.resolved.files }
    ensures why { (l : Link) (counts : Counts) → views.now ≡ views_of l → Keeps l.inputs needs.old.resolved.files
        → IfErr result (Stands l counts) }
    ensures kept { (inputs : List Input) → Keeps inputs needs.old.resolved.files → Keeps inputs needs.new.resolved.files }
{
    for file in 0..views.len() as u32 {
        use_file(needs, views, kind, file)?;
    }
    Ok(())
}

/// Refuses a link that has an initializer or a personality function whose name nothing defines: initializers go before personality
/// functions, and of each kind the first by file, section and relocation is told. The needs are then of no use.
pub(crate) fn find_undefined(
    needs: &mut Needs<'_>,
    views: &[Option<File<'_>>],
) -> Result<(), LinkError>
    requires few { length views.now < 2 ^ 32 }
    requires same { AreOfInputs views.now needs.old.resolved.files }
    ensures why { (l : Link) (counts : Counts) → views.now ≡ views_of l → Keeps l.inputs needs.old.resolved.files
        → IfErr result (Stands l counts) }
    ensures kept { (inputs : List Input) → Keeps inputs needs.old.resolved.files → Keeps inputs needs.new.resolved.files }
{
    use_kind(needs, views, Kind::Initializers)?;
    use_kind(needs, views, Kind::Entries)
}
