//! The table of imports.
ghost use Rattle.std.specs.Prelude.{◌≡◌, ◌+◌, ◌*◌, ◌<◌, ◌≤◌, ◌^◌, length, All};
ghost use Rattle.std.specs.Int.{w32, cast_unsigned};
ghost use Rattle.std.specs.List.{flat_map};
ghost use Rattle.macho_bytes.specs.Texts.{put};
ghost use Rattle.macho_model.specs.Images.{import_entry_size};
ghost use Rattle.macho_fixups.specs.Tables.{entry_text, entry_word};
ghost use Rattle.macho_fixups.specs.Calls.{AreEntries};
ghost use Rattle.macho_fixups.specs.steps.Calls.{EntryFits};

use macho_wire::put_little;

/// `DYLD_CHAINED_IMPORT_ADDEND`: an entry is a word and an addend.
pub const IMPORT_ADDEND_FORMAT: u32 = 2;

/// An entry of the table of imports.
#[derive(Clone, Copy)]
pub struct ImportEntry {
    /// The number of its library, from 1.
    pub library: u8,
    /// The place of its name among the names.
    pub name_offset: u32,
    /// What is added to its address; 0 in format 1.
    pub addend: i32,
}

/// The bytes of an entry.
pub(crate) fn entry_size(format: u32) -> usize
    ensures { result ≡ import_entry_size format }
{
    if format == IMPORT_ADDEND_FORMAT { 8 } else { 4 }
}

/// Writes the entries at a place; the other bytes stay.
pub(crate) fn write_imports(out: &mut [u8], at: usize, format: u32, imports: &[ImportEntry])
    requires entries { AreEntries format imports.now }
    requires room { at + import_entry_size format * length imports.now ≤ length out.old }
    ensures written { out.new ≡ put at (flat_map (entry_text format) imports.now) out.old }
    ensures long { length (flat_map (entry_text format) imports.now) ≡ import_entry_size format * length imports.now }
    ensures fits { All EntryFits imports.now }
{
    let mut place = at;
    for entry in imports {
        write_entry(out, place, format, *entry);
        place += entry_size(format);
    }
}

fn write_entry(out: &mut [u8], at: usize, format: u32, entry: ImportEntry)
    requires name { entry.name_offset < 2 ^ 23 }
    requires room { at + import_entry_size format ≤ length out.old }
    ensures written { out.new ≡ put at (entry_text format entry) out.old }
    ensures long { length (entry_text format entry) ≡ import_entry_size format }
    ensures fits { EntryFits entry }
{
    let addend = addend_word(&entry);
    put_little(out, at, entry_word(entry));
    if format == IMPORT_ADDEND_FORMAT {
        put_little(out, at + 4, addend);
    }
}

fn entry_word(entry: ImportEntry) -> u32
    requires { entry.name_offset < 2 ^ 23 }
    ensures is { result ≡ entry_word entry }
    ensures small { entry.library < 256 }
{
    u32::from(entry.library) + (entry.name_offset << 9)
}

/// The bits of a signed addend.
fn addend_word(entry: &ImportEntry) -> u32
    ensures is { result ≡ cast_unsigned w32 entry.now.addend }
    ensures small { cast_unsigned w32 entry.now.addend < 2 ^ 32 }
{
    entry.addend.cast_unsigned()
}
