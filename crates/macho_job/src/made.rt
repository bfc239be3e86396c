//! The objects of `-generate`: functions each of which calls the next one, and beside each a pointer to it.

ghost use Rattle.std.specs.Prelude.{◌≡◌, ℕ, ◌+◌, ◌++◌, ◌<◌, ◌^◌, [], ◌∷◌, List, length, map, IfOk, IfErr, OnOk, Option, Some};
ghost use Rattle.std.specs.List.{flat_map};
ghost use Rattle.macho_bytes.specs.Numbers.{le_bytes};
ghost use Rattle.std.specs.String.{string_bytes};
ghost use Rattle.macho_args.specs.Settings.{Settings};
ghost use Rattle.macho_args.specs.Store.{Store};
ghost use Rattle.macho_linker.specs.Linkers.{link_of};
ghost use Rattle.macho_job.specs.Causes.{JobFails};
ghost use Rattle.macho_job.specs.steps.Gathering.{HaveLists};
ghost use Rattle.macho_job.specs.Generator.{generated_object, generated_path, function_name};
ghost use Rattle.macho_job.specs.steps.Objects.{joined_all, OBJECT_HEAD, CALLING_SECTIONS, LAST_SECTIONS, calling_parts, last_parts, calling_object, last_object};
ghost use Rattle.macho_job.specs.Names.{names_of};
ghost use Rattle.macho_job.specs.steps.Parts.{part_bytes, TakesMade, MadeFails};
ghost use Rattle.macho_job.specs.steps.Generator.{pointer_name};

use crate::fault::Fault;
use crate::inputs::MAX_FILES;
use crate::names::FileNames;
use byteorder::{ByteOrder, LittleEndian};
use macho_linker::Linker;
use std::alloc::{AllocError, Global};

/// A part of an object's bytes. Numbers are written lowest byte first.
#[derive(Clone, Copy)]
enum Part<'a> {
    /// Numbers of four bytes.
    Words(&'a [u32]),
    /// Numbers of eight bytes.
    Longs(&'a [u64]),
    /// A text as it is.
    Text(&'a [u8]),
}

/// The names of the function's section and its segment.
const TEXT_NAMES: [u8; 32] = *b"__text\0\0\0\0\0\0\0\0\0\0__TEXT\0\0\0\0\0\0\0\0\0\0";

/// The names of the pointer's section and its segment.
const DATA_NAMES: [u8; 32] = *b"__data\0\0\0\0\0\0\0\0\0\0__DATA\0\0\0\0\0\0\0\0\0\0";

/// Makes `count` objects and adds them to the linker; their paths go to `names`.
pub(crate) fn add_made(
    alloc: Global,
    linker: &mut Linker,
    names: &mut FileNames,
    count: u32,
) -> Result<(), Fault>
    requires unnamed { names_of names.old ≡ [] }
    ensures added { (told : Option Store) (s : Settings) → s.generate ≡ Some count → linker.old ≡ link_of s
        → OnOk result (HaveLists told s [] (names_of names.new) linker.new) }
    ensures why { (told : Option Store) (s : Settings) (old new : ℕ) → s.generate ≡ Some count
        → IfErr result (JobFails told s (names_of names.new) old new) }
{
    for index in 0..count {
        names.push(generated_path(alloc, index)?)?;
        add_object(alloc, linker, index, count)?;
    }
    Ok(())
}

// The path that an object is told by.
fn generated_path(alloc: Global, index: u32) -> Result<String, AllocError>
    ensures { IfOk result (λ path. string_bytes path ≡ generated_path index) }
{
    format!(in alloc; "<generated {index}>")
}

// Makes an object, and adds it to the linker. Memory ends before the numbers of files do.
fn add_object(alloc: Global, linker: &mut Linker, index: u32, count: u32) -> Result<(), Fault>
    requires { index < count }
    ensures added { OnOk result (TakesMade index count linker.old linker.new) }
    ensures why { IfErr result (MadeFails index count) }
{
    let bytes = generated_object(alloc, index, count)?;
    if linker.num_inputs() >= MAX_FILES {
        return Err(Fault::OutOfMemory);
    }
    match linker.add_object(bytes) {
        Ok(_) => Ok(()),
        Err(error) => Err(Fault::of_input(index, error)),
    }
}

// The bytes of the object of a number from 0, among `count` objects.
#[tactic(auto, unfolding(crate::specs::Generator::generated_object))]
fn generated_object(alloc: Global, index: u32, count: u32) -> Result<Vec<u8>, AllocError>
    requires { index < count }
    ensures { IfOk result (λ bytes. bytes.items ≡ generated_object index count) }
{
    let mut bytes = Vec::new(alloc);
    push_head(&mut bytes)?;
    if index + 1 == count {
        push_last(&mut bytes, alloc, index)?;
    } else {
        push_calling(&mut bytes, alloc, index)?;
    }
    Ok(bytes)
}

// The last object, behind its header.
#[tactic(auto, unfolding(crate::specs::steps::Objects::last_object))]
fn push_last(bytes: &mut Vec<u8>, alloc: Global, index: u32) -> Result<(), AllocError>
    ensures { OnOk result (bytes.new.items ≡ last_object bytes.old.items (function_name index) (pointer_name index)) }
{
    let name = function_name(alloc, index)?;
    let pointer = format!(in alloc; "_p{index}")?;
    push_last_parts(bytes, size_of(&name)?, size_of(&pointer)?)?;
    push_ended(bytes, &name)?;
    push_ended(bytes, &pointer)
}

// An object whose function calls the next one, behind its header.
#[tactic(auto, unfolding(crate::specs::steps::Objects::calling_object))]
fn push_calling(bytes: &mut Vec<u8>, alloc: Global, index: u32) -> Result<(), AllocError>
    requires { index + 1 < 2 ^ 32 }
    ensures { OnOk result (bytes.new.items ≡ calling_object bytes.old.items (function_name index) (pointer_name index)
        (function_name (index + 1))) }
{
    let name = function_name(alloc, index)?;
    let pointer = format!(in alloc; "_p{index}")?;
    let next = function_name(alloc, index + 1)?;
    push_calling_parts(bytes, size_of(&name)?, size_of(&pointer)?, size_of(&next)?)?;
    push_ended(bytes, &name)?;
    push_ended(bytes, &pointer)?;
    push_ended(bytes, &next)
}

// A text with its NUL.
fn push_ended(bytes: &mut Vec<u8>, text: &str) -> Result<(), AllocError>
    ensures { OnOk result (bytes.new.items ≡ bytes.old.items ++ text.now ++ 0 ∷ []) }
{
    bytes.extend_from_slice(text.as_bytes())?;
    bytes.push(0)?;
    Ok(())
}

// The name of a function.
fn function_name(alloc: Global, index: u32) -> Result<String, AllocError>
    ensures { IfOk result (λ name. string_bytes name ≡ function_name index) }
{
    if index == 0 {
        String::from_str(alloc, "_main")
    } else {
        format!(in alloc; "_f{index}")
    }
}

// The header of an object, and its segment.
fn push_head(bytes: &mut Vec<u8>) -> Result<(), AllocError>
    ensures { OnOk result (bytes.new.items ≡ bytes.old.items ++ joined_all OBJECT_HEAD) }
{
    let parts = [
        Part::Words(&[0xfeed_facf, 0x100_000c, 0, 1, 2, 256, 0x2000, 0, 0x19, 232]),
        Part::Text(&[0; 16]),
        Part::Longs(&[0, 16, 288, 16]),
        Part::Words(&[7, 7, 2, 0]),
    ];
    push_parts(bytes, &parts)
}

// The parts of an object whose function calls the next one, up to its first string.
#[tactic(auto, unfolding(crate::specs::steps::Objects::calling_parts))]
fn push_calling_parts(
    bytes: &mut Vec<u8>,
    name: u32,
    pointer: u32,
    next: u32,
) -> Result<(), AllocError>
    ensures { OnOk result (bytes.new.items ≡ calling_parts bytes.old.items name pointer next) }
{
    let second = sum_of(2, name)?;
    let third = sum_of(sum_of(3, name)?, pointer)?;
    let strings = sum_of(sum_of(sum_of(4, name)?, pointer)?, next)?;
    push_calling_sections(bytes)?;
    push_words(bytes, &[2, 24, 320, 3, 368, strings])?;
    push_words(
        bytes,
        &[
            0x1400_0000,
            0xd65f_03c0,
            0,
            0,
            0,
            0x2d00_0002,
            0,
            0x0e00_0000,
        ],
    )?;
    push_words(
        bytes,
        &[1, 0x10f, 0, 0, second, 0x20f, 8, 0, third, 1, 0, 0],
    )?;
    bytes.push(0)?;
    Ok(())
}

// The section headers of an object whose function calls the next one.
fn push_calling_sections(bytes: &mut Vec<u8>) -> Result<(), AllocError>
    ensures { OnOk result (bytes.new.items ≡ bytes.old.items ++ joined_all CALLING_SECTIONS) }
{
    let parts = [
        Part::Text(&TEXT_NAMES),
        Part::Longs(&[0, 8]),
        Part::Words(&[288, 2, 304, 1, 0x8000_0400, 0, 0, 0]),
        Part::Text(&DATA_NAMES),
        Part::Longs(&[8, 8]),
        Part::Words(&[296, 3, 312, 1, 0, 0, 0, 0]),
    ];
    push_parts(bytes, &parts)
}

// The parts of the last object, up to its first string.
#[tactic(auto, unfolding(crate::specs::steps::Objects::last_parts))]
fn push_last_parts(bytes: &mut Vec<u8>, name: u32, pointer: u32) -> Result<(), AllocError>
    ensures { OnOk result (bytes.new.items ≡ last_parts bytes.old.items name pointer) }
{
    let second = sum_of(2, name)?;
    let strings = sum_of(sum_of(3, name)?, pointer)?;
    push_last_sections(bytes)?;
    push_words(bytes, &[2, 24, 312, 2, 344, strings])?;
    push_words(bytes, &[0x5280_0000, 0xd65f_03c0, 0, 0, 0, 0x0e00_0000])?;
    push_words(bytes, &[1, 0x10f, 0, 0, second, 0x20f, 8, 0])?;
    bytes.push(0)?;
    Ok(())
}

// The section headers of the last object.
fn push_last_sections(bytes: &mut Vec<u8>) -> Result<(), AllocError>
    ensures { OnOk result (bytes.new.items ≡ bytes.old.items ++ joined_all LAST_SECTIONS) }
{
    let parts = [
        Part::Text(&TEXT_NAMES),
        Part::Longs(&[0, 8]),
        Part::Words(&[288, 2, 0, 0, 0x8000_0400, 0, 0, 0]),
        Part::Text(&DATA_NAMES),
        Part::Longs(&[8, 8]),
        Part::Words(&[296, 3, 304, 1, 0, 0, 0, 0]),
    ];
    push_parts(bytes, &parts)
}

// The length of a name in bytes. One of 2^32 or more is refused as want of memory.
fn size_of(name: &str) -> Result<u32, AllocError>
    ensures { IfOk result (λ size. size ≡ length name.now) }
{
    match u32::try_from(name.len()) {
        Ok(size) => Ok(size),
        Err(_) => Err(AllocError),
    }
}

fn sum_of(a: u32, b: u32) -> Result<u32, AllocError>
    ensures { IfOk result (λ sum. sum ≡ a + b) }
{
    match a.checked_add(b) {
        Some(sum) => Ok(sum),
        None => Err(AllocError),
    }
}

// Writes parts behind the bytes.
fn push_parts(bytes: &mut Vec<u8>, parts: &[Part<'_>]) -> Result<(), AllocError>
    ensures { OnOk result (bytes.new.items ≡ bytes.old.items ++ flat_map part_bytes parts.now) }
{
    for part in parts {
        push_part(bytes, part)?;
    }
    Ok(())
}

fn push_part(bytes: &mut Vec<u8>, part: &Part<'_>) -> Result<(), AllocError>
    ensures { OnOk result (bytes.new.items ≡ bytes.old.items ++ part_bytes part.now) }
{
    match *part {
        Part::Words(numbers) => push_words(bytes, numbers),
        Part::Longs(numbers) => push_longs(bytes, numbers),
        Part::Text(text) => bytes.extend_from_slice(text),
    }
}

fn push_words(bytes: &mut Vec<u8>, numbers: &[u32]) -> Result<(), AllocError>
    ensures { OnOk result (bytes.new.items ≡ bytes.old.items ++ flat_map (le_bytes 4) numbers.now) }
{
    for number in numbers {
        push_word(bytes, *number)?;
    }
    Ok(())
}

#[tactic(auto, unfolding(macho_bytes::specs::Numbers::le_bytes))]
fn push_word(bytes: &mut Vec<u8>, number: u32) -> Result<(), AllocError>
    ensures { OnOk result (bytes.new.items ≡ bytes.old.items ++ le_bytes 4 number) }
{
    let mut text = [0u8; 4];
    LittleEndian::write_u32(&mut text, number);
    bytes.extend_from_slice(&text)
}

fn push_longs(bytes: &mut Vec<u8>, numbers: &[u64]) -> Result<(), AllocError>
    ensures { OnOk result (bytes.new.items ≡ bytes.old.items ++ flat_map (le_bytes 8) numbers.now) }
{
    for number in numbers {
        push_long(bytes, *number)?;
    }
    Ok(())
}

#[tactic(auto, unfolding(macho_bytes::specs::Numbers::le_bytes))]
fn push_long(bytes: &mut Vec<u8>, number: u64) -> Result<(), AllocError>
    ensures { OnOk result (bytes.new.items ≡ bytes.old.items ++ le_bytes 8 number) }
{
    let mut text = [0u8; 8];
    LittleEndian::write_u64(&mut text, number);
    bytes.extend_from_slice(&text)
}
