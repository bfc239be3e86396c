//! Tries of a caller's own names: their bytes as they are written out by hand, names that are found, and the room that is reserved.
ghost use Rattle.macho_trie.specs.Sorting.{AreDistinct, HaveNoNul};
ghost use Rattle.macho_trie.specs.Symbols.{names_of};
ghost use Rattle.macho_trie.specs.Exports.{HasNoNul};
ghost use Rattle.macho_trie.specs.Tries.{IsTrieOf};
ghost use Rattle.std.specs.Prelude.{IsTrue};

use crate::trie_look_ups::{REEXPORT, THREE, found};
use macho_trie::{Symbols, Trie};
use std::alloc::{AllocError, Global};
use std::test::Fail;

/// The bytes of `_main` at 0x1234.
const MAIN: [u8; 14] = [
    0, 1, 0x5f, 0x6d, 0x61, 0x69, 0x6e, 0, 9, // 0: one edge, `_main` to 9
    3, 0, 0xb4, 0x24, 0, // 9: flags 0, address 0x1234
];

/// Whether a trie may be made of the names: looked up name by name.
fn are_fit(symbols: &Symbols<'_>) -> bool
    ensures distinct { IsTrue result → AreDistinct (names_of symbols.now) }
    ensures plain { IsTrue result → HaveNoNul (names_of symbols.now) }
{
    for later in 0..symbols.len() {
        for earlier in 0..later {
            if symbols.name(earlier) == symbols.name(later) {
                return false;
            }
        }
        if !is_plain(symbols.name(later)) {
            return false;
        }
    }
    true
}

fn is_plain(name: &[u8]) -> bool
    ensures { IsTrue result → HasNoNul name.now }
{
    for byte in name {
        if *byte == 0 {
            return false;
        }
    }
    true
}

/// The bytes of a trie, and the room that is told for it.
#[derive(Drop)]
struct Made {
    bytes: Vec<u8>,
    room: usize,
}

fn spell(alloc: Global, trie: &Trie, symbols: &Symbols<'_>) -> Result<Made, AllocError>
    requires { IsTrieOf trie.now (names_of symbols.now) }
{
    let room = trie.compute_byte_size(alloc, symbols)?;
    let bytes = trie.encode(alloc, symbols)?;
    Ok(Made { bytes, room })
}

fn make(alloc: Global, symbols: &Symbols<'_>) -> Result<Made, Fail> {
    if !are_fit(symbols) {
        return Err(Fail::from("no trie may be made"));
    }
    let trie = Trie::new(alloc, symbols)?;
    let made = spell(alloc, &trie, symbols)?;
    Ok(made)
}

/// A name, its address, and the library that has it too, or 0.
type Name = (&'static [u8], u64, u64);

fn add<'n>(symbols: &mut Symbols<'n>, name: &'n Name) -> Result<(), AllocError> {
    let (name, address, library) = name;
    if *library == 0 {
        symbols.push(name, *address, 0)
    } else {
        symbols.push_reexport(name, *library, b"")
    }
}

fn symbols_of<'n>(alloc: Global, names: &'n [Name]) -> Result<Symbols<'n>, AllocError> {
    let mut symbols = Symbols::new(alloc);
    for name in names {
        add(&mut symbols, name)?;
    }
    Ok(symbols)
}

/// Names, and the bytes of their trie.
type Row = (&'static [Name], &'static [u8]);

static ROWS: [Row; 4] = [
    (&[], &[]),
    (&[(b"_main", 0x1234, 0)], &MAIN),
    (
        &[(b"_foobar", 1, 0), (b"_foo", 2, 0), (b"_fop", 3, 0)],
        &THREE,
    ),
    (&[(b"_main", 0x218, 0), (b"_exit", 0, 1)], &REEXPORT),
];

fn is_spelled(alloc: Global, row: &Row) -> Result<bool, Fail> {
    let symbols = symbols_of(alloc, row.0)?;
    let made = make(alloc, &symbols)?;
    Ok(made.bytes.as_slice() == row.1 && made.room == row.1.len())
}

/// The number of the first row whose trie has other bytes, from 1; 0 where there is none.
fn first_wrong(alloc: Global, rows: &[Row]) -> Result<usize, Fail> {
    let mut number = 0usize;
    for row in rows {
        number = number.wrapping_add(1);
        if !is_spelled(alloc, row)? {
            return Ok(number);
        }
    }
    Ok(0)
}

#[test]
fn bytes_of_small_tries(rt: HostRuntime) -> Result<(), Fail> {
    assert_eq!(rt; first_wrong(rt.alloc(), &ROWS)?, 0);
    Ok(())
}

const DIGITS: [u8; 16] = *b"0123456789abcdef";

/// A long beginning, and a number below 512 in four digits.
fn prefixed(number: u16) -> [u8; 19] {
    let mut name = *b"_shared_prefix_0000";
    name[16] = DIGITS[(number / 256 % 16) as usize];
    name[17] = DIGITS[(number / 16 % 16) as usize];
    name[18] = DIGITS[(number % 16) as usize];
    name
}

/// 512 of these names, the last number first.
fn prefixed_names(alloc: Global) -> Result<Vec<[u8; 19]>, AllocError> {
    let mut names = Vec::with_capacity(alloc, 512)?;
    for place in 0..512u16 {
        names.push(prefixed(511 - place))?;
    }
    Ok(names)
}

/// Such names with the greatest addresses, or with powers of 2.
fn many<'n>(
    alloc: Global,
    names: &'n [[u8; 19]],
    greatest: bool,
) -> Result<Symbols<'n>, AllocError> {
    let mut symbols = Symbols::with_capacity(alloc, names.len())?;
    for (place, name) in names.iter().enumerate() {
        let address = if greatest {
            u64::MAX
        } else {
            1 << (place as u64 % 63)
        };
        symbols.push(name, address, 0)?;
    }
    Ok(symbols)
}

/// Places that reach 16,384 widen edges, and what is reserved is enough.
#[test]
fn reserved_room_is_enough(rt: HostRuntime) -> Result<(), Fail> {
    let names = prefixed_names(rt.alloc())?;
    let greatest = make(rt.alloc(), &many(rt.alloc(), &names, true)?)?;
    let many = make(rt.alloc(), &many(rt.alloc(), &names, false)?)?;
    assert!(rt; many.bytes.len() == many.room && many.room <= greatest.room);
    Ok(())
}

/// All beginnings of a name but the empty one, each a byte longer than the one before.
fn deep<'n>(alloc: Global, name: &'n [u8]) -> Result<Symbols<'n>, AllocError> {
    let mut symbols = Symbols::new(alloc);
    for place in 0..name.len() {
        symbols.push(&name[..place + 1], place as u64 + 1, 0)?;
    }
    Ok(symbols)
}

/// A name of one byte for each of these bytes.
fn broad<'n>(alloc: Global, bytes: &'n [u8]) -> Result<Symbols<'n>, AllocError> {
    let mut symbols = Symbols::new(alloc);
    for place in 0..bytes.len() {
        symbols.push(&bytes[place..place + 1], place as u64 + 1, 0)?;
    }
    Ok(symbols)
}

/// All bytes that a name may have.
fn bytes_of_names(alloc: Global) -> Result<Vec<u8>, AllocError> {
    let mut bytes = Vec::new(alloc);
    for byte in 1..=255u8 {
        bytes.push(byte)?;
    }
    Ok(bytes)
}

/// Whether each name leads to its number, from 1.
fn lead_to_numbers(bytes: &[u8], symbols: &Symbols<'_>) -> bool {
    for number in 0..symbols.len() {
        if found(bytes, symbols.name(number)) != [1, 0, number as u64 + 1] {
            return false;
        }
    }
    true
}

/// Whether so many names do so in their trie.
fn are_found(alloc: Global, symbols: &Symbols<'_>, many: usize) -> Result<bool, Fail> {
    let made = make(alloc, symbols)?;
    Ok(symbols.len() == many && lead_to_numbers(&made.bytes, symbols))
}

/// One long way of a thousand nodes, and one node with all edges that there can be.
#[test]
fn deep_and_broad_tries(rt: HostRuntime) -> Result<(), Fail> {
    let name = vec![in rt.alloc(); b'a'; 1024]?;
    let deep = deep(rt.alloc(), &name)?;
    assert!(rt; are_found(rt.alloc(), &deep, 1024)?);
    let bytes = bytes_of_names(rt.alloc())?;
    let broad = broad(rt.alloc(), &bytes)?;
    assert!(rt; are_found(rt.alloc(), &broad, 255)?);
    Ok(())
}
