//! The plain functions on two images written out by hand: the smallest one, and one whose chain has three words.
use macho_image_walks::{is_on_chain, memory_byte, segment_byte};
use macho_loader::{LoadFault, Loaded};
use macho_model::LoadRule;
use macho_model::LoadRule::{L1, L2, L3, L4, L5, L6, L7, L8, L9, L10};
use macho_samples::{chained_image, smallest_image};

/// Each byte of the chained image that breaks a rule: its place, the byte, the rule, the place that is told.
const BREAKS: [(usize, u8, LoadRule, u64); 14] = [
    // another magic number; the type of an object
    (0, 0xce, L1, 0),
    (12, 1, L1, 0),
    // the last command passes `sizeofcmds`
    (20, 0x1f, L2, 304),
    // data that may be executed
    (232, 7, L3, 176),
    // more file bytes than bytes in memory
    (137, 0, L4, 104),
    // a size that is no multiple of a page
    (209, 0x81, L5, 176),
    // `__PAGEZERO` passes the start of `__TEXT`
    (65, 0x40, L6, 104),
    // `__TEXT` without file bytes for the commands; none at all
    (153, 1, L7, 104),
    // another version of the table, another format of imports
    (320, 1, L8, 304),
    (340, 3, L8, 304),
    // an import of library 2 of one
    (392, 2, L9, 392),
    // a start behind its page; a word behind the file bytes; import 1 of one
    (387, 0x40, L10, 0x8010),
    (388, 9, L10, 0x8009),
    (0x4018, 1, L10, 0x4018),
];

/// What the loader's view tells of an image that breaks a rule.
fn fault_of(image: &[u8]) -> Option<LoadFault> {
    Loaded::accept(image).err()
}

/// What is told of the chained image with one byte changed.
fn fault_with(at: usize, byte: u8) -> Option<LoadFault> {
    let mut image = chained_image();
    if let Some(changed) = image.get_mut(at) {
        *changed = byte;
    }
    fault_of(&image)
}

/// What is told of the first bytes of the smallest image.
fn fault_of_first(count: usize) -> Option<LoadFault> {
    let image = smallest_image();
    fault_of(image.get(..count)?)
}

#[test]
fn the_two_images_break_no_rule(rt: HostRuntime) {
    assert!(rt; fault_of(&smallest_image()).is_none());
    assert!(rt; fault_of(&chained_image()).is_none());
}

#[test]
fn each_rule_is_told_at_what_breaks_it(rt: HostRuntime) {
    for (at, byte, rule, place) in BREAKS {
        assert_eq!(rt;
            fault_with(at, byte),
            Some(LoadFault { rule, place }),
            "byte {at}"
        );
    }
    assert_eq!(rt; fault_of_first(31), Some(LoadFault { rule: L1, place: 0 }));
}

#[test]
fn the_chain_has_three_words_over_two_pages(rt: HostRuntime) {
    let image = chained_image();
    for word in [0x1_0000_4010, 0x1_0000_4018, 0x1_0000_8008] {
        assert!(rt; is_on_chain(&image, word), "{word}");
    }
    for other in [
        0,
        0x1_0000_4000,
        0x1_0000_4014,
        0x1_0000_4020,
        0x1_0000_8000,
    ] {
        assert!(rt; !is_on_chain(&image, other), "{other}");
    }
    assert!(rt; !is_on_chain(&smallest_image(), 0x1_0000_0138));
}

/// Bytes of the chained image in memory, 0x10000 above its base, where its import is at 0x180000000: an address, and what it holds.
const IN_MEMORY: [(u64, Option<u8>); 14] = [
    // the start of the file, the end of its bytes, zeros behind them; what is no segment's
    (0x1_0001_0000, Some(0xcf)),
    (0x1_0001_4001, Some(0x11)),
    (0x1_0001_8010, Some(0)),
    (0x1_0001_c000, None),
    (0, None),
    (0x1_0000_ffff, None),
    // 0x138 from the base, at the slide
    (0x1_0001_4010, Some(0x38)),
    (0x1_0001_4012, Some(1)),
    (0x1_0001_4014, Some(1)),
    (0x1_0001_4016, Some(0)),
    // the import's address plus 5
    (0x1_0001_4018, Some(5)),
    (0x1_0001_401b, Some(0x80)),
    // 0x4000 from the base, with its highest byte
    (0x1_0001_8009, Some(0x40)),
    (0x1_0001_800f, Some(0x7f)),
];

#[test]
fn memory_has_words_made_anew_and_bytes_of_the_file(rt: HostRuntime) {
    let image = chained_image();
    for (at, byte) in IN_MEMORY {
        assert_eq!(rt;
            memory_byte(&image, 0x1_0000, &[0x1_8000_0000], at),
            byte,
            "{at:x}"
        );
    }
    // without an address for the import its word is nothing
    assert_eq!(rt; memory_byte(&image, 0, &[], 0x1_0000_4018), None);
    assert_eq!(rt; memory_byte(&image, 0, &[], 0x1_0000_4010), Some(0x38));
    assert_eq!(rt; segment_byte(&image, 0x1_0000_4010), Some(0x38));
}

/// Changes of the chained image by which its import has an addend of its own, -8: format 2, an entry of eight bytes, and the names
/// and the end of the table four bytes further on.
const WITH_ADDEND: [(usize, u8); 14] = [
    (316, 87),
    (332, 80),
    (340, 2),
    (396, 0xf8),
    (397, 0xff),
    (398, 0xff),
    (399, 0xff),
    (400, 0),
    (401, b'_'),
    (402, b'e'),
    (403, b'x'),
    (404, b'i'),
    (405, b't'),
    (406, 0),
];

/// The first byte from 0x100014018 on that isn't one of the import's address less 8 plus 5, 0x17ffffffd; 8 where there is none.
fn first_other_byte() -> u64 {
    let mut image = chained_image();
    for (at, byte) in WITH_ADDEND {
        if let Some(changed) = image.get_mut(at) {
            *changed = byte;
        }
    }
    if fault_of(&image).is_some() {
        return 9;
    }
    let wanted = 0x1_7fff_fffdu64.to_le_bytes();
    for k in 0..8u64 {
        let byte = memory_byte(&image, 0x1_0000, &[0x1_8000_0000], 0x1_0001_4018 + k);
        if byte != Some(wanted[k as usize]) {
            return k;
        }
    }
    8
}

#[test]
fn addends_of_an_entry_and_of_a_word_add_up(rt: HostRuntime) {
    assert_eq!(rt; first_other_byte(), 8);
}
