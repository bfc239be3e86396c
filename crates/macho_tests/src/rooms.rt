//! The room for an unwind section, as a caller asks for it who knows no addresses.
use macho_unwind_pages::{UnwindFault, UnwindInput, output_size};
use std::alloc::Global;

const FRAME: UnwindInput = UnwindInput {
    encoding: 0x0200_0000,
    personality: None,
    lsda: false,
};

/// With language data and a personality function, by its number.
const ID_2: UnwindInput = UnwindInput {
    encoding: 0x0200_0000,
    personality: Some(2),
    lsda: true,
};

const ID_1: UnwindInput = UnwindInput {
    personality: Some(1),
    ..ID_2
};

const ID_7: UnwindInput = UnwindInput {
    personality: Some(7),
    ..ID_2
};

const ID_9: UnwindInput = UnwindInput {
    personality: Some(9),
    ..ID_2
};

/// What a row says, entries, the most bytes between their starts, and the bytes that their section has at most.
type Room = (
    &'static str,
    &'static [UnwindInput],
    u64,
    Result<u64, UnwindFault>,
);

static ROOMS: [Room; 6] = [
    ("one function", &[FRAME], 0x20, Ok(72)),
    ("no function", &[], 0, Ok(40)),
    ("two pages", &[FRAME, FRAME], 0x100_0020, Ok(100)),
    (
        "4 Gi pages",
        &[FRAME],
        1 << 56,
        Err(UnwindFault::OffsetTooLarge),
    ),
    // header, encodings, personalities, data, two page entries, a page and its words
    (
        "three personalities",
        &[ID_9, ID_2, ID_7, ID_2],
        0,
        Ok(28 + 4 * 3 + 4 * 3 + 8 * 4 + 12 * 2 + 12 + 4 * 4),
    ),
    (
        "four personalities",
        &[ID_9, ID_2, ID_7, ID_2, ID_1],
        0,
        Err(UnwindFault::TooManyPersonalities),
    ),
];

/// What the first row says that has another room.
fn first_other(alloc: Global, rows: &[Room]) -> &'static str {
    for (says, entries, span, size) in rows {
        if output_size(alloc, entries, *span) != *size {
            return says;
        }
    }
    ""
}

#[test]
fn rooms_are_those_that_were_counted(rt: HostRuntime) {
    assert_eq!(rt; first_other(rt.alloc(), &ROOMS), "");
}
