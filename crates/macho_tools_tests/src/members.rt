//! Which members of archives are linked, by the names that objects and members use and define.

use macho_members::{Asked, ObjectNames, needed_members};
use std::alloc::{AllocError, Global};
use std::test::Fail;

/// An object that uses `a`.
const MAIN: ObjectNames<'static> = ObjectNames {
    used: &[b"a"],
    defined: &[b"main"],
};

/// An archive: its members define `b`; use `c`, and define `a`; define `d`.
const FIRST: [ObjectNames<'static>; 3] = [
    ObjectNames {
        used: &[],
        defined: &[b"b"],
    },
    ObjectNames {
        used: &[b"c"],
        defined: &[b"a"],
    },
    ObjectNames {
        used: &[],
        defined: &[b"d"],
    },
];

/// Another one, whose member defines `c` and `b`.
const SECOND: [ObjectNames<'static>; 1] = [ObjectNames {
    used: &[],
    defined: &[b"c", b"b"],
}];

/// The members that are linked of the object and both archives, each as 10 times the number of its archive and its own.
fn linked(alloc: Global, whole: bool) -> Result<Vec<usize>, AllocError> {
    let inputs = [
        Asked::Object(MAIN),
        Asked::Archive {
            whole,
            members: &FIRST,
        },
        Asked::Archive {
            whole: false,
            members: &SECOND,
        },
    ];
    let mut numbers = Vec::new(alloc);
    for place in needed_members(alloc, &inputs)? {
        numbers.push(place.archive.wrapping_mul(10).wrapping_add(place.member))?;
    }
    Ok(numbers)
}

#[test]
fn a_member_brings_what_it_needs(rt: HostRuntime) -> Result<(), Fail> {
    let found = linked(rt.alloc(), false)?;
    assert_eq!(rt; found.as_slice(), [11, 20].as_slice());
    Ok(())
}

#[test]
fn a_whole_archive_gives_all_members(rt: HostRuntime) -> Result<(), Fail> {
    let found = linked(rt.alloc(), true)?;
    assert_eq!(rt; found.as_slice(), [10, 11, 12, 20].as_slice());
    Ok(())
}
