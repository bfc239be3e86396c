//! The parts of patterns at their ends, and where in a name parts stand. A pattern has a first part in front of its first
//! star, and a last part behind its last one. A name begins with the first part of each pattern that it matches, ends with
//! the last part, and has somewhere each part that stands between two stars:
//!
//!     pattern    first part   between stars   last part   matches
//!     _a*b*c     _a           b               c           _a1b2c
//!     *_x        no byte                      _x          _a_x
//!     _a*        _a                           no byte     _ab
//!     ab*b       ab                           b           abb, but not ab
//!     *y1*z*     no byte      y1, z           no byte     _y12z3
ghost use Rattle.std.specs.Prelude.{◌≡◌, ◌≤◌, length};
ghost use Rattle.macho_export_lists.specs.steps.Ends.{front_of, back_of, first_place, last_place, has_many_places};

use crate::patterns::behind;
use memchr::{memchr, memrchr};

/// The most bytes of a name in which parts are looked up at each place.
const LONG: usize = 256;

/// Where in a name some parts stand.
#[derive(Clone, Copy)]
pub(crate) enum Where {
    /// Where it begins.
    Front,
    /// At any place.
    Anywhere,
    /// Where it ends.
    Back,
}

/// The first part of a pattern: what stands in front of the first star, all of it where there is none.
pub(crate) fn front_of(pattern: &[u8]) -> &[u8]
    ensures { result.now ≡ front_of pattern.now }
{
    match memchr(b'*', pattern) {
        Some(star) => &pattern[..star],
        None => pattern,
    }
}

/// The last part of a pattern: what stands behind the last star, all of it where there is none.
pub(crate) fn back_of(pattern: &[u8]) -> &[u8]
    ensures { result.now ≡ back_of pattern.now }
{
    match memrchr(b'*', pattern) {
        Some(star) => behind(pattern, star, 1),
        None => pattern,
    }
}

impl Where {
    /// The first place in a name of some length at which a part of so many bytes may stand.
    pub(crate) fn first_place(self, long: usize, count: usize) -> usize
        requires { count ≤ long }
        ensures { result ≡ first_place self long count }
    {
        match self {
            Where::Front | Where::Anywhere => 0,
            Where::Back => long - count,
        }
    }

    /// Whether there are so many places in a name of so many bytes that parts aren't looked up at each of them.
    pub(crate) fn has_many_places(self, long: usize) -> bool
        ensures { result ≡ has_many_places self long }
    {
        match self {
            Where::Anywhere => long > LONG,
            Where::Front | Where::Back => false,
        }
    }

    /// The last such place.
    pub(crate) fn last_place(self, long: usize, count: usize) -> usize
        requires { count ≤ long }
        ensures { result ≡ last_place self long count }
    {
        match self {
            Where::Front => 0,
            Where::Anywhere | Where::Back => long - count,
        }
    }
}
