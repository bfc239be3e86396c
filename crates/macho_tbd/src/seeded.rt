//! The hash of names, which begins with a seed.

use sha2::{Digest, Sha256};
use std::hash::{BuildHasher, DefaultHasher, Hasher};

/// Makes a hasher for each name: one that took in the seed.
#[derive(Clone, Copy)]
pub(crate) struct Seeded {
    initial: DefaultHasher,
}

impl Seeded {
    /// A maker of hashers that took in a seed.
    pub(crate) fn new(seed: u64) -> Seeded {
        let mut initial = DefaultHasher::new();
        initial.write_u64(seed);
        Seeded { initial }
    }
}

impl BuildHasher for Seeded {
    type Hasher = DefaultHasher;

    ghost build_hasher = { λ s. s.initial };

    fn build_hasher(&self) -> DefaultHasher {
        self.initial
    }
}

/// The seed for the names of a file: the first 8 bytes of its digest.
pub(crate) fn seed_of(bytes: &[u8]) -> u64 {
    let digest = Sha256::digest(bytes);
    u64::from_le_bytes([
        digest[0], digest[1], digest[2], digest[3], digest[4], digest[5], digest[6], digest[7],
    ])
}
