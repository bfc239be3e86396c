//! The hash of a name, of 64 bits. It begins with a seed, and takes in words of 8 bytes, each by a product of 128 bits whose halves are
//! put over each other: so each bit of a word reaches bits all over the hash, and which ones depends on the seed. Whoever makes an
//! object doesn't know the seed, and so can't choose names that share a bucket.
//!
//! Of `_main_2nd` three words are taken in: its length, its first bytes, and its last ones:
//!
//!     09 00 00 00 00 00 00 00   5f 6d 61 69 6e 5f 32 6e   6d 61 69 6e 5f 32 6e 64
ghost use Rattle.std.specs.Prelude.{◌≡◌, ◌+◌, ◌*◌, ◌≤◌, length};
ghost use Rattle.std.specs.List.{fold};
ghost use Rattle.macho_bytes.specs.Numbers.{le_at};
ghost use Rattle.macho_symbol_names.specs.Hashing.{folded, hash_step, hash_behind, hash_of, last_word, word_step};

use byteorder::{ByteOrder, LittleEndian};

/// How many bytes of a long name's front and of its end are hashed.
const HASHED: usize = 2048;

/// What words are multiplied by: 2^64 over the golden ratio, and odd.
const MIXER: u64 = 0x9e37_79b9_7f4a_7c15;

/// A number times `MIXER`, the high half over the low one.
fn folded(number: u64) -> u64
    ensures { result ≡ folded (number * MIXER) }
{
    let product = number as u128 * MIXER as u128;
    let low = (product % (1 << 64)) as u64;
    low ^ (product >> 64) as u64
}

/// A hash with one word more.
fn mix(hash: u64, word: u64) -> u64
    ensures { result ≡ hash_step hash word }
{
    folded(hash ^ word)
}

/// The word of 8 bytes that begins at a place.
#[tactic(auto, unfolding(macho_bytes::specs::Numbers::le_at))]
fn word_at(bytes: &[u8], at: usize) -> u64
    requires { at + 8 ≤ length bytes.now }
    ensures { result ≡ le_at 8 bytes.now at }
{
    LittleEndian::read_u64(&bytes[at..])
}

/// A few bytes as one word.
fn short_word(bytes: &[u8]) -> u64
    ensures { result ≡ fold word_step 0 bytes.now }
{
    let mut word = 0u64;
    for byte in bytes {
        word = word.wrapping_mul(256).wrapping_add(u64::from(*byte));
    }
    word
}

/// The last 8 bytes as one word, or all, if there are fewer.
#[tactic(auto, unfolding(crate::specs::Hashing::last_word))]
fn last_word(bytes: &[u8]) -> u64
    ensures { result ≡ last_word bytes.now }
{
    if bytes.len() < 8 {
        short_word(bytes)
    } else {
        word_at(bytes, bytes.len() - 8)
    }
}

/// The hash of some bytes behind others: of their whole words, and of the last one.
fn hash_behind(start: u64, bytes: &[u8]) -> u64
    ensures { result ≡ hash_behind start bytes.now }
{
    let mut hash = start;
    for word in 0..bytes.len() / 8 {
        hash = mix(hash, word_at(bytes, 8 * word));
    }
    mix(hash, last_word(bytes))
}

/// The hash of a name. Of a long one its length, its front and its end are hashed, so that many symbols that share it, or
/// tails of it, are looked for in a short time.
#[tactic(auto, unfolding(crate::specs::Hashing::hash_of))]
pub(crate) fn hash(seed: u64, name: &[u8]) -> u64
    ensures { result ≡ hash_of seed name.now }
{
    let start = mix(seed, name.len() as u64);
    if name.len() <= 2 * HASHED {
        return hash_behind(start, name);
    }
    let front = hash_behind(start, &name[..HASHED]);
    hash_behind(front, &name[name.len() - HASHED..])
}
