//! The word of a fixup: eight bytes that the loader writes anew (`mach-o/fixup-chains.h`, pointer format 6).
//!
//!     bit      63    51..62   44..50    36..43   0..35
//!     rebase   0     next     0         high     target      a target from the image's base, and the pointer's top byte
//!
//!     bit      63    51..62   32..50    24..31   0..23
//!     bind     1     next     0         addend   ordinal     a number in the table of imports
//!
//! `next` counts steps of four bytes to the next word of the page, and is 0 at the last one. The target 0x4000 two steps
//! in front of the next word is `00 40 00 00 00 00 10 00`.
ghost use Rattle.std.specs.Prelude.{◌≡◌, ◌<◌, ◌^◌, ◌%◌, ◌*◌, ◌+◌, ◌/◌, true, false, IfSome, IfNone, IfOk, IfErr, OnOk, OnErr};
ghost use Rattle.macho_bytes.specs.Numbers.{le_at, le_bytes};
ghost use Rattle.macho_model.specs.Needs.{POINTER_SIZE};
ghost use Rattle.macho_fixups.specs.declared.words.FixupKind.TheVariants.{Rebase, Bind};
ghost use Rattle.macho_fixups.specs.Words.{has_word, FitsOrdinal, IsWordOf, word_of, STEPS};

/// What the loader makes of a word.
#[derive(Clone, Copy)]
pub enum FixupKind {
    /// An address of the image.
    Rebase {
        /// Its distance from the image's base; the top 8 bits are those of the pointer.
        target: u64,
    },
    /// The address of an import.
    Bind {
        /// The import's number in the table.
        ordinal: u32,
        /// What is added to its address, at most 255.
        addend: u64,
    },
}

/// A fixup has no word: a target has a bit outside the low 36 and the top 8, or an addend is above 255.
#[derive(Clone, Copy)]
pub struct NotEncodable {
    /// The number of the fixup among those given, 0 where there is one.
    pub index: usize,
}

/// The bytes of a word that moves with the image. `next` is the steps of four bytes to the page's next word.
pub fn write_rebase_encoding(target: u64, next: u64) -> Result<[u8; 8], NotEncodable>
    requires { next < STEPS }
    ensures found { OnOk result (has_word (Rebase target) ≡ true) }
    ensures why { OnErr result (has_word (Rebase target) ≡ false) }
    ensures told { IfErr result (λ e. e.index ≡ 0) }
    ensures done { IfOk result (λ bytes. IsWordOf (Rebase target) next (le_at POINTER_SIZE bytes 0)) }
    ensures written { IfOk result (λ bytes. bytes ≡ le_bytes POINTER_SIZE (word_of (Rebase target) next)) }
{
    match rebase_word(target, next) {
        Some(word) => Ok(word_bytes(word)),
        None => Err(NotEncodable { index: 0 }),
    }
}

/// The bytes of a word that binds an import. `next` is the steps of four bytes to the page's next word.
pub fn write_bind_encoding(ordinal: u64, addend: u64, next: u64) -> Result<[u8; 8], NotEncodable>
    requires ordinal { ordinal < 2 ^ 24 }
    requires next { next < STEPS }
    ensures found { OnOk result (has_word (Bind ordinal addend) ≡ true) }
    ensures why { OnErr result (has_word (Bind ordinal addend) ≡ false) }
    ensures told { IfErr result (λ e. e.index ≡ 0) }
    ensures done { IfOk result (λ bytes. IsWordOf (Bind ordinal addend) next (le_at POINTER_SIZE bytes 0)) }
    ensures written { IfOk result (λ bytes. bytes ≡ le_bytes POINTER_SIZE (word_of (Bind ordinal addend) next)) }
{
    match bind_word(ordinal, addend, next) {
        Some(word) => Ok(word_bytes(word)),
        None => Err(NotEncodable { index: 0 }),
    }
}

/// The word that moves with the image, None where it has no room for the target.
#[tactic(auto, unfolding(crate::specs::Words::word_of))]
pub(crate) fn rebase_word(target: u64, next: u64) -> Option<u64>
    requires { next < STEPS }
    ensures done { IfSome result (λ word. word ≡ word_of (Rebase target) next) }
    ensures says { IfSome result (λ word. IsWordOf (Rebase target) next word) }
    ensures found { IfSome result (λ word. has_word (Rebase target) ≡ true) }
    ensures why { IfNone result (has_word (Rebase target) ≡ false) }
{
    if (target >> 36) & 0xf_ffff != 0 {
        return None;
    }
    Some((target & 0xf_ffff_ffff) + ((target >> 56) << 36) + (next << 51))
}

/// The word that binds an import, None where it has no room for the addend.
#[tactic(auto, unfolding(crate::specs::Words::word_of))]
pub(crate) fn bind_word(ordinal: u64, addend: u64, next: u64) -> Option<u64>
    requires ordinal { ordinal < 2 ^ 24 }
    requires next { next < STEPS }
    ensures done { IfSome result (λ word. word ≡ word_of (Bind ordinal addend) next) }
    ensures says { IfSome result (λ word. IsWordOf (Bind ordinal addend) next word) }
    ensures found { IfSome result (λ word. has_word (Bind ordinal addend) ≡ true) }
    ensures why { IfNone result (has_word (Bind ordinal addend) ≡ false) }
{
    if addend > 255 {
        return None;
    }
    Some(ordinal + (addend << 24) + (next << 51) + (1 << 63))
}

#[tactic(auto, unfolding(macho_bytes::specs::Numbers::le_bytes, macho_bytes::specs::Numbers::le_at))]
fn word_bytes(word: u64) -> [u8; 8]
    ensures written { result ≡ le_bytes POINTER_SIZE word }
    ensures read { le_at POINTER_SIZE result 0 ≡ word }
{
    word.to_le_bytes()
}
