//! The digests of a signature: SHA-256 (FIPS 180-4) of each page of the bytes that are signed.
ghost use Rattle.std.specs.Prelude.{◌≡◌, ◌+◌, ◌-◌, ◌*◌, ◌<◌, ◌≤◌, length};
ghost use Rattle.macho_bytes.specs.Texts.{put};
ghost use Rattle.macho_model.specs.Signature.{page_digest, page_count};
ghost use Rattle.macho_signature.specs.Pages.{digests_of, digests_from};

use macho_model::SIGNED_PAGE;
use sha2::{Digest, Sha256};

/// The bytes of a page that is signed.
pub(crate) const PAGE: usize = SIGNED_PAGE as usize;
/// The bytes of a SHA-256 digest.
pub(crate) const DIGEST: usize = 32;

/// How many pages so many bytes are signed in; the last one may be cut.
pub fn page_count(signed: usize) -> usize
    ensures { result ≡ page_count signed }
{
    signed.div_ceil(PAGE)
}

/// The digest of a page by its number; the last page ends where the bytes end.
#[tactic(auto, unfolding(macho_model::specs::Signature::page_digest))]
fn page_digest(signed: &[u8], page: usize) -> [u8; 32]
    requires { 4096 * page ≤ length signed.now }
    ensures { result ≡ page_digest signed.now page (length signed.now) }
{
    let start = PAGE * page;
    let end = start + PAGE.min(signed.len() - start);
    Sha256::digest(&signed[start..end])
}

/// Writes the digest of a page among those that begin at an offset of the signature.
fn sign_page(signed: &[u8], page: usize, signature: &mut [u8], hashes_offset: usize)
    requires page { 4096 * page ≤ length signed.now }
    requires room { hashes_offset + 32 * (page + 1) ≤ length signature.old }
    ensures { signature.new ≡ put (hashes_offset + 32 * page) (page_digest signed.now page (length signed.now)) signature.old }
{
    let at = hashes_offset + DIGEST * page;
    signature[at..at + DIGEST].copy_from_slice(&page_digest(signed, page));
}

/// Signs the pages from one up to another, which is not signed; the other bytes of the signature stay.
pub(crate) fn sign_pages(
    signed: &[u8],
    first: usize,
    end: usize,
    signature: &mut [u8],
    hashes_offset: usize,
)
    requires order { first ≤ end }
    requires pages { end ≤ page_count (length signed.now) }
    requires room { hashes_offset + 32 * end ≤ length signature.old }
    ensures { signature.new ≡ put (hashes_offset + 32 * first) (digests_from signed.now first (end - first)) signature.old }
{
    for page in first..end {
        sign_page(signed, page, signature, hashes_offset);
    }
}

/// Signs every page anew: writes the digests of all pages at an offset of the signature, whose other bytes stay.
pub fn sign_again(signed: &[u8], signature: &mut [u8], hashes_offset: usize)
    requires { hashes_offset + 32 * page_count (length signed.now) ≤ length signature.old }
    ensures done { signature.new ≡ put hashes_offset (digests_of signed.now) signature.old }
    ensures length { length (digests_of signed.now) ≡ 32 * page_count (length signed.now) }
{
    sign_pages(
        signed,
        0,
        page_count(signed.len()),
        signature,
        hashes_offset,
    );
}
