//! The UUID of a signed image, and the pages that hold it signed anew.
ghost use Rattle.std.specs.Prelude.{◌≡◌, ◌+◌, ◌-◌, ◌*◌, ◌/◌, ◌≤◌, length};
ghost use Rattle.macho_bytes.specs.Texts.{put, Stands};
ghost use Rattle.macho_model.specs.Signature.{uuid_written};
ghost use Rattle.macho_signature.specs.Pages.{digests_of, digests_from, first_page, last_page};

use crate::digests::{PAGE, sign_pages};

/// A UUID as it is written: version 3 in the high bits of byte 6, variant 10 in those of byte 8 (RFC 9562, section 4).
#[tactic(auto, unfolding(macho_model::specs::Signature::uuid_written))]
pub fn stamped_uuid(uuid: [u8; 16]) -> [u8; 16]
    ensures { result ≡ uuid_written uuid }
{
    let mut written = uuid;
    written[6] = 0x30 + uuid[6] % 16;
    written[8] = 0x80 + uuid[8] % 64;
    written
}

/// Writes the UUID of a signed image, and signs the one or two pages that hold it anew.
///
/// `signed` is what the signature signs, with the 16 bytes of the UUID at `uuid_offset`; in `signature` the digests
/// begin at `hashes_offset`. A signature that was right stays right: it is what signing every page anew would give.
pub fn write_uuid(
    signed: &mut [u8],
    signature: &mut [u8],
    hashes_offset: usize,
    uuid_offset: usize,
    uuid: [u8; 16],
)
    requires pages { 4096 * (last_page uuid_offset + 1) ≤ length signed.old }
    requires digests { hashes_offset + 32 * (last_page uuid_offset + 1) ≤ length signature.old }
    // the UUID is written, and no other byte of what is signed changes
    ensures done { signed.new ≡ put uuid_offset (uuid_written uuid) signed.old }
    // the digests of the pages that hold it are those of the new bytes, and no other byte of the signature changes
    ensures pages { signature.new
        ≡ put (hashes_offset + 32 * first_page uuid_offset)
        (digests_from signed.new (first_page uuid_offset) (last_page uuid_offset + 1 - first_page uuid_offset)) signature.old }
    // where all digests were right, they are all right
    ensures anew { Stands signature.old (record { at = hashes_offset; text = digests_of signed.old })
        → signature.new ≡ put hashes_offset (digests_of signed.new) signature.old }
{
    signed[uuid_offset..uuid_offset + 16].copy_from_slice(&stamped_uuid(uuid));
    let first = uuid_offset / PAGE;
    let last = (uuid_offset + 15) / PAGE;
    sign_pages(signed, first, last + 1, signature, hashes_offset);
}
