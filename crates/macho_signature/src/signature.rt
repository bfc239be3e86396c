//! A whole signature: its sizes, which are known before its bytes, and its bytes.
ghost use Rattle.std.specs.Prelude.{◌≡◌, ◌+◌, ◌*◌, ◌-◌, ◌<◌, ◌≤◌, ◌^◌, [], ◌∷◌, length};
ghost use Rattle.macho_bytes.specs.Numbers.{rounded_up, big, row_bytes};
ghost use Rattle.macho_bytes.specs.Texts.{put, Stands};
ghost use Rattle.macho_model.specs.Signature.{DIRECTORY_PLACE, identifier_text, signature_text};
ghost use Rattle.macho_signature.specs.Sizes.{identifier_size, digests_offset, signature_size, signed_by, directory_for};
ghost use Rattle.macho_bytes.specs.Spellings.{ReadsBack};
ghost use Rattle.macho_wire.specs.Spellings.{code_directory_rows};

use crate::digests::{DIGEST, page_count, sign_again};
use byteorder::{BigEndian, ByteOrder};
use macho_records::CodeDirectory;

/// `CSMAGIC_EMBEDDED_SIGNATURE`: the magic number of a super blob.
const MAGIC: u32 = 0xfade_0cc0;
/// `CSMAGIC_CODEDIRECTORY`.
const DIRECTORY_MAGIC: u32 = 0xfade_0c02;
/// `CS_SUPPORTSEXECSEG`: the version of a code directory that ends with the range of `__TEXT`.
const DIRECTORY_VERSION: u32 = 0x2_0400;
/// `CS_ADHOC` and `CS_LINKER_SIGNED`.
const DIRECTORY_FLAGS: u32 = 0x2_0002;
/// `CS_HASHTYPE_SHA256`.
const SHA256_TYPE: u8 = 2;
/// A page has 4 KiB, as an exponent of 2.
const PAGE_EXPONENT: u8 = 12;
/// The bytes of a super blob with one blob, behind which the code directory stands.
const SUPER_BLOB_SIZE: usize = 20;
/// Where the identifier stands in the signature.
const IDENTIFIER_OFFSET: usize = SUPER_BLOB_SIZE + CodeDirectory::SIZE;

/// What a signature says beside the digests.
#[derive(Clone, Copy)]
pub struct Signer<'a> {
    /// The name that the file is signed under: the last part of its path, without a NUL.
    pub identifier: &'a [u8],
    /// The file offset of `__TEXT`.
    pub text_offset: u64,
    /// The bytes of `__TEXT` in the file.
    pub text_size: u64,
    /// Whether the file is an executable.
    pub executable: bool,
}

/// The bytes of an identifier with at least one NUL, filled to a multiple of 16.
pub fn identifier_size(name: usize) -> usize
    requires { name < 2 ^ 32 }
    ensures { result ≡ identifier_size name }
{
    (name + 1).next_multiple_of(16)
}

/// Where the digests stand in a signature under a name of so many bytes.
pub fn digests_offset(name: usize) -> usize
    requires { name < 2 ^ 32 }
    ensures { result ≡ digests_offset name }
{
    IDENTIFIER_OFFSET + identifier_size(name)
}

/// The bytes of a signature of so many bytes, under a name of so many bytes.
pub fn signature_size(name: usize, signed: usize) -> usize
    requires name { name < 2 ^ 32 }
    requires signed { signed < 2 ^ 32 }
    ensures { result ≡ signature_size name signed }
{
    digests_offset(name) + DIGEST * page_count(signed)
}

/// Writes the super blob of a signature of so many bytes: one blob, the code directory.
fn write_super_blob(size: u32, out: &mut [u8])
    requires { 20 ≤ length out.old }
    ensures { out.new ≡ put 0 (row_bytes big 4 (0xfade0cc0 ∷ size ∷ 1 ∷ 0 ∷ DIRECTORY_PLACE ∷ [])) out.old }
{
    let numbers = [MAGIC, size, 1, 0, SUPER_BLOB_SIZE as u32];
    BigEndian::write_u32_into(&numbers, &mut out[..SUPER_BLOB_SIZE]);
}

/// Writes the identifier, and zeros to its end.
fn write_identifier(name: &[u8], out: &mut [u8])
    requires small { length name.now < 2 ^ 32 }
    requires room { 108 + identifier_size (length name.now) ≤ length out.old }
    ensures { out.new ≡ put 108 (identifier_text name.now) out.old }
{
    let end = IDENTIFIER_OFFSET + name.len();
    out[IDENTIFIER_OFFSET..end].copy_from_slice(name);
    out[end..IDENTIFIER_OFFSET + identifier_size(name.len())].fill(0);
}

/// The code directory of a signature of so many bytes.
fn directory_of(signer: &Signer<'_>, signed: usize) -> CodeDirectory
    requires limit { signed < 2 ^ 32 }
    requires small { signature_size (length signer.now.identifier.now) signed < 2 ^ 32 }
    ensures { result ≡ directory_for (signed_by signer.now signed) }
{
    let name = signer.identifier.len();
    CodeDirectory {
        magic: DIRECTORY_MAGIC,
        length: (signature_size(name, signed) - SUPER_BLOB_SIZE) as u32,
        version: DIRECTORY_VERSION,
        flags: DIRECTORY_FLAGS,
        hash_offset: (digests_offset(name) - SUPER_BLOB_SIZE) as u32,
        ident_offset: CodeDirectory::SIZE as u32,
        special_slots: 0,
        code_slots: page_count(signed) as u32,
        code_limit: signed as u32,
        hash_size: DIGEST as u8,
        hash_type: SHA256_TYPE,
        platform: 0,
        page_exponent: PAGE_EXPONENT,
        spare: 0,
        scatter_offset: 0,
        team_offset: 0,
        spare2: 0,
        code_limit64: 0,
        exec_base: signer.text_offset,
        exec_limit: signer.text_size,
        exec_flags: signer.executable as u64,
    }
}

/// Signs some bytes: writes the signature that stands behind them in the file. What is behind it stays.
pub fn sign(signed: &[u8], signature: &mut [u8], signer: &Signer<'_>)
    requires limit { length signed.now < 2 ^ 32 }
    requires small { signature_size (length signer.now.identifier.now) (length signed.now) < 2 ^ 32 }
    requires room { signature_size (length signer.now.identifier.now) (length signed.now) ≤ length signature.old }
    ensures done { signature.new ≡ put 0 (signature_text (signed_by signer.now (length signed.now)) signed.now) signature.old }
    ensures length { length (signature_text (signed_by signer.now (length signed.now)) signed.now)
        ≡ signature_size (length signer.now.identifier.now) (length signed.now) }
    ensures back { ReadsBack code_directory_rows (directory_for (signed_by signer.now (length signed.now))) }
{
    let name = signer.identifier;
    let size = signature_size(name.len(), signed.len());
    write_super_blob(size as u32, signature);
    directory_of(signer, signed.len()).write(signature, SUPER_BLOB_SIZE);
    write_identifier(name, signature);
    sign_again(signed, signature, digests_offset(name.len()));
}

/// Signs a file up to a limit, where its signature begins.
pub fn sign_file(file: &mut [u8], limit: usize, signer: &Signer<'_>)
    requires limit { limit < 2 ^ 32 }
    requires small { signature_size (length signer.now.identifier.now) limit < 2 ^ 32 }
    requires room { limit + signature_size (length signer.now.identifier.now) limit ≤ length file.old }
    ensures done { file.new ≡ put limit (signature_text (signed_by signer.now limit) file.old) file.old }
    ensures stands { Stands file.new (record { at = limit; text = signature_text (signed_by signer.now limit) file.new }) }
{
    let (signed, signature) = file.split_at_mut(limit);
    sign(signed, signature, signer);
}
