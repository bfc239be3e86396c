//! The identifier of an image.

ghost use Rattle.std.specs.Prelude.{◌≡◌, ℕ, ◌++◌, ◌<◌, List, length, get_or, take};
ghost use Rattle.std.specs.List.{flat_map};
ghost use Rattle.sha2.specs.Sha256.{sha256};
ghost use Rattle.sha2.specs.Hashers.{Holds256};
ghost use Rattle.macho_args.specs.Settings.{settings_of};
ghost use Rattle.macho_model.specs.Links.{no_input};
ghost use Rattle.macho_linker.specs.Linkers.{bytes_of};
ghost use Rattle.macho_job.specs.Job.{uuid_of};

use macho_args::MachOArgs;
use macho_linker::Linker;
use sha2::{Digest, Sha256};

/// How many bytes an identifier has.
const UUID_SIZE: usize = 16;

/// The bytes that the image's identifier is made of: those that were given, else the first 16 of the SHA-256 of all inputs, joined in
/// order. Version and variant are put in where the image is written.
pub fn uuid_of(args: &MachOArgs, linker: &Linker) -> [u8; 16]
    ensures { result ≡ uuid_of (settings_of args.now) linker.now.inputs }
{
    match args.uuid {
        Some(uuid) => uuid,
        None => front_of(digest_of_inputs(linker)),
    }
}

fn front_of(digest: [u8; 32]) -> [u8; 16]
    ensures { result ≡ take 16 digest }
{
    let mut uuid = [0u8; UUID_SIZE];
    uuid.copy_from_slice(&digest[..UUID_SIZE]);
    uuid
}

// The digest of the inputs joined in order.
fn digest_of_inputs(linker: &Linker) -> [u8; 32]
    ensures { result ≡ sha256 (flat_map bytes_of linker.now.inputs) }
{
    let mut hasher = Sha256::new();
    for file in 0..linker.num_inputs() {
        add_file(&mut hasher, linker, file);
    }
    hasher.finalize()
}

fn add_file(hasher: &mut Sha256, linker: &Linker, file: u32)
    requires { file < length linker.now.inputs }
    ensures { (m : List ℕ) → Holds256 hasher.old m → Holds256 hasher.new (m ++ bytes_of (get_or linker.now.inputs file no_input)) }
{
    match linker.input_bytes(file) {
        Some(bytes) => hasher.update(bytes),
        None => unreachable!(),
    }
}
