//! The code signature of an image: ad hoc, made by a linker (`cs_blobs.h`, xnu).
//!
//! It is the last part of a file, and signs all bytes in front of it. Its numbers are big-endian. That of 16,624 bytes
//! under the name `out`:
//!
//!     0    super blob       20 bytes    magic, 284 bytes, one blob: number 0, at 20
//!     20   code directory   88 bytes    how many bytes are signed, in which pages; where name and digests stand
//!     108  identifier       16 bytes    `out`, zeros to a multiple of 16
//!     124  digests          5 * 32      SHA-256 of each 4 KiB page; the last one has 240 bytes
#![tactic(auto)]

mod digests;
mod signature;
mod uuid;

pub use digests::{page_count, sign_again};
pub use signature::{Signer, digests_offset, identifier_size, sign, sign_file, signature_size};
pub use uuid::{stamped_uuid, write_uuid};
