//! Sealing an image: the header and the load commands of a link, and the signature.
#![tactic(auto)]

mod commands;
mod head;
mod laws;
mod segments;

pub use commands::{HeadParts, head_commands};
pub use head::write_image_head;
pub use laws::signature_is_the_links;
