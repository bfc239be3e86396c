//! From written parts to the promise: laws on an image whose parts are written.
//!
//! `specs/Composed` says when an image is composed of its parts, in the words of the crates that write them; `specs/Laws` what
//! follows of it. No code of a linker stands here.
#![tactic(auto)]

mod laws;

pub use laws::{
    composed_images_are_accepted, composed_images_are_loadable, composed_images_stand,
    headers_tell_the_template, links_lead, valid_links_are_sound, words_leave_the_rest,
};
