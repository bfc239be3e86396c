//! What a reader of a finished image finds of its head: the link's header and load commands, by the promise of an image alone.
#![tactic(auto)]

mod laws;

pub use laws::linked_head_is_read;
