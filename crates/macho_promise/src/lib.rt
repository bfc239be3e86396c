//! The promise of an image, with what its passes hand to each other: definitions that need words of the exports trie, of compact unwind
//! information or of stub texts beside those of the model; when a link is sound, when a section's bytes are filled, which fixups it asks
//! for. No code.
#![tactic(auto)]
