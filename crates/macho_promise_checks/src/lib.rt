//! What checks the laws on composed images: an instance that meets their premises, computed, and changes of it that break each part.
//! With it are calls of the laws on tables of fixups that no other law calls.
#![tactic(auto)]

mod laws;
