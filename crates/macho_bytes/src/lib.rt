//! Words and lemmas on bytes and on lists, under every crate of the linker: numbers of a width at a place, texts put at a place, parts of
//! an image; which elements a list has. There is no code here: the definitions are in `specs`, the lemmas in `proofs`.
#![tactic(auto)]
