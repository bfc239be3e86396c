//! Tests of what only a caller of a library sees, a module for each subject: texts of stubs, devices, another UUID of a signed image;
//! records, objects, relocations; look-up in broken bytes, answers that the linker never asks for, tries and unwind sections of a
//! caller's own, and words of fixups. Callers of the laws of lines, of tries, of unwind information, of relocated fields and of the model.
//!
//! Digests are those of Python's hashlib.
#![tactic(auto)]

#[cfg(test)]
mod devices;
#[cfg(test)]
mod field_laws;
#[cfg(test)]
mod fixups;
#[cfg(test)]
mod laws;
#[cfg(test)]
mod line_laws;
#[cfg(test)]
mod model_laws;
#[cfg(test)]
mod objects;
#[cfg(test)]
mod records;
#[cfg(test)]
mod relocations;
#[cfg(test)]
mod rooms;
#[cfg(test)]
mod stubs;
#[cfg(test)]
mod trie_look_ups;
#[cfg(test)]
mod tries;
#[cfg(test)]
mod unwind_look_ups;
#[cfg(test)]
mod unwind_sections;
#[cfg(test)]
mod uuid;
