//! Inputs of a link as they are owned: views of them, their symbols resolved, and the libraries that the image needs.
#![tactic(auto)]

mod libraries;
mod objects;
mod resolving;
mod stubs;
mod views;

pub use libraries::needed_libraries;
pub use objects::list_objects;
pub use resolving::resolve_inputs;
pub use views::view_inputs;
