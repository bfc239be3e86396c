//! Views of the inputs of a link.
ghost use Rattle.std.specs.Prelude.{◌≡◌, map, All, IfOk};
ghost use Rattle.macho_promise.specs.Inputs.{IsInput};
ghost use Rattle.macho_promise.specs.Views.{object_view, ViewsObject};
ghost use Rattle.macho_linker.specs.Owned.{input_of};

use macho_linker::OwnedInput;
use macho_object::File;
use std::alloc::{AllocError, Global};

/// The view of an object, None of a library.
fn view_of(input: &OwnedInput) -> Option<File<'_>>
    requires { IsInput (input_of input.now) }
    ensures viewed { result ≡ object_view (input_of input.now) }
    ensures rules { ViewsObject result }
{
    match input {
        OwnedInput::Object(object) => Some(File::of_valid(&object.bytes, false)),
        OwnedInput::Dylib(_) => None,
        OwnedInput::Stub(_) => None,
    }
}

/// Views of the inputs, in order: None where an input is a library. They take time for each object's load commands alone.
///
/// # Errors
///
/// There is not enough memory.
pub fn view_inputs(
    alloc: Global,
    inputs: &[OwnedInput],
) -> Result<Vec<Option<File<'_>>>, AllocError>
    requires { All (λ input. IsInput (input_of input)) inputs.now }
    ensures viewed { IfOk result (λ views. views.items ≡ map object_view (map input_of inputs.now)) }
    ensures rules { IfOk result (λ views. All ViewsObject views.items) }
{
    let mut views = Vec::new(alloc);
    for input in inputs {
        views.push(view_of(input))?;
    }
    Ok(views)
}
