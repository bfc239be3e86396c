//! The objects among the inputs of a link.
ghost use Rattle.std.specs.Prelude.{◌≡◌, ◌<◌, ◌^◌, false, length, map, All, IfOk};
ghost use Rattle.macho_model.specs.Links.{Link};
ghost use Rattle.macho_promise.specs.Inputs.{IsInput};
ghost use Rattle.macho_linkedit.specs.Listing.{AreObjects};
ghost use Rattle.macho_linker.specs.Owned.{input_of};

use macho_linkedit::LinkedObject;
use macho_linker::OwnedInput;
use macho_object::File;
use std::alloc::{AllocError, Global};

/// The objects among the inputs, with their numbers, in order.
///
/// # Errors
///
/// There is not enough memory.
pub fn list_objects(
    alloc: Global,
    inputs: &[OwnedInput],
) -> Result<Vec<LinkedObject<'_>>, AllocError>
    requires rules { All (λ input. IsInput (input_of input)) inputs.now }
    requires few { length inputs.now < 2 ^ 32 }
    ensures listed { (l : Link) → l.inputs ≡ map input_of inputs.now → IfOk result (λ objects. AreObjects l objects.items) }
    ensures kinds { IfOk result (λ objects. All (λ o. o.file.is_dynamic ≡ false) objects.items) }
{
    let mut objects = Vec::new(alloc);
    for (number, input) in inputs.iter().enumerate() {
        match input {
            OwnedInput::Object(object) => objects.push(LinkedObject {
                number: number as u32,
                file: File::of_valid(&object.bytes, false),
            })?,
            _ => {}
        }
    }
    Ok(objects)
}
