//! The symbols of the inputs of a link, resolved.
ghost use Rattle.std.specs.Prelude.{◌≡◌, ℕ, ◌-◌, ◌<◌, ◌^◌, List, [], ◌∷◌, ◌++◌, length, map, All, IfOk, IfErr, OnOk};
ghost use Rattle.macho_model.specs.declared.placed.Counts.{Counts};
ghost use Rattle.macho_model.specs.Links.{Link, Input};
ghost use Rattle.macho_model.specs.Faults.{IsDuplicate};
ghost use Rattle.macho_promise.specs.Inputs.{IsInput};
ghost use Rattle.macho_symbol_names.specs.Kept.{Keeps};
ghost use Rattle.macho_symbols.specs.Kept.{IsResolved};
ghost use Rattle.macho_answer.specs.Standing.{Stands};
ghost use Rattle.macho_linker.specs.Owned.{input_of};

use crate::stubs::library_of;
use macho_answer::LinkError;
use macho_linker::OwnedInput;
use macho_object::File;
use macho_symbols::{Resolved, Resolver};
use std::alloc::{AllocError, Global};

/// Takes in what is kept of an input.
fn add_input<'data>(
    alloc: Global,
    resolver: &mut Resolver<'data>,
    input: &'data OwnedInput,
) -> Result<(), AllocError>
    requires rules { IsInput (input_of input.now) }
    requires few { length resolver.old < 2 ^ 32 - 1 }
    ensures { (inputs : List Input) → Keeps inputs resolver.old → OnOk result (Keeps (inputs ++ input_of input.now ∷ []) resolver.new) }
{
    match input {
        OwnedInput::Object(object) => {
            resolver.add_object(&File::of_valid(&object.bytes, false))?;
        }
        OwnedInput::Dylib(bytes) => {
            resolver.add_dylib(&File::of_valid(bytes, true))?;
        }
        OwnedInput::Stub(stub) => {
            let library = library_of(alloc, stub)?;
            resolver.add_stub(&library)?;
        }
    }
    Ok(())
}

/// Resolves the symbols of the inputs. No import is noted yet. Names are looked for by hashes that begin with the seed.
///
/// # Errors
///
/// `DuplicateSymbol` where two objects define a name strongly, and `OutOfMemory`.
pub fn resolve_inputs<'data>(
    alloc: Global,
    inputs: &'data [OwnedInput],
    seed: u64,
) -> Result<Resolved<'data>, LinkError>
    requires rules { All (λ input. IsInput (input_of input)) inputs.now }
    requires few { length inputs.now < 2 ^ 32 }
    ensures done { (l : Link) → l.inputs ≡ map input_of inputs.now → IfOk result (λ r. IsResolved l [] r) }
    ensures single { (l : Link) → l.inputs ≡ map input_of inputs.now
        → OnOk result ((name : List ℕ) (first second : ℕ) → IsDuplicate l name first second → ⊥) }
    ensures why { (l : Link) (counts : Counts) → l.inputs ≡ map input_of inputs.now → IfErr result (Stands l counts) }
{
    let mut resolver = Resolver::new(alloc, seed);
    for input in inputs {
        add_input(alloc, &mut resolver, input)?;
    }
    match resolver.resolve() {
        Ok(resolved) => Ok(resolved),
        Err(fault) => Err(LinkError::from(fault)),
    }
}
