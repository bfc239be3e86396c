//! The link, as a call of the linker.
ghost use Rattle.std.specs.Prelude.{◌≡◌, IfOk, IfErr};
ghost use Rattle.macho_model.specs.declared.placed.Counts.{Counts};
ghost use Rattle.macho_model.specs.Valid.{IsValid};
ghost use Rattle.macho_promise.specs.Sizes.{AreCounts};
ghost use Rattle.macho_answer.specs.declared.fault.LinkError.TheVariants.{OutOfMemory};
ghost use Rattle.macho_answer.specs.Linked.{IsImageOf, RefusalStands};

use macho_answer::{LinkError, LinkedImage};
use macho_linker::Linker;
use macho_linking::link;
use std::alloc::Global;

/// What links.
pub trait LinkImage {
    /// Links: resolves names, places the parts, writes the image and answers it with its placement. `uuid` becomes the image's
    /// identifier.
    ///
    /// # Errors
    ///
    /// `DuplicateSymbol` to `RelocationRange`, for what the inputs ask that can't be met, as `LinkError` says of each; and
    /// `OutOfMemory`. `BadName` and `BadInput` come when a linker is made or an input is added, never here.
    fn link_image(&self, alloc: Global, uuid: [u8; 16]) -> Result<LinkedImage, LinkError>;
}

impl LinkImage for Linker {
    fn link_image(&self, alloc: Global, uuid: [u8; 16]) -> Result<LinkedImage, LinkError>
        // The image is as promised, and nothing stands that it is refused for.
        ensures done { IfOk result (IsImageOf self.now uuid) }
        // A refusal stands.
        ensures why { IfErr result (RefusalStands self.now) }
        // A valid link is refused for want of memory alone.
        ensures complete { (counts : Counts) → AreCounts self.now counts → IsValid self.now counts → IfErr result (λ e. e ≡ OutOfMemory) }
    {
        link(alloc, self, uuid)
    }
}
