//! A place that text is printed to.

ghost use Rattle.std.specs.Prelude.{OnOk, OnErr};
ghost use Rattle.macho_devices.specs.Faults.{CountsOn, CountRose};
ghost use Rattle.macho_devices.specs.Devices.{Printed, TakesBytes, TakesPrefix};

use thiserror::Error;

/// Why bytes were not taken: the device failed, and its count of failed writes has risen.
#[derive(Clone, Copy, Debug, PartialEq, Eq, Error)]
pub enum SinkFault {
    /// The device failed. It may have taken the first of the bytes.
    #[error("failed")]
    Failed,
}

/// A place that takes bytes one piece after another, as standard output does.
///
/// Its state, for proofs, is what was printed to it, as far as it tells that, and how many of its writes have failed.
pub trait Sink {
    ghost state: { Self → Printed };

    /// Takes the bytes behind all that it took before.
    fn write(&mut self, bytes: &[u8]) -> Result<(), SinkFault>
        ensures done { OnOk result (TakesBytes (state self.old) (state self.new) bytes.now) }
        ensures left { OnErr result (TakesPrefix (state self.old) (state self.new) bytes.now) }
        ensures why { OnErr result (CountRose (state self.old).failed (state self.new).failed) }
        ensures counted { CountsOn (state self.old).failed (state self.new).failed };
}
