//! Sinks in memory: one that keeps what it takes and fails where it is told to, and one that keeps nothing.

ghost use Rattle.std.specs.Prelude.{◌≡◌, ◌≤◌, Some, None, IsOk, IfOk, OnOk, OnErr, MatchResult, length, vec_len};
ghost use Rattle.std.specs.Vec.{vec_capacity};

use crate::numbers::is_among;
use crate::output::{Sink, SinkFault};
use std::alloc::{AllocError, Global};
use std::collections::VecDeque;

/// A sink that keeps the bytes that it takes, in room that it takes when it is made. A write never takes memory.
///
/// Writes are numbered from 0 since the value was made. The write of a number that it is told fails, and so does
/// one that passes the room. A failing write takes none of its bytes.
#[derive(Drop)]
pub struct MemorySink {
    taken: Vec<u8>,
    room: usize,
    failing_writes: VecDeque<u64>,
    writes: u64,
    faults: u64,
    ghost in_room: { vec_len taken ≤ room },
    ghost room_kept: { room ≤ vec_capacity taken },
}

impl MemorySink {
    ghost use Rattle.macho_devices.specs.MemoryOutput.{output_of, fresh_output, FailsPiece};

    /// Takes room for that many bytes.
    pub fn new(alloc: Global, room: usize) -> Result<MemorySink, AllocError>
        ensures { IfOk result (λ sink. output_of sink ≡ fresh_output room) }
    {
        let taken = Vec::with_capacity(alloc, room)?;
        Ok(MemorySink {
            taken,
            room,
            failing_writes: VecDeque::new(alloc),
            writes: 0,
            faults: 0,
        })
    }

    /// The bytes that it took.
    pub fn bytes(&self) -> &[u8]
        ensures { result.now ≡ (output_of self.now).taken }
    {
        self.taken.as_slice()
    }

    /// Makes the write of that number fail. Writes are counted from 0 since the value was made.
    pub fn fail_write(&mut self, number: u64) -> Result<(), AllocError>
        ensures done { OnOk result (FailsPiece number (output_of self.old) (output_of self.new)) }
        ensures kept { OnErr result (output_of self.new ≡ output_of self.old) }
    {
        self.failing_writes.push_front(number)?;
        Ok(())
    }
}

impl Sink for MemorySink {
    ghost use Rattle.macho_devices.specs.Faults.{CountsOn, CountRose};
    ghost use Rattle.macho_devices.specs.Devices.{TakesPrefix};
    ghost use Rattle.macho_devices.specs.MemoryOutput.{output_of, printed_by, PrintsAsTold};

    ghost state = { printed_by };

    fn write(&mut self, bytes: &[u8]) -> Result<(), SinkFault>
        ensures left { OnErr result (TakesPrefix (printed_by self.old) (printed_by self.new) bytes.now) }
        ensures why { OnErr result (CountRose (output_of self.old).faults (output_of self.new).faults) }
        ensures counted { CountsOn (output_of self.old).faults (output_of self.new).faults }
        ensures exact { PrintsAsTold (output_of self.old) (output_of self.new) bytes.now result }
    {
        let fails = is_among(&self.failing_writes, self.writes);
        self.writes = self.writes.saturating_add(1);
        if fails || self.room - self.taken.len() < bytes.len() {
            self.faults = self.faults.saturating_add(1);
            return Err(SinkFault::Failed);
        }
        match self.taken.extend_from_slice(bytes) {
            Ok(()) => Ok(()),
            Err(_error) => unreachable!(),
        }
    }
}

/// A sink that keeps nothing, tells nothing of what it took, and never fails.
#[derive(Clone, Copy)]
pub struct SteadySink;

impl SteadySink {
    /// A sink that keeps nothing.
    pub fn new() -> SteadySink {
        SteadySink
    }
}

impl Sink for SteadySink {
    ghost use Rattle.macho_devices.specs.Devices.{only_count};

    ghost state = { λ _. only_count 0 };

    fn write(&mut self, _bytes: &[u8]) -> Result<(), SinkFault>
        ensures { IsOk result }
    {
        Ok(())
    }
}
