ghost use Rattle.std.specs.Prelude.{◌≡◌, ◌≤◌, ◌+◌, [], length, Ok, Some, IfOk};
ghost use Rattle.std.specs.Io.KnownBytes.{WriteAppends};
ghost use Rattle.outputs.specs.Output.{failures_after};

use crate::output::{Output, OutputFault};
use std::alloc::{AllocError, Global};
use std::marker::Model;

/// An output that keeps what it takes, as long as there is memory for it.
#[derive(Drop)]
pub struct VecOutput {
    bytes: Vec<u8>,
    room: usize,
    failures: u64,
}

impl Model for VecOutput {
    ghost use Rattle.std.specs.Prelude.{◌≤◌, vec_capacity};
    ghost use Rattle.outputs.specs.Kept.{Kept};

    ghost Value = { Kept };

    ghost view = { λ o. record { bytes = o.bytes.items; room = o.room; failures = o.failures } };

    ghost invariant = { λ o. o.room ≤ vec_capacity o.bytes };
}

impl VecOutput {
    /// An empty output that has taken memory for `room` bytes.
    ///
    /// # Errors
    ///
    /// An allocation failed.
    pub fn with_room(alloc: Global, room: usize) -> Result<Self, AllocError>
        ensures empty { IfOk result (λ o. o.bytes ≡ []) }
        ensures room { IfOk result (λ o. o.room ≡ room) }
        ensures failures { IfOk result (λ o. o.failures ≡ 0) }
    {
        Ok(VecOutput {
            bytes: Vec::with_capacity(alloc, room)?,
            room,
            failures: 0,
        })
    }

    /// What was taken.
    pub fn bytes(&self) -> &[u8]
        ensures { result.now ≡ self.now.bytes }
    {
        self.bytes.as_slice()
    }

    /// What was taken.
    pub fn into_bytes(self) -> Vec<u8>
        ensures { result.items ≡ self.bytes }
    {
        self.bytes
    }
}

impl Output for VecOutput {
    ghost taken = { λ o. Some o.bytes };

    ghost failures = { λ o. o.failures };

    // A write within the room takes the whole slice; past it, a failed allocation is a failure.
    fn write(&mut self, bytes: &[u8]) -> Result<usize, OutputFault>
        ensures bound { IfOk result (λ n. n ≤ length bytes.now) }
        ensures bytes { WriteAppends (Some self.old.bytes) (Some self.new.bytes) result bytes.now }
        ensures failures { self.new.failures ≡ failures_after result bytes.now self.old.failures }
        ensures room { self.new.room ≡ self.old.room }
        ensures fits { length self.old.bytes + length bytes.now ≤ self.old.room
            → result ≡ Ok (length bytes.now) }
    {
        match self.bytes.extend_from_slice(bytes) {
            Ok(()) => Ok(bytes.len()),
            Err(_) => {
                self.failures = self.failures.saturating_add(1);
                Err(OutputFault::Failed)
            }
        }
    }
}
