ghost use Rattle.std.specs.Prelude.{◌≡◌, ◌≤◌, ◌+◌, ◌-◌, ◌^◌, min, length, IfOk};
ghost use Rattle.std.specs.Io.KnownBytes.{WriteAppends};
ghost use Rattle.outputs.specs.Output.{failures_after};
ghost use Rattle.progress.specs.Shown.{Shows, bytes_taken, writing_lines};
ghost use Rattle.progress.specs.Watched.{inner};

use crate::lines::{begun, show_stretches};
use outputs::{Output, OutputFault};

/// An output that shows on another one how much it has taken. It takes what the output in it takes, and fails
/// where that one does; whether the lines are taken changes neither.
#[derive(Drop)]
pub struct WatchedOutput<O: Output, L: Output> {
    /// What takes the bytes.
    pub out: O,
    /// What takes a line where each 16 MiB begin.
    pub lines: L,
    /// How many bytes were taken; the count stays at its greatest value, 2^64 - 1.
    pub bytes: u64,
}

impl<O: Output, L: Output> WatchedOutput<O, L> {
    /// One that has taken nothing.
    pub fn new(out: O, lines: L) -> Self
        ensures out { result.out ≡ out }
        ensures lines { result.lines ≡ lines }
        ensures bytes { result.bytes ≡ 0 }
    {
        WatchedOutput {
            out,
            lines,
            bytes: 0,
        }
    }
}

impl<O: Output, L: Output> Output for WatchedOutput<O, L> {
    ghost taken = { inner O.taken };

    ghost failures = { inner O.failures };

    fn write(&mut self, bytes: &[u8]) -> Result<usize, OutputFault>
        ensures bound { IfOk result (λ n. n ≤ length bytes.now) }
        ensures bytes { WriteAppends (O.taken self.old.out) (O.taken self.new.out) result bytes.now }
        ensures failures { O.failures self.new.out
            ≡ failures_after result bytes.now (O.failures self.old.out) }
        ensures counted { self.new.bytes ≡ min (self.old.bytes + bytes_taken result) (2 ^ 64 - 1) }
        ensures shown { Shows L.taken L.failures self.old.lines self.new.lines
            (writing_lines self.old.bytes self.new.bytes) }
    {
        let before = self.bytes;
        let n = self.out.write(bytes)?;
        self.bytes = before.saturating_add(n as u64);
        show_stretches(begun(before), begun(self.bytes), &mut self.lines);
        Ok(n)
    }
}
