ghost use Rattle.std.specs.Prelude.{◌≡◌, ◌≤◌, ◌+◌, [], length, Some, Ok, IfErr, IfOk};
ghost use Rattle.std.specs.Io.KnownBytes.{Appends, WriteAppends};
ghost use Rattle.outputs.specs.Output.{FailsSince, TakesFront, failures_after};

use crate::fault::ReportFault;
use outputs::{Output, OutputFault, VecOutput, write_whole};
use std::alloc::Global;
use std::io::Write;
use std::marker::Model;

/// An output that keeps what it takes.
#[derive(Drop)]
pub struct MemoryOutput {
    kept: VecOutput,
}

impl Model for MemoryOutput {
    ghost use Rattle.outputs.specs.Kept.{Kept};

    ghost Value = { Kept };

    ghost view = { λ m. m.kept };
}

impl MemoryOutput {
    /// An empty output that has taken memory for `room` bytes.
    ///
    /// # Errors
    ///
    /// The only refusal is `Memory`: an allocation failed.
    pub fn with_room(alloc: Global, room: usize) -> Result<MemoryOutput, ReportFault>
        ensures empty { IfOk result (λ m. m.bytes ≡ []) }
        ensures room { IfOk result (λ m. m.room ≡ room) }
        ensures failures { IfOk result (λ m. m.failures ≡ 0) }
        ensures memory { IfErr result (λ e. e ≡ ReportFault.Memory) }
    {
        let kept = VecOutput::with_room(alloc, room)?;
        Ok(MemoryOutput { kept })
    }

    /// What was taken.
    pub fn bytes(&self) -> &[u8]
        ensures { result.now ≡ self.now.bytes }
    {
        self.kept.bytes()
    }
}

impl Output for MemoryOutput {
    ghost taken = { λ m. Some m.bytes };

    ghost failures = { λ m. m.failures };

    fn write(&mut self, bytes: &[u8]) -> Result<usize, OutputFault>
        ensures bound { IfOk result (λ n. n ≤ length bytes.now) }
        ensures bytes { WriteAppends (Some self.old.bytes) (Some self.new.bytes) result bytes.now }
        ensures failures { self.new.failures ≡ failures_after result bytes.now self.old.failures }
        ensures room { self.new.room ≡ self.old.room }
        ensures fits { length self.old.bytes + length bytes.now ≤ self.old.room
            → result ≡ Ok (length bytes.now) }
    {
        self.kept.write(bytes)
    }
}

/// An output over a writer.
#[derive(Drop)]
pub struct StreamOutput<W: Write> {
    writer: W,
    failures: u64,
}

impl<W: Write> Model for StreamOutput<W> {
    ghost use Rattle.handlers.specs.Sent.{Sent};

    ghost Value = { Sent };

    ghost view = { λ s. record { written = W.contents s.writer; failures = s.failures } };
}

impl<W: Write> StreamOutput<W> {
    /// An output over the writer, with no failure yet.
    pub fn new(writer: W) -> Self
        ensures written { result.written ≡ W.contents writer }
        ensures failures { result.failures ≡ 0 }
    {
        StreamOutput {
            writer,
            failures: 0,
        }
    }
}

impl<W: Write> Output for StreamOutput<W> {
    ghost taken = { λ s. s.written };

    ghost failures = { λ s. s.failures };

    fn write(&mut self, bytes: &[u8]) -> Result<usize, OutputFault> {
        match self.writer.write(bytes) {
            Ok(n) => {
                if n == 0 && !bytes.is_empty() {
                    self.failures = self.failures.saturating_add(1);
                }
                Ok(n)
            }
            Err(_) => {
                self.failures = self.failures.saturating_add(1);
                Err(OutputFault::Failed)
            }
        }
    }
}

/// Writes a report's whole text, and returns its answer.
///
/// # Errors
///
/// The only refusal is `Device`: the output failed. It took a front of the text then.
pub fn print_answer<T: Drop, O: Output>(
    answer: T,
    text: &[u8],
    out: &mut O,
) -> Result<T, ReportFault>
    ensures printed { IfOk result
        (λ x. (x ≡ answer) × Appends (O.taken out.old) (O.taken out.new) text.now) }
    ensures device { IfErr result
        (λ e. (e ≡ ReportFault.Device)
        × (TakesFront (O.taken out.old) (O.taken out.new) text.now
        × FailsSince (O.failures out.old) (O.failures out.new))) }
{
    match write_whole(out, text) {
        Ok(()) => Ok(answer),
        Err(_) => Err(ReportFault::Device),
    }
}
