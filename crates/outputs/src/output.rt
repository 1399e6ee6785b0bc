ghost use Rattle.std.specs.Prelude.{◌≡◌, ◌≤◌, ℕ, List, length, Option, IfOk, OnErr, OnOk};
ghost use Rattle.std.specs.Io.KnownBytes.{Appends, WriteAppends};
ghost use Rattle.outputs.specs.Output.{FailsSince, TakesFront, failures_after};

use thiserror::Error;

/// Why an output took nothing.
#[derive(Clone, Copy, Debug, PartialEq, Eq, Drop, Error)]
pub enum OutputFault {
    /// The write failed.
    #[error("the output failed")]
    Failed,
}

/// What takes a program's bytes, and counts its failures.
pub trait Output {
    /// The bytes taken so far, where the output states them.
    ghost taken: { Self → Option (List ℕ) };

    /// How many writes failed so far; the count stays at its greatest value, 2^64 - 1.
    ghost failures: { Self → ℕ };

    /// Takes a front of the bytes and answers how many. A write that takes nothing of a slice that
    /// is not empty is a failure.
    ///
    /// # Errors
    ///
    /// `Failed`: the write failed, and took nothing.
    fn write(&mut self, bytes: &[u8]) -> Result<usize, OutputFault>
        ensures bound { IfOk result (λ n. n ≤ length bytes.now) }
        ensures bytes { WriteAppends (taken self.old) (taken self.new) result bytes.now }
        ensures failures { failures self.new ≡ failures_after result bytes.now (failures self.old) };
}

/// Writes the text to its end, over writes that take a part.
///
/// # Errors
///
/// `Failed`: a write failed. The output took a front of the text then.
pub fn write_whole<O: Output>(out: &mut O, text: &[u8]) -> Result<(), OutputFault>
    ensures ok { OnOk result (Appends (O.taken out.old) (O.taken out.new) text.now) }
    ensures quiet { OnOk result (O.failures out.new ≡ O.failures out.old) }
    ensures front { OnErr result (TakesFront (O.taken out.old) (O.taken out.new) text.now) }
    ensures failed { OnErr result (FailsSince (O.failures out.old) (O.failures out.new)) }
{
    let mut at = 0;
    while at < text.len() {
        let n = out.write(&text[at..])?;
        if n == 0 {
            return Err(OutputFault::Failed);
        }
        at += n;
    }
    Ok(())
}
