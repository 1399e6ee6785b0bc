//! What the program reads from.

ghost use Rattle.std.specs.Prelude.{◌≡◌, ℕ, List, Option};
ghost use Rattle.std.specs.Io.{ReadsAtMost};
ghost use Rattle.std.specs.Io.KnownBytes.{ReadConsumes};
ghost use Rattle.arcwcet.specs.Input.{failures_after_read};

use std::io::Read;
use std::marker::Model;
use thiserror::Error;

/// Why an input gave nothing.
#[derive(Clone, Copy, Debug, PartialEq, Eq, Drop, Error)]
pub enum InputFault {
    /// The read failed.
    #[error("the input failed")]
    Failed,
}

/// What gives a program its bytes, and counts its failures.
pub trait Input {
    /// The bytes that reads will give from here on, where the input states them.
    ghost remaining: { Self → Option (List ℕ) };

    /// How many reads failed so far; the count stays at its greatest value, 2^64 - 1.
    ghost failures: { Self → ℕ };

    /// Gives a front of what is left and answers how many bytes: none at the end, or where there is no room.
    ///
    /// # Errors
    ///
    /// `Failed`: the read failed, and gave nothing.
    fn read(&mut self, part: &mut [u8]) -> Result<usize, InputFault>
        ensures bound { ReadsAtMost result part.new }
        ensures bytes { ReadConsumes (remaining self.old) (remaining self.new) result part.new }
        ensures failures { failures self.new ≡ failures_after_read result (failures self.old) };
}

/// An input over a reader.
#[derive(Drop)]
pub struct StreamInput<R: Read> {
    reader: R,
    failures: u64,
}

impl<R: Read> Model for StreamInput<R> {
    ghost use Rattle.arcwcet.specs.Input.{Left};

    ghost Value = { Left };

    ghost view = { λ s. record { remaining = R.remaining s.reader; failures = s.failures } };
}

impl<R: Read> StreamInput<R> {
    /// An input over the reader, with no failure yet.
    pub fn new(reader: R) -> Self
        ensures remaining { result.remaining ≡ R.remaining reader }
        ensures failures { result.failures ≡ 0 }
    {
        StreamInput {
            reader,
            failures: 0,
        }
    }
}

impl<R: Read> Input for StreamInput<R> {
    ghost remaining = { λ s. s.remaining };

    ghost failures = { λ s. s.failures };

    fn read(&mut self, part: &mut [u8]) -> Result<usize, InputFault> {
        match self.reader.read(part) {
            Ok(n) => Ok(n),
            Err(_) => {
                self.failures = self.failures.saturating_add(1);
                Err(InputFault::Failed)
            }
        }
    }
}
