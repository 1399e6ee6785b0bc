ghost use Rattle.std.specs.Prelude.{◌≡◌, ◌++◌, ℕ, List, [], true, false, MatchResult};
ghost use Rattle.std.specs.Io.KnownBytes.{Appends};
ghost use Rattle.outputs.specs.OnTheWay.{Adds, IsOnTheWay};
ghost use Rattle.outputs.specs.Output.{FailsSince, TakesFront};

use crate::output::{Output, OutputFault, write_whole};
use std::marker::Model;

// The most bytes that a page holds back.
const PAGE_ROOM: usize = 4096;

/// Bytes on their way to an output, up to 4096 of which are held back, so that many short texts are one
/// write. It takes no memory. Once the output failed, nothing more is handed to it.
#[derive(Drop)]
pub struct Page {
    room: [u8; PAGE_ROOM],
    held: usize,
    failed: bool,
}

impl Model for Page {
    ghost use Rattle.std.specs.Prelude.{◌≤◌, take};
    ghost use Rattle.outputs.specs.OnTheWay.{Held};
    ghost use Rattle.outputs.specs.declared.page.TheConstants.{PAGE_ROOM};

    ghost Value = { Held };

    ghost view = { λ p. record { bytes = take p.held p.room; failed = p.failed } };

    ghost invariant = { λ p. p.held ≤ PAGE_ROOM };
}

impl Page {
    /// A page that holds nothing.
    pub fn new() -> Self
        ensures bytes { result.bytes ≡ [] }
        ensures failed { result.failed ≡ false }
    {
        Page {
            room: [0; PAGE_ROOM],
            held: 0,
            failed: false,
        }
    }

    /// Whether the output failed.
    pub fn has_failed(&self) -> bool
        ensures { result ≡ self.now.failed }
    {
        self.failed
    }

    // Holds the bytes back, where there is room; there is after a failure, since they are not wanted then.
    fn holds(&mut self, bytes: &[u8]) -> bool
        ensures kept { result ≡ true → self.old.failed ≡ false
            → self.new.bytes ≡ self.old.bytes ++ bytes.now }
        ensures failed { self.new.failed ≡ self.old.failed }
        ensures full { result ≡ false → (self.new ≡ self.old) × (self.old.failed ≡ false) }
    {
        if self.failed {
            return true;
        }
        if PAGE_ROOM - self.held < bytes.len() {
            return false;
        }
        let end = self.held + bytes.len();
        self.room[self.held..end].copy_from_slice(bytes);
        self.held = end;
        true
    }

    // Hands the bytes to the output, which took all before them.
    fn send<O: Output>(&mut self, out: &mut O, bytes: &[u8])
        requires { self.old.failed ≡ false → self.old.bytes ≡ [] }
        ensures adds { Adds O.taken O.failures out.old self.old out.new self.new bytes.now }
    {
        if self.failed {
            return;
        }
        self.failed = write_whole(out, bytes).is_err();
    }

    // Hands what is held back to the output.
    fn flush<O: Output>(&mut self, out: &mut O)
        ensures adds { Adds O.taken O.failures out.old self.old out.new self.new [] }
        ensures empty { self.new.failed ≡ false → self.new.bytes ≡ [] }
    {
        if self.failed {
            return;
        }
        self.failed = write_whole(out, &self.room[..self.held]).is_err();
        self.held = 0;
    }

    /// Adds bytes to those that are on their way to the output.
    pub fn put<O: Output>(&mut self, out: &mut O, bytes: &[u8])
        ensures { Adds O.taken O.failures out.old self.old out.new self.new bytes.now }
    {
        if self.holds(bytes) {
            return;
        }
        self.flush(out);
        if self.holds(bytes) {
            return;
        }
        self.send(out, bytes);
    }

    /// Sends what is left. All that was put on its way since the page was made was then written, and no write
    /// failed; or some write failed, and the output took a front of it.
    ///
    /// # Errors
    ///
    /// `Failed`: a write of this page failed.
    pub fn finish<O: Output>(mut self, out: &mut O) -> Result<(), OutputFault>
        ensures { (start : O) (text : List ℕ) → IsOnTheWay O.taken O.failures start out.old self text
            → MatchResult result
            (λ _. Appends (O.taken start) (O.taken out.new) text × (O.failures out.new ≡ O.failures start))
            (λ _. TakesFront (O.taken start) (O.taken out.new) text
            × FailsSince (O.failures start) (O.failures out.new)) }
    {
        self.flush(out);
        if self.failed {
            return Err(OutputFault::Failed);
        }
        Ok(())
    }
}
