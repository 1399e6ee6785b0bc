//! VIDC, the video controller, as a source of interrupts: its frame and when flyback rises in it.
//!
//! Four registers make the frame (our own profile, shaped on the VL86C310 data sheet). Time comes in ticks,
//! cycles of the 8 MHz processor; within the crate it is counted in sixths of a tick, of which a pixel takes
//! a whole number.
#![tactic(auto)]

mod frame;
mod law;
mod timing;

ghost use Rattle.std.specs.Prelude.{◌≡◌, ◌≤◌, ◌<◌, true};
ghost use Rattle.vidc.specs.Video.{Video, fresh, rate_of, value_of};
ghost use Rattle.vidc.specs.Video.{runs, written, advanced};
ghost use Rattle.vidc.specs.Video.{flybacks};

pub use law::ticks_add_up;
use std::marker::Model;
use timing::Timing;

/// The rate at which pixels are shown: bits 1:0 of the control register.
#[derive(Clone, Copy, Debug, PartialEq, Eq)]
pub enum PixelRate {
    /// Six sixths of a tick a pixel.
    Mhz8,
    /// Four sixths.
    Mhz12,
    /// Three sixths.
    Mhz16,
    /// Two sixths.
    Mhz24,
}

/// VIDC: its frame, and the position in it.
#[derive(Drop)]
pub struct Vidc {
    timing: Timing,
    horizontal_written: bool,
    vertical_written: bool,
    // Sixths of a tick since the frame began.
    position: u32,
}

impl Model for Vidc {
    ghost Value = { Video };

    ghost view = { λ v. record {
      horizontal_cycle = v.timing.horizontal_cycle;
      vertical_cycle = v.timing.vertical_cycle;
      display_end = v.timing.display_end;
      rate = v.timing.rate;
      horizontal_written = v.horizontal_written;
      vertical_written = v.vertical_written;
      position = v.position;
    } };

    ghost invariant = { λ v. v.position < v.timing.frame };
}

impl Vidc {
    /// VIDC with all registers 0. Nothing moves until both cycle registers have been written.
    pub fn new() -> Vidc
        ensures { result ≡ fresh }
    {
        Vidc {
            timing: Timing::new(0, 0, 0, PixelRate::Mhz8),
            horizontal_written: false,
            vertical_written: false,
            position: 0,
        }
    }

    /// Writes a word to the register that its bits 31:24 name: 80 horizontal cycle, A0 vertical cycle,
    /// B0 vertical display end, each with its value in bits 23:14, or E0 control, with the pixel rate in
    /// bits 1:0. Each of them begins a new frame; every other word is ignored.
    #[tactic(auto, unfolding(crate::specs::Video::written))]
    pub fn write(&mut self, word: u32)
        ensures { self.new ≡ written word self.old }
    {
        let old = self.timing;
        match word / 0x100_0000 {
            0x80 => {
                let value = value_of(word);
                self.begin(Timing::new(value, old.vertical_cycle, old.display_end, old.rate));
                self.horizontal_written = true;
            }
            0xA0 => {
                let value = value_of(word);
                self.begin(Timing::new(old.horizontal_cycle, value, old.display_end, old.rate));
                self.vertical_written = true;
            }
            0xB0 => {
                let value = value_of(word);
                self.begin(Timing::new(old.horizontal_cycle, old.vertical_cycle, value, old.rate));
            }
            0xE0 => {
                let rate = rate_of(word % 4);
                let (horizontal, vertical) = (old.horizontal_cycle, old.vertical_cycle);
                self.begin(Timing::new(horizontal, vertical, old.display_end, rate));
            }
            _ => {}
        }
    }

    // A new frame begins.
    fn begin(&mut self, timing: Timing)
        ensures { self.new ≡ record self.old {
          horizontal_cycle = timing.horizontal_cycle;
          vertical_cycle = timing.vertical_cycle;
          display_end = timing.display_end;
          rate = timing.rate;
          position = 0;
        } }
    {
        self.timing = timing;
        self.position = 0;
    }

    /// Lets `ticks` ticks pass, of any number and in constant time: the number of times that flyback
    /// rises meanwhile. It rises where the raster after the one that vertical display end names begins,
    /// and never where that is no raster of the frame.
    #[inline(always)]
    pub fn advance(&mut self, ticks: u32) -> u32
        ensures flybacks { result ≡ flybacks ticks self.old }
        ensures never { self.old.vertical_cycle ≤ self.old.display_end → result ≡ 0 }
        ensures advanced { self.new ≡ advanced ticks self.old }
    {
        if !self.runs() {
            return 0;
        }
        let (frame, from) = (self.timing.frame, self.position);
        if from as u64 + ticks as u64 * 6 >= frame as u64 {
            return self.advance_past(ticks);
        }
        self.position = frame::position_after(ticks, frame, from);
        frame::arrivals_within(ticks, frame, self.timing.flyback, from)
    }

    // The same where a frame ends meanwhile.
    #[inline(never)]
    fn advance_past(&mut self, ticks: u32) -> u32
        requires { runs self.old ≡ true }
        ensures flybacks { result ≡ flybacks ticks self.old }
        ensures never { self.old.vertical_cycle ≤ self.old.display_end → result ≡ 0 }
        ensures advanced { self.new ≡ advanced ticks self.old }
    {
        let flybacks = self.flybacks(ticks);
        self.position = frame::position_after(ticks, self.timing.frame, self.position);
        flybacks
    }

    // Whether the position moves.
    fn runs(&self) -> bool
        ensures { result ≡ runs self.now }
    {
        self.horizontal_written && self.vertical_written
    }

    // The rises of flyback while so many ticks pass.
    fn flybacks(&self, ticks: u32) -> u32
        ensures flybacks { result ≡ flybacks ticks self.now }
        ensures never { self.now.vertical_cycle ≤ self.now.display_end → result ≡ 0 }
    {
        if !self.runs() {
            return 0;
        }
        if self.timing.vertical_cycle <= self.timing.display_end {
            return 0;
        }
        frame::arrivals(ticks, self.timing.frame, self.timing.flyback, self.position)
    }
}

// The value of a word: its bits 23:14.
fn value_of(word: u32) -> u32
    ensures { result ≡ value_of word }
{
    word / 0x4000 % 0x400
}

// The pixel rate by control bits 1:0.
fn rate_of(bits: u32) -> PixelRate
    ensures { result ≡ rate_of bits }
{
    match bits {
        0 => PixelRate::Mhz8,
        1 => PixelRate::Mhz12,
        2 => PixelRate::Mhz16,
        _ => PixelRate::Mhz24,
    }
}
