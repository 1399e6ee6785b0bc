ghost use Rattle.std.specs.Prelude.{◌≡◌, ◌≤◌, ◌<◌, ◌+◌, ◌*◌, ◌^◌};
ghost use Rattle.vidc.specs.Video.{raster_of};
ghost use Rattle.vidc.specs.declared.timing.TheConstants.{VALUE_LIMIT};

use crate::PixelRate;
use crate::frame::{raster_of, rasters};

/// A register's value of ten bits is below it.
pub(crate) const VALUE_LIMIT: u32 = 0x400;

/// The registers that make the frame, and the times that follow from them, which each step asks for: in
/// sixths of a tick.
#[derive(Clone, Copy)]
pub struct Timing {
    // Values of ten bits.
    pub(crate) horizontal_cycle: u32,
    pub(crate) vertical_cycle: u32,
    pub(crate) display_end: u32,
    pub(crate) rate: PixelRate,
    // What a raster takes, and what a frame takes.
    raster: u32,
    pub(crate) frame: u32,
    // Where flyback rises.
    pub(crate) flyback: u32,
    ghost horizontal_below: { horizontal_cycle < VALUE_LIMIT },
    ghost vertical_below: { vertical_cycle < VALUE_LIMIT },
    ghost display_end_below: { display_end < VALUE_LIMIT },
    ghost raster_is: { raster ≡ raster_of horizontal_cycle rate },
    ghost some: { 4 ≤ raster },
    ghost frame_is: { frame ≡ raster * (vertical_cycle + 1) },
    ghost flyback_is: { flyback ≡ raster * (display_end + 1) },
    ghost frame_below: { frame < 2 ^ 26 },
}

impl Timing {
    /// The times of four values.
    pub(crate) fn new(
        horizontal_cycle: u32,
        vertical_cycle: u32,
        display_end: u32,
        rate: PixelRate,
    ) -> Timing
        requires horizontal { horizontal_cycle < VALUE_LIMIT }
        requires vertical { vertical_cycle < VALUE_LIMIT }
        requires display { display_end < VALUE_LIMIT }
        ensures horizontal { result.horizontal_cycle ≡ horizontal_cycle }
        ensures vertical { result.vertical_cycle ≡ vertical_cycle }
        ensures display { result.display_end ≡ display_end }
        ensures rate { result.rate ≡ rate }
    {
        let raster = raster_of(horizontal_cycle, rate);
        Timing {
            horizontal_cycle,
            vertical_cycle,
            display_end,
            rate,
            raster,
            frame: rasters(raster, vertical_cycle + 1),
            flyback: rasters(raster, display_end + 1),
        }
    }
}
