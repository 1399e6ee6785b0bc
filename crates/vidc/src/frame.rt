//! The position in a frame: times in sixths of a tick, `ticks` in whole ticks.

ghost use Rattle.std.specs.Prelude.{◌≡◌, ◌≤◌, ◌<◌, ◌+◌, ◌-◌, ◌*◌, ◌%◌, ◌^◌};
ghost use Rattle.vidc.specs.Frame.{arrivals, position_after};
ghost use Rattle.vidc.specs.Video.{raster_of};

use crate::PixelRate;
use crate::timing::VALUE_LIMIT;

/// What a raster takes.
pub(crate) fn raster_of(horizontal_cycle: u32, rate: PixelRate) -> u32
    requires { horizontal_cycle < VALUE_LIMIT }
    ensures raster { result ≡ raster_of horizontal_cycle rate }
    ensures least { 4 ≤ result }
    ensures most { result ≤ 0x3000 }
{
    let pixels = 2 * horizontal_cycle + 2;
    match rate {
        PixelRate::Mhz8 => pixels * 6,
        PixelRate::Mhz12 => pixels * 4,
        PixelRate::Mhz16 => pixels * 3,
        PixelRate::Mhz24 => pixels * 2,
    }
}

/// What so many rasters take.
pub(crate) fn rasters(raster: u32, count: u32) -> u32
    requires raster { raster ≤ 0x3000 }
    requires count { count ≤ VALUE_LIMIT }
    ensures product { result ≡ raster * count }
    ensures below { result < 2 ^ 26 }
{
    raster * count
}

/// The position so many ticks after another.
#[inline(always)]
pub(crate) fn position_after(ticks: u32, frame: u32, from: u32) -> u32
    requires { from < frame }
    ensures position { result ≡ position_after (ticks * 6) frame from }
    ensures within { result < frame }
{
    let after = from as u64 + ticks as u64 * 6;
    if after < frame as u64 {
        return after as u32;
    }
    (after % frame as u64) as u32
}

// How long ago the position was at a mark, as if it had always moved.
fn since(frame: u32, mark: u32, from: u32) -> u32
    requires mark { mark < frame }
    requires from { from < frame }
    ensures since { result ≡ (from + (frame - mark)) % frame }
    ensures within { result < frame }
{
    if from < mark {
        return from + (frame - mark);
    }
    from - mark
}

/// How often the position reaches a mark while so many ticks pass.
pub(crate) fn arrivals(ticks: u32, frame: u32, mark: u32, from: u32) -> u32
    requires frame { 8 ≤ frame }
    requires mark { mark < frame }
    requires from { from < frame }
    ensures { result ≡ arrivals (ticks * 6) frame mark from }
{
    let reached = since(frame, mark, from) as u64 + ticks as u64 * 6;
    if reached < frame as u64 {
        return 0;
    }
    (reached / frame as u64) as u32
}

/// The same, where the frame does not end meanwhile.
#[inline(always)]
pub(crate) fn arrivals_within(ticks: u32, frame: u32, mark: u32, from: u32) -> u32
    requires { from + ticks * 6 < frame }
    ensures { result ≡ arrivals (ticks * 6) frame mark from }
{
    if mark <= from {
        return 0;
    }
    if from as u64 + (ticks as u64 * 6) < mark as u64 {
        return 0;
    }
    1
}
