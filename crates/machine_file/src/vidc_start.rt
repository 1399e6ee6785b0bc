//! VIDC brought from a reset to where a machine starts, by what a program writes to its registers.

ghost use Rattle.std.specs.Prelude.{◌≡◌};
ghost use Rattle.vidc.specs.Video.{fresh};
ghost use Rattle.machine_file.specs.Started.{vidc_start};
ghost use Rattle.machine_file.specs.StartWork.{with_display_end, with_horizontal, with_rate, with_vertical};

use crate::vidc_settings::{RateBits, TenBits, VidcSetting};
use vidc::Vidc;

// The words that write 0 to the registers. A value of ten bits is in bits 23:14, the pixel rate in bits 1:0.
const HORIZONTAL_CYCLE: u32 = 0x8000_0000;

const VERTICAL_CYCLE: u32 = 0xA000_0000;

const DISPLAY_END: u32 = 0xB000_0000;

const CONTROL: u32 = 0xE000_0000;

fn set_horizontal(vidc: &mut Vidc, cycle: Option<TenBits>)
    ensures { vidc.new ≡ with_horizontal cycle vidc.old }
{
    if let Some(cycle) = cycle {
        vidc.write(HORIZONTAL_CYCLE + cycle.value * 0x4000);
    }
}

fn set_vertical(vidc: &mut Vidc, cycle: Option<TenBits>)
    ensures { vidc.new ≡ with_vertical cycle vidc.old }
{
    if let Some(cycle) = cycle {
        vidc.write(VERTICAL_CYCLE + cycle.value * 0x4000);
    }
}

fn set_display_end(vidc: &mut Vidc, end: TenBits)
    ensures { vidc.new ≡ with_display_end end vidc.old }
{
    vidc.write(DISPLAY_END + end.value * 0x4000);
}

fn set_rate(vidc: &mut Vidc, rate: RateBits)
    ensures { vidc.new ≡ with_rate rate vidc.old }
{
    vidc.write(CONTROL + rate.bits);
}

/// Brings VIDC from its reset to the stated state.
pub(crate) fn set_vidc(vidc: &mut Vidc, setting: &VidcSetting)
    requires { vidc.old ≡ fresh }
    ensures { vidc.new ≡ vidc_start setting.now }
{
    set_horizontal(vidc, setting.horizontal_cycle);
    set_vertical(vidc, setting.vertical_cycle);
    set_display_end(vidc, setting.display_end);
    set_rate(vidc, setting.pixel_rate);
    let _flybacks = vidc.advance(setting.ticks);
}
