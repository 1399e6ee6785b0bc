ghost use Rattle.std.specs.Prelude.{◌≡◌, ◌<◌};
ghost use Rattle.bus_ticks.specs.Worst.{IsGreatest, IsTargetOf};
ghost use Rattle.responses.specs.Entry.{entry_price, entry_ticks, irq_entry, irq_entry_price};

use bus_ticks::{Class, Profile, ROM_START, fiq_entry, worst_fetch_n};

/// An interrupt of the processor.
#[derive(Clone, Copy, Debug, PartialEq, Eq)]
pub enum Interrupt {
    Irq,
    Fiq,
}

// The greatest price as a number.
fn irq_entry_number(profile: &Profile) -> u32
    ensures { result ≡ irq_entry profile.now }
{
    let rom = worst_fetch_n(profile, ROM_START);
    profile.quad.max(rom.max(profile.unfitted)) + (profile.n + profile.s)
}

/// The greatest ticks of taking IRQ, over all addresses at which a program may be interrupted and all time
/// fields of ROM: the fetch 8 bytes after that address, and the two at IRQ's vector.
pub fn irq_entry(profile: &Profile) -> u32
    ensures number { result ≡ irq_entry profile.now }
    ensures greatest { IsGreatest (IsTargetOf Class.Any) (irq_entry_price profile.now) result }
    ensures small { result < 768 }
{
    irq_entry_number(profile)
}

// The greatest price of either as a number.
fn entry_ticks_number(profile: &Profile, interrupt: Interrupt) -> u32
    ensures number { result ≡ entry_ticks profile.now interrupt }
    ensures small { result < 768 }
{
    match interrupt {
        Interrupt::Irq => irq_entry(profile),
        Interrupt::Fiq => fiq_entry(profile),
    }
}

/// The greatest ticks of taking the interrupt: those of [`irq_entry`] or of [`fiq_entry`].
pub fn entry_ticks(profile: &Profile, interrupt: Interrupt) -> u32
    ensures number { result ≡ entry_ticks profile.now interrupt }
    ensures greatest { IsGreatest (IsTargetOf Class.Any) (entry_price profile.now interrupt) result }
    ensures small { result < 768 }
{
    entry_ticks_number(profile, interrupt)
}
