ghost use Rattle.std.specs.Prelude.{◌≡◌, ◌<◌, ◌≤◌, ◌*◌};
ghost use Rattle.bus_ticks.specs.Prices.{by_class, class_of, fetch_n, fetch_s};
ghost use Rattle.bus_ticks.specs.Ranges.{greatest};
ghost use Rattle.bus_ticks.specs.Worst.{worst_transfer, worst_io, worst_leave, worst_rom};
ghost use Rattle.bus_ticks.specs.Worst.{worst_fetch_n, worst_fetch_s};
ghost use Rattle.bus_ticks.specs.Worst.{IsAnyTimes, IsGreatest, IsBlockOf, IsTargetOf, transfer_price};
ghost use Rattle.bus_ticks.specs.Worst.{fiq_entry, fiq_entry_price, leave_price};

use crate::prices::{class_of, ram_price};
use crate::profile::{Class, Profile};
use crate::space::SPACE_END;

/// The greatest of four numbers.
pub(crate) fn greatest(a: u32, b: u32, c: u32, d: u32) -> u32
    ensures { result ≡ greatest a b c d }
{
    a.max(b).max(c.max(d))
}

/// The ticks of an access to ROM at its dearest time field.
pub(crate) fn worst_rom(profile: &Profile) -> u32
    ensures { result ≡ worst_rom profile.now }
{
    greatest(profile.rom_0, profile.rom_1, profile.rom_2, profile.rom_3)
}

// The ticks of an access to the dearest kind of device.
fn worst_io(profile: &Profile) -> u32
    ensures { result ≡ worst_io profile.now }
{
    greatest(
        profile.slow,
        profile.medium,
        profile.fast,
        profile.synchronous,
    )
}

// The greatest price of a fetch, as a number, by the price that it has where the address is one of RAM.
fn worst_fetch(profile: &Profile, address: u32, ram: u32) -> u32
    requires { address < SPACE_END }
    ensures { result ≡ by_class (class_of address) ram (worst_rom profile.now) profile.now.unfitted }
{
    match class_of(address) {
        Class::Ram => ram,
        Class::Rom => worst_rom(profile),
        Class::Io | Class::Any | Class::Slow | Class::Medium | Class::Fast | Class::Synchronous =>
            profile.unfitted,
    }
}

/// The greatest ticks, over all time fields of ROM, of a fetch that does not follow the access
/// before it.
pub fn worst_fetch_n(profile: &Profile, address: u32) -> u32
    requires { address < SPACE_END }
    ensures number { result ≡ worst_fetch_n profile.now address }
    ensures greatest { IsGreatest IsAnyTimes (λ rom. fetch_n profile.now address rom) result }
    ensures small { result < 256 }
{
    worst_fetch(profile, address, profile.n)
}

/// The greatest ticks, over all time fields of ROM, of a fetch that follows the access before it.
pub fn worst_fetch_s(profile: &Profile, address: u32) -> u32
    requires { address < SPACE_END }
    ensures number { result ≡ worst_fetch_s profile.now address }
    ensures greatest { IsGreatest IsAnyTimes (λ rom. fetch_s profile.now address rom) result }
    ensures small { result < 256 }
{
    worst_fetch(profile, address, ram_price(profile, address))
}

// The greatest price as a number.
fn worst_transfer_number(profile: &Profile, class: Class, words: u32, store: bool) -> u32
    requires some { 1 ≤ words }
    requires few { words ≤ 16 }
    ensures { result ≡ worst_transfer profile.now class words store }
{
    match class {
        Class::Ram => {
            profile.n
                + (words - 1) * profile.s
                + (words - 1).div_ceil(4) * (profile.quad - profile.s)
        }
        Class::Rom => {
            if store {
                words * profile.control
            } else {
                words * worst_rom(profile)
            }
        }
        Class::Io | Class::Any => { words * worst_io(profile) }
        Class::Slow => { words * profile.slow }
        Class::Medium => { words * profile.medium }
        Class::Fast => { words * profile.fast }
        Class::Synchronous => { words * profile.synchronous }
    }
}

/// The greatest ticks of a transfer of 1 to 16 words that are all of the class, over all addresses
/// and time fields of ROM.
pub fn worst_transfer(profile: &Profile, class: Class, words: u32, store: bool) -> u32
    requires some { 1 ≤ words }
    requires few { words ≤ 16 }
    ensures number { result ≡ worst_transfer profile.now class words store }
    ensures greatest { IsGreatest (IsBlockOf class words) (transfer_price profile.now words store) result }
    ensures small { result ≤ 255 * words }
{
    worst_transfer_number(profile, class, words, store)
}

// The greatest price of leaving to an address of the class, as a number.
fn worst_leave_number(profile: &Profile, class: Class) -> u32
    ensures { result ≡ worst_leave profile.now class }
{
    let worst_rom = worst_rom(profile);
    let ram = profile.n + profile.quad.max(profile.unfitted);
    let rom = worst_rom + worst_rom.max(profile.quad);
    let io = profile.unfitted + profile.unfitted.max(worst_rom);
    match class {
        Class::Ram => ram,
        Class::Rom => rom,
        Class::Any => ram.max(rom).max(io),
        Class::Io | Class::Synchronous => io,
        Class::Slow | Class::Medium | Class::Fast => profile.unfitted + profile.unfitted,
    }
}

/// The greatest ticks of the first two fetches after a jump to an address of the class, over all
/// addresses and time fields of ROM.
pub fn worst_leave(profile: &Profile, class: Class) -> u32
    ensures number { result ≡ worst_leave profile.now class }
    ensures greatest { IsGreatest (IsTargetOf class) (leave_price profile.now) result }
    ensures small { result < 512 }
{
    worst_leave_number(profile, class)
}

// The greatest price as a number.
fn fiq_entry_number(profile: &Profile) -> u32
    ensures { result ≡ fiq_entry profile.now }
{
    let first = profile.quad.max(worst_rom(profile).max(profile.unfitted));
    first + (profile.n + profile.quad)
}

/// The greatest ticks of taking FIQ, over all addresses at which a handler may be interrupted and all time
/// fields of ROM: the fetch 8 bytes after that address, and the two at FIQ's vector.
pub fn fiq_entry(profile: &Profile) -> u32
    ensures number { result ≡ fiq_entry profile.now }
    ensures greatest { IsGreatest (IsTargetOf Class.Any) (fiq_entry_price profile.now) result }
    ensures small { result < 768 }
{
    fiq_entry_number(profile)
}
