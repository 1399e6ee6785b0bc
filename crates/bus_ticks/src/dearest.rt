//! Which time fields and which addresses make an access cost the most.

ghost use Rattle.std.specs.Prelude.{◌≡◌, ◌+◌, ◌<◌, ◌≤◌, ◌*◌, ◌/◌, ◌%◌, Bool, ℕ};
ghost use Rattle.bus_ticks.specs.Prices.{class_of, fetch_n, fetch_s};
ghost use Rattle.bus_ticks.specs.Worst.{worst_fetch_n, worst_fetch_s};
ghost use Rattle.bus_ticks.specs.Dearest.{AreDearest, IsDearestBlock, IsDearestLeave, IsDearestOf};

use crate::profile::{Class, Profile, RomTimes};
use crate::space::{FAST_START, IO_START, MEDIUM_START, ROM_START, SPACE_END, SYNCHRONOUS_START};
use crate::worst::{greatest, worst_leave, worst_rom};

// Where the last word before a multiple of 16 is, in bytes after the multiple before it: the word that
// follows costs quad.
const BEFORE_QUAD: u32 = 12;

// The last word among the devices: the word that follows is in ROM.
const LAST_DEVICE: u32 = ROM_START - 4;

// Which of the four is the greatest, from 0: the first of those that are.
fn dearest_of(a: u32, b: u32, c: u32, d: u32) -> u32
    ensures { IsDearestOf a b c d result }
{
    let top = greatest(a, b, c, d);
    if a == top {
        0
    } else if b == top {
        1
    } else if c == top {
        2
    } else {
        3
    }
}

/// The time fields of ROM at which each access to it costs the most: in both halves the lowest field, from
/// 0 to 3, whose price is the greatest.
pub fn dearest_rom_times(profile: &Profile) -> RomTimes
    ensures dearest { AreDearest profile.now result }
    ensures low { IsDearestOf profile.now.rom_0 profile.now.rom_1 profile.now.rom_2 profile.now.rom_3
        result.low }
    ensures high { result.high ≡ result.low }
    ensures fetch_n { (x : ℕ) → fetch_n profile.now x result ≡ worst_fetch_n profile.now x }
    ensures fetch_s { (x : ℕ) → fetch_s profile.now x result ≡ worst_fetch_s profile.now x }
{
    let field = dearest_of(profile.rom_0, profile.rom_1, profile.rom_2, profile.rom_3);
    RomTimes {
        low: field,
        high: field,
    }
}

/// The address of the dearest device, in bytes: the lowest of 3000000, 3080000, 3100000 and 3180000 at which
/// a transfer of 1 to 16 words costs the most, by any time fields of ROM.
pub fn dearest_device(profile: &Profile) -> u32
    ensures page { result % 0x80000 ≡ 0 }
    ensures from { IO_START ≤ result }
    ensures below { result < 0x3200000 }
    ensures class { class_of result ≡ Class.Io }
    ensures lowest { IsDearestOf profile.now.slow profile.now.medium profile.now.fast profile.now.synchronous
        (result / 0x80000 % 4) }
    ensures block { (words : ℕ) → words ≤ 16 → (store : Bool) → (rom : RomTimes)
        → IsDearestBlock profile.now Class.Io words store (record { address = result; rom = rom }) }
    ensures any { (words : ℕ) → words ≤ 16 → (store : Bool) → (rom : RomTimes)
        → IsDearestBlock profile.now Class.Any words store (record { address = result; rom = rom }) }
{
    let field = dearest_of(
        profile.slow,
        profile.medium,
        profile.fast,
        profile.synchronous,
    );
    IO_START + 0x80000 * field
}

/// How many bytes after a multiple of 16 a transfer that costs the most in RAM starts, whatever its length,
/// the profile and the time fields of ROM: its second word, and each fourth from there, is at a multiple
/// of 16.
pub fn dearest_ram_start() -> u32
    ensures whole { result % 4 ≡ 0 }
    ensures below { result < 16 }
    ensures block { (profile : Profile) → (base : ℕ) → (words : ℕ) → base % 16 ≡ 0 → 1 ≤ words
        → base + result + 4 * words ≤ IO_START → (store : Bool) → (rom : RomTimes)
        → IsDearestBlock profile Class.Ram words store (record { address = base + result; rom = rom }) }
{
    BEFORE_QUAD
}

// In RAM, by which is dearer: to follow in RAM at a multiple of 16, or to run on into the devices.
fn dearest_leave_to_ram(profile: &Profile) -> u32
    ensures { IsDearestLeave profile.now Class.Ram result }
{
    if profile.quad < profile.unfitted {
        IO_START - 4
    } else {
        BEFORE_QUAD
    }
}

// In ROM, by which is dearer: to follow in ROM, or to wrap to address 0.
fn dearest_leave_to_rom(profile: &Profile) -> u32
    ensures { IsDearestLeave profile.now Class.Rom result }
{
    if worst_rom(profile) < profile.quad {
        SPACE_END - 4
    } else {
        ROM_START
    }
}

// Among the devices, by which is dearer: to follow there, or to run on into ROM.
fn dearest_leave_to_io(profile: &Profile) -> u32
    ensures { IsDearestLeave profile.now Class.Io result }
{
    if worst_rom(profile) < profile.unfitted {
        IO_START
    } else {
        LAST_DEVICE
    }
}

// Among the synchronous devices, which end where ROM begins.
fn dearest_leave_to_synchronous(profile: &Profile) -> u32
    ensures { IsDearestLeave profile.now Class.Synchronous result }
{
    if worst_rom(profile) < profile.unfitted {
        SYNCHRONOUS_START
    } else {
        LAST_DEVICE
    }
}

// In the class that has the dearest: RAM, ROM or the devices.
fn dearest_leave_to_any(profile: &Profile) -> u32
    ensures { IsDearestLeave profile.now Class.Any result }
{
    let top = worst_leave(profile, Class::Any);
    if worst_leave(profile, Class::Ram) == top {
        return dearest_leave_to_ram(profile);
    }
    if worst_leave(profile, Class::Rom) == top {
        return dearest_leave_to_rom(profile);
    }
    dearest_leave_to_io(profile)
}

/// An address of the class, in bytes, to which a jump costs the most at the dearest time fields of ROM: its
/// fetch and the one that follows, at the next word. It is a multiple of 4, below [`SPACE_END`].
pub fn dearest_leave(profile: &Profile, class: Class) -> u32
    ensures { IsDearestLeave profile.now class result }
{
    match class {
        Class::Ram => dearest_leave_to_ram(profile),
        Class::Rom => dearest_leave_to_rom(profile),
        Class::Io => dearest_leave_to_io(profile),
        Class::Any => dearest_leave_to_any(profile),
        Class::Slow => IO_START,
        Class::Medium => MEDIUM_START,
        Class::Fast => FAST_START,
        Class::Synchronous => dearest_leave_to_synchronous(profile),
    }
}
