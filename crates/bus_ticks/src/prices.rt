ghost use Rattle.std.specs.Prelude.{◌≡◌, ◌↔◌, ◌<◌, ◌≤◌, ◌*◌, IsTrue, nat_lt};
ghost use Rattle.bus_ticks.specs.Prices.{class_of, rom_price, io_price, fetch_n, ram_price, fetch_s};
ghost use Rattle.bus_ticks.specs.Prices.{narrowest_class, speed_of, word_price, transfer};
ghost use Rattle.bus_ticks.specs.Worst.{IsOf};

use crate::profile::{Class, Profile, RomTimes};
use crate::space::{HIGH_ROM_START, IO_START, ROM_START, SPACE_END, word_address};

// Whether an address is in RAM. Prices compare addresses: with a match on the class, a step takes some 20
// instructions more.
#[inline(always)]
fn is_ram(address: u32) -> bool
    ensures { result ≡ nat_lt address IO_START }
{
    address < IO_START
}

// The same for I/O, of an address that is not in RAM.
#[inline(always)]
fn is_io(address: u32) -> bool
    ensures { result ≡ nat_lt address ROM_START }
{
    address < ROM_START
}

// Whether an address is in I/O.
fn is_device(address: u32) -> bool
    ensures { IsTrue result ↔ (class_of address ≡ Class.Io) }
{
    !is_ram(address) && is_io(address)
}

// The speed of a device, from 0 (slow) to 3 (synchronous), as address bits 20 and 19 have it.
#[inline(always)]
fn speed_of(address: u32) -> u32
    ensures { result ≡ speed_of address }
{
    address / 0x80000 % 4
}

/// The class of an address: Ram below 3000000, Io from there and Rom from 3400000 on, and none of the
/// others.
#[inline(always)]
pub fn class_of(address: u32) -> Class
    ensures { result ≡ class_of address }
{
    if is_ram(address) {
        Class::Ram
    } else if is_io(address) {
        Class::Io
    } else {
        Class::Rom
    }
}

// A choice by a field of two bits.
macro_rules! pick {
    ($field:expr, $($number:literal => $price:expr),+; $last:expr) => {
        match $field {
            $($number => $price,)+
            _ => $last,
        }
    };
}

/// The narrowest class of an address: Ram, Rom, or that of the devices of one speed.
pub fn narrowest_class(address: u32) -> Class
    ensures class { result ≡ narrowest_class address }
    ensures is_of { IsOf result address }
{
    match class_of(address) {
        Class::Io => pick!(
            speed_of(address),
            0 => Class::Slow, 1 => Class::Medium, 2 => Class::Fast; Class::Synchronous
        ),
        class => class,
    }
}

impl Class {
    /// Whether an address is of the class; each is of `Any`.
    pub fn is_of(self, address: u32) -> bool
        ensures { IsTrue result ↔ IsOf self address }
    {
        match self {
            Class::Any => true,
            Class::Ram => is_ram(address),
            Class::Rom => !is_ram(address) && !is_io(address),
            Class::Io => is_device(address),
            Class::Slow => is_device(address) && speed_of(address) == 0,
            Class::Medium => is_device(address) && speed_of(address) == 1,
            Class::Fast => is_device(address) && speed_of(address) == 2,
            Class::Synchronous => is_device(address) && speed_of(address) == 3,
        }
    }
}

#[inline(never)]
fn rom_price(profile: &Profile, address: u32, rom: RomTimes) -> u32
    ensures price { result ≡ rom_price profile.now address rom }
    ensures small { result < 256 }
{
    let field = if address < HIGH_ROM_START {
        rom.low
    } else {
        rom.high
    };
    pick!(field, 0 => profile.rom_0, 1 => profile.rom_1, 2 => profile.rom_2; profile.rom_3)
}

/// The ticks of an instruction fetch that does not follow the access before it.
#[inline(always)]
pub fn fetch_n(profile: &Profile, address: u32, rom: RomTimes) -> u32
    requires { address < SPACE_END }
    ensures price { result ≡ fetch_n profile.now address rom }
    ensures small { result < 256 }
{
    if is_ram(address) {
        profile.n
    } else if is_io(address) {
        profile.unfitted
    } else {
        rom_price(profile, address, rom)
    }
}

/// The ticks of an access to RAM that follows the one before it.
#[inline(always)]
pub(crate) fn ram_price(profile: &Profile, address: u32) -> u32
    ensures price { result ≡ ram_price profile.now address }
    ensures small { result < 256 }
{
    if address % 16 == 0 {
        profile.quad
    } else {
        profile.s
    }
}

/// The ticks of an instruction fetch that follows the access before it.
#[inline(always)]
pub fn fetch_s(profile: &Profile, address: u32, rom: RomTimes) -> u32
    requires { address < SPACE_END }
    ensures price { result ≡ fetch_s profile.now address rom }
    ensures small { result < 256 }
{
    if is_ram(address) {
        ram_price(profile, address)
    } else if is_io(address) {
        profile.unfitted
    } else {
        rom_price(profile, address, rom)
    }
}

#[inline(never)]
fn io_price(profile: &Profile, address: u32) -> u32
    ensures price { result ≡ io_price profile.now address }
    ensures small { result < 256 }
{
    let field = speed_of(address);
    pick!(field, 0 => profile.slow, 1 => profile.medium, 2 => profile.fast; profile.synchronous)
}

#[inline(always)]
fn word_price(profile: &Profile, address: u32, first: bool, store: bool, rom: RomTimes) -> u32
    requires { address < SPACE_END }
    ensures price { result ≡ word_price profile.now address first store rom }
    ensures small { result < 256 }
{
    if is_ram(address) {
        if first {
            profile.n
        } else {
            ram_price(profile, address)
        }
    } else if is_io(address) {
        io_price(profile, address)
    } else if store {
        profile.control
    } else {
        rom_price(profile, address, rom)
    }
}

// A transfer, word by word.
#[tactic(auto, unfolding(crate::specs::Prices::transfer))]
#[inline(never)]
fn transfer_by_words(profile: &Profile, address: u32, words: u32, store: bool, rom: RomTimes) -> u32
    requires in_space { address < SPACE_END }
    requires few { words ≤ 16 }
    ensures price { result ≡ transfer profile.now address words store rom }
    ensures small { result ≤ 255 * words }
{
    let mut ticks = 0;
    for i in 0..words {
        ticks += word_price(profile, word_address(address, i), i == 0, store, rom);
    }
    ticks
}

/// The ticks of a transfer of 1 to 16 words, each priced by the class of its own address.
///
/// The words lie one after another from the word that holds `address`, and wrap at 4000000. A byte
/// costs as much as the word that holds it.
#[tactic(auto, unfolding(crate::specs::Prices::transfer))]
#[inline(always)]
pub fn transfer(profile: &Profile, address: u32, words: u32, store: bool, rom: RomTimes) -> u32
    requires in_space { address < SPACE_END }
    requires some { 1 ≤ words }
    requires few { words ≤ 16 }
    ensures price { result ≡ transfer profile.now address words store rom }
    ensures small { result ≤ 255 * words }
{
    if words == 1 {
        return word_price(profile, word_address(address, 0), true, store, rom);
    }
    transfer_by_words(profile, address, words, store, rom)
}
