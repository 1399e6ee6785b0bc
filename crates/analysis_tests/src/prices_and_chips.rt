//! Prices of bus accesses and of FIQ visits, shifts, IOC and VIDC.

use arm2_decode::Shift;
use bitflags::Flags;
use bus_ticks::*;
use ioc::{Asserted, Ioc, Lines};
use longest_walk::visits_bound;
use shifter::{multiply_cycles, rotate_imm, shift_imm, shift_reg};
use std::test::Fail;
use vidc::Vidc;

fn other_numbers() -> [u32; 15] {
    [3, 1, 2, 5, 4, 3, 2, 8, 6, 5, 10, 2, 2, 1, 8]
}

#[test]
fn prices_of_transfers(rt: HostRuntime) {
    let one = Profile::one();
    let worst = [
        worst_transfer(&one, Class::Ram, 4, true),
        worst_transfer(&one, Class::Ram, 16, false),
        worst_transfer(&one, Class::Any, 4, true),
        worst_transfer(&one, Class::Io, 4, false),
        worst_transfer(&one, Class::Rom, 4, false),
        worst_transfer(&one, Class::Rom, 4, true),
    ];
    let times = RomTimes { low: 0, high: 3 };
    let ticks = [
        // Words at 80F8, 80FC, 8100, 8104, of which 8100 is a multiple of 16.
        transfer(&one, 0x80F8, 4, true, times),
        transfer(&one, 0x3000000, 1, false, times),
        transfer(&one, 0x3080000, 1, false, times),
        transfer(&one, 0x3100000, 1, false, times),
        transfer(&one, 0x3180000, 1, false, times),
        // From the last word of the devices into low ROM.
        transfer(&one, 0x33FFFFC, 2, false, times),
        transfer(&one, 0x3800000, 2, false, times),
    ];
    let wanted = (
        [6, 21, 40, 40, 16, 8],
        [2 + 1 + 2 + 1, 8, 6, 5, 10, 10 + 4, 2 + 2],
    );
    assert!(rt; (worst, ticks) == wanted);
}

#[test]
fn prices_of_fetches(rt: HostRuntime) {
    let one = Profile::one();
    let times = RomTimes { low: 1, high: 2 };
    for (address, n, s) in [
        (0x8000, 2, 2),
        (0x8004, 2, 1),
        (0x2FFFFFC, 2, 1),
        (0x3000000, 2, 2),
        (0x33FFFFC, 2, 2),
        (0x3400000, 3, 3),
        (0x37FFFFC, 3, 3),
        (0x3800000, 2, 2),
    ] {
        let fetches = (fetch_n(&one, address, times), fetch_s(&one, address, times));
        assert!(rt; fetches == (n, s), "at {address}");
    }
    let worst = [
        worst_fetch_n(&one, 0x3800000),
        worst_fetch_s(&one, 0x8000),
        worst_leave(&one, Class::Ram),
        worst_leave(&one, Class::Rom),
        worst_leave(&one, Class::Io),
        worst_leave(&one, Class::Any),
        fiq_entry(&one),
    ];
    assert!(rt; worst == [4, 2, 4, 8, 6, 8, 8]);
}

fn worst_of(profile: &Profile) -> [u32; 3] {
    [
        worst_leave(profile, Class::Ram),
        worst_leave(profile, Class::Any),
        worst_transfer(profile, Class::Ram, 4, true),
    ]
}

// Why the first profile's numbers are none with one of them replaced.
fn refusal(place: usize, number: u32) -> Option<NumbersFault> {
    let mut numbers = Profile::one().numbers();
    if let Some(old) = numbers.get_mut(place) {
        *old = number;
    }
    Profile::new(numbers).err()
}

static REPLACED: [(usize, u32, Option<NumbersFault>); 7] = [
    (1, 3, Some(NumbersFault::Disordered)),
    (0, 0, Some(NumbersFault::OutOfRange)),
    (13, 256, Some(NumbersFault::OutOfRange)),
    (14, 256, Some(NumbersFault::OutOfRange)),
    (11, 11, Some(NumbersFault::Disordered)),
    (12, 255, None),
    (14, 0, None),
];

#[test]
fn profiles(rt: HostRuntime) -> Result<(), Fail> {
    let other = Profile::new(other_numbers())?;
    assert!(rt; (other.numbers(), worst_of(&other)) == (other_numbers(), [5, 10, 7]));
    for (place, number, answer) in &REPLACED {
        assert!(rt; refusal(*place, *number) == *answer, "{number} at {place}");
    }
    Ok(())
}

#[test]
fn visits_overflow(rt: HostRuntime) {
    let one = Profile::one();
    let totals = [
        visits_bound(&one, 21, 5, 2).ok(),
        visits_bound(&one, 21, 5, 0).ok(),
        visits_bound(&one, 1 << 62, (1 << 62) - 9, 1).ok(),
        visits_bound(&one, 1 << 62, (1 << 62) - 8, 1).ok(),
        visits_bound(&one, 1 << 62, 1 << 62, 1).ok(),
    ];
    let wanted = [Some(47), Some(21), Some((1 << 63) - 1), None, None];
    assert!(rt; totals == wanted);
}

// A shift and its amount, a value and the carry, and the value and the carry that they yield.
type ShiftRow = (Shift, u32, u32, bool, u32, bool);

static IN_THE_WORD: [ShiftRow; 9] = [
    (Shift::Lsl, 0, 5, true, 5, true),
    (Shift::Lsl, 31, 3, false, 0x8000_0000, true),
    (Shift::Lsr, 0, 0x8000_0001, false, 0, true),
    (Shift::Lsr, 31, 0xC000_0000, false, 1, true),
    (Shift::Asr, 0, 0x8000_0000, false, 0xFFFF_FFFF, true),
    (Shift::Asr, 1, 0x8000_0001, false, 0xC000_0000, true),
    (Shift::Ror, 0, 3, true, 0x8000_0001, true),
    (Shift::Ror, 0, 2, false, 1, false),
    (Shift::Ror, 4, 0x0000_000F, false, 0xF000_0000, true),
];

static BY_A_REGISTER: [ShiftRow; 9] = [
    (Shift::Lsl, 32, 1, false, 0, true),
    (Shift::Lsl, 33, 1, true, 0, false),
    (Shift::Lsr, 0, 5, true, 5, true),
    (Shift::Lsr, 32, 0x8000_0000, false, 0, true),
    (Shift::Lsr, 33, 0x8000_0000, true, 0, false),
    (Shift::Asr, 255, 0x8000_0000, false, 0xFFFF_FFFF, true),
    (Shift::Asr, 32, 0x7FFF_FFFF, true, 0, false),
    (Shift::Ror, 32, 0x8000_0000, false, 0x8000_0000, true),
    (Shift::Ror, 36, 0x0000_000F, false, 0xF000_0000, true),
];

fn in_the_word(kind: Shift, amount: u32, value: u32, carry: bool) -> (u32, bool) {
    let got = shift_imm(kind, amount % 32, value, carry);
    (got.value, got.carry)
}

fn by_a_register(kind: Shift, amount: u32, value: u32, carry: bool) -> (u32, bool) {
    let got = shift_reg(kind, amount % 256, value, carry);
    (got.value, got.carry)
}

fn rotated(byte: u32, rotation: u32, carry: bool) -> (u32, bool) {
    let got = rotate_imm(byte % 256, rotation % 16, carry);
    (got.value, got.carry)
}

#[test]
fn shifts_in_the_word(rt: HostRuntime) {
    for (kind, amount, value, carry, wanted, carry_out) in &IN_THE_WORD {
        let got = in_the_word(*kind, *amount, *value, *carry);
        assert!(rt; got == (*wanted, *carry_out), "{amount} of {value}");
    }
    for (byte, rotation, carry, wanted, carry_out) in [
        (0xFF, 0, true, 0xFF, true),
        (0xFF, 4, false, 0xFF00_0000, true),
        (0x02, 1, true, 0x8000_0000, true),
        (0x04, 15, true, 0x10, false),
    ] {
        let got = rotated(byte, rotation, carry);
        assert!(rt; got == (wanted, carry_out), "{byte} by {rotation}");
    }
}

#[test]
fn shifts_by_a_register(rt: HostRuntime) {
    for (kind, amount, value, carry, wanted, carry_out) in &BY_A_REGISTER {
        let got = by_a_register(*kind, *amount, *value, *carry);
        assert!(rt; got == (*wanted, *carry_out), "{amount} of {value}");
    }
    for (number, cycles) in [
        (0, 1),
        (1, 1),
        (2, 2),
        (7, 2),
        (8, 3),
        (0x1FFF_FFFF, 15),
        (0x2000_0000, 16),
        (0xFFFF_FFFF, 16),
    ] {
        assert!(rt; multiply_cycles(number) == cycles, "{number}");
    }
}

const LATCH_LOW: u32 = 0x320_0040;

const START: u32 = 0x320_0048;

const SAMPLE: u32 = 0x320_004C;

const STATUS_A: u32 = 0x320_0010;

const CLEAR: u32 = 0x320_0014;

const MASK_A: u32 = 0x320_0018;

// A timer that is reloaded after 8 ticks; a flyback and an active A2 are latched, masked, and cleared by one
// write.
#[test]
fn ioc_registers(rt: HostRuntime) {
    let mut ioc = Ioc::new();
    ioc.write(LATCH_LOW, 0x0002_0000);
    ioc.write(START, 0);
    ioc.advance(7);
    ioc.write(SAMPLE, 0);
    let at_7 = (ioc.read(LATCH_LOW), ioc.read(STATUS_A));
    ioc.advance(1);
    ioc.write(SAMPLE, 0);
    let at_8 = (ioc.read(LATCH_LOW), ioc.read(STATUS_A));
    let mut ioc = Ioc::new();
    ioc.flyback();
    ioc.lines(Lines::A2);
    ioc.lines(Lines::empty());
    let latched = (ioc.read(STATUS_A), ioc.asserted().irq);
    ioc.write(MASK_A, 0x0008_0000);
    let unmasked = ioc.asserted().irq;
    ioc.write(CLEAR, 0);
    let Asserted { fiq, irq } = ioc.asserted();
    let cleared = (ioc.read(STATUS_A), fiq, irq);
    let got = (
        at_7,
        at_8,
        latched,
        unmasked,
        cleared,
        Ioc::is_register(CLEAR),
    );
    let wanted = (
        (1, 0x80),
        (2, 0xA0),
        (0x8C, false),
        true,
        (0x80, false, false),
        true,
    );
    assert!(rt; got == wanted);
    ioc::ticks_add_up();
}

// 512 pixels at 8 MHz are a raster of 512 ticks; 312 of them are a frame, and flyback rises after 256.
#[test]
fn flyback_count(rt: HostRuntime) {
    let mut vidc = Vidc::new();
    vidc.write(0x803F_C000);
    vidc.write(0xA04D_C000);
    vidc.write(0xB03F_C000);
    let flybacks = [131_071, 1, 159_743, 1].map(|ticks| vidc.advance(ticks));
    assert!(rt; flybacks == [0, 1, 0, 1]);
    vidc::ticks_add_up();
}
