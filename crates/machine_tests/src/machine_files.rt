use arm2_effect::Reg;
use arm2_exec::{Input, Machine};
use bitflags::Flags;
use bus_ticks::{Profile, RomTimes};
use ioc::Lines;
use machine_file::{
    Event, MachineFile, MachineFileFault, read_machine, read_profile, write_machine,
};
use memc::{Memc, PageSize, Refused, Spot};
use std::alloc::Global;
use std::test::Fail;

fn numbers(file: &MachineFile) -> [u32; 5] {
    [
        file.pc(),
        file.low_rom(),
        file.high_rom(),
        file.steps(),
        file.port(),
    ]
}

// How many registers, pages and events the file has.
fn lengths(file: &MachineFile) -> [usize; 3] {
    [
        file.registers().len(),
        file.pages().len(),
        file.events().len(),
    ]
}

// N, Z, C and V, and then I and F.
fn flags(file: &MachineFile) -> [bool; 6] {
    let flags = file.flags();
    [
        flags.negative,
        flags.zero,
        flags.carry,
        flags.overflow,
        flags.irq_masked,
        flags.fiq_masked,
    ]
}

#[test]
fn defaults(rt: HostRuntime) -> Result<(), Fail> {
    let file = read_machine(rt.alloc(), b"pc = 0x8000")?;
    let found = (
        numbers(&file),
        lengths(&file),
        file.page_size(),
        flags(&file),
    );
    drop(file);
    assert!(rt;
        found
            == (
                [0x8000, 0, 0, 65536, 0],
                [26, 0, 0],
                PageSize::K4,
                [false, false, false, false, true, true],
            )
    );
    Ok(())
}

const WHOLE: &[u8] = b"pc = 0x3FFFFFC\npages = 32\nmode = \"irq\"\nflags = \"FN\"\nlow_rom = 1\n\
    high_rom = 3\nsteps = 4\nport = 1\n\
    [registers]\nr0 = 7\nr8_fiq = 8\nr14_irq = 0x1010\nr14_svc = 0xFFFFFFFF\n\
    [[map]]\nlogical = 1023\nphysical = 127\nlevel = 3\n[[map]]\nlogical = 0\nphysical = 5\nlevel = 0\n\
    [[event]]\nstep = 2\nport = 9\n\
    [[event]]\nstep = 1\nbursts = 3\nlines = [\"A0\", \"IL0\", \"A0\"]\n\
    [[event]]\nstep = 65535\nlines = []\n";

// R0, R8 of FIQ mode, and R14 of IRQ and SVC mode.
fn registers(file: &MachineFile) -> [Option<u32>; 4] {
    let words = file.registers();
    [
        words.get(0).copied(),
        words.get(15).copied(),
        words.get(23).copied(),
        words.get(25).copied(),
    ]
}

fn event_at(file: &MachineFile, step: u32) -> Option<Event> {
    file.events().get(&step).copied()
}

// The logical and the physical page that are mapped first, and their level.
fn first_page(file: &MachineFile) -> Option<[u32; 3]> {
    let page = file.pages().get(0)?;
    Some([page.logical, page.physical, page.level])
}

// The event of the third step.
const EVENT: Event = Event {
    bursts: 0,
    lines: None,
    port: Some(9),
};

// Whether the registers, the pages and the events are the stated ones.
fn has_every_key(file: &MachineFile) -> bool {
    let words = [Some(7), Some(8), Some(0x1010), Some(0xFFFF_FFFF)];
    // the last page that the processor has
    let page = Some([1023, 127, 3]);
    registers(file) == words && first_page(file) == page && event_at(file, 2) == Some(EVENT)
}

#[test]
fn every_key(rt: HostRuntime) -> Result<(), Fail> {
    let file = read_machine(rt.alloc(), WHOLE)?;
    let head = (file.pc(), file.page_size(), flags(&file));
    let has_every_key = has_every_key(&file);
    drop(file);
    assert!(rt;
        head == (
            0x3FF_FFFC,
            PageSize::K32,
            [true, false, false, false, false, true]
        )
    );
    assert!(rt; has_every_key);
    Ok(())
}

fn input(bursts: u16, lines: Lines, port: u32) -> Input {
    Input {
        bursts,
        lines,
        port,
    }
}

fn has_inputs(alloc: Global, file: &MachineFile, wanted: &[Input]) -> bool {
    match file.inputs(alloc) {
        Ok(inputs) => inputs.as_slice() == wanted,
        Err(_) => false,
    }
}

#[test]
fn inputs(rt: HostRuntime) -> Result<(), Fail> {
    let active = Lines::A0 | Lines::IL0;
    let after = input(0, active, 9);
    let wanted = [
        input(0, Lines::empty(), 1),
        input(3, active, 1),
        after,
        after,
    ];
    let file = read_machine(rt.alloc(), WHOLE)?;
    let has_inputs = has_inputs(rt.alloc(), &file, &wanted);
    drop(file);
    assert!(rt; has_inputs);
    Ok(())
}

#[test]
fn put_words(rt: HostRuntime) -> Result<(), Fail> {
    let file = read_machine(
        rt.alloc(),
        b"pc = 0\n[[word]]\nat = 0x3FFFFFC\nvalue = 0xFFFFFFFF\n[[word]]\nvalue = 1\nat = 0x2FFFFFC",
    )?;
    let has_words = file.words() == [(0x3FF_FFFC, 0xFFFF_FFFF), (0x2FF_FFFC, 1)].as_slice();
    drop(file);
    assert!(rt; has_words);
    Ok(())
}

static REFUSED: [(&[u8], MachineFileFault); 4] = [
    (
        b"pc = 2\n[[word]]\nat = 0\nvalue = 0\nlabel = \"a\"",
        MachineFileFault::UnknownKey,
    ),
    (b"pc = 0\n[[word]]\nat = 2", MachineFileFault::WrongKind),
    (
        b"pc = 0\n[[word]]\nat = 0x3000000\nvalue = 0",
        MachineFileFault::OutOfRange,
    ),
    (
        b"pc = 0\n[[word]]\nat = 4\nvalue = 0\n[[word]]\nat = 0x4\nvalue = 1",
        MachineFileFault::Twice,
    ),
];

fn refusal(alloc: Global, text: &[u8]) -> Option<MachineFileFault> {
    read_machine(alloc, text).err()
}

// The number of the first text that is refused in another way, or not.
fn first_wrong(alloc: Global, rows: &[(&[u8], MachineFileFault)]) -> Option<usize> {
    for (number, (text, fault)) in rows.iter().enumerate() {
        if refusal(alloc, text) != Some(*fault) {
            return Some(number);
        }
    }
    None
}

#[test]
fn put_words_refused(rt: HostRuntime) {
    assert!(rt; first_wrong(rt.alloc(), &REFUSED) == None);
}

// R15, R0, R8 of FIQ mode and R14 of SVC mode.
fn words(machine: &Machine) -> [u32; 4] {
    [
        machine.get(Reg::R15),
        machine.get(Reg::R0),
        machine.get(Reg::R8Fiq),
        machine.get(Reg::R14Svc),
    ]
}

// Where loads from two addresses go.
fn spots(memc: &Memc, addresses: [u32; 2]) -> [Result<Spot, Refused>; 2] {
    let [first, second] = addresses;
    [
        memc.locate(first % 0x400_0000, false, false),
        memc.locate(second % 0x400_0000, false, false),
    ]
}

fn machine_of(alloc: Global, text: &[u8]) -> Result<Machine, Fail> {
    let file = read_machine(alloc, text)?;
    let machine = file.machine(alloc, Profile::one());
    drop(file);
    Ok(machine?)
}

#[test]
fn machine_of_every_key(rt: HostRuntime) -> Result<(), Fail> {
    let machine = machine_of(rt.alloc(), WHOLE)?;
    let spots = spots(machine.memc(), [8, 0x8000]);
    let (words, times) = (words(&machine), machine.memc().rom_times());
    drop(machine);
    assert!(rt; words == [0x87FF_FFFE, 7, 8, 0xFFFF_FFFF]);
    assert!(rt; times == RomTimes { low: 1, high: 3 });
    assert!(rt; spots == [Ok(Spot::Ram(0x2_8008)), Err(Refused::NoPage)]);
    Ok(())
}

#[test]
fn machine_of_defaults(rt: HostRuntime) -> Result<(), Fail> {
    let machine = machine_of(rt.alloc(), b"pc = 0")?;
    let found = (machine.get(Reg::R15), spots(machine.memc(), [0x7F004; 2]));
    drop(machine);
    assert!(rt; found == (0x0C00_0003, [Ok(Spot::Ram(0x7F004)); 2]));
    Ok(())
}

const PROFILE: &[u8] = b"n = 2\ns = 1\nquad = 2\nrom = [4, 3, 2, 2]\nio = [8, 6, 5, 10]\n\
    control = 2\nunfitted = 2\ninternal = 1\nburst = 6";

#[test]
fn profiles(rt: HostRuntime) -> Result<(), Fail> {
    assert!(rt; read_profile(rt.alloc(), PROFILE)? == Profile::one());
    Ok(())
}

// A count of 0 is not that of a latch, and a cycle of 0 is a cycle that was written.
const DEVICES: &[u8] = b"pc = 0\n[ioc]\nmask_b = 0\nmask_fiq = 0x42\ntimer_0 = 9\ncount_0 = 0\n\
    [vidc]\nvertical_cycle = 0\ndisplay_end = 0\nticks = 7\n";

const WRITTEN: &str =
    "flags = \"IF\"\nhigh_rom = 0\nlow_rom = 0\nmode = \"svc\"\npages = 4\npc = 0\n\
    port = 0\nsteps = 65536\n\n[ioc]\ncount_0 = 0\nmask_fiq = 66\ntimer_0 = 9\n\n\
    [vidc]\nticks = 7\nvertical_cycle = 0\n";

fn is_written_as(alloc: Global, file: &MachineFile, wanted: &str) -> bool {
    if !file.events().is_empty() {
        return false;
    }
    match write_machine(alloc, file) {
        Ok(text) => text.as_str() == wanted,
        Err(_) => false,
    }
}

#[test]
fn written_devices(rt: HostRuntime) -> Result<(), Fail> {
    let file = read_machine(rt.alloc(), DEVICES)?;
    let is_written = is_written_as(rt.alloc(), &file, WRITTEN);
    drop(file);
    assert!(rt; is_written);
    Ok(())
}
