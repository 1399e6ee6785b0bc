use arm2_effect::{Kind, Reg, Why};
use arm2_exec::{Input, Machine, Stepped, exceptions_keep_the_rest};
use assembler::assemble;
use bitflags::Flags;
use bus_ticks::Profile;
use ioc::Lines;
use loader::load;
use memc::PageSize;
use std::alloc::Global;
use std::test::Fail;

// SVC mode with IRQ and FIQ masked.
const SVC: u32 = 0x0C00_0003;

fn quiet() -> Input {
    Input {
        bursts: 0,
        lines: Lines::empty(),
        port: 0,
    }
}

fn load_source(alloc: Global, machine: &mut Machine, source: &[u8]) -> Result<(), Fail> {
    let said = assemble(alloc, source)?;
    let loaded = load(alloc, machine, &said.image);
    drop(said);
    Ok(loaded?)
}

// In SVC mode with IRQ and FIQ masked, at an address, with a source's words.
fn machine_at(alloc: Global, size: PageSize, address: u32, source: &[u8]) -> Result<Machine, Fail> {
    let mut machine = Machine::new(alloc, size, Profile::one())?;
    machine.set(Reg::R15, SVC | address);
    match load_source(alloc, &mut machine, source) {
        Ok(()) => Ok(machine),
        Err(fault) => {
            drop(machine);
            Err(fault)
        }
    }
}

fn words(machine: &Machine, one: Reg, other: Reg) -> [u32; 2] {
    [machine.get(one), machine.get(other)]
}

// What a step reports: its address and its ticks.
fn step(machine: &mut Machine, input: Input) -> (u32, u32) {
    let stepped = machine.step(input);
    (stepped.from, stepped.ticks)
}

#[test]
fn starts_in_the_reset_state(rt: HostRuntime) -> Result<(), Fail> {
    let mut machine = Machine::new(rt.alloc(), PageSize::K32, Profile::one())?;
    let started = words(&machine, Reg::R15, Reg::R14Svc);
    assert!(rt; machine.profile().numbers() == Profile::one().numbers());
    machine.set(Reg::R0, 7);
    machine.set(Reg::R15, 0x8000);
    machine.reset();
    assert!(rt; (started, words(&machine, Reg::R15, Reg::R0)) == ([SVC, 0], [SVC, 7]));
    machine.one_outcome(quiet());
    exceptions_keep_the_rest();
    drop(machine);
    Ok(())
}

// Bits of IRQ A's status.
fn status(machine: &Machine, bit: u32) -> bool {
    machine.ioc().read(0x320_0010) & bit != 0
}

// What timer 0 counts to, by its latch.
fn timer(machine: &mut Machine) -> u32 {
    machine.ioc_mut().write(0x320_004C, 0);
    machine.ioc().read(0x320_0040)
}

// Timer 0 gets latch 2. VIDC's registers, of 2 pixels to a raster and 2 rasters, make a flyback each 4 ticks.
fn set_up(machine: &mut Machine) {
    machine.ioc_mut().write(0x320_0040, 0x2_0000);
    machine.ioc_mut().write(0x320_0048, 0);
    for word in [0x8000_0000, 0xA000_4000, 0xB000_0000, 0xE000_0000] {
        machine.vidc_mut().write(word);
    }
}

// Two steps, with a burst in the first. Timer 0 requests in the second step.
#[test]
fn bursts_move_the_timer_and_vidc(rt: HostRuntime) -> Result<(), Fail> {
    let mut machine = machine_at(rt.alloc(), PageSize::K4, 0x8000, b" MOV R0,#3\n MOV R0,#3")?;
    set_up(&mut machine);
    let at_start = status(&machine, 8);
    let (_, ticks) = step(
        &mut machine,
        Input {
            bursts: 1,
            ..quiet()
        },
    );
    assert!(rt; (ticks, at_start) == (1, false));
    let count = timer(&mut machine);
    let found = (count, status(&machine, 0x20), status(&machine, 8));
    assert!(rt; found == (1, false, true));
    step(&mut machine, quiet());
    let count = timer(&mut machine);
    assert!(rt; (count, status(&machine, 0x20)) == (2, true));
    drop(machine);
    Ok(())
}

// A store to MEMC's page tables, whose pages are of 32 KB: A2, which rises in the step that stops, is
// not latched.
#[test]
fn stopped_step_changes_nothing(rt: HostRuntime) -> Result<(), Fail> {
    let mut machine = machine_at(
        rt.alloc(),
        PageSize::K32,
        0x1000,
        b" ORG &1000\n STR R1,[R0]",
    )?;
    machine.set(Reg::R0, 0x380_8105);
    let stepped = machine.step(Input {
        bursts: 3,
        lines: Lines::A2,
        port: 0,
    });
    let wanted = Stepped {
        kind: Kind::Stopped(Why::UnsupportedWrite),
        ticks: 0,
        from: 0x1000,
        to: 0x1000,
    };
    assert!(rt; stepped == wanted);
    assert!(rt; !status(&machine, 4));
    drop(machine);
    Ok(())
}

// An IRQ handler that counts down from 3, and a FIQ handler that returns at once.
const COUNTDOWN_AND_FIQ: &[u8] = b"
    ORG    &1C
fiq SUBS   PC,R14,#4
    ORG    &8000
    MOV    R0,#3
on  SUBS   R0,R0,#1
    BNE    on
    SUBS   PC,R14,#4
";

// The address and the ticks of each step where FIQ is requested at the second one alone.
static WITH_ONE_FIQ: [(u32, u32); 10] = [
    (0x8000, 1),
    (0x8004, 5),
    (0x1C, 4),
    (0x8004, 1),
    (0x8008, 5),
    (0x8004, 1),
    (0x8008, 5),
    (0x8004, 1),
    (0x8008, 2),
    (0x800C, 5),
];

// The number of the first step of another address or other ticks, where FIQ is requested at the second one
// alone, and the ticks of all.
fn steps_with_one_fiq(machine: &mut Machine, wanted: &[(u32, u32)]) -> (Option<usize>, u32) {
    let mut total = 0u32;
    for (n, row) in wanted.iter().enumerate() {
        let lines = if n == 1 { Lines::F0 } else { Lines::empty() };
        let stepped = step(machine, Input { lines, ..quiet() });
        if stepped != *row {
            return (Some(n), total);
        }
        total = total.wrapping_add(stepped.1);
    }
    (None, total)
}

#[test]
fn fiq_in_an_irq_handler(rt: HostRuntime) -> Result<(), Fail> {
    let mut machine = machine_at(rt.alloc(), PageSize::K32, 0x8000, COUNTDOWN_AND_FIQ)?;
    machine.set(Reg::R15, 0x0800_8002);
    machine.set(Reg::R14Irq, 0x1010);
    machine.ioc_mut().write(0x320_0038, 0x1_0000);
    let found = steps_with_one_fiq(&mut machine, &WITH_ONE_FIQ);
    assert!(rt; (found, machine.get(Reg::R15)) == ((None, 30), 0x100C));
    drop(machine);
    Ok(())
}
