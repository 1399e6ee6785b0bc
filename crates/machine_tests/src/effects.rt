use arm2_decode::{Register, Shift};
use arm2_effect::{Mode, Reg, Registers};

// A mode, a register and its bank, and a word that is written to it.
type Row = (Mode, Register, Reg, u32);

static BANKS: [Row; 7] = [
    (Mode::User, Register::R8, Reg::R8, 1),
    (Mode::Fiq, Register::R7, Reg::R7, 2),
    (Mode::Fiq, Register::R8, Reg::R8Fiq, 3),
    (Mode::Irq, Register::R12, Reg::R12, 4),
    (Mode::Irq, Register::R13, Reg::R13Irq, 5),
    (Mode::Svc, Register::R14, Reg::R14Svc, 6),
    (Mode::Fiq, Register::R15, Reg::R15, 7),
];

fn is_kept(registers: &mut Registers, row: &Row) -> bool {
    let (mode, register, reg, word) = row;
    registers.write(*mode, *register, *word);
    [registers.get(*reg), registers.read(*mode, *register)] == [*word, *word]
}

// In FIQ mode with C set: R8 through ROR #0, which is RRX, and the first operands R15 and R8.
fn operands(registers: &mut Registers) -> [u32; 3] {
    registers.set(Reg::R15, 0x2000_8001);
    registers.set(Reg::R8Fiq, 6);
    registers.set(Reg::R8, 1);
    [
        registers
            .shifted_by_amount(Shift::Ror, 0, Register::R8)
            .value,
        registers.first_of(Register::R15, 8),
        registers.first_of(Register::R8, 8),
    ]
}

#[test]
fn banks_and_operands(rt: HostRuntime) {
    let mut registers = Registers::new();
    for row in &BANKS {
        assert!(rt; is_kept(&mut registers, row), "{}", row.3);
    }
    assert!(rt; operands(&mut registers) == [0x8000_0003, 0x8008, 6]);
}
