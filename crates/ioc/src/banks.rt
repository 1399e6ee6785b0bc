//! The three banks of interrupts, each with a status and a mask, by the bits of the VL86C410 data sheet.

ghost use Rattle.std.specs.Prelude.{⊤, [], ◌∷◌, codes};

use bitflags::{Flag, Flags, bitflag_items};

/// The bits of IRQ A. `ALWAYS` is set in its status; bit 4 means nothing.
#[derive(Clone, Copy, PartialEq, Eq, Debug)]
pub struct IrqA(u8);

bitflag_items! {
    impl IrqA: u8 {
        const A0 = 0x01;
        const A1 = 0x02;
        const A2 = 0x04;
        const FLYBACK = 0x08;
        const TIMER_0 = 0x20;
        const TIMER_1 = 0x40;
        const ALWAYS = 0x80;
    }
}

impl Flags for IrqA {
    type Bits = u8;

    ghost exact = { ⊤ };

    ghost table = { (codes "A0", 0x01) ∷ (codes "A1", 0x02) ∷ (codes "A2", 0x04)
        ∷ (codes "FLYBACK", 0x08) ∷ (codes "TIMER_0", 0x20) ∷ (codes "TIMER_1", 0x40)
        ∷ (codes "ALWAYS", 0x80) ∷ [] };

    ghost set_of = { λ bank. bank.0 };

    fn flags<'a>() -> &'a [Flag<IrqA>] {
        IrqA::FLAGS
    }

    fn bits(&self) -> u8 {
        self.0
    }

    fn from_bits_retain(bits: u8) -> IrqA {
        IrqA(bits)
    }
}

/// The bits of IRQ B.
#[derive(Clone, Copy, PartialEq, Eq, Debug)]
pub struct IrqB(u8);

bitflag_items! {
    impl IrqB: u8 {
        const IL0 = 0x01;
        const B1 = 0x02;
        const B2 = 0x04;
        const B3 = 0x08;
        const B4 = 0x10;
        const B5 = 0x20;
        const B6 = 0x40;
        const B7 = 0x80;
    }
}

impl Flags for IrqB {
    type Bits = u8;

    ghost exact = { ⊤ };

    ghost table = { (codes "IL0", 0x01) ∷ (codes "B1", 0x02) ∷ (codes "B2", 0x04) ∷ (codes "B3", 0x08)
        ∷ (codes "B4", 0x10) ∷ (codes "B5", 0x20) ∷ (codes "B6", 0x40) ∷ (codes "B7", 0x80) ∷ [] };

    ghost set_of = { λ bank. bank.0 };

    fn flags<'a>() -> &'a [Flag<IrqB>] {
        IrqB::FLAGS
    }

    fn bits(&self) -> u8 {
        self.0
    }

    fn from_bits_retain(bits: u8) -> IrqB {
        IrqB(bits)
    }
}

/// The bits of FIQ. `ALWAYS` is set in its status.
#[derive(Clone, Copy, PartialEq, Eq, Debug)]
pub struct FiqBank(u8);

bitflag_items! {
    impl FiqBank: u8 {
        const F0 = 0x01;
        const F1 = 0x02;
        const F2 = 0x04;
        const F3 = 0x08;
        const F4 = 0x10;
        const F5 = 0x20;
        const IL0 = 0x40;
        const ALWAYS = 0x80;
    }
}

impl Flags for FiqBank {
    type Bits = u8;

    ghost exact = { ⊤ };

    ghost table = { (codes "F0", 0x01) ∷ (codes "F1", 0x02) ∷ (codes "F2", 0x04) ∷ (codes "F3", 0x08)
        ∷ (codes "F4", 0x10) ∷ (codes "F5", 0x20) ∷ (codes "IL0", 0x40) ∷ (codes "ALWAYS", 0x80) ∷ [] };

    ghost set_of = { λ bank. bank.0 };

    fn flags<'a>() -> &'a [Flag<FiqBank>] {
        FiqBank::FLAGS
    }

    fn bits(&self) -> u8 {
        self.0
    }

    fn from_bits_retain(bits: u8) -> FiqBank {
        FiqBank(bits)
    }
}
