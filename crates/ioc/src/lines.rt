//! The lines that come in, by names and bits of our own.

ghost use Rattle.std.specs.Prelude.{⊤, [], ◌∷◌, codes};

use bitflags::{Flag, Flags, bitflag_items};

/// The interrupt lines, each active where its bit is set: A0 to A2 of IRQ A, B1 to B7 of IRQ B, F0 to
/// F5 of FIQ (the data sheet's FH0, FH1, FL, C3, C4 and C5), and IL0, which is in IRQ B and in FIQ. The
/// other bits mean nothing.
#[derive(Clone, Copy, PartialEq, Eq, Debug)]
pub struct Lines(u32);

bitflag_items! {
    impl Lines: u32 {
        const A0 = 0x1;
        const A1 = 0x2;
        const A2 = 0x4;
        const IL0 = 0x100;
        const B1 = 0x200;
        const B2 = 0x400;
        const B3 = 0x800;
        const B4 = 0x1000;
        const B5 = 0x2000;
        const B6 = 0x4000;
        const B7 = 0x8000;
        const F0 = 0x1_0000;
        const F1 = 0x2_0000;
        const F2 = 0x4_0000;
        const F3 = 0x8_0000;
        const F4 = 0x10_0000;
        const F5 = 0x20_0000;
    }
}

impl Flags for Lines {
    type Bits = u32;

    ghost exact = { ⊤ };

    ghost table = { (codes "A0", 0x1) ∷ (codes "A1", 0x2) ∷ (codes "A2", 0x4) ∷ (codes "IL0", 0x100)
        ∷ (codes "B1", 0x200) ∷ (codes "B2", 0x400) ∷ (codes "B3", 0x800) ∷ (codes "B4", 0x1000)
        ∷ (codes "B5", 0x2000) ∷ (codes "B6", 0x4000) ∷ (codes "B7", 0x8000) ∷ (codes "F0", 0x1_0000)
        ∷ (codes "F1", 0x2_0000) ∷ (codes "F2", 0x4_0000) ∷ (codes "F3", 0x8_0000) ∷ (codes "F4", 0x10_0000)
        ∷ (codes "F5", 0x20_0000) ∷ [] };

    ghost set_of = { λ l. l.0 };

    fn flags<'a>() -> &'a [Flag<Lines>] {
        Lines::FLAGS
    }

    fn bits(&self) -> u32 {
        self.0
    }

    fn from_bits_retain(bits: u32) -> Lines {
        Lines(bits)
    }
}
