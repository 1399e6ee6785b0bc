ghost use Rattle.std.specs.Prelude.{◌≡◌, ◌<◌};
ghost use Rattle.arm2_effect.specs.Modes.{is_user, mode_named, mode_number, reg_number};

/// A processor mode; bits 1 and 0 of R15, from 0.
#[derive(Clone, Copy)]
pub enum Mode {
    User,
    Fiq,
    Irq,
    Svc,
}

impl Mode {
    /// Whether it is User, the one mode without privileges.
    #[inline(always)]
    pub fn is_user(self) -> bool
        ensures { result ≡ is_user self }
    {
        matches!(self, Mode::User)
    }

    /// The number in R15, in the order of the variants from 0.
    pub(crate) fn number(self) -> u32
        ensures number { result ≡ mode_number self }
        ensures fits { result < 4 }
    {
        self as u32
    }

    /// The one with the number, from 0 to 3.
    pub(crate) fn of(number: u32) -> Self
        requires { number < 4 }
        ensures { result ≡ mode_named number }
    {
        match number {
            0 => Mode::User,
            1 => Mode::Fiq,
            2 => Mode::Irq,
            _ => Mode::Svc,
        }
    }
}

/// One of the 27 registers, in all banks. R8 to R14 without a mode are those of User.
#[derive(Clone, Copy)]
pub enum Reg {
    R0,
    R1,
    R2,
    R3,
    R4,
    R5,
    R6,
    R7,
    R8,
    R9,
    R10,
    R11,
    R12,
    R13,
    R14,
    R8Fiq,
    R9Fiq,
    R10Fiq,
    R11Fiq,
    R12Fiq,
    R13Fiq,
    R14Fiq,
    R13Irq,
    R14Irq,
    R13Svc,
    R14Svc,
    /// The program counter with the PSR.
    R15,
}

impl Reg {
    /// The place among the 27, in the order of the variants from 0.
    pub(crate) fn number(self) -> usize
        ensures number { result ≡ reg_number self }
        ensures fits { result < 27 }
    {
        self as usize
    }
}
