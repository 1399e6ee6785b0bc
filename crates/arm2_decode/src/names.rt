ghost use Rattle.std.specs.Prelude.{◌≡◌, ◌<◌};
ghost use Rattle.arm2_decode.specs.Names.{is_add, is_stack, is_sub};
ghost use Rattle.arm2_decode.specs.Names.{cond_number, is_always, is_compare, is_compare_number, is_link};
ghost use Rattle.arm2_decode.specs.Names.{is_lsl, is_mov, is_never, is_pc, is_pc_number, is_same};
ghost use Rattle.arm2_decode.specs.Names.{opcode_number, register_number, shift_number};

// The variant of a number: the last one stands for all numbers that follow.
macro_rules! variant {
    ($number:expr, $type:ident: $($n:literal $name:ident)+, $last:ident) => {
        match $number {
            $($n => $type::$name,)+
            _ => $type::$last,
        }
    };
}

/// When an instruction is carried out, by the flags; bits 31 to 28 of a word, from 0.
#[derive(Clone, Copy, Debug, PartialEq, Eq)]
pub enum Cond {
    /// Z set.
    Eq,
    /// Z clear.
    Ne,
    /// C set.
    Cs,
    /// C clear.
    Cc,
    /// N set.
    Mi,
    /// N clear.
    Pl,
    /// V set.
    Vs,
    /// V clear.
    Vc,
    /// C set and Z clear.
    Hi,
    /// C clear or Z set.
    Ls,
    /// N equals V.
    Ge,
    /// N differs from V.
    Lt,
    /// Z clear, and N equals V.
    Gt,
    /// Z set, or N differs from V.
    Le,
    /// Always.
    Al,
    /// Never.
    Nv,
}

impl Cond {
    /// The number in a word, in the order of the variants from 0.
    pub fn number(self) -> u32
        ensures number { result ≡ cond_number self }
        ensures fits { result < 16 }
    {
        self as u32
    }

    /// The one with the number, from 0 to 15.
    pub fn of(number: u32) -> Self
        requires { number < 16 }
        ensures { cond_number result ≡ number }
    {
        variant!(
            number,
            Cond: 0 Eq 1 Ne 2 Cs 3 Cc 4 Mi 5 Pl 6 Vs 7 Vc 8 Hi 9 Ls 10 Ge 11 Lt 12 Gt 13 Le 14 Al,
            Nv
        )
    }

    /// Whether it always holds.
    pub fn is_always(self) -> bool
        ensures { result ≡ is_always self }
    {
        matches!(self, Cond::Al)
    }

    /// Whether it never holds.
    pub fn is_never(self) -> bool
        ensures { result ≡ is_never self }
    {
        matches!(self, Cond::Nv)
    }
}

/// What a data processing instruction computes; bits 24 to 21 of a word, from 0.
#[derive(Clone, Copy, Debug, PartialEq, Eq)]
pub enum Opcode {
    /// rn AND operand.
    And,
    /// rn exclusive OR operand.
    Eor,
    /// rn - operand.
    Sub,
    /// operand - rn.
    Rsb,
    /// rn + operand.
    Add,
    /// rn + operand + C.
    Adc,
    /// rn - operand, and - 1 where C is clear.
    Sbc,
    /// operand - rn, and - 1 where C is clear.
    Rsc,
    /// The flags of AND alone.
    Tst,
    /// The flags of EOR alone.
    Teq,
    /// The flags of SUB alone.
    Cmp,
    /// The flags of ADD alone.
    Cmn,
    /// rn OR operand.
    Orr,
    /// The operand.
    Mov,
    /// rn AND NOT operand.
    Bic,
    /// NOT operand.
    Mvn,
}

/// Whether an opcode's number is that of TST, TEQ, CMP or CMN.
pub(crate) fn is_compare_number(number: u32) -> bool
    ensures { result ≡ is_compare_number number }
{
    number / 4 == 2
}

impl Opcode {
    /// The number in a word, in the order of the variants from 0.
    pub fn number(self) -> u32
        ensures number { result ≡ opcode_number self }
        ensures fits { result < 16 }
    {
        self as u32
    }

    /// The one with the number, from 0 to 15.
    pub fn of(number: u32) -> Self
        requires { number < 16 }
        ensures { opcode_number result ≡ number }
    {
        variant!(
            number,
            Opcode: 0 And 1 Eor 2 Sub 3 Rsb 4 Add 5 Adc 6 Sbc 7 Rsc
                8 Tst 9 Teq 10 Cmp 11 Cmn 12 Orr 13 Mov 14 Bic,
            Mvn
        )
    }

    /// Whether it is ADD.
    pub fn is_add(self) -> bool
        ensures { result ≡ is_add self }
    {
        matches!(self, Opcode::Add)
    }

    /// Whether it is SUB.
    pub fn is_sub(self) -> bool
        ensures { result ≡ is_sub self }
    {
        matches!(self, Opcode::Sub)
    }

    /// Whether it is MOV.
    pub fn is_mov(self) -> bool
        ensures { result ≡ is_mov self }
    {
        matches!(self, Opcode::Mov)
    }

    /// Whether it writes flags alone, and no register: TST, TEQ, CMP, CMN.
    pub fn is_compare(self) -> bool
        ensures { result ≡ is_compare self }
    {
        is_compare_number(self.number())
    }
}

/// How an operand is shifted; bits 6 to 5 of a word, from 0.
#[derive(Clone, Copy, Debug, PartialEq, Eq)]
pub enum Shift {
    /// To the left, zeros from below.
    Lsl,
    /// To the right, zeros from above.
    Lsr,
    /// To the right, copies of the top bit from above.
    Asr,
    /// To the right, and round to the top.
    Ror,
}

impl Shift {
    /// The number in a word, in the order of the variants from 0.
    pub fn number(self) -> u32
        ensures number { result ≡ shift_number self }
        ensures fits { result < 4 }
    {
        self as u32
    }

    /// The one with the number, from 0 to 3.
    pub fn of(number: u32) -> Self
        requires { number < 4 }
        ensures { shift_number result ≡ number }
    {
        variant!(number, Shift: 0 Lsl 1 Lsr 2 Asr, Ror)
    }

    /// Whether it is LSL.
    pub fn is_lsl(self) -> bool
        ensures { result ≡ is_lsl self }
    {
        matches!(self, Shift::Lsl)
    }
}

/// One of the sixteen registers of the current mode. R15 is the program counter with the PSR.
#[derive(Clone, Copy, Debug, PartialEq, Eq)]
pub enum Register {
    R0,
    R1,
    R2,
    R3,
    R4,
    R5,
    R6,
    R7,
    R8,
    R9,
    R10,
    R11,
    R12,
    R13,
    R14,
    R15,
}

/// Whether a register's number is that of R15.
pub(crate) fn is_pc_number(number: u32) -> bool
    ensures { result ≡ is_pc_number number }
{
    number == 15
}

impl Register {
    /// The number in a word, in the order of the variants from 0.
    pub fn number(self) -> u32
        ensures number { result ≡ register_number self }
        ensures fits { result < 16 }
    {
        self as u32
    }

    /// The one with the number, from 0 to 15.
    pub fn of(number: u32) -> Self
        requires { number < 16 }
        ensures { register_number result ≡ number }
    {
        variant!(
            number,
            Register: 0 R0 1 R1 2 R2 3 R3 4 R4 5 R5 6 R6 7 R7
                8 R8 9 R9 10 R10 11 R11 12 R12 13 R13 14 R14,
            R15
        )
    }

    /// Whether it is the other.
    pub(crate) fn is_same(self, other: Register) -> bool
        ensures { result ≡ is_same self other }
    {
        self.number() == other.number()
    }

    /// Whether it is R13, which points to the stack.
    pub fn is_stack(self) -> bool
        ensures { result ≡ is_stack self }
    {
        self.number() == 13
    }

    /// Whether it is R14, the link register, which holds the return address.
    pub fn is_link(self) -> bool
        ensures { result ≡ is_link self }
    {
        self.number() == 14
    }

    /// Whether it is R15, the program counter.
    pub fn is_pc(self) -> bool
        ensures { result ≡ is_pc self }
    {
        is_pc_number(self.number())
    }
}
