use arm2_decode::{Cond, Opcode, Register, Shift};

/// How a register is shifted by a number in the line.
#[derive(Clone, Copy)]
pub enum Amount {
    /// By so many places, as written.
    By(Shift, u32),
    /// By one place to the right, through the carry.
    Rrx,
}

/// How the last operand of a data processing word is shifted.
#[derive(Clone, Copy)]
pub enum Shifting {
    /// By a number.
    Amount(Amount),
    /// By the low byte of a register.
    Register(Shift, Register),
}

/// The last operand of a data processing word.
#[derive(Clone, Copy)]
pub enum Operand {
    /// `#n`.
    Immediate(u32),
    /// A register, shifted; a plain one by LSL #0.
    Shifted(Register, Shifting),
}

/// A data processing word.
#[derive(Clone, Copy)]
pub struct Data {
    pub opcode: Opcode,
    pub sets_flags: bool,
    pub rn: Register,
    pub rd: Register,
    pub operand: Operand,
}

/// MUL or MLA.
#[derive(Clone, Copy)]
pub struct Product {
    pub accumulate: bool,
    pub sets_flags: bool,
    pub rd: Register,
    pub rn: Register,
    pub rs: Register,
    pub rm: Register,
}

/// How far from the base a transfer goes.
#[derive(Clone, Copy)]
pub enum Distance {
    /// So many bytes.
    Number(u32),
    /// A register, shifted.
    Register(Register, Amount),
}

/// The address of a single transfer.
#[derive(Clone, Copy)]
pub struct Address {
    pub rn: Register,
    /// Whether the offset is added before the access.
    pub before: bool,
    /// Whether the offset is added, not subtracted.
    pub up: bool,
    /// W: see `arm2_decode::SingleImmediate`.
    pub write_back: bool,
    pub distance: Distance,
}

/// LDR or STR.
#[derive(Clone, Copy)]
pub struct SingleTransfer {
    pub load: bool,
    pub byte: bool,
    pub rd: Register,
    pub address: Address,
}

/// LDM or STM.
#[derive(Clone, Copy)]
pub struct BlockTransfer {
    pub load: bool,
    pub before: bool,
    pub up: bool,
    pub user: bool,
    pub write_back: bool,
    pub rn: Register,
    /// Bit n stands for register n.
    pub list: u32,
}

/// What a word does, with every number as written.
#[derive(Clone, Copy)]
pub enum WordAction {
    Data(Data),
    Multiply(Product),
    Single(SingleTransfer),
    Block(BlockTransfer),
    /// To a target, with a link (BL) or without.
    Branch { link: bool, target: u32 },
    Swi(u32),
}

/// A word whose operands are all numbers and registers.
#[derive(Clone, Copy)]
pub struct Code {
    pub cond: Cond,
    pub action: WordAction,
}

/// What a word does with its target.
#[derive(Clone, Copy)]
pub enum Use {
    /// B, or BL, which links.
    Branch {
        link: bool,
    },
    /// ADR to a register.
    Adr(Register),
    /// STR at the target, or LDR, which loads: a word, or a byte.
    Transfer {
        load: bool,
        byte: bool,
        rd: Register,
    },
}

/// A word with a target.
#[derive(Clone, Copy)]
pub struct Reference {
    pub cond: Cond,
    pub how: Use,
}

/// A number, or the name of an address.
#[derive(Clone, Copy)]
pub enum Value<'a> {
    Number(u32),
    Label(&'a [u8]),
}

/// What a line says after its label.
#[derive(Drop)]
pub enum SourceStatement<'a> {
    /// A word of numbers and registers.
    Code(Code),
    /// A word with a target.
    Refer(Reference, Value<'a>),
    /// The address of the next word.
    Org(u32),
    /// Words, one or more.
    Dcd(Vec<Value<'a>>),
}
