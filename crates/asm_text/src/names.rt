ghost use Rattle.std.specs.Prelude.{◌≡◌, length};
ghost use Rattle.asm_text.specs.Names.{cond_name, cond_of, head_of, may_have, opcode_name};
ghost use Rattle.asm_text.specs.Names.{suffix_of, is_block_suffix};

use crate::table::{name_at, named_in};
use arm2_decode::{Cond, Opcode};

/// The first three letters of a word, but for B, BL, ORG and DCD.
#[derive(Clone, Copy)]
pub enum Head {
    /// A data processing word.
    Data(Opcode),
    /// MUL, or MLA, which accumulates.
    Multiply { accumulate: bool },
    /// STR, or LDR, which loads.
    Single { load: bool },
    /// STM, or LDM, which loads.
    Block { load: bool },
    /// SWI.
    Swi,
    /// ADR.
    Adr,
}

/// What follows the condition of a word.
#[derive(Clone, Copy)]
pub enum Suffix {
    /// Nothing.
    Bare,
    /// The flags are set.
    S,
    /// The PSR is written by a compare.
    P,
    /// A byte.
    B,
    /// A User access.
    T,
    /// A byte by a User access.
    Bt,
    /// Increment after.
    Ia,
    /// Increment before.
    Ib,
    /// Decrement after.
    Da,
    /// Decrement before.
    Db,
    /// Full descending stack.
    Fd,
    /// Empty descending stack.
    Ed,
    /// Full ascending stack.
    Fa,
    /// Empty ascending stack.
    Ea,
}

// Names in upper case. Conditions, and the opcodes that come first of the heads, are at their numbers.

const CONDS: [(&[u8], Cond); 16] = [
    (b"EQ", Cond::Eq),
    (b"NE", Cond::Ne),
    (b"CS", Cond::Cs),
    (b"CC", Cond::Cc),
    (b"MI", Cond::Mi),
    (b"PL", Cond::Pl),
    (b"VS", Cond::Vs),
    (b"VC", Cond::Vc),
    (b"HI", Cond::Hi),
    (b"LS", Cond::Ls),
    (b"GE", Cond::Ge),
    (b"LT", Cond::Lt),
    (b"GT", Cond::Gt),
    (b"LE", Cond::Le),
    (b"AL", Cond::Al),
    (b"NV", Cond::Nv),
];

const HEADS: [(&[u8], Head); 24] = [
    (b"AND", Head::Data(Opcode::And)),
    (b"EOR", Head::Data(Opcode::Eor)),
    (b"SUB", Head::Data(Opcode::Sub)),
    (b"RSB", Head::Data(Opcode::Rsb)),
    (b"ADD", Head::Data(Opcode::Add)),
    (b"ADC", Head::Data(Opcode::Adc)),
    (b"SBC", Head::Data(Opcode::Sbc)),
    (b"RSC", Head::Data(Opcode::Rsc)),
    (b"TST", Head::Data(Opcode::Tst)),
    (b"TEQ", Head::Data(Opcode::Teq)),
    (b"CMP", Head::Data(Opcode::Cmp)),
    (b"CMN", Head::Data(Opcode::Cmn)),
    (b"ORR", Head::Data(Opcode::Orr)),
    (b"MOV", Head::Data(Opcode::Mov)),
    (b"BIC", Head::Data(Opcode::Bic)),
    (b"MVN", Head::Data(Opcode::Mvn)),
    (b"MUL", Head::Multiply { accumulate: false }),
    (b"MLA", Head::Multiply { accumulate: true }),
    (b"LDR", Head::Single { load: true }),
    (b"STR", Head::Single { load: false }),
    (b"LDM", Head::Block { load: true }),
    (b"STM", Head::Block { load: false }),
    (b"SWI", Head::Swi),
    (b"ADR", Head::Adr),
];

const SUFFIXES: [(&[u8], Suffix); 14] = [
    (b"", Suffix::Bare),
    (b"S", Suffix::S),
    (b"P", Suffix::P),
    (b"B", Suffix::B),
    (b"T", Suffix::T),
    (b"BT", Suffix::Bt),
    (b"IA", Suffix::Ia),
    (b"IB", Suffix::Ib),
    (b"DA", Suffix::Da),
    (b"DB", Suffix::Db),
    (b"FD", Suffix::Fd),
    (b"ED", Suffix::Ed),
    (b"FA", Suffix::Fa),
    (b"EA", Suffix::Ea),
];

/// The two letters of a condition, in upper case.
pub fn cond_name(cond: Cond) -> &'static [u8]
    ensures letters { result.now ≡ cond_name cond }
    ensures two { length result.now ≡ 2 }
{
    name_at(&CONDS, cond.number())
}

/// The three letters of a data processing word, in upper case.
pub fn opcode_name(opcode: Opcode) -> &'static [u8]
    ensures letters { result.now ≡ opcode_name opcode }
    ensures three { length result.now ≡ 3 }
{
    name_at(&HEADS, opcode.number())
}

/// The condition that a text in upper case names.
#[tactic(auto, unfolding(crate::specs::Names::cond_of))]
pub(crate) fn cond_of(text: &[u8]) -> Option<Cond>
    ensures { result ≡ cond_of text.now }
{
    named_in(&CONDS, text)
}

/// The head that a text in upper case names.
#[tactic(auto, unfolding(crate::specs::Names::head_of))]
pub(crate) fn head_of(text: &[u8]) -> Option<Head>
    ensures { result ≡ head_of text.now }
{
    named_in(&HEADS, text)
}

/// The suffix that a text in upper case names.
#[tactic(auto, unfolding(crate::specs::Names::suffix_of))]
pub(crate) fn suffix_of(text: &[u8]) -> Option<Suffix>
    ensures { result ≡ suffix_of text.now }
{
    named_in(&SUFFIXES, text)
}

fn is_block_suffix(suffix: Suffix) -> bool
    ensures { result ≡ is_block_suffix suffix }
{
    matches!(
        suffix,
        Suffix::Ia
            | Suffix::Ib
            | Suffix::Da
            | Suffix::Db
            | Suffix::Fd
            | Suffix::Ed
            | Suffix::Fa
            | Suffix::Ea
    )
}

/// Whether a word of the head may have the suffix.
pub(crate) fn may_have(head: Head, suffix: Suffix) -> bool
    ensures { result ≡ may_have head suffix }
{
    match head {
        Head::Data(opcode) => match suffix {
            Suffix::Bare | Suffix::S => true,
            Suffix::P => opcode.is_compare(),
            _ => false,
        },
        Head::Multiply { .. } => matches!(suffix, Suffix::Bare | Suffix::S),
        Head::Single { .. } => matches!(suffix, Suffix::Bare | Suffix::B | Suffix::T | Suffix::Bt),
        Head::Block { .. } => is_block_suffix(suffix),
        Head::Swi | Head::Adr => matches!(suffix, Suffix::Bare),
    }
}
