mod words;

use arm2_decode::*;
use words::*;

// The number of a kind, and the fields of a row, with zeros after them.
macro_rules! row {
    ($kind:literal: $($field:expr),*; $($zero:literal)*) => {
        ($kind, [$($field,)* $($zero),*])
    };
}

// An instruction's row, as the tables have it.
fn row_of(instr: &Instr) -> (usize, [u32; 11]) {
    let cond = instr.cond.number();
    match &instr.operation {
        Operation::Multiply(x) => row!(0: cond, u32::from(x.accumulate), u32::from(x.sets_flags),
            x.rd.number(), x.rn.number(), x.rs.number(), x.rm.number(); 0 0 0 0),
        Operation::DataRegister(x) => row!(1: cond, x.opcode.number(), u32::from(x.sets_flags),
            x.rn.number(), x.rd.number(), x.amount, x.shift.number(), x.rm.number(); 0 0 0),
        Operation::DataRegisterShift(x) => row!(2: cond, x.opcode.number(), u32::from(x.sets_flags),
            x.rn.number(), x.rd.number(), x.rs.number(), x.shift.number(), x.rm.number(); 0 0 0),
        Operation::DataImmediate(x) => row!(3: cond, x.opcode.number(), u32::from(x.sets_flags),
            x.rn.number(), x.rd.number(), x.rotation, x.value; 0 0 0 0),
        Operation::SingleImmediate(x) => row!(4: cond, u32::from(x.before), u32::from(x.up),
            u32::from(x.byte), u32::from(x.write_back), u32::from(x.load), x.rn.number(), x.rd.number(),
            x.offset; 0 0),
        Operation::SingleRegister(x) => row!(5: cond, u32::from(x.before), u32::from(x.up),
            u32::from(x.byte), u32::from(x.write_back), u32::from(x.load), x.rn.number(), x.rd.number(),
            x.amount, x.shift.number(), x.rm.number();),
        Operation::Block(x) => row!(6: cond, u32::from(x.before), u32::from(x.up),
            u32::from(x.user), u32::from(x.write_back), u32::from(x.load), x.rn.number(),
            x.list; 0 0 0),
        Operation::Branch(x) => row!(7: cond, u32::from(x.link), x.offset; 0 0 0 0 0 0 0 0),
        Operation::Swi(x) => row!(8: cond, x.comment; 0 0 0 0 0 0 0 0 0),
        Operation::UndefinedTransfer(x) => row!(9: cond, x.high, x.low; 0 0 0 0 0 0 0 0),
        Operation::CoprocessorTransfer(x) => row!(10: cond, x.bits; 0 0 0 0 0 0 0 0 0),
        Operation::Coprocessor(x) => row!(11: cond, x.bits; 0 0 0 0 0 0 0 0 0),
    }
}

// Whether the word is decoded to the row of that kind, and encoded again.
fn is_right(kind: usize, row: &Row) -> bool {
    let (word, fields) = row;
    match decode(*word) {
        Ok(instr) => (row_of(&instr), encode(&instr)) == ((kind, *fields), *word),
        Err(_) => false,
    }
}

// The first word of a table of that kind that is another instruction.
fn first_wrong(kind: usize, table: &[Row]) -> Option<u32> {
    for row in table {
        if !is_right(kind, row) {
            return Some(row.0);
        }
    }
    None
}

#[test]
fn words_of_each_kind(rt: HostRuntime) {
    let tables: [&[Row]; 12] = [
        &MULTIPLY,
        &DATA_REGISTER,
        &DATA_REGISTER_SHIFT,
        &DATA_IMMEDIATE,
        &SINGLE_IMMEDIATE,
        &SINGLE_REGISTER,
        &BLOCK,
        &BRANCH,
        &SWI,
        &UNDEFINED_TRANSFER,
        &COPROCESSOR_TRANSFER,
        &COPROCESSOR,
    ];
    for (kind, table) in tables.iter().enumerate() {
        assert!(rt; first_wrong(kind, table) == None, "kind {kind}");
    }
}

// The number of the condition and of the reason for which the word is no instruction.
fn refusal(word: u32) -> Option<[u32; 2]> {
    match decode(word) {
        Ok(_) => None,
        Err(Unallocated { cond, why }) => Some([cond.number(), why]),
    }
}

#[test]
fn unallocated_words(rt: HostRuntime) {
    for (word, wanted) in &UNALLOCATED {
        assert!(rt; refusal(*word) == Some(*wanted), "{word}");
    }
}

// A condition, and whether it holds with flags: bit 8N + 4Z + 2C + V.
static CONDITIONS: [(Cond, u32); 16] = [
    (Cond::Eq, 0xF0F0),
    (Cond::Ne, 0x0F0F),
    (Cond::Cs, 0xCCCC),
    (Cond::Cc, 0x3333),
    (Cond::Mi, 0xFF00),
    (Cond::Pl, 0x00FF),
    (Cond::Vs, 0xAAAA),
    (Cond::Vc, 0x5555),
    (Cond::Hi, 0x0C0C),
    (Cond::Ls, 0xF3F3),
    (Cond::Ge, 0xAA55),
    (Cond::Lt, 0x55AA),
    (Cond::Gt, 0x0A05),
    (Cond::Le, 0xF5FA),
    (Cond::Al, 0xFFFF),
    (Cond::Nv, 0x0000),
];

// The flags of a number from 0 to 15.
fn flags_of(number: u32) -> Flags {
    Flags {
        negative: number >= 8,
        zero: number / 4 % 2 == 1,
        carry: number / 2 % 2 == 1,
        overflow: number % 2 == 1,
    }
}

// The first flags with which the condition holds and is not to, or the other way round.
fn first_wrong_flags(cond: Cond, wanted: u32) -> Option<u32> {
    for number in 0u32..16 {
        if holds(cond, flags_of(number)) != ((wanted >> number) % 2 == 1) {
            return Some(number);
        }
    }
    None
}

#[test]
fn conditions(rt: HostRuntime) {
    for (cond, wanted) in &CONDITIONS {
        assert!(rt; first_wrong_flags(*cond, *wanted) == None, "{cond:?}");
    }
}
