ghost use Rattle.std.specs.Prelude.{◌≡◌, ◌+◌, ◌*◌, ◌<◌, ◌≤◌, ◌%◌, ◌^◌, ◌==◌, ◌++◌, ◌∷◌, [], codes};
ghost use Rattle.std.specs.Prelude.{decimal, length, if◌then◌else◌};
ghost use Rattle.arm2_decode.specs.Bits.{bit_of_word};
ghost use Rattle.asm_text.specs.Words.{branch_name};
ghost use Rattle.assembler.specs.ShownLines.{address_end, amount_text, base_end, block_name, block_suffix};
ghost use Rattle.assembler.specs.ShownLines.{block_text, branch_text};
ghost use Rattle.assembler.specs.ShownLines.{comma_register, compare_front, cond_text, data_front};
ghost use Rattle.assembler.specs.ShownLines.{data_immediate_text, data_register_shift_text};
ghost use Rattle.assembler.specs.ShownLines.{data_register_text, factors_text, flags_text, list_operand};
ghost use Rattle.assembler.specs.ShownLines.{list_text, listed, listed_below, load_name, mark_if, move_front};
ghost use Rattle.assembler.specs.ShownLines.{multiply_text, numbered, offset_text, register_text};
ghost use Rattle.assembler.specs.ShownLines.{shift_text, shifted_text, shown_line, sign_text};
ghost use Rattle.assembler.specs.ShownLines.{single_immediate_text, single_register_text, shown_target};
ghost use Rattle.assembler.specs.ShownLines.{three_front, transfer_front, transfer_suffix, is_plain};
ghost use Rattle.assembler.specs.ShownLines.{word_text, compare_text, run_first, run_last, follows, swi_text};

use crate::text::Line;
use arm2_decode::{
    Block, Branch, Cond, DataImmediate, DataRegister, DataRegisterShift, Instr, Multiply, Opcode,
    Operation, Register, Shift, SingleImmediate, SingleRegister, Swi, asks_for_user, bit_of_word,
};
use asm_text::{WORD_LINE_ROOM, cond_name, opcode_name};
use bus_ticks::SPACE_END;

fn cond_text(cond: Cond) -> &'static [u8]
    ensures text { result.now ≡ cond_text cond }
    ensures room { length result.now ≤ 2 }
{
    match cond {
        Cond::Al => b"",
        _ => cond_name(cond),
    }
}

fn shift_text(shift: Shift) -> &'static [u8]
    ensures text { result.now ≡ shift_text shift }
    ensures room { length result.now ≤ 5 }
{
    match shift {
        Shift::Lsl => b",LSL ",
        Shift::Lsr => b",LSR ",
        Shift::Asr => b",ASR ",
        Shift::Ror => b",ROR ",
    }
}

fn flags_text(sets_flags: bool) -> &'static [u8]
    ensures text { result.now ≡ flags_text sets_flags }
    ensures room { length result.now ≤ 1 }
{
    if sets_flags { b"S" } else { b"" }
}

fn compare_text(rd: Register) -> &'static [u8]
    ensures text { result.now ≡ compare_text rd }
    ensures room { length result.now ≤ 1 }
{
    if rd.is_pc() { b"P" } else { b"" }
}

fn transfer_suffix(byte: bool, user: bool) -> &'static [u8]
    ensures text { result.now ≡ transfer_suffix byte user }
    ensures room { length result.now ≤ 2 }
{
    match (byte, user) {
        (false, false) => b"",
        (true, false) => b"B",
        (false, true) => b"T",
        (true, true) => b"BT",
    }
}

fn load_name(load: bool) -> &'static [u8]
    ensures text { result.now ≡ load_name load }
    ensures room { length result.now ≤ 3 }
{
    if load { b"LDR" } else { b"STR" }
}

fn block_name(load: bool) -> &'static [u8]
    ensures text { result.now ≡ block_name load }
    ensures room { length result.now ≤ 3 }
{
    if load { b"LDM" } else { b"STM" }
}

fn block_suffix(before: bool, up: bool) -> &'static [u8]
    ensures text { result.now ≡ block_suffix before up }
    ensures room { length result.now ≤ 2 }
{
    match (before, up) {
        (false, true) => b"IA",
        (true, true) => b"IB",
        (false, false) => b"DA",
        (true, false) => b"DB",
    }
}

fn branch_name(link: bool) -> &'static [u8]
    ensures text { result.now ≡ branch_name link }
    ensures room { length result.now ≤ 2 }
{
    if link { b"BL" } else { b"B" }
}

fn base_end(before: bool) -> &'static [u8]
    ensures text { result.now ≡ base_end before }
    ensures room { length result.now ≤ 2 }
{
    if before { b"," } else { b"]," }
}

fn address_end(before: bool, write_back: bool) -> &'static [u8]
    ensures text { result.now ≡ address_end before write_back }
    ensures room { length result.now ≤ 2 }
{
    match (before, write_back) {
        (false, _) => b"",
        (true, true) => b"]!",
        (true, false) => b"]",
    }
}

fn sign_text(up: bool) -> &'static [u8]
    ensures text { result.now ≡ sign_text up }
    ensures room { length result.now ≤ 1 }
{
    if up { b"" } else { b"-" }
}

// Whether a list has no register below a number.
fn is_lowest(list: u32, n: u32) -> bool
    requires { n < 32 }
    ensures { result ≡ (list % 2 ^ n == 0) }
{
    list % (1 << n) == 0
}

// What comes in front of the last operand of data processing.
#[derive(Clone, Copy)]
struct DataFront {
    opcode: Opcode,
    sets_flags: bool,
    rn: Register,
    rd: Register,
}

// What comes in front of the offset of a single transfer.
#[derive(Clone, Copy)]
struct TransferFront {
    load: bool,
    byte: bool,
    /// T: whether the access is the user's.
    user: bool,
    rd: Register,
    rn: Register,
}

impl Line {
    // A register, by its number.
    fn push_numbered(&mut self, n: u32)
        requires { length self.old + length (numbered n) ≤ WORD_LINE_ROOM }
        ensures { self.new ≡ self.old ++ numbered n }
    {
        self.put_all(b"R");
        self.put_decimal(n);
    }

    #[tactic(auto, using(crate::proofs::ShownLaws::numbered_short))]
    fn push_register(&mut self, register: Register)
        requires { length self.old + 3 ≤ WORD_LINE_ROOM }
        ensures text { self.new ≡ self.old ++ register_text register }
        ensures room { length self.new ≤ length self.old + 3 }
    {
        self.push_numbered(register.number());
    }

    fn push_comma_register(&mut self, register: Register)
        requires { length self.old + 4 ≤ WORD_LINE_ROOM }
        ensures text { self.new ≡ self.old ++ comma_register register }
        ensures room { length self.new ≤ length self.old + 4 }
    {
        self.put_all(b",");
        self.push_register(register);
    }

    // `#` and a number.
    fn push_number(&mut self, n: u32)
        requires { length self.old + 11 ≤ WORD_LINE_ROOM }
        ensures text { self.new ≡ self.old ++ (codes "#" ++ decimal n) }
        ensures room { length self.new ≤ length self.old + 11 }
    {
        self.put_all(b"#");
        self.push_decimal(n);
    }

    // A word with its condition and suffix, and the blank after it.
    fn push_word(&mut self, name: &[u8], cond: Cond, suffix: &[u8])
        requires { length self.old + (length name.now + length suffix.now + 3) ≤ WORD_LINE_ROOM }
        ensures text { self.new ≡ self.old ++ word_text name.now cond suffix.now }
        ensures room { length self.new ≤ length self.old + (length name.now + length suffix.now + 3) }
    {
        self.put_all(name);
        self.put_all(cond_text(cond));
        self.put_all(suffix);
        self.put_all(b" ");
    }

    fn push_amount(&mut self, shift: Shift, amount: u32)
        requires { length self.old + 16 ≤ WORD_LINE_ROOM }
        ensures text { self.new ≡ self.old ++ amount_text shift amount }
        ensures room { length self.new ≤ length self.old + 16 }
    {
        self.put_all(shift_text(shift));
        self.push_number(amount);
    }

    // The shift by an amount, or what an amount of 0 is written as.
    fn push_amount_or(&mut self, shift: Shift, amount: u32, zero: &[u8])
        requires { length self.old + (length zero.now + 16) ≤ WORD_LINE_ROOM }
        ensures text { self.new ≡ self.old ++ (if amount == 0 then zero.now else amount_text shift amount) }
        ensures room { length self.new ≤ length self.old + (length zero.now + 16) }
    {
        if amount == 0 {
            self.put_all(zero);
        } else {
            self.push_amount(shift, amount);
        }
    }

    // The shift of a register by an amount as a word has it; a plain register has none.
    fn push_shift(&mut self, shift: Shift, amount: u32)
        requires { length self.old + 20 ≤ WORD_LINE_ROOM }
        ensures text { self.new ≡ self.old ++ shifted_text shift amount }
        ensures room { length self.new ≤ length self.old + 20 }
    {
        match shift {
            Shift::Lsl => self.push_amount_or(Shift::Lsl, amount, b""),
            Shift::Lsr => self.push_amount(Shift::Lsr, full_amount(amount)),
            Shift::Asr => self.push_amount(Shift::Asr, full_amount(amount)),
            Shift::Ror => self.push_amount_or(Shift::Ror, amount, b",RRX"),
        }
    }

    fn push_compare(&mut self, cond: Cond, opcode: Opcode, rn: Register, rd: Register)
        requires { length self.old + 16 ≤ WORD_LINE_ROOM }
        ensures text { self.new ≡ self.old ++ compare_front cond opcode rn rd }
        ensures room { length self.new ≤ length self.old + 16 }
    {
        self.push_word(opcode_name(opcode), cond, compare_text(rd));
        self.push_register(rn);
        self.put_all(b",");
    }

    fn push_move(&mut self, cond: Cond, opcode: Opcode, sets_flags: bool, rd: Register)
        requires { length self.old + 16 ≤ WORD_LINE_ROOM }
        ensures text { self.new ≡ self.old ++ move_front cond opcode sets_flags rd }
        ensures room { length self.new ≤ length self.old + 16 }
    {
        self.push_word(opcode_name(opcode), cond, flags_text(sets_flags));
        self.push_register(rd);
        self.put_all(b",");
    }

    fn push_three(&mut self, cond: Cond, x: DataFront)
        requires { length self.old + 16 ≤ WORD_LINE_ROOM }
        ensures text { self.new ≡ self.old ++ three_front cond x.opcode x.sets_flags x.rn x.rd }
        ensures room { length self.new ≤ length self.old + 16 }
    {
        self.push_word(opcode_name(x.opcode), cond, flags_text(x.sets_flags));
        self.push_register(x.rd);
        self.push_comma_register(x.rn);
        self.put_all(b",");
    }

    // The word, and the registers in front of the last operand.
    fn push_data(&mut self, cond: Cond, x: DataFront)
        requires { length self.old + 16 ≤ WORD_LINE_ROOM }
        ensures text { self.new ≡ self.old ++ data_front cond x.opcode x.sets_flags x.rn x.rd }
        ensures room { length self.new ≤ length self.old + 16 }
    {
        match x.opcode {
            Opcode::Tst | Opcode::Teq | Opcode::Cmp | Opcode::Cmn => {
                self.push_compare(cond, x.opcode, x.rn, x.rd);
            }
            Opcode::Mov | Opcode::Mvn => self.push_move(cond, x.opcode, x.sets_flags, x.rd),
            _ => self.push_three(cond, x),
        }
    }

    // LDR or STR with Rd and the base, up to what follows the base.
    fn push_transfer(&mut self, cond: Cond, x: TransferFront)
        requires { length self.old + 16 ≤ WORD_LINE_ROOM }
        ensures text { self.new ≡ self.old ++ transfer_front cond x.load x.byte x.user x.rd x.rn }
        ensures room { length self.new ≤ length self.old + 16 }
    {
        self.push_word(load_name(x.load), cond, transfer_suffix(x.byte, x.user));
        self.push_register(x.rd);
        self.put_all(b",[");
        self.push_register(x.rn);
    }

    fn push_offset(&mut self, before: bool, up: bool, offset: u32)
        requires { length self.old + 14 ≤ WORD_LINE_ROOM }
        ensures text { self.new ≡ self.old ++ offset_text before up offset }
        ensures room { length self.new ≤ length self.old + 14 }
    {
        self.put_all(base_end(before));
        self.put_all(b"#");
        self.put_all(sign_text(up));
        self.push_decimal(offset);
    }

    #[tactic(auto, using(crate::proofs::ShownLaws::and_none))]
    fn push_offset_of(&mut self, x: SingleImmediate)
        requires { length self.old + 14 ≤ WORD_LINE_ROOM }
        ensures text { self.new
            ≡ self.old ++ (if is_plain x then [] else offset_text x.before x.up x.offset) }
        ensures room { length self.new ≤ length self.old + 14 }
    {
        if is_plain(x) {
            return;
        }
        self.push_offset(x.before, x.up, x.offset);
    }

    // A register of a list that is not in a run with the one before.
    fn push_first(&mut self, list: u32, n: u32)
        requires number { n < 16 }
        requires room { length self.old + length (run_first list n) ≤ WORD_LINE_ROOM }
        ensures { self.new ≡ self.old ++ run_first list n }
    {
        if !is_lowest(list, n) {
            self.put_all(b",");
            self.push_numbered(n);
            return;
        }
        self.push_numbered(n);
    }

    // A register of a list after the one before: the last of its run, or within it.
    #[tactic(auto, using(crate::proofs::ShownLaws::and_none))]
    fn push_last(&mut self, list: u32, n: u32)
        requires number { n < 16 }
        requires room { length self.old + length (run_last list n) ≤ WORD_LINE_ROOM }
        ensures { self.new ≡ self.old ++ run_last list n }
    {
        if bit_of_word(list, n + 1) {
            return;
        }
        self.put_all(b"-");
        self.push_numbered(n);
    }

    #[tactic(auto, using(crate::proofs::ShownLaws::and_none))]
    fn push_listed(&mut self, list: u32, n: u32)
        requires number { n < 16 }
        requires room { length self.old + length (listed list n) ≤ WORD_LINE_ROOM }
        ensures { self.new ≡ self.old ++ listed list n }
    {
        if !bit_of_word(list, n) {
            return;
        }
        if follows(list, n) {
            self.push_last(list, n);
        } else {
            self.push_first(list, n);
        }
    }

    fn push_registers(&mut self, list: u32)
        requires { length self.old + 45 ≤ WORD_LINE_ROOM }
        ensures text { self.new ≡ self.old ++ listed_below list 16 }
        ensures room { length self.new ≤ length self.old + 45 }
    {
        for n in 0..16u32 {
            self.push_listed(list, n);
        }
    }

    // The registers of a list: those side by side as runs.
    fn push_list(&mut self, list: u32)
        requires { length self.old + 47 ≤ WORD_LINE_ROOM }
        ensures text { self.new ≡ self.old ++ list_text list }
        ensures room { length self.new ≤ length self.old + 47 }
    {
        self.put_all(b"{");
        self.push_registers(list);
        self.put_all(b"}");
    }

    // A mark of one byte, or none.
    #[tactic(auto, using(crate::proofs::ShownLaws::and_none))]
    fn push_mark(&mut self, is_set: bool, mark: u8)
        requires { length self.old + 1 ≤ WORD_LINE_ROOM }
        ensures text { self.new ≡ self.old ++ mark_if is_set (mark ∷ []) }
        ensures room { length self.new ≤ length self.old + 1 }
    {
        if !is_set {
            return;
        }
        self.put(mark);
    }

    // The list of a block and its mark.
    fn push_last_operand(&mut self, list: u32, user: bool)
        requires { length self.old + 49 ≤ WORD_LINE_ROOM }
        ensures text { self.new ≡ self.old ++ list_operand list user }
        ensures room { length self.new ≤ length self.old + 49 }
    {
        self.put_all(b",");
        self.push_list(list);
        self.push_mark(user, b'^');
    }

    // Rd,Rm,Rs of a multiply.
    fn push_factors(&mut self, x: Multiply)
        requires { length self.old + 11 ≤ WORD_LINE_ROOM }
        ensures text { self.new ≡ self.old ++ factors_text x }
        ensures room { length self.new ≤ length self.old + 11 }
    {
        self.push_register(x.rd);
        self.push_comma_register(x.rm);
        self.push_comma_register(x.rs);
    }
}

// An amount of 0 stands for 32.
fn full_amount(amount: u32) -> u32
    ensures { result ≡ (if amount == 0 then 32 else amount) }
{
    if amount == 0 { 32 } else { amount }
}

fn is_plain(x: SingleImmediate) -> bool
    ensures { result ≡ is_plain x }
{
    x.offset == 0 && x.up && (x.before && !x.write_back)
}

fn follows(list: u32, n: u32) -> bool
    requires { n < 16 }
    ensures { result ≡ follows list n }
{
    n > 0 && bit_of_word(list, n - 1)
}

fn multiply_text(cond: Cond, x: Multiply) -> Line
    ensures { result ≡ multiply_text cond x }
{
    let mut line = Line::new();
    if x.accumulate {
        line.push_word(b"MLA", cond, flags_text(x.sets_flags));
        line.push_factors(x);
        line.push_comma_register(x.rn);
        line
    } else {
        line.push_word(b"MUL", cond, flags_text(x.sets_flags));
        line.push_factors(x);
        line
    }
}

fn data_register_text(cond: Cond, x: DataRegister) -> Line
    ensures { result ≡ data_register_text cond x }
{
    let mut line = Line::new();
    let front = DataFront {
        opcode: x.opcode,
        sets_flags: x.sets_flags,
        rn: x.rn,
        rd: x.rd,
    };
    line.push_data(cond, front);
    line.push_register(x.rm);
    line.push_shift(x.shift, x.amount);
    line
}

fn data_register_shift_text(cond: Cond, x: DataRegisterShift) -> Line
    ensures { result ≡ data_register_shift_text cond x }
{
    let mut line = Line::new();
    let front = DataFront {
        opcode: x.opcode,
        sets_flags: x.sets_flags,
        rn: x.rn,
        rd: x.rd,
    };
    line.push_data(cond, front);
    line.push_register(x.rm);
    line.put_all(shift_text(x.shift));
    line.push_register(x.rs);
    line
}

fn data_immediate_text(cond: Cond, x: DataImmediate) -> Line
    ensures { result ≡ data_immediate_text cond x }
{
    let mut line = Line::new();
    let front = DataFront {
        opcode: x.opcode,
        sets_flags: x.sets_flags,
        rn: x.rn,
        rd: x.rd,
    };
    line.push_data(cond, front);
    line.push_number(x.value.rotate_right(2 * x.rotation));
    line
}

fn single_immediate_text(cond: Cond, x: SingleImmediate) -> Line
    ensures { result ≡ single_immediate_text cond x }
{
    let front = TransferFront {
        load: x.load,
        byte: x.byte,
        user: asks_for_user(x.before, x.write_back),
        rd: x.rd,
        rn: x.rn,
    };
    let mut line = Line::new();
    line.push_transfer(cond, front);
    line.push_offset_of(x);
    line.put_all(address_end(x.before, x.write_back));
    line
}

fn single_register_text(cond: Cond, x: SingleRegister) -> Line
    ensures { result ≡ single_register_text cond x }
{
    let front = TransferFront {
        load: x.load,
        byte: x.byte,
        user: asks_for_user(x.before, x.write_back),
        rd: x.rd,
        rn: x.rn,
    };
    let mut line = Line::new();
    line.push_transfer(cond, front);
    line.put_all(base_end(x.before));
    line.put_all(sign_text(x.up));
    line.push_register(x.rm);
    line.push_shift(x.shift, x.amount);
    line.put_all(address_end(x.before, x.write_back));
    line
}

fn block_text(cond: Cond, x: Block) -> Line
    ensures { result ≡ block_text cond x }
{
    let mut line = Line::new();
    line.push_word(block_name(x.load), cond, block_suffix(x.before, x.up));
    line.push_register(x.rn);
    line.push_mark(x.write_back, b'!');
    line.push_last_operand(x.list, x.user);
    line
}

// Where the branch wraps, the line does not assemble to the word.
fn shown_target(at: u32, offset: u32) -> u64
    requires { offset < 2 ^ 24 }
    ensures target { result ≡ shown_target at offset }
    ensures fits { result < 2 ^ 33 }
{
    let beyond = u64::from(at) + 8 + 4 * u64::from(offset);
    if offset < 0x80_0000 {
        beyond
    } else {
        beyond.saturating_sub(u64::from(SPACE_END))
    }
}

#[tactic(auto, using(asm_text::proofs::HexLaws::hex_room))]
fn branch_text(cond: Cond, x: Branch, at: u32) -> Line
    ensures { result ≡ branch_text cond x at }
{
    let mut line = Line::new();
    line.push_word(branch_name(x.link), cond, b"");
    line.put_all(b"&");
    line.push_hex(shown_target(at, x.offset));
    line
}

fn swi_text(cond: Cond, x: Swi) -> Line
    ensures { result ≡ swi_text cond x }
{
    let mut line = Line::new();
    line.push_word(b"SWI", cond, b"");
    line.push_decimal(x.comment);
    line
}

/// The stated spelling of an instruction at an address; empty for a word that has none.
pub(crate) fn shown_line(instr: &Instr, at: u32) -> Line
    ensures { result ≡ shown_line instr.now at }
{
    let cond = instr.cond;
    match instr.operation {
        Operation::Multiply(x) => multiply_text(cond, x),
        Operation::DataRegister(x) => data_register_text(cond, x),
        Operation::DataRegisterShift(x) => data_register_shift_text(cond, x),
        Operation::DataImmediate(x) => data_immediate_text(cond, x),
        Operation::SingleImmediate(x) => single_immediate_text(cond, x),
        Operation::SingleRegister(x) => single_register_text(cond, x),
        Operation::Block(x) => block_text(cond, x),
        Operation::Branch(x) => branch_text(cond, x, at),
        Operation::Swi(x) => swi_text(cond, x),
        Operation::UndefinedTransfer(_)
        | Operation::CoprocessorTransfer(_)
        | Operation::Coprocessor(_) => Line::new(),
    }
}
