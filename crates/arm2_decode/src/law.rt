ghost use Rattle.std.specs.Prelude.{◌≡◌, ◌<◌, ◌^◌, ℕ, IfErr, IfOk, Ok, Result};
ghost use Rattle.arm2_decode.specs.Names.{is_compare, is_compare_number, opcode_number};
ghost use Rattle.arm2_decode.specs.Table.{IsUnallocated, Means};

use crate::instr::{Instr, Unallocated};
use crate::names::Opcode;

/// States that an instruction, encoded and decoded again, is the same: of any word that
/// [`encode`](crate::encode) may return for it, [`decode`](crate::decode) can answer nothing else. It does
/// nothing.
pub fn decode_encoded()
    ensures { (instr : Instr) → (word : ℕ) → Means word instr → (answer : Result Instr Unallocated)
        → IfOk answer (Means word) → IfErr answer (IsUnallocated word) → answer ≡ Ok instr }
{}

/// States that a word, decoded and encoded again, is the same, unless it is unallocated: of any instruction
/// that [`decode`](crate::decode) may return for it, [`encode`](crate::encode) can return no other word. It
/// does nothing.
pub fn encode_decoded()
    ensures { (word : ℕ) → word < 2 ^ 32 → (instr : Instr) → Means word instr → (again : ℕ) → again < 2 ^ 32
        → Means again instr → again ≡ word }
{}

/// States that the compares are the opcodes whose numbers are 8 to 11. It does nothing.
pub fn compares_by_number()
    ensures { (opcode : Opcode) → is_compare_number (opcode_number opcode) ≡ is_compare opcode }
{}
