//! Whether a word may be done, as far as is stated of it.

ghost use Rattle.std.specs.Prelude.{◌≡◌};
ghost use Rattle.text_explained.specs.Doing.{may_be_done};

use arm2_decode::Instr;
use control_flow::may_do;
use statement::Statement;

/// Whether an instruction at an address may be done, by its condition and by what is stated of it.
pub(crate) fn may_be_done(statement: &Statement, at: u32, instr: &Instr) -> bool
    ensures { result ≡ may_be_done statement.now at instr.now }
{
    may_do(instr.cond, statement.taken_at(at))
}
