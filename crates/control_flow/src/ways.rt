ghost use Rattle.std.specs.Prelude.{◌≡◌};
ghost use Rattle.control_flow.specs.Edges.{may_do, may_skip};

use arm2_decode::Cond;
use statement::Taken;

/// Whether a word may be passed over, by its condition and by what is stated of it: unless the condition
/// always holds, or is stated always to hold. What is stated of a word under AL or NV says nothing.
pub fn may_skip(cond: Cond, taken: Option<Taken>) -> bool
    ensures { result ≡ may_skip cond taken }
{
    let is_always_done = matches!(taken, Some(Taken::Always));
    !cond.is_always() && (cond.is_never() || !is_always_done)
}

/// Whether a word may be done, by its condition and by what is stated of it: unless the condition never
/// holds, or is stated never to hold. What is stated of a word under AL or NV says nothing.
pub fn may_do(cond: Cond, taken: Option<Taken>) -> bool
    ensures { result ≡ may_do cond taken }
{
    let is_never_done = matches!(taken, Some(Taken::Never));
    !cond.is_never() && (cond.is_always() || !is_never_done)
}
