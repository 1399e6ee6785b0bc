ghost use Rattle.std.specs.Prelude.{◌<◌, IfNone, IfSome, length};
ghost use Rattle.loop_bounds.specs.Nest.{HasSharedHeader};
ghost use Rattle.text_refusals.specs.SharedHeaders.{IsAlone, IsSharedBy, SharesWith};

use statement::Loop;

// The index of the next loop with the header of the one at an index.
fn sharing(loops: &[Loop], one: usize) -> Option<usize>
    requires { one < length loops.now }
    ensures shares { IfSome result (SharesWith loops.now one) }
    ensures none { IfNone result (IsAlone loops.now one) }
{
    for other in one + 1..loops.len() {
        if loops[other].header == loops[one].header {
            return Some(other);
        }
    }
    None
}

/// Two loops with one header address, in the statement's order. None where each loop has its own.
pub fn shared_header(loops: &[Loop]) -> Option<(Loop, Loop)>
    ensures shared { IfSome result (λ pair. IsSharedBy loops.now pair.0 pair.1) }
    ensures none { IfNone result (HasSharedHeader loops.now → ⊥) }
{
    for one in 0..loops.len() {
        if let Some(other) = sharing(loops, one) {
            return Some((loops[one], loops[other]));
        }
    }
    None
}
