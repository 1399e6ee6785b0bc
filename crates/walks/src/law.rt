ghost use Rattle.std.specs.Prelude.{◌≡◌, ◌^◌};

use crate::limits::{COST_LIMIT, MOST_INSTANCES, MOST_ROUNDS};

/// States what a loop's bound is at most, 1,048,576, in how many instances a place lies at most, 16, and from
/// how many ticks on a cost is too large: 2^63. It does nothing.
pub fn walk_limits()
    ensures rounds { MOST_ROUNDS ≡ 1048576 }
    ensures instances { MOST_INSTANCES ≡ 16 }
    ensures cost { COST_LIMIT ≡ 2 ^ 63 }
{}
