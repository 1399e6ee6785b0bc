ghost use Rattle.std.specs.Prelude.{◌≡◌};
ghost use Rattle.std.specs.BTreeMap.{get};
ghost use Rattle.std.specs.Ordering.{nat_cmp};
ghost use Rattle.text_explained.specs.Table.{image_ticks};

use crate::cost_figures::ticks_of;
use crate::walk_tally::WalkTally;
use walk_counts::capped_sum;

/// The ticks at all words.
pub(crate) fn image_ticks(tally: &WalkTally, words: &[(u32, u32)]) -> u64
    ensures { result ≡ image_ticks (get nat_cmp tally.now.by_address) words.now }
{
    let mut ticks = 0;
    for (at, _) in words {
        ticks = capped_sum(ticks, ticks_of(tally, *at));
    }
    ticks
}
