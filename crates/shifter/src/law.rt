ghost use Rattle.std.specs.Prelude.{◌≡◌, ℕ, ◌≤◌, ◌<◌, ◌*◌, ◌-◌, ◌^◌};
ghost use Rattle.shifter.specs.Shifts.{multiply_cycles};

use crate::shifts::MOST_MULTIPLY_CYCLES;

/// States that a multiply takes at most [`MOST_MULTIPLY_CYCLES`], and by the greatest word so many. It does
/// nothing.
pub fn multiply_limit()
    ensures most { (number : ℕ) → multiply_cycles number ≤ MOST_MULTIPLY_CYCLES }
    ensures reached { multiply_cycles 0xFFFFFFFF ≡ MOST_MULTIPLY_CYCLES }
{}

/// States the table of a multiply's cycles: m of them, at least 1, for a number below 2 ^ (2m - 1), if they
/// are not the most, and from 2 ^ (2m - 3) on, if they are 2 or more. It does nothing.
pub fn multiply_table()
    ensures some { (number : ℕ) → 1 ≤ multiply_cycles number }
    ensures below { (number : ℕ) → multiply_cycles number < MOST_MULTIPLY_CYCLES
        → number < 2 ^ (2 * multiply_cycles number - 1) }
    ensures from { (number : ℕ) → 2 ≤ multiply_cycles number
        → 2 ^ (2 * multiply_cycles number - 3) ≤ number }
{}
