ghost use Rattle.std.specs.Prelude.{◌≡◌, List, ℕ};
ghost use Rattle.arm2_exec.specs.State.{State};
ghost use Rattle.control_flow.specs.Flow.{Flow};
ghost use Rattle.kept_runs.specs.Keeping.{IsKeptRun, IsStrayedRun};
ghost use Rattle.kept_runs.specs.Visited.{Handled, IsKeptVisited, IsStrayedVisited};
ghost use Rattle.image.specs.Image.{Words};
ghost use Rattle.loop_bounds.specs.Tree.{Tree};
ghost use Rattle.statement.specs.Stated.{Stated};

use crate::following::Unkept;
use crate::tally::Passed;
use crate::visited::VisitUnkept;
use arm2_exec::Input;

/// States that a run that keeps a statement has one answer: it does not stray, and has one number of steps,
/// one sum of their ticks and one state at its end. A run that keeps both statements does not stray either.
/// It does nothing.
pub fn one_kept_answer()
    ensures kept { (words : Words) → (st : Stated) → (flow : Flow) → (tree : Tree) → (s : State)
        → (inputs : List Input) → (steps : ℕ) → (ticks : ℕ) → (by_place : List Passed) → (after : State)
        → (at : ℕ) → (strayed : ℕ) → (why : Unkept) → (last : State)
        → IsKeptRun words st flow tree s inputs steps ticks by_place after
        → IsStrayedRun words st flow tree s inputs strayed at why last → ⊥ }
    ensures once { (words : Words) → (st : Stated) → (flow : Flow) → (tree : Tree) → (s : State)
        → (inputs : List Input) → (steps : ℕ) → (ticks : ℕ) → (by_place : List Passed) → (after : State)
        → (others : ℕ) → (sum : ℕ) → (also : List Passed) → (last : State)
        → IsKeptRun words st flow tree s inputs steps ticks by_place after
        → IsKeptRun words st flow tree s inputs others sum also last
        → (steps ≡ others) × (ticks ≡ sum) × (after ≡ last) }
    ensures both { (irq : Handled) → (fiq : Handled) → (s : State) → (inputs : List Input) → (steps : ℕ)
        → (ticks : ℕ) → (visits : ℕ) → (after : State) → (at : ℕ) → (strayed : ℕ) → (why : VisitUnkept)
        → (last : State) → IsKeptVisited irq fiq s inputs steps ticks visits after
        → IsStrayedVisited irq fiq s inputs strayed at why last → ⊥ }
{}
