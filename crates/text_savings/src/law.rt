ghost use Rattle.std.specs.Prelude.{◌≡◌, ◌+◌, ◌<◌, ◌^◌, ℕ, Contains, List, Option, Some, count_by};
ghost use Rattle.arm2_decode.specs.declared.instr.Instr.{Instr};
ghost use Rattle.bus_ticks.specs.Worst.{IsOf, worst_leave};
ghost use Rattle.bus_ticks.specs.declared.profile.Class.{Class};
ghost use Rattle.bus_ticks.specs.declared.profile.Profile.{Profile};
ghost use Rattle.control_flow.specs.declared.actions.Work.{Work};
ghost use Rattle.control_flow.specs.Edges.{do_ticks, jump_ticks, work_ticks};
ghost use Rattle.control_flow.specs.Kinds.{instr_action};
ghost use Rattle.control_flow.specs.declared.places.Place.{Place};
ghost use Rattle.control_flow.specs.declared.places.Place.TheVariants.{Exit};
ghost use Rattle.statement.specs.Stated.{Stated};
ghost use Rattle.text_savings.specs.Changed.{with_access, with_cycles, with_leave};
ghost use Rattle.text_savings.specs.Gains.{IsDearestBelow, leave_gain, offered_at, offered_of};
ghost use Rattle.text_savings.specs.Gains.{offered_ways_out, operation_gain, transfer_gain};
ghost use Rattle.text_savings.specs.declared.classes.ClassChange.{ClassChange};
ghost use Rattle.text_savings.specs.declared.gains.Gain.{Gain};
ghost use Rattle.text_savings.specs.declared.gains.Operands.{Operands};
ghost use Rattle.text_savings.specs.declared.gains.Refinement.TheVariants.{Addresses, Multiplier};
ghost use Rattle.control_flow.specs.Flow.{Flow, IsWellFormed};
ghost use Rattle.longest_walk.specs.Folded.{unfolded};
ghost use Rattle.longest_walk.specs.Longest.{IsWalkOf};
ghost use Rattle.longest_walk.specs.declared.folded.Item.{Item};
ghost use Rattle.loop_bounds.specs.Tree.{Tree};
ghost use Rattle.text_savings.specs.Carried.{carries_out, times_done};

/// States that of a walk of the graph that costs less than 2^64 ticks the numbers by which gains are
/// multiplied are exact: how many of the walk's edges carry out the word at an address. It does nothing.
pub fn times_are_of_the_walk()
    ensures { (flow : Flow) (tree : Tree) (cost : ℕ) (items : List Item) (a : ℕ)
        → IsWellFormed flow → IsWalkOf flow tree cost items → cost < 2 ^ 64
        → times_done flow.edges (unfolded items) a ≡ count_by (carries_out a) (unfolded items) }
{}

/// States that a gain is the difference of two prices: by the statement with the better class, in front of
/// its accesses or for its way out, each edge on which the word is carried out, and the way out, cost so many
/// ticks less. It does nothing.
pub fn gains_are_of_the_prices()
    ensures access { (st : Stated) (profile : Profile) (a : ℕ) (i : Instr) (to : Place) (gain : Gain)
        (change : ClassChange) → operation_gain st profile a i.operation ≡ Some gain
        → gain.refinement ≡ Addresses change
        → do_ticks (with_access st a change.better) profile a (instr_action i) to + gain.ticks
        ≡ do_ticks st profile a (instr_action i) to }
    ensures cycles { (st : Stated) (profile : Profile) (a : ℕ) (i : Instr) (to : Place) (gain : Gain)
        (operands : Operands) → operation_gain st profile a i.operation ≡ Some gain
        → gain.refinement ≡ Multiplier operands
        → do_ticks (with_cycles st a 15) profile a (instr_action i) to + gain.ticks
        ≡ do_ticks st profile a (instr_action i) to }
    ensures leave { (st : Stated) (profile : Profile) (gain : Gain) (change : ClassChange)
        → leave_gain profile st.leave ≡ Some gain → gain.refinement ≡ Addresses change
        → jump_ticks profile (with_leave st change.better).leave Exit + gain.ticks
        ≡ jump_ticks profile st.leave Exit }
{}

/// States which class is the next better: one of those offered whose price is below the present one's, and
/// none of those below it has a greater price. It does nothing.
pub fn next_class_is_the_dearest_below()
    ensures access { (profile : Profile) (class : Class) (address : Option ℕ) (work : Work) (gain : Gain)
        (change : ClassChange) → transfer_gain profile class address work ≡ Some gain
        → gain.refinement ≡ Addresses change
        → IsDearestBelow (λ c. work_ticks profile c work) (work_ticks profile class work)
        (offered_at address class) change.better }
    ensures leave { (profile : Profile) (class : Class) (gain : Gain) (change : ClassChange)
        → leave_gain profile class ≡ Some gain → gain.refinement ≡ Addresses change
        → IsDearestBelow (worst_leave profile) (worst_leave profile class) (offered_ways_out class)
        change.better }
{}

/// States that a class is offered in place of one that contains it: each address of the class offered is of
/// the present one. Where a transfer's address is known, it is of the class offered. It does nothing.
pub fn offered_classes_lie_within()
    ensures access { (class better : Class) (address : Option ℕ) (x : ℕ)
        → Contains (offered_at address class) better → IsOf better x → IsOf class x }
    ensures known { (class better : Class) (address : ℕ)
        → Contains (offered_of address class) better → IsOf better address }
    ensures leave { (class better : Class) (x : ℕ)
        → Contains (offered_ways_out class) better → IsOf better x → IsOf class x }
{}
