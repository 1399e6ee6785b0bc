ghost use Rattle.std.specs.Prelude.{◌≡◌, ◌+◌, ◌<◌, ◌^◌, IfErr, IfOk, MatchOption, length};
ghost use Rattle.control_flow.specs.Flow.{IsWellFormed};
ghost use Rattle.kept_runs.specs.Following.{AreHeadersOf, CanGo, Goes, HaltsBy, IsFresh};
ghost use Rattle.kept_runs.specs.Judging.{IsMachineFor};
ghost use Rattle.kept_runs.specs.Keeping.{IsFollowed, IsHandler};
ghost use Rattle.kept_runs.specs.Whole.{IsStraying, Leaves};

use crate::judging::{Stray, judge};
use crate::stays::turn;
use crate::tally::{Passed, count};
use arm2_exec::{Input, Machine, Stepped};
use control_flow::Label;
use loop_bounds::Handler;
use numbered_walks::Span;
use std::alloc::{AllocError, Global};
use walk_counts::{headers, is_same_label};

/// How a run does not keep the statement of its handler.
#[derive(Clone, Copy, Debug, PartialEq, Eq)]
pub enum Unkept {
    /// R15 is not the entry where the run begins.
    NotAtEntry,
    /// A step is along no edge of its place.
    Stray(Stray),
    /// An edge turns back to the header of an instance more often than its bound allows.
    TurnedBack(Span),
    /// The inputs end inside the handler.
    Unfinished,
}

/// Whether a run keeps the statement of its handler.
#[derive(Drop)]
pub enum Followed {
    /// It goes along a walk from the entry to Exit that keeps the loop bounds.
    Kept {
        /// The steps until it leaves the handler.
        steps: u64,
        /// Their processor ticks, without those of DMA bursts.
        ticks: u128,
        /// What it does at each place of the graph, in the order of `graph.places()`.
        by_place: Vec<Passed>,
    },
    /// It does not.
    Strayed {
        /// The steps before the one that does not keep it.
        steps: u64,
        /// The address, in bytes, where the machine is after them.
        at: u32,
        why: Unkept,
    },
}

/// How far a run has been followed from the entry, and what is known of it.
#[derive(Drop)]
pub(crate) struct Follower {
    /// The number of the place where it is.
    pub(crate) number: usize,
    /// By the numbers of headers, the back edges of its stay in each instance that it is in.
    pub(crate) turns: Vec<u32>,
    pub(crate) steps: u64,
    /// Their processor ticks.
    pub(crate) ticks: u128,
    /// What it did at each place.
    pub(crate) by_place: Vec<Passed>,
}

// At the entry, before a run.
pub(crate) fn start(alloc: Global, exit: usize) -> Result<Follower, AllocError>
    requires { exit < 2 ^ 32 }
    ensures { IfOk result (IsFresh exit) }
{
    Ok(Follower {
        number: 0,
        turns: vec![in alloc; 0; exit + 1]?,
        steps: 0,
        ticks: 0,
        by_place: vec![in alloc; Passed::NOTHING; exit]?,
    })
}

/// How a step does not keep the statement.
#[derive(Clone, Copy)]
pub(crate) struct Halt {
    pub(crate) why: Unkept,
    /// What it did. None where the machine does not fetch the image's word, as no step is made then.
    pub(crate) stepped: Option<Stepped>,
}

// One step from where the run is, or how it does not keep the statement.
pub(crate) fn take_step(
    handler: &Handler<'_>,
    headers: &[Option<Span>],
    follower: &mut Follower,
    machine: &mut Machine,
    input: Input,
) -> Option<Halt>
    requires handler { IsHandler handler.now.image.now handler.now.statement handler.now.graph
        handler.now.tree }
    requires headers { AreHeadersOf handler.now.graph handler.now.tree headers.now }
    requires can { CanGo handler.now.graph handler.now.tree follower.old machine.old }
    requires well_formed { IsWellFormed handler.now.graph }
    requires few { follower.old.steps + 1 < 2 ^ 64 }
    requires small { follower.old.ticks < 2 ^ 100 }
    ensures { MatchOption result
        (Goes handler.now.image.now handler.now.statement handler.now.graph handler.now.tree follower.old
        follower.new machine.old input machine.new)
        (HaltsBy handler.now.image.now handler.now.statement handler.now.graph handler.now.tree follower.old
        follower.new machine.old input machine.new) }
{
    let place = handler.tree.order()[follower.number];
    let taken = match judge(handler, machine, place, input) {
        Ok(taken) => taken,
        Err(step) => {
            return Some(Halt {
                why: Unkept::Stray(step.stray),
                stepped: step.stepped,
            });
        }
    };
    let edge = handler.tree.edges()[taken.edge];
    if let Some(span) = turn(headers, &mut follower.turns, &edge) {
        return Some(Halt {
            why: Unkept::TurnedBack(span),
            stepped: Some(taken.stepped),
        });
    }
    follower.number = edge.to;
    follower.steps += 1;
    follower.ticks += u128::from(taken.stepped.ticks);
    let done = is_same_label(handler.graph.edges()[taken.edge].label, Label::Do);
    count(&mut follower.by_place, place, done, taken.stepped.ticks);
    None
}

/// Where a run does not keep the statement, and why.
#[derive(Clone, Copy)]
pub(crate) struct Straying {
    pub(crate) steps: u64,
    pub(crate) at: u32,
    pub(crate) why: Unkept,
}

/// Steps, one for each input, from the handler's entry until it is left, or where the run does not keep the
/// statement.
pub(crate) fn follow_whole(
    handler: &Handler<'_>,
    headers: &[Option<Span>],
    follower: &mut Follower,
    machine: &mut Machine,
    inputs: &[Input],
) -> Option<Straying>
    requires handler { IsHandler handler.now.image.now handler.now.statement handler.now.graph
        handler.now.tree }
    requires headers { AreHeadersOf handler.now.graph handler.now.tree headers.now }
    requires fresh { IsFresh (length handler.now.graph.places) follower.old }
    requires machine { IsMachineFor handler.now.graph machine.old }
    ensures { MatchOption result
        (Leaves handler.now.image.now handler.now.statement handler.now.graph handler.now.tree machine.old
        inputs.now machine.new follower.new)
        (IsStraying handler.now.image.now handler.now.statement handler.now.graph handler.now.tree machine.old
        inputs.now machine.new) }
{
    let exit = handler.graph.places().len();
    let at = machine.address();
    if at != handler.statement.entry() {
        return Some(Straying {
            steps: 0,
            at,
            why: Unkept::NotAtEntry,
        });
    }
    for input in inputs {
        let (steps, here) = (follower.steps, machine.address());
        if let Some(halt) = take_step(handler, headers, follower, machine, *input) {
            return Some(Straying {
                steps,
                at: here,
                why: halt.why,
            });
        }
        if follower.number == exit {
            return None;
        }
    }
    Some(Straying {
        steps: follower.steps,
        at: machine.address(),
        why: Unkept::Unfinished,
    })
}

// What is found of a run that left the handler.
fn kept(follower: Follower) -> Followed
    ensures { result ≡ Followed.Kept follower.steps follower.ticks follower.by_place }
{
    let Follower {
        steps,
        ticks,
        by_place,
        ..
    } = follower;
    Followed::Kept {
        steps,
        ticks,
        by_place,
    }
}

/// Runs a machine from a handler's entry until it leaves the handler, a step for each input, and judges each
/// step by the handler's statement.
///
/// `Kept` where the steps go along a walk of the flow graph from the entry to Exit that keeps the loop
/// bounds: then their ticks are at most the greatest cost. `Strayed` where no number of the inputs makes such
/// a run.
///
/// A step takes time linear in the edges of its place, and no memory. The call takes as much memory as the
/// graph has places.
///
/// # Errors
///
/// `AllocError` where an allocation failed. The machine is as it was then.
pub fn follow(
    alloc: Global,
    handler: &Handler<'_>,
    machine: &mut Machine,
    inputs: &[Input],
) -> Result<Followed, AllocError>
    requires handler { IsHandler handler.now.image.now handler.now.statement handler.now.graph
        handler.now.tree }
    requires machine { IsMachineFor handler.now.graph machine.old }
    ensures followed { IfOk result
        (IsFollowed handler.now.image.now handler.now.statement handler.now.graph handler.now.tree machine.old
        inputs.now machine.new) }
    ensures refused { IfErr result (λ _. machine.new ≡ machine.old) }
{
    let exit = handler.graph.places().len();
    let headers = headers(alloc, handler.tree.spans(), exit)?;
    let mut follower = start(alloc, exit)?;
    match follow_whole(handler, &headers, &mut follower, machine, inputs) {
        None => Ok(kept(follower)),
        Some(Straying { steps, at, why }) => Ok(Followed::Strayed { steps, at, why }),
    }
}
