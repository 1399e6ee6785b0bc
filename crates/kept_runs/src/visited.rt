//! Runs of an interrupt handler that FIQ interrupts.

ghost use Rattle.std.specs.Prelude.{◌≡◌, ◌+◌, ◌<◌, ◌↔◌, ◌^◌, IfErr, IfOk, IsTrue, MatchResult, length};
ghost use Rattle.arm2_effect.specs.declared.exceptions.Vector.TheVariants.{Fiq};
ghost use Rattle.arm2_effect.specs.declared.step_end.Kind.TheVariants.{Taken};
ghost use Rattle.arm2_exec.specs.State.{State};
ghost use Rattle.arm2_exec.specs.Step.{Step};
ghost use Rattle.kept_runs.specs.Following.{IsFresh};
ghost use Rattle.kept_runs.specs.Judging.{IsMachineFor, IsMade};
ghost use Rattle.kept_runs.specs.Keeping.{IsHandler};
ghost use Rattle.kept_runs.specs.Visited.{IsVisitedRun, handled};
ghost use Rattle.kept_runs.specs.Visiting.{Advances, AreReady, CanAdvance, HaltsAfter, HasRoom};
ghost use Rattle.kept_runs.specs.Visiting.{IsBegun, IsCounted};

use crate::following::{Follower, Straying, Unkept, follow_whole, start, take_step};
use crate::tally::Passed;
use arm2_effect::{Kind, Vector};
use arm2_exec::{Input, Machine, Stepped};
use loop_bounds::Handler;
use numbered_walks::Span;
use std::alloc::{AllocError, Global};
use walk_counts::headers;

/// An interrupt handler, and FIQ's handler, which interrupts it.
#[derive(Clone, Copy)]
pub struct VisitedHandlers<'a> {
    pub irq: &'a Handler<'a>,
    pub fiq: &'a Handler<'a>,
}

/// How a run does not keep the statements of an interrupt handler and of FIQ's handler.
#[derive(Clone, Copy, Debug, PartialEq, Eq)]
pub enum VisitUnkept {
    /// A step of the interrupted handler strays, or the inputs end inside it.
    InMain(Unkept),
    /// FIQ's handler strays, or the inputs end inside it.
    InVisit(Unkept),
    /// FIQ's handler leaves to another address than this one, in bytes, where FIQ was taken.
    NotBack(u32),
}

/// Whether a run keeps the statements of an interrupt handler and of FIQ's handler.
#[derive(Clone, Copy, Debug, PartialEq, Eq)]
pub enum VisitedRun {
    /// It does.
    Kept {
        /// The steps until it leaves the interrupted handler, with those of visits.
        steps: u64,
        /// Their processor ticks, without those of DMA bursts.
        ticks: u128,
        /// How often FIQ's handler interrupts it.
        visits: u64,
    },
    /// It does not.
    Strayed {
        /// The steps before the one that strays, with those of visits.
        steps: u64,
        /// The address, in bytes, where the machine is after them.
        at: u32,
        why: VisitUnkept,
    },
}

/// Both handlers, and the spans of their loops by the numbers of headers.
#[derive(Clone, Copy)]
pub(crate) struct Both<'a> {
    pub(crate) irq: &'a Handler<'a>,
    pub(crate) fiq: &'a Handler<'a>,
    pub(crate) irq_headers: &'a [Option<Span>],
    pub(crate) fiq_headers: &'a [Option<Span>],
}

/// How far a run of both has been followed.
#[derive(Drop)]
pub(crate) struct Followers {
    /// By the steps of the interrupted handler alone.
    pub(crate) main: Follower,
    /// By the last visit alone.
    pub(crate) visit: Follower,
    pub(crate) visits: u64,
    /// The processor ticks of all visits, with those of the steps that take FIQ.
    pub(crate) ticks: u128,
}

/// Where a run does not keep both statements, and why.
#[derive(Clone, Copy)]
pub(crate) struct VisitStraying {
    pub(crate) steps: u64,
    pub(crate) at: u32,
    pub(crate) why: VisitUnkept,
}

fn takes_fiq(kind: Kind) -> bool
    ensures { IsTrue result ↔ kind ≡ Taken Fiq }
{
    kind == Kind::Taken(Vector::Fiq)
}

// What a step did, which is made now if it was not.
fn step_of(made: Option<Stepped>, machine: &mut Machine, input: Input) -> Stepped
    ensures step { (s : State) → IsMade s input machine.old made → Step s input result machine.new }
    ensures small { (s : State) → IsMade s input machine.old made → result.ticks < 2 ^ 16 }
{
    match made {
        Some(stepped) => stepped,
        None => machine.step(input),
    }
}

// At the entry again.
fn restart(follower: &mut Follower, exit: usize)
    requires { HasRoom exit follower.old }
    ensures { IsFresh exit follower.new }
{
    follower.number = 0;
    follower.turns.fill(0);
    follower.steps = 0;
    follower.ticks = 0;
    follower.by_place.fill(Passed::NOTHING);
}

// One step of the interrupted handler or one visit, by the input and those after it: how many it takes.
fn advance(
    both: Both<'_>,
    followers: &mut Followers,
    machine: &mut Machine,
    input: Input,
    rest: &[Input],
) -> Result<usize, VisitStraying>
    requires ready { AreReady both }
    requires can { CanAdvance both followers.old machine.old }
    requires few { IsCounted (2 ^ 63) followers.old }
    requires room { length rest.now + 1 < 2 ^ 64 }
    ensures advances { MatchResult result
        (Advances both.entry followers.old machine.old input rest.now machine.new followers.new)
        (HaltsAfter both.entry followers.old machine.old input rest.now machine.new) }
{
    let at = machine.address();
    let main = &mut followers.main;
    let Some(halt) = take_step(both.irq, both.irq_headers, main, machine, input) else {
        return Ok(1);
    };
    let taking = step_of(halt.stepped, machine, input);
    if !takes_fiq(taking.kind) {
        return Err(VisitStraying {
            steps: 0,
            at,
            why: VisitUnkept::InMain(halt.why),
        });
    }
    let visit = &mut followers.visit;
    restart(visit, both.fiq.graph.places().len());
    let strayed = follow_whole(both.fiq, both.fiq_headers, visit, machine, rest);
    if let Some(Straying { steps, at, why }) = strayed {
        return Err(VisitStraying {
            steps: 1 + steps,
            at,
            why: VisitUnkept::InVisit(why),
        });
    }
    let back = machine.address();
    if back != at {
        return Err(VisitStraying {
            steps: 1 + followers.visit.steps,
            at: back,
            why: VisitUnkept::NotBack(at),
        });
    }
    followers.visits += 1;
    followers.ticks += u128::from(taking.ticks) + followers.visit.ticks;
    Ok(1 + followers.visit.steps as usize)
}

// Main steps and visits until the interrupted handler is left.
fn follow_both(
    both: Both<'_>,
    mut followers: Followers,
    machine: &mut Machine,
    inputs: &[Input],
) -> VisitedRun
    requires ready { AreReady both }
    requires begun { IsBegun both followers }
    requires can { CanAdvance both followers machine.old }
    ensures { IsVisitedRun (handled both.entry.irq.now) (handled both.entry.fiq.now) machine.old inputs.now
        machine.new result }
{
    let exit = both.irq.graph.places().len();
    let mut done = 0;
    while done < inputs.len() {
        match advance(
            both,
            &mut followers,
            machine,
            inputs[done],
            &inputs[done + 1..],
        ) {
            Ok(steps) => done += steps,
            Err(VisitStraying { steps, at, why }) => {
                return VisitedRun::Strayed {
                    steps: done as u64 + steps,
                    at,
                    why,
                };
            }
        }
        if followers.main.number == exit {
            return VisitedRun::Kept {
                steps: done as u64,
                ticks: followers.main.ticks + followers.ticks,
                visits: followers.visits,
            };
        }
    }
    VisitedRun::Strayed {
        steps: done as u64,
        at: machine.address(),
        why: VisitUnkept::InMain(Unkept::Unfinished),
    }
}

/// Runs a machine from an interrupt handler's entry until it leaves the handler, a step for each input, and
/// judges each step by the handler's statement, or, from where FIQ is taken until FIQ's handler is left, by
/// that of FIQ's handler.
///
/// `Kept` where the main steps go along a walk of the handler's flow graph from the entry to Exit that keeps
/// the loop bounds, as if there were no visits, and each visit keeps the statement of FIQ's handler and leads
/// back to the interrupted address. `Strayed` where no number of the inputs makes such a run; a step that
/// strays from the interrupted handler is made in any case.
///
/// A main step takes time linear in the edges of its place, and no memory. So does a step of FIQ's handler,
/// but each visit takes time linear in the places of FIQ's graph too. The call takes as much memory as both
/// graphs have places.
///
/// # Errors
///
/// `AllocError` where an allocation failed. The machine is as it was then.
pub fn follow_visited(
    alloc: Global,
    handlers: VisitedHandlers<'_>,
    machine: &mut Machine,
    inputs: &[Input],
) -> Result<VisitedRun, AllocError>
    requires irq { IsHandler handlers.irq.now.image.now handlers.irq.now.statement handlers.irq.now.graph
        handlers.irq.now.tree }
    requires fiq { IsHandler handlers.fiq.now.image.now handlers.fiq.now.statement handlers.fiq.now.graph
        handlers.fiq.now.tree }
    requires prices { handlers.fiq.now.graph.profile ≡ handlers.irq.now.graph.profile }
    requires machine { IsMachineFor handlers.irq.now.graph machine.old }
    ensures followed { IfOk result
        (IsVisitedRun (handled handlers.entry.irq.now) (handled handlers.entry.fiq.now) machine.old inputs.now
        machine.new) }
    ensures refused { IfErr result (λ _. machine.new ≡ machine.old) }
{
    let VisitedHandlers { irq, fiq } = handlers;
    let irq_exit = irq.graph.places().len();
    let fiq_exit = fiq.graph.places().len();
    let irq_headers = headers(alloc, irq.tree.spans(), irq_exit)?;
    let fiq_headers = headers(alloc, fiq.tree.spans(), fiq_exit)?;
    let followers = Followers {
        main: start(alloc, irq_exit)?,
        visit: start(alloc, fiq_exit)?,
        visits: 0,
        ticks: 0,
    };
    let at = machine.address();
    if at != irq.statement.entry() {
        return Ok(VisitedRun::Strayed {
            steps: 0,
            at,
            why: VisitUnkept::InMain(Unkept::NotAtEntry),
        });
    }
    let both = Both {
        irq,
        fiq,
        irq_headers: &irq_headers,
        fiq_headers: &fiq_headers,
    };
    Ok(follow_both(both, followers, machine, inputs))
}
