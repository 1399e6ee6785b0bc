ghost use Rattle.std.specs.Prelude.{◌≡◌, IfOk, length};
ghost use Rattle.kept_runs.specs.Judging.{IsMachineFor};
ghost use Rattle.kept_runs.specs.Keeping.{IsHandler};

use crate::analysis::accepted_on;
use crate::machine::word_in;
use crate::machine_files::input;
use crate::trial::Answer;
use arcwcet::ReportFault;
use arm2_exec::{Input, Machine, Reg};
use bitflags::Flags;
use bus_ticks::Profile;
use ioc::Lines;
use kept_runs::{Followed, VisitedHandlers, VisitedRun, follow, follow_visited};
use loader::{Image, load};
use loop_bounds::Handler;
use memc::PageSize;
use sources::{Source, SourceFile};
use std::alloc::Global;

/// A countdown from 3 at the address of a machine that was reset. It lets FIQ interrupt it, in R15 and in
/// IOC, stores the count, and returns to 0. FIQ's handler masks FIQ in IOC.
pub(crate) const SOURCE: &[u8] = b" ORG 0\n B main\n ORG &1C\n\
    fiq STRB R8,[R1,#&38]\n SUBS PC,R14,#4\n\
    main TEQP PC,#&8000003\n MOV R0,#3\n MOV R1,#&3200000\n STRB R0,[R1,#&38]\n\
    again STR R0,[R2,#&100]\n SUBS R0,R0,#1\nturn BNE again\n MOV PC,R14\n";

/// The statement on it.
pub(crate) const STATEMENT: &[u8] = b"entry = 0\n\
    [[loop]]\nheader = \"again\"\nfirst = \"again\"\nlast = \"turn\"\nbound = 2\n";

/// The statement on FIQ's handler.
pub(crate) const FIQ_STATEMENT: &[u8] = b"entry = \"fiq\"\n";

// The steps until it returns, and their ticks: 18, three rounds of 10, of which the last one is 3 less, and
// 4.
const KEPT: (u64, u128) = (15, 49);

// The same with a visit of FIQ, which takes 5 ticks to begin, 10 to mask it, and 4 to return.
const VISITED: VisitedRun = VisitedRun::Kept {
    steps: 18,
    ticks: 68,
    visits: 1,
};

// R15, the count, and the word where it is stored, before the run and after it.
const BEFORE: [Option<u32>; 3] = [Some(0x0C00_0003), Some(0), Some(0)];

const AFTER: [Option<u32>; 3] = [Some(0x6800_0003), Some(0), Some(1)];

/// A run that is followed: without FIQ, or with a visit of it. The call changes the machine, which is made
/// for each call.
#[derive(Clone, Copy)]
pub(crate) enum FollowCall {
    Alone,
    Visited,
}

fn shown(machine: &Machine) -> [Option<u32>; 3] {
    let registers = [machine.get(Reg::R15), machine.get(Reg::R0)];
    [
        Some(registers[0]),
        Some(registers[1]),
        word_in(machine.memc(), 0x100),
    ]
}

// Without bursts, and one more than the most steps.
fn inputs(lines: Lines) -> [Input; 19] {
    let input = Input { lines, ..input(0) };
    [input; 19]
}

fn is_kept(found: &Followed) -> bool {
    match found {
        Followed::Kept { steps, ticks, .. } => (*steps, *ticks) == KEPT,
        Followed::Strayed { .. } => false,
    }
}

fn machine_of(alloc: Global, image: &Image, profile: Profile) -> Result<Machine, ReportFault>
    ensures registers { IfOk result (λ m. length m.regs ≡ 27) }
    ensures prices { IfOk result (λ m. m.profile ≡ profile) }
{
    let mut machine = Machine::new(alloc, PageSize::K4, profile)?;
    load(alloc, &mut machine, image)?;
    Ok(machine)
}

fn without_visit(alloc: Global, handler: &Handler<'_>, machine: &mut Machine) -> Answer
    requires handler { IsHandler handler.now.image.now handler.now.statement handler.now.graph
        handler.now.tree }
    requires machine { IsMachineFor handler.now.graph machine.old }
{
    match follow(alloc, handler, machine, &inputs(Lines::empty())) {
        Ok(found) => Answer::of(is_kept(&found) && shown(machine) == AFTER),
        Err(_) => Answer::of_refusal(shown(machine) == BEFORE),
    }
}

fn with_visit(alloc: Global, handlers: VisitedHandlers<'_>, machine: &mut Machine) -> Answer
    requires irq { IsHandler handlers.irq.now.image.now handlers.irq.now.statement handlers.irq.now.graph
        handlers.irq.now.tree }
    requires fiq { IsHandler handlers.fiq.now.image.now handlers.fiq.now.statement handlers.fiq.now.graph
        handlers.fiq.now.tree }
    requires prices { handlers.fiq.now.graph.profile ≡ handlers.irq.now.graph.profile }
    requires machine { IsMachineFor handlers.irq.now.graph machine.old }
{
    match follow_visited(alloc, handlers, machine, &inputs(Lines::F0)) {
        Ok(found) => Answer::of(found == VISITED && shown(machine) == AFTER),
        Err(_) => Answer::of_refusal(shown(machine) == BEFORE),
    }
}

impl FollowCall {
    /// Makes the call, and answers what it did. Where it is refused, it compares the machine.
    pub(crate) fn made(self, alloc: Global) -> Result<Answer, ReportFault> {
        let said = Source::read(alloc, SourceFile::plain(SOURCE))?;
        let answer = self.on(alloc, &said);
        drop(said);
        answer
    }

    fn on(self, alloc: Global, said: &Source<'_>) -> Result<Answer, ReportFault> {
        let profile = Profile::one();
        let irq = accepted_on(alloc, said, STATEMENT, &profile)?;
        let mut machine = machine_of(alloc, &said.image, profile)?;
        match self {
            FollowCall::Alone => Ok(without_visit(alloc, &irq, &mut machine)),
            FollowCall::Visited => {
                let fiq = accepted_on(alloc, said, FIQ_STATEMENT, &profile)?;
                let handlers = VisitedHandlers {
                    irq: &irq,
                    fiq: &fiq,
                };
                Ok(with_visit(alloc, handlers, &mut machine))
            }
        }
    }
}
