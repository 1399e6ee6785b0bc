ghost use Rattle.bus_ticks.specs.declared.profile.Profile.{Profile};
ghost use Rattle.responses.specs.Entry.{IrqCostsItsEntry, UnmaskedIsTaken};
ghost use Rattle.responses.specs.Response.{HasService, NoneIsLonger, ResponseLaw};
ghost use Rattle.responses.specs.Visited.{HasVisitedService, VisitedResponseLaw};

use crate::interrupts::Interrupt;

/// Each run that serves an interrupt takes, from the beginning of the step in progress to the end of the
/// handler's first step at the address, at most the sum of its parts, and the price of its DMA bursts more.
/// No step in progress takes more than the longest step of any program. The call does nothing.
pub fn response_law()
    ensures sum { ResponseLaw }
    ensures longest { NoneIsLonger }
{}

/// The same of IRQ where FIQ's handler may visit each step after that in progress: at most so many visits add
/// at most their number times the greatest cost of its handler and FIQ's entry. Under every profile some run
/// serves IRQ with one visit. The call does nothing.
pub fn visited_response_law()
    ensures sum { VisitedResponseLaw }
    ensures some { (profile : Profile) → HasVisitedService profile }
{}

/// The wait for an interrupt ends: a step at whose beginning IOC asks for it and the processor does not hold
/// it back takes it. The call does nothing.
pub fn unmasked_is_taken()
    ensures { UnmaskedIsTaken }
{}

/// What a step costs that takes IRQ, in ticks: the fetch 8 bytes after the interrupted address, and the two
/// at IRQ's vector, by the prices and the time fields of ROM before it. The call does nothing.
pub fn irq_costs_its_entry()
    ensures { IrqCostsItsEntry }
{}

/// States that runs can serve interrupts: under every profile one waits for IRQ, and one for FIQ, and then
/// serves it. So what the law says of such runs is not said of none. The call does nothing.
pub fn some_run_serves()
    ensures { (profile : Profile) → (interrupt : Interrupt) → HasService profile interrupt }
{}
