ghost use Rattle.std.specs.Prelude.{◌≡◌, IfErr};
ghost use Rattle.handlers.specs.Answers.{PrintsOrRefuses};
ghost use Rattle.machine_reports.specs.Vectors.{IsVectorsFault, IsVectorsReport};

use arm2_exec::{Machine, MachineFault};
use bus_ticks::Profile;
use handlers::ReportFault;
use memc::PageSize;
use outputs::Output;
use std::alloc::Global;
use test_vectors::print_vectors;

// A machine with pages of 32 KB, so with RAM below 400000.
fn new_machine(alloc: Global) -> Result<Machine, ReportFault>
    ensures { IfErr result (λ e. e ≡ ReportFault.Memory) }
{
    match Machine::new(alloc, PageSize::K32, Profile::one()) {
        Ok(machine) => Ok(machine),
        Err(MachineFault::Memory) => Err(ReportFault::Memory),
    }
}

/// Prints so many test vectors of a seed, as an array of JSON: each is a step of the machine, with the state
/// before it, the state after it, and its accesses. The answer is yes. It takes memory before it prints, and
/// as much for any number of vectors.
///
/// # Errors
///
/// `Memory`: an allocation failed; nothing was written. `Device`: the output failed, and took a front of the
/// text.
pub fn vectors_report<O: Output>(
    alloc: Global,
    count: u32,
    seed: u32,
    out: &mut O,
) -> Result<bool, ReportFault>
    ensures { PrintsOrRefuses O.taken O.failures (IsVectorsReport count) IsVectorsFault out.old out.new result }
{
    let mut machine = new_machine(alloc)?;
    match print_vectors(out, &mut machine, seed, count) {
        Ok(()) => Ok(true),
        Err(_) => Err(ReportFault::Device),
    }
}
